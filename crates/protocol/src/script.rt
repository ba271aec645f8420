//! A script, line by line.
ghost use Rattle.std.specs.Prelude.{◌≡◌};
ghost use Rattle.std.specs.Iterator.{at_most};
ghost use Rattle.protocol.specs.Scripts.{unread, left_of, said, ReadsOn};

use std::str::Lines;

/// A script, as far as it has not been read.
#[derive(Drop)]
pub struct Script<'a> {
    lines: Lines<'a>,
}

impl<'a> Script<'a> {
    /// The script with this text.
    pub fn new(text: &'a str) -> Script<'a>
        ensures { unread result ≡ text.now }
    {
        Script {
            lines: text.lines(),
        }
    }
}

/// The lines that say something, each with its comment.
impl<'a> Iterator for Script<'a> {
    type Item = &'a str;

    ghost next_gives = { ReadsOn };

    ghost remaining = { λ s. at_most (left_of s) };

    fn next(&mut self) -> Option<&'a str> {
        let line = self.lines.find(|line| says_something(line))?;
        Some(line.trim_ascii())
    }
}

// Whether a line says anything before its comment.
fn says_something(line: &str) -> bool {
    !without_comment(line).trim_ascii().is_empty()
}

/// A line up to its comment, which `#` starts.
pub fn without_comment(line: &str) -> &str
    ensures { result.now ≡ said line.now }
{
    line.split_once('#').map_or(line, |(said, _)| said)
}
