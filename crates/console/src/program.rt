//! A program: its name, and which commands it knows.
ghost use Rattle.std.specs.Prelude.{◌≡◌, ℕ, Bool, true, List, MatchOption};
ghost use Rattle.protocol.specs.declared.command.Start.{Start};
ghost use Rattle.protocol.specs.declared.command.Start.TheVariants as start;
ghost use Rattle.protocol.specs.Scripts.{words_of};
ghost use Rattle.console.specs.Knowing.{SayNone, Say};

use protocol::{Command, Start, parse};

/// A program over scripts. It knows every command of a set-up and of an open register; of those that start over, it knows
/// some.
pub trait Program {
    /// Its name.
    ghost named: { List ℕ };

    /// Which of the commands that start over it knows.
    ghost knows: { Start → Bool };

    /// Its name, as its texts say it.
    fn name(&self) -> &'static str
        ensures { result.now ≡ named };

    /// Whether it knows a command that starts over.
    fn knows(&self, start: Start) -> bool
        ensures { result ≡ knows start.entry };

    /// Whether it knows the smallest ticket list: where it knows lists of every size or of none, whether it knows any.
    fn knows_lists(&self) -> bool
        ensures { result ≡ knows (start.List 1 1) }
    {
        self.knows(Start::List { rows: 1, pairs: 1 })
    }

    /// Whether it may know ticket lists: true, unless a program says that it knows none of any size. One that says so is lent no places for pairs.
    fn may_know_lists(&self) -> bool
        ensures { (n p : ℕ) → knows (start.List n p) ≡ true → result ≡ true }
    {
        true
    }
}

/// A program that knows ticket lists of every size, or of none.
pub trait ListsAllOrNone: Program {
    ghost all_or_none: { (n p m q : ℕ) → Self.knows (start.List n p) ≡ Self.knows (start.List m q) };
}

/// The command that a line says, or none where it says none that the program knows.
pub fn read<'a, P: Program>(line: &'a str, program: &P) -> Option<Command<'a>>
    ensures { MatchOption result (SayNone P.knows (words_of line.now)) (Say P.knows (words_of line.now)) }
{
    parse(line).filter(|command| match command {
        Command::Start(start) => program.knows(*start),
        Command::Entry(_) | Command::Call(_) | Command::Show => true,
    })
}
