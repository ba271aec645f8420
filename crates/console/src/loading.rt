//! Reading scheme files.
ghost use Rattle.std.specs.Prelude.{◌≡◌, ◌*◌, Some, MatchResult};
ghost use Rattle.scheme_file.specs.Faults.{Fault};
ghost use Rattle.scheme_file.specs.Checks.{fault_of};
ghost use Rattle.protocol.specs.Answers.{line, fault_line};
ghost use Rattle.console.specs.Going.{FileRefused};

use super::checked::CheckedFile;
use protocol::Answer;
use std::alloc::AllocGlobal;
use std::fs;
use std::rt::Files;

/// The scheme file at a path, or the answer where it cannot be read or is faulty.
pub fn load<R: Files + AllocGlobal>(rt: &R, path: &str) -> Result<CheckedFile, Answer>
    ensures { MatchResult result (λ _. Unit {0}) (λ a. FileRefused (line a)) }
{
    let bytes = fs::read(rt, path).map_err(|_| Answer::Error)?;
    checked(bytes)
}

// The scheme file with these bytes, or the answer that tells its fault.
fn checked(bytes: Vec<u8>) -> Result<CheckedFile, Answer>
    ensures { MatchResult result (λ f. f.bytes.items ≡ bytes.items) (λ a. (f : Fault) × (fault_of bytes.items ≡ Some f) × (line a ≡ fault_line f)) }
{
    Ok(CheckedFile::try_from(bytes)?)
}
