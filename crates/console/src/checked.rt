//! A scheme file that passed the check, in memory of its own.
ghost use Rattle.std.specs.Prelude.{◌≡◌, false, Some, is_some, MatchResult};
ghost use Rattle.scheme_file.specs.Checks.{fault_of};
ghost use Rattle.scheme_file.specs.Faults.{numbers};

use scheme_file::{FileFault, check};

/// The bytes of a scheme file that passed the check.
// Owned, where `SchemeFile` borrows them: a session keeps a file, and lends it to each set-up.
#[derive(Drop)]
pub struct CheckedFile {
    pub(crate) bytes: Vec<u8>,
    ghost sound: { is_some (fault_of bytes.items) ≡ false },
}

/// The file with these bytes, or its fault.
impl TryFrom<Vec<u8>> for CheckedFile {
    type Error = FileFault;

    ghost try_from_gives = { λ bytes result. MatchResult result (λ f. f.bytes.items ≡ bytes.items) (λ e. fault_of bytes.items ≡ Some (numbers e)) };

    fn try_from(value: Vec<u8>) -> Result<CheckedFile, FileFault> {
        check(value.as_slice())?;
        Ok(CheckedFile { bytes: value })
    }
}
