//! A scheme file that passed the check.
ghost use Rattle.std.specs.Prelude.{◌≡◌, false, is_some};
ghost use Rattle.scheme_file.specs.Checks.{fault_of};

/// The bytes of a scheme file that passed the check. They are borrowed, and nothing of them is copied.
#[derive(Clone, Copy, Debug)]
pub struct SchemeFile<'a> {
    pub(crate) bytes: &'a [u8],
    ghost sound: { is_some (fault_of bytes.now) ≡ false },
}
