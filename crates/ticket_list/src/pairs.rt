//! Pairs of a holder and a target, as keys.

/// A holder and a target, by their numbers. Pairs are in order of the holder and then of the target.
#[derive(Clone, Copy, Debug, PartialEq, Eq, PartialOrd, Ord)]
pub struct Pair {
    pub holder: u32,
    pub target: u32,
}
