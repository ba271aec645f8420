//! Entities, tickets, and sets of tickets.
ghost use Rattle.std.specs.Prelude.{◌≡◌, bit_or};

/// An entity: its number, from 1 to 999,999, and its type, which code calls its kind.
#[derive(Clone, Copy, Debug, PartialEq, Eq)]
pub struct Entity {
    pub number: u32,
    pub kind: u8,
}

/// A ticket without the entity that it is for: a right, and whether the copy flag is set.
#[derive(Clone, Copy, Debug, PartialEq, Eq)]
pub struct Ticket {
    pub right: u8,
    pub copy: bool,
}

/// A ticket set as a table or a file stores it. Nothing keeps its copyable mask within the plain one.
#[derive(Clone, Copy, Debug, PartialEq, Eq)]
pub struct StoredSet {
    pub plain: u16,
    pub copyable: u16,
}

/// What one holder has for one target: a mask of plain rights and, within it, a mask of copyable ones.
/// Bit `k` of a mask stands for right `k`.
#[derive(Clone, Copy, Debug, PartialEq, Eq)]
pub struct TicketSet {
    pub(crate) plain: u16,
    pub(crate) copyable: u16,
    ghost nested: { bit_or plain copyable ≡ plain },
}

impl TicketSet {
    /// The mask of the plain rights.
    pub fn plain(self) -> u16
        ensures { result ≡ self.plain }
    {
        self.plain
    }

    /// The mask of the copyable rights.
    pub fn copyable(self) -> u16
        ensures { result ≡ self.copyable }
    {
        self.copyable
    }
}
