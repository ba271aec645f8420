//! A pair's tickets as a word: the plain rights in the low 16 bits, the copyable ones in the high 16 bits.
ghost use Rattle.std.specs.Prelude.{◌≡◌, ◌/◌, ◌%◌};
ghost use Rattle.model.specs.Tickets.{tickets_of, with_plain};
ghost use Rattle.cells.specs.Layout.{unpack, Nested};

use model::TicketSet;

// The word of a set. No `From`: neither type is of this crate, and a type of its own for words would be made and opened at each
// use.
pub fn packed(set: TicketSet) -> u32
    ensures word { unpack result ≡ tickets_of set }
    ensures nested { Nested result }
{
    (set.copyable() as u32) << 16 | set.plain() as u32
}

// The set of a word. A copyable right counts as a plain one too.
pub fn unpacked(word: u32) -> TicketSet
    ensures { tickets_of result ≡ with_plain (word % 65536) (word / 65536) }
{
    TicketSet::new((word & 0xffff) as u16, (word >> 16) as u16)
}
