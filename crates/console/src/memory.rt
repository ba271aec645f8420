//! The memory that is lent to set-ups, anew to each.
ghost use Rattle.std.specs.Prelude.{◌≡◌, ℕ, true, length};
ghost use Rattle.protocol.specs.declared.command.Start.TheVariants as start;

use super::program::Program;
use holdings::MOST_ROWS;
use model::{Entity, TicketSet};
use ordered::Entry;
use std::alloc::{AllocError, Global};
use std::marker::PhantomData;
use ticket_list::{MOST_PLACES, Pair};

// The cells for every pair of rows.
const CELLS: usize = MOST_ROWS * MOST_ROWS;

/// Memory for a program's set-ups of any size that fits. There are places for pairs where it knows a ticket list.
#[derive(Drop)]
pub struct Memory<P: Program> {
    pub(crate) entities: Vec<Entity>,
    pub(crate) cells: Vec<u32>,
    pub(crate) pairs: Vec<Entry<Pair, TicketSet>>,
    pub(crate) program: PhantomData<P>,
    ghost all_entities: { length entities.items ≡ 512 },
    ghost all_cells: { length cells.items ≡ 262144 },
    ghost all_pairs: { (n p : ℕ) → P.knows (start.List n p) ≡ true → length pairs.items ≡ 65535 },
}

impl<P: Program> Memory<P> {
    /// As much as can be lent, or else an error.
    pub fn new(heap: Global, program: &P) -> Result<Memory<P>, AllocError> {
        let unused = Entry {
            key: Pair {
                holder: 0,
                target: 0,
            },
            value: TicketSet::none(),
        };
        Ok(Memory {
            entities: vec![in heap; Entity { number: 0, kind: 0 }; MOST_ROWS]?,
            cells: vec![in heap; 0; CELLS]?,
            pairs: vec![in heap; unused; places(program)]?,
            program: PhantomData,
        })
    }
}

// How many places for pairs are lent: none where the program says that it knows no ticket list.
fn places<P: Program>(program: &P) -> usize
    ensures { (n p : ℕ) → P.knows (start.List n p) ≡ true → result ≡ 65535 }
{
    if program.may_know_lists() {
        MOST_PLACES
    } else {
        0
    }
}
