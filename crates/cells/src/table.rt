//! The table: rows for entities, and a cell for every pair of rows.
ghost use Rattle.std.specs.Prelude.{◌≡◌, ℕ, ◌*◌, ◌<◌, ◌≤◌, true, length, IfSome, slice_index};
ghost use Rattle.std.proofs.Props.{props};
ghost use Rattle.model.specs.State.{new};
ghost use Rattle.holdings.specs.Rows.{size, in_rows, roll};
ghost use Rattle.cells.specs.Layout.{fit, square, cell_of, meant, Laid};
ghost use Rattle.cells.specs.Keeps.{laid_orderly};

use super::squeeze::squeeze;
use super::words::{packed, unpacked};
use holdings::{Holdings, HoldingsMut, Rows, filled_pairs};
use model::{Entity, Refusal, TicketSet};

/// Holdings with a row for each entity and a cell for each pair of rows.
#[derive(Drop)]
pub struct CellTable<'r, 'c> {
    rows: Rows<'r>,
    cells: &'c mut [u32],
    ghost laid: { Laid rows cells.now } by { Prim.hlevel props },
}

impl<'r, 'c> CellTable<'r, 'c> {
    /// A table in which nobody stands, whatever the memory held. Its sizes fit, as `check` says.
    pub fn new(entities: &'r mut [Entity], cells: &'c mut [u32]) -> CellTable<'r, 'c>
        requires { fit (length entities.old) (length cells.old) ≡ true }
        ensures state { meant (roll result.rows) (size result.rows) result.cells.now ≡ new }
        ensures room { square (size result.rows) ≡ square (length entities.old) }
    {
        cells.fill(0);
        CellTable {
            rows: Rows::new(entities),
            cells,
        }
    }

    // The cell of a pair, where holder and target stand.
    fn cell(&self, holder: u32, target: u32) -> Option<usize>
        ensures cell { result ≡ cell_of (in_rows self.now.rows) (size self.now.rows) holder target }
        ensures within { IfSome result (λ k. k < length self.now.cells.now) }
    {
        let row = self.rows.find(holder)?;
        let column = self.rows.find(target)?;
        Some(row * self.rows.capacity() + column)
    }
}

// How many pairs so many entities make.
fn pairs_of(count: usize) -> usize
    requires { count ≤ 512 }
    ensures { result ≡ count * count }
{
    count * count
}

impl<'r, 'c> Holdings for CellTable<'r, 'c> {
    ghost meaning = { λ t. meant (roll t.rows) (size t.rows) t.cells.now };

    ghost orderly = { λ t. laid_orderly t.rows t.cells.now t.laid };

    // Handed on to the rows in a line each, as a ticket list hands them on: a trait over what has rows would have as many lines.
    fn next_number(&mut self) -> u32 {
        self.rows.next_number()
    }

    fn standing(&mut self) -> usize {
        self.rows.standing()
    }

    fn entity(&mut self, place: usize) -> Option<Entity> {
        self.rows.entity(place)
    }

    fn find(&mut self, number: u32) -> Option<u8> {
        self.rows.kind_of(number)
    }

    fn tickets(&mut self, holder: u32, target: u32) -> TicketSet {
        match self.cell(holder, target) {
            Some(cell) => unpacked(self.cells[cell]),
            None => TicketSet::none(),
        }
    }
}

impl<'r, 'c> HoldingsMut for CellTable<'r, 'c> {
    ghost room = { λ t. square (size t.rows) };

    fn has_row(&mut self) -> Result<(), Refusal> {
        self.rows.has_row()
    }

    // The pairs are counted only where those that stand might fill too many.
    fn has_pairs(&mut self, more: usize) -> bool {
        let pairs = pairs_of(self.rows.capacity());
        more <= pairs - pairs_of(self.rows.standing()) || more <= pairs - filled_pairs(self)
    }

    fn add(&mut self, kind: u8) -> Result<u32, Refusal> {
        self.rows.add(kind)
    }

    fn remove(&mut self, number: u32) {
        if let Some(place) = self.rows.find(number) {
            let n = self.rows.capacity();
            let count = self.rows.standing();
            squeeze(&mut *self.cells, n, place, count);
            self.rows.remove_at(place);
        }
    }

    fn store(&mut self, holder: u32, target: u32, set: TicketSet) -> Result<(), Refusal> {
        let Some(cell) = self.cell(holder, target) else {
            return Err(Refusal::NotStanding);
        };
        self.cells[cell] = packed(set);
        Ok(())
    }

    fn clear(&mut self) {
        self.cells.fill(0);
        self.rows.clear();
    }
}
