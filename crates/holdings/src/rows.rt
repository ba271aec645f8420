//! Rows for entities in lent memory: who stands, in number order, and the next number. Every kind of holdings keeps its
//! entities so, whatever way it keeps tickets.
ghost use Rattle.holdings.specs.Filing.{Filed, Rising-prop};
ghost use Rattle.std.proofs.Props.{props};

use model::{Entity, Refusal};

/// Holdings have from 1 row to this many.
pub const MOST_ROWS: usize = 512;

// An entity's number is at most this.
const LAST_NUMBER: u32 = 999_999;

/// The standing entities in number order, in lent memory, and the next number.
#[derive(Drop)]
pub struct Rows<'r> {
    // The memory is lent, and no heap may be used: so a slice, and how much of it is taken.
    entities: &'r mut [Entity],
    count: usize,
    next: u32,
    ghost order: { Filed entities.now count next } by { Prim.hlevel (props, Rising-prop) },
}

impl<'r> Rows<'r> {
    ghost use Rattle.std.specs.Prelude.{◌≡◌, length};
    ghost use Rattle.std.specs.List.{slice_get};
    ghost use Rattle.model.specs.Refusals.{told};
    ghost use Rattle.model.specs.State.{kind_in, new, added};
    ghost use Rattle.model.specs.Calls.{add_answer, after, passed, row_checks};
    ghost use Rattle.holdings.specs.Rows.{roll, row_room, size, in_rows, place_of, remove_at};

    /// Rows in which nobody stands, whatever the memory held.
    pub fn new(entities: &'r mut [Entity]) -> Rows<'r>
        ensures kept { size result ≡ length entities.old }
        ensures state { roll result ≡ new }
    {
        Rows {
            entities,
            count: 0,
            next: 1,
        }
    }

    /// How many rows there are.
    pub fn capacity(&self) -> usize
        ensures { result ≡ size self.now }
    {
        self.entities.len()
    }

    /// The next number.
    pub fn next_number(&self) -> u32
        ensures { result ≡ self.now.next }
    {
        self.next
    }

    /// How many entities stand.
    pub fn standing(&self) -> usize
        ensures { result ≡ length (in_rows self.now) }
    {
        self.count
    }

    // Those that stand.
    fn taken(&self) -> &[Entity]
        ensures { result.now ≡ in_rows self.now }
    {
        &self.entities[..self.count]
    }

    /// The standing entity at a place, counted from 0 in number order, or none past the last.
    pub fn entity(&self, place: usize) -> Option<Entity>
        ensures { result ≡ slice_get (in_rows self.now) place }
    {
        self.taken().get(place).copied()
    }

    /// The place of the entity with a number, or none where it does not stand. Numbers rise along the rows, so that the
    /// search is the slice's.
    pub fn find(&self, number: u32) -> Option<usize>
        ensures { result ≡ place_of (in_rows self.now) number }
    {
        self.taken()
            .binary_search_by_key(&number, |entity| entity.number)
            .ok()
    }

    /// The kind of the entity with a number, or none where it does not stand.
    pub fn kind_of(&self, number: u32) -> Option<u8>
        ensures { result ≡ kind_in (in_rows self.now) number }
    {
        let place = self.find(number)?;
        let entity = self.entity(place)?;
        Some(entity.kind)
    }

    /// Whether there is a row and a number for one entity more. Refused where all rows are taken, and then where the
    /// next number is above 999,999.
    pub fn has_row(&self) -> Result<(), Refusal>
        ensures { told result ≡ passed (row_checks (row_room (size self.now)) (roll self.now)) }
    {
        if self.count >= self.capacity() {
            return Err(Refusal::RowsTaken);
        }
        if self.next > LAST_NUMBER {
            return Err(Refusal::NumbersSpent);
        }
        Ok(())
    }

    /// Adds an entity, which takes the next number and moves it up by one. Refused as `has_row` says.
    pub fn add(&mut self, kind: u8) -> Result<u32, Refusal>
        ensures kept { size self.new ≡ size self.old }
        ensures answer { told result ≡ add_answer (row_room (size self.old)) (roll self.old) }
        ensures state { roll self.new ≡ after (told result) (added (roll self.old) kind) (roll self.old) }
    {
        self.has_row()?;
        let count = self.count;
        let number = self.next;
        self.entities[count] = Entity { number, kind };
        self.count = count + 1;
        self.next = number + 1;
        Ok(number)
    }

    /// Takes out the entity at a place: those after it move up, and the next number stays. Nothing moves past the last.
    pub fn remove_at(&mut self, place: usize)
        ensures kept { size self.new ≡ size self.old }
        ensures next { self.new.next ≡ self.old.next }
        ensures left { in_rows self.new ≡ remove_at (in_rows self.old) place }
    {
        let count = self.count;
        if place >= count {
            return;
        }
        self.entities.copy_within(place + 1..count, place);
        self.count = count - 1;
    }

    /// Takes everybody out: the next number is 1.
    pub fn clear(&mut self)
        ensures kept { size self.new ≡ size self.old }
        ensures state { roll self.new ≡ new }
    {
        self.count = 0;
        self.next = 1;
    }
}
