//! Holdings: who stands, and who holds which tickets. A trait to read them and one to change them. What every implementation
//! of either has to mean stands in its ghost members, and what it keeps true of itself in its type.
#![tactic(auto)]

ghost use Rattle.std.specs.Prelude.{◌≡◌, ◌+◌, length, nat_le};
ghost use Rattle.model.specs.Refusals.{told};
ghost use Rattle.model.specs.Tickets.{tickets_of};
ghost use Rattle.model.specs.State.{State, Room, kind_of, new, added, stored, removed, filled};
ghost use Rattle.model.specs.Calls.{add_answer, store_answer, after, passed, row_checks};
ghost use Rattle.model.specs.Laws.{Orderly};
ghost use Rattle.std.specs.List.{slice_get};

use model::{Entity, Refusal, TicketSet};

mod filling;
mod rows;

pub use filling::filled_pairs;
pub use rows::{MOST_ROWS, Rows};

/// Holdings that can be read. Every question takes the holdings for writing, so that an implementation may move
/// within its memory, and promises that nothing has moved when it answers.
// For writing, by a rule of the project: so `same` stands at every question, and at all that asks one. A holder and a target are two
// numbers of two roles, named at each call; as one value they are a key, which only a list needs.
pub trait Holdings {
    /// What the holdings mean.
    ghost meaning: { Self → State };

    /// Numbers rise, and only standing entities are holders and targets: of every value.
    ghost orderly: { (x : Self) → Orderly (meaning x) };

    /// The next number.
    fn next_number(&mut self) -> u32
        ensures same { self.new ≡ self.old }
        ensures value { result ≡ (meaning self.old).next };

    /// How many entities stand.
    fn standing(&mut self) -> usize
        ensures same { self.new ≡ self.old }
        ensures value { result ≡ length (meaning self.old).entities };

    /// The standing entity at a place, counted from 0 in number order, or none past the last.
    fn entity(&mut self, place: usize) -> Option<Entity>
        ensures same { self.new ≡ self.old }
        ensures value { result ≡ slice_get (meaning self.old).entities place };

    /// The kind of the entity with a number, or none where it does not stand.
    fn find(&mut self, number: u32) -> Option<u8>
        ensures same { self.new ≡ self.old }
        ensures value { result ≡ kind_of (meaning self.old) number };

    /// What a holder has for a target: nothing where one of the two does not stand.
    fn tickets(&mut self, holder: u32, target: u32) -> TicketSet
        ensures same { self.new ≡ self.old }
        ensures value { tickets_of result ≡ (meaning self.old).tickets holder target };
}

/// Holdings that can be changed: a number of rows for entities, and of pairs of holder and target.
pub trait HoldingsMut: Holdings {
    /// How many rows and pairs there are.
    ghost room: { Self → Room };

    /// Whether there is a row and a number for one entity more. Refused where all rows are taken, and then where the
    /// next number is above 999,999.
    fn has_row(&mut self) -> Result<(), Refusal>
        ensures same { self.new ≡ self.old }
        ensures answer { told result ≡ passed (row_checks (room self.old) (Self.Holdings.meaning self.old)) };

    /// Whether so many pairs more can be filled.
    fn has_pairs(&mut self, more: usize) -> bool
        ensures same { self.new ≡ self.old }
        ensures answer { result ≡ nat_le (filled (Self.Holdings.meaning self.old) + more) (room self.old).pairs };

    /// Adds an entity, which takes the next number and moves it up by one. Refused as `has_row` says.
    fn add(&mut self, kind: u8) -> Result<u32, Refusal>
        ensures room { room self.new ≡ room self.old }
        ensures answer { told result ≡ add_answer (room self.old) (Self.Holdings.meaning self.old) }
        ensures state { Self.Holdings.meaning self.new ≡ after (told result) (added (Self.Holdings.meaning self.old) kind) (Self.Holdings.meaning self.old) };

    /// Removes an entity, all that it holds and all tickets for it; the next number stays. Nothing moves where the
    /// entity does not stand.
    fn remove(&mut self, number: u32)
        ensures room { room self.new ≡ room self.old }
        ensures state { Self.Holdings.meaning self.new ≡ removed (Self.Holdings.meaning self.old) number };

    /// Puts a set in a pair's place. Refused where holder or target does not stand, and then exactly where the pair is
    /// empty, the set is not, and all pairs are filled.
    fn store(&mut self, holder: u32, target: u32, set: TicketSet) -> Result<(), Refusal>
        ensures room { room self.new ≡ room self.old }
        ensures answer { told result ≡ store_answer (room self.old) (Self.Holdings.meaning self.old) holder target (tickets_of set) }
        ensures state { Self.Holdings.meaning self.new ≡ after (told result) (stored (Self.Holdings.meaning self.old) holder target (tickets_of set)) (Self.Holdings.meaning self.old) };

    /// Takes everything out: no entity stands, and the next number is 1.
    fn clear(&mut self)
        ensures room { room self.new ≡ room self.old }
        ensures state { Self.Holdings.meaning self.new ≡ new };
}
