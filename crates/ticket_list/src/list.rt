//! The list: rows for entities, and the filled pairs in order.
ghost use Rattle.std.proofs.Props.{props};
ghost use Rattle.ordered.specs.Lists.{listed, places};
ghost use Rattle.ticket_list.specs.Listing.{KeptList};

use super::pairs::Pair;
use holdings::{Holdings, HoldingsMut, Rows};
use model::{Entity, Refusal, TicketSet};
use ordered::{Entry, OrderedList};

/// Holdings with a row for each entity and a place for each filled pair.
#[derive(Drop)]
pub struct TicketList<'r, 'e> {
    rows: Rows<'r>,
    pairs: OrderedList<'e, Pair, TicketSet>,
    ghost kept: { KeptList rows (places pairs) (listed pairs) } by { Prim.hlevel props },
}

impl<'r, 'e> TicketList<'r, 'e> {
    ghost use Rattle.std.specs.Prelude.{◌≡◌, true, length};
    ghost use Rattle.model.specs.State.{new};
    ghost use Rattle.holdings.specs.Rows.{roll};
    ghost use Rattle.ticket_list.specs.Sizes.{fit};
    ghost use Rattle.ticket_list.specs.Listing.{meant, list_room};

    /// A list in which nobody stands, whatever the memory held. Its sizes fit, as `check` says.
    pub fn new(
        entities: &'r mut [Entity],
        entries: &'e mut [Entry<Pair, TicketSet>],
    ) -> TicketList<'r, 'e>
        requires { fit (length entities.old) (length entries.old) ≡ true }
        ensures state { meant (roll result.rows) (listed result.pairs) ≡ new }
        ensures room { list_room result.rows (places result.pairs) ≡ record { rows = length entities.old; pairs = length entries.old } }
    {
        TicketList {
            rows: Rows::new(entities),
            pairs: OrderedList::new(entries),
        }
    }
}

impl<'r, 'e> Holdings for TicketList<'r, 'e> {
    ghost use Rattle.holdings.specs.Rows.{roll};
    ghost use Rattle.ticket_list.specs.Listing.{meant};
    ghost use Rattle.ticket_list.specs.Keeps.{list_orderly};

    ghost meaning = { λ t. meant (roll t.rows) (listed t.pairs) };

    ghost orderly = { λ t. list_orderly t.rows (places t.pairs) (listed t.pairs) t.kept };

    // Handed on to the rows in a line each, as a cell table hands them on: a trait over what has rows would have as many lines.
    fn next_number(&mut self) -> u32 {
        self.rows.next_number()
    }

    fn standing(&mut self) -> usize {
        self.rows.standing()
    }

    fn entity(&mut self, place: usize) -> Option<Entity> {
        self.rows.entity(place)
    }

    fn find(&mut self, number: u32) -> Option<u8> {
        self.rows.kind_of(number)
    }

    fn tickets(&mut self, holder: u32, target: u32) -> TicketSet {
        self.pairs
            .find(Pair { holder, target })
            .unwrap_or_else(TicketSet::none)
    }
}

impl<'r, 'e> HoldingsMut for TicketList<'r, 'e> {
    ghost use Rattle.ticket_list.specs.Listing.{list_room};

    ghost room = { λ t. list_room t.rows (places t.pairs) };

    fn has_row(&mut self) -> Result<(), Refusal> {
        self.rows.has_row()
    }

    fn has_pairs(&mut self, more: usize) -> bool {
        more <= self.pairs.capacity() - self.pairs.len()
    }

    fn add(&mut self, kind: u8) -> Result<u32, Refusal> {
        self.rows.add(kind)
    }

    fn remove(&mut self, number: u32) {
        if let Some(place) = self.rows.find(number) {
            self.pairs
                .retain(|pair| pair.holder != number && pair.target != number);
            self.rows.remove_at(place);
        }
    }

    fn store(&mut self, holder: u32, target: u32, set: TicketSet) -> Result<(), Refusal> {
        if self.rows.kind_of(holder).is_none() || self.rows.kind_of(target).is_none() {
            return Err(Refusal::NotStanding);
        }
        let pair = Pair { holder, target };
        if set.is_empty() {
            self.pairs.remove(pair);
            return Ok(());
        }
        self.pairs.put(pair, set).map_err(|_| Refusal::PairsTaken)
    }

    fn clear(&mut self) {
        self.pairs.clear();
        self.rows.clear();
    }
}
