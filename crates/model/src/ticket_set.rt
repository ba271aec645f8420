//! Making ticket sets, asking them and joining them.
ghost use Rattle.std.specs.Prelude.{◌≡◌, if◌then◌else◌, nat_lt};
ghost use Rattle.model.specs.Calls.{without_right};
ghost use Rattle.model.specs.Tickets.{tickets_of, none, empty, has, ticket_of, join, with_plain};

use super::tickets::{StoredSet, Ticket, TicketSet};

/// A copyable right counts as a plain one too.
impl From<StoredSet> for TicketSet {
    ghost from_gives = { λ m s. tickets_of s ≡ with_plain m.plain m.copyable };

    fn from(value: StoredSet) -> TicketSet {
        TicketSet::new(value.plain, value.copyable)
    }
}

impl TicketSet {
    /// The set with these masks. A copyable right counts as a plain one too.
    pub fn new(plain: u16, copyable: u16) -> TicketSet
        ensures { tickets_of result ≡ with_plain plain copyable }
    {
        TicketSet {
            plain: plain | copyable,
            copyable,
        }
    }

    /// The empty set.
    pub fn none() -> TicketSet
        ensures { tickets_of result ≡ none }
    {
        TicketSet::new(0, 0)
    }

    /// The set of one ticket; with the copy flag the plain ticket is in it too. No mask has a right above 15:
    /// the set is then empty.
    pub fn of(ticket: Ticket) -> TicketSet
        ensures { tickets_of result ≡ (if nat_lt ticket.right 16 then ticket_of ticket.right ticket.copy else none) }
    {
        if ticket.right >= 16 {
            return TicketSet::none();
        }
        let right = 1u16 << ticket.right;
        if ticket.copy {
            TicketSet::new(right, right)
        } else {
            TicketSet::new(right, 0)
        }
    }

    /// Whether the set has no ticket.
    pub fn is_empty(self) -> bool
        ensures { result ≡ empty (tickets_of self) }
    {
        self.plain == 0 && self.copyable == 0
    }

    /// Whether the set has this ticket.
    pub fn has(self, ticket: Ticket) -> bool
        ensures { result ≡ has (tickets_of self) ticket.right ticket.copy }
    {
        let mask = if ticket.copy {
            self.copyable
        } else {
            self.plain
        };
        ticket.right < 16 && (mask >> ticket.right) % 2 == 1
    }

    /// All tickets of both sets.
    pub fn join(self, other: TicketSet) -> TicketSet
        ensures { tickets_of result ≡ join (tickets_of self) (tickets_of other) }
    {
        TicketSet::new(self.plain | other.plain, self.copyable | other.copyable)
    }

    /// The set without a right, plain and copyable.
    pub fn without(self, right: u8) -> TicketSet
        ensures { tickets_of result ≡ without_right (tickets_of self) right }
    {
        if right >= 16 {
            return self;
        }
        let others = !(1u16 << right);
        TicketSet::new(self.plain & others, self.copyable & others)
    }
}
