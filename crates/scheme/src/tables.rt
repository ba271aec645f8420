//! Constant tables of tickets under a key, and the one lookup in them.
ghost use Rattle.std.specs.Prelude.{◌≡◌};
ghost use Rattle.model.specs.Tickets.{tickets_of};
ghost use Rattle.scheme.specs.Tables.{looked_up, tickets_in};

use model::{StoredSet, TicketSet};

/// The tickets under a key.
pub struct Entry<K> {
    pub key: K,
    pub set: StoredSet,
}

/// The tickets of the first entry with this key, and none where there is no such entry.
pub fn look_up<K: PartialEq>(table: &[Entry<K>], key: &K) -> TicketSet
    ensures { tickets_of result ≡ looked_up (λ e. K.PartialEq.eq e.key key.now) (λ e. tickets_in e.set) table.now }
{
    table
        .iter()
        .find(|entry| entry.key == *key)
        .map_or(TicketSet::none(), |entry| entry.set.into())
}
