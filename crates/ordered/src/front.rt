//! Entries that stay move to the front of a slice.
ghost use Rattle.std.specs.Prelude.{◌≡◌, ◌≤◌, length, take};
ghost use Rattle.std.specs.List.Retain.{IsFiltered};
ghost use Rattle.ordered.specs.Entries.{AtKey};

use super::entry::Entry;

// Moves the entries whose keys stay to the front, in their order, and counts them. While they move no list is in order,
// so this stands outside of the list. By place: a lent slice has no `retain`.
pub fn retain_in_front<K: Copy, V: Copy, F: Fn(K) -> bool>(
    entries: &mut [Entry<K, V>],
    keeps: F,
) -> usize
    requires { F.IsAlwaysCallable keeps }
    ensures within { result ≤ length entries.old }
    ensures length { length entries.new ≡ length entries.old }
    ensures filtered { IsFiltered (AtKey (F.post keeps)) tt entries.old (take result entries.new) }
{
    let mut stayed = 0;
    for place in 0..entries.len() {
        let entry = entries[place];
        if keeps(entry.key) {
            entries[stayed] = entry;
            stayed += 1;
        }
    }
    stayed
}
