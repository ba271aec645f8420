//! The list.
ghost use Rattle.std.specs.Prelude.{◌≤◌, length, take};
ghost use Rattle.ordered.specs.Entries.{Rising, Rising-prop};

use super::entry::{Entry, Full};
use super::front::retain_in_front;

/// Keys with values in rising order of the keys, in lent memory.
// The memory is lent, so the entries are counted beside it.
#[derive(Drop)]
pub struct OrderedList<'e, K: Ord + Copy, V: Copy> {
    entries: &'e mut [Entry<K, V>],
    count: usize,
    ghost fits: { count ≤ length entries.now },
    ghost rising: { Rising K.Ord.cmp (take count entries.now) } by { Rising-prop K.Ord.cmp (take count entries.now) },
}

impl<'e, K: Ord + Copy, V: Copy> OrderedList<'e, K, V> {
    ghost use Rattle.std.specs.Prelude.{◌≡◌, ◌↔◌, IsTrue, [], length, is_ok, if◌then◌else◌};
    ghost use Rattle.std.specs.List.Sorted.{IsSearchInRange};
    ghost use Rattle.std.specs.List.Retain.{IsFiltered};
    ghost use Rattle.ordered.specs.Entries.{AtKey, Answers, value_of, put, take_out, keep};
    ghost use Rattle.ordered.specs.Lists.{places, listed, location, has_place};

    /// A list with no entry, whatever the memory held.
    pub fn new(entries: &'e mut [Entry<K, V>]) -> OrderedList<'e, K, V>
        ensures kept { places result ≡ length entries.old }
        ensures listed { listed result ≡ [] }
    {
        OrderedList { entries, count: 0 }
    }

    /// How many places there are.
    pub fn capacity(&self) -> usize
        ensures { result ≡ places self.now }
    {
        self.entries.len()
    }

    /// How many entries there are.
    pub fn len(&self) -> usize
        ensures { result ≡ length (listed self.now) }
    {
        self.count
    }

    /// Whether there is no entry.
    pub fn is_empty(&self) -> bool
        ensures { IsTrue result ↔ (listed self.now ≡ []) }
    {
        self.count == 0
    }

    /// The value of a key, or none where the key is not in the list.
    pub fn find(&self, key: K) -> Option<V>
        ensures { result ≡ value_of K.Ord.cmp (listed self.now) key }
    {
        let place = self.place(key).ok()?;
        Some(self.entries[place].value)
    }

    /// Puts a value under a key, in place of the one that was there. Refused where the key is new and every place is taken.
    pub fn put(&mut self, key: K, value: V) -> Result<(), Full>
        ensures kept { places self.new ≡ places self.old }
        ensures answer { is_ok result ≡ has_place K.Ord.cmp (listed self.old) (places self.old) key }
        ensures listed { listed self.new ≡ (if is_ok result then put K.Ord.cmp (listed self.old) key value else listed self.old) }
    {
        match self.place(key) {
            Ok(place) => self.entries[place] = Entry { key, value },
            Err(place) => {
                if self.count == self.entries.len() {
                    return Err(Full);
                }
                self.entries[self.count] = Entry { key, value };
                self.entries[place..=self.count].rotate_right(1);
                self.count += 1;
            }
        }
        Ok(())
    }

    /// Takes a key out, where it is in the list.
    pub fn remove(&mut self, key: K)
        ensures kept { places self.new ≡ places self.old }
        ensures listed { listed self.new ≡ take_out K.Ord.cmp (listed self.old) key }
    {
        if let Ok(place) = self.place(key) {
            self.entries[place..self.count].rotate_left(1);
            self.count -= 1;
        }
    }

    /// Takes out every key at which `keeps` answers `false`, in one pass.
    pub fn retain<F: Fn(K) -> bool>(&mut self, keeps: F)
        requires { F.IsAlwaysCallable keeps }
        ensures kept { places self.new ≡ places self.old }
        ensures filtered { IsFiltered (AtKey (F.post keeps)) tt (listed self.old) (listed self.new) }
        ensures listed { (test : K → _) → Answers (F.post keeps) test → listed self.new ≡ keep test (listed self.old) }
    {
        self.count = retain_in_front(&mut self.entries[..self.count], keeps);
    }

    /// Takes every entry out.
    pub fn clear(&mut self)
        ensures kept { places self.new ≡ places self.old }
        ensures listed { listed self.new ≡ [] }
    {
        self.count = 0;
    }

    // The entries that there are.
    fn taken(&self) -> &[Entry<K, V>]
        ensures { result.now ≡ listed self.now }
    {
        &self.entries[..self.count]
    }

    // Where a key is, or else where it would go.
    fn place(&self, key: K) -> Result<usize, usize>
        ensures within { IsSearchInRange result self.now.count }
        ensures location { result ≡ location K.Ord.cmp (listed self.now) key }
    {
        self.taken().binary_search_by_key(&key, |entry| entry.key)
    }
}
