//! A walk over records, place by place.
ghost use Rattle.std.specs.Prelude.{◌-◌, ◌≤◌};
ghost use Rattle.std.specs.Iterator.{YieldsFirst, at_most};

use super::record::Record;
use super::records::Records;
use std::ops::Range;

/// The records in some places, one after another.
#[derive(Debug, Drop)]
pub struct Walk<'a> {
    pub(crate) records: Records<'a>,
    pub(crate) places: Range<usize>,
    ghost within: { places.end ≤ records.places },
}

impl Iterator for Walk<'_> {
    ghost use Rattle.scheme_records.specs.Walked.{left};

    type Item = Record;

    ghost next_gives = { YieldsFirst left };

    ghost remaining = { λ walk. at_most (walk.places.end - walk.places.start) };

    fn next(&mut self) -> Option<Record> {
        // A loop: `find_map` over the places was tried, and its proof did not close.
        while let Some(place) = self.places.next() {
            let found = self.records.at(place);
            if found.is_some() {
                return found;
            }
        }
        None
    }
}
