//! The records of a file up to some place.
ghost use Rattle.std.specs.Prelude.{◌≡◌, ◌*◌, ◌<◌, ◌≤◌, length};
ghost use Rattle.scheme_records.specs.Bytes.{blocks};

use super::block::{block_at, count_of, record_bytes};
use super::record::{Record, decode};
use super::walk::Walk;

/// The records in the first places of a file: 15 places to a block.
#[derive(Clone, Copy, Debug)]
pub struct Records<'a> {
    pub(crate) file: &'a [u8],
    pub(crate) places: usize,
    ghost within: { places ≤ 15 * blocks file.now },
}

impl<'a> Records<'a> {
    ghost use Rattle.scheme_records.specs.Listed.{record_at, listed, place_of, all_places};
    ghost use Rattle.scheme_records.specs.Walked.{left};

    /// The records before one of a block.
    pub fn before(file: &'a [u8], block: usize, number: usize) -> Records<'a>
        requires { (block < blocks file.now) × (number ≤ 15) }
        ensures file { result.file.now ≡ file.now }
        ensures places { result.places ≡ place_of block number }
    {
        Records {
            file,
            places: 15 * block + number,
        }
    }

    /// All records of a file.
    pub fn all(file: &'a [u8]) -> Records<'a>
        ensures file { result.file.now ≡ file.now }
        ensures places { result.places ≡ all_places file.now }
    {
        Records {
            file,
            places: 15 * (file.len() / 512),
        }
    }

    /// The records, one after another.
    pub fn iter(self) -> Walk<'a>
        ensures { left result ≡ listed self.entry }
    {
        Walk {
            records: self,
            places: 0..self.places,
        }
    }

    /// The record in a place, if there is one.
    pub(crate) fn at(self, place: usize) -> Option<Record>
        requires { place < self.places }
        ensures { result ≡ record_at self.entry.file.now place }
    {
        let block = block_at(self.file, place / 15);
        if place % 15 < count_of(block) {
            decode(record_bytes(block, place % 15))
        } else {
            None
        }
    }
}
