//! The tests of a record against those before it, and of a block by itself.
ghost use Rattle.std.specs.Prelude.{◌≡◌, ◌^◌, ◌<◌, Bool, length, nat_lt};
ghost use Rattle.scheme_records.specs.Listed.{listed};
ghost use Rattle.scheme_records.specs.Said.{said};
ghost use Rattle.scheme_file.specs.Checks.{all_zero, set_fits, sets_fit, is_empty, second_fits, fields_fit, unused_zero, nested, tag_passes, field_passes, key_passes, copy_passes, gift_passes, length_passes, check_passes, number_passes, count_passes};

use model::{Sight, StoredSet};
use scheme_records::{
    Record, Records, RuleSets, are_within, block_check, count_of, is_within, word_at,
};

// Whether all bytes are zero.
fn are_zero(bytes: &[u8]) -> bool
    ensures { result ≡ all_zero bytes.now }
{
    bytes.iter().all(|byte| *byte == 0)
}

// Whether a mask has only rights below a number.
fn is_below(mask: u16, rights: usize) -> bool
    ensures { result ≡ nat_lt mask (2 ^ rights) }
{
    rights >= 16 || mask >> rights == 0
}

// Whether a set has only rights that are declared.
fn set_fits(before: Records, set: StoredSet) -> bool
    ensures { result ≡ set_fits (said (listed before.entry)) set }
{
    let rights = before.rights();
    is_below(set.plain, rights) && is_below(set.copyable, rights)
}

fn sets_fit(before: Records, sets: RuleSets) -> bool
    ensures { result ≡ sets_fit (said (listed before.entry)) sets }
{
    sets.to_array().iter().all(|set| set_fits(before, *set))
}

fn is_empty(set: StoredSet) -> bool
    ensures { result ≡ is_empty set }
{
    set.plain == 0 && set.copyable == 0
}

// Whether a second parent is a subject, or its sets are empty where there is none.
fn second_fits(before: Records, second: Option<u8>, sets: RuleSets) -> bool
    ensures { result ≡ second_fits (said (listed before.entry)) second sets }
{
    match second {
        Some(kind) => before.is_subject(kind),
        None => sets.second.to_array().iter().all(|set| is_empty(*set)),
    }
}

// Whether each field is as its tag says, and what it names is declared.
fn fields_fit(before: Records, found: Record) -> bool
    ensures { result ≡ fields_fit (listed before.entry) (said (listed before.entry)) found }
{
    match found {
        Record::Kind { number, .. } => number < 16 && usize::from(number) == before.kinds(),
        Record::Right { number, .. } => number < 16 && usize::from(number) == before.rights(),
        Record::Alternative { link, needs } => {
            let control = before.control();
            link < 8
                && are_within(
                    needs,
                    Sight {
                        xx: control,
                        xy: control,
                        yx: control,
                        yy: control,
                    },
                )
        }
        Record::Filter { key, set } => {
            before.declares_link(key.link)
                && before.is_subject(key.giver)
                && before.is_subject(key.taker)
                && usize::from(key.target) < before.kinds()
                && set_fits(before, set)
        }
        Record::Demand { key, set } => {
            before.is_subject(key.demander)
                && usize::from(key.target) < before.kinds()
                && set_fits(before, set)
        }
        Record::Rule { key, sets } => {
            before.is_subject(key.first)
                && second_fits(before, key.second, sets)
                && usize::from(key.child) < before.kinds()
                && sets_fit(before, sets)
        }
    }
}

// Whether a flag is 0 or 1, and the bytes that a record does not use are zero.
fn unused_zero(found: Record, bytes: &[u8]) -> bool
    requires { length bytes.now ≡ 32 }
    ensures { result ≡ unused_zero found bytes.now }
{
    match found {
        Record::Kind { .. } | Record::Right { .. } => bytes[2] < 2 && are_zero(&bytes[3..32]),
        Record::Alternative { .. } => are_zero(&bytes[2..4]) && are_zero(&bytes[12..32]),
        Record::Filter { .. } => are_zero(&bytes[5..8]) && are_zero(&bytes[12..32]),
        Record::Demand { .. } => {
            bytes[1] == 0 && bytes[3] == 0 && are_zero(&bytes[5..8]) && are_zero(&bytes[12..32])
        }
        Record::Rule { .. } => true,
    }
}

fn is_nested(set: StoredSet) -> bool
    ensures { result ≡ nested set }
{
    is_within(set.copyable, set.plain)
}

/// Whether no record before has a higher tag.
#[tactic(auto, unfolding(crate::specs::Checks::tag_passes))]
pub fn tag_passes(before: Records, found: Record) -> bool
    ensures { result ≡ tag_passes (listed before.entry) found }
{
    !before.has_tag_above(found.tag() as u8)
}

/// Whether fields, masks and unused bytes are as they should.
#[tactic(auto, unfolding(crate::specs::Checks::field_passes))]
pub fn field_passes(before: Records, bytes: &[u8], found: Record) -> bool
    requires { length bytes.now ≡ 32 }
    ensures { result ≡ field_passes (listed before.entry) bytes.now found }
{
    fields_fit(before, found) && unused_zero(found, bytes)
}

/// Whether no record before has the same key.
#[tactic(auto, unfolding(crate::specs::Checks::key_passes))]
pub fn key_passes(before: Records, found: Record) -> bool
    ensures { result ≡ key_passes (listed before.entry) found }
{
    !before.has_key_of(&found)
}

/// Whether each copyable mask is within its plain one.
#[tactic(auto, unfolding(crate::specs::Checks::copy_passes))]
pub fn copy_passes(found: Record) -> bool
    ensures { result ≡ copy_passes found }
{
    match found {
        Record::Filter { set, .. } | Record::Demand { set, .. } => is_nested(set),
        Record::Rule { sets, .. } => sets.to_array().iter().all(|set| is_nested(*set)),
        _ => true,
    }
}

/// Whether a child that is an object is given nothing.
#[tactic(auto, unfolding(crate::specs::Checks::gift_passes))]
pub fn gift_passes(before: Records, found: Record) -> bool
    ensures { result ≡ gift_passes (listed before.entry) found }
{
    match found {
        Record::Rule { key, sets } => {
            before.is_subject(key.child) || sets.of_child().iter().all(|set| is_empty(*set))
        }
        _ => true,
    }
}

/// Whether a file is of 1 to 128 whole blocks.
pub fn length_passes(file: &[u8]) -> bool
    ensures { result ≡ length_passes file.now }
{
    file.len() % 512 == 0 && (1..=128).contains(&(file.len() / 512))
}

/// Whether a block's check matches its bytes.
pub fn check_passes(block: &[u8]) -> bool
    requires { length block.now ≡ 512 }
    ensures { result ≡ check_passes block.now }
{
    // Joined by hand: `u32::from_be_bytes` was tried, and its proof did not close.
    let stored = u32::from(word_at(block, 508)) * 65536 + u32::from(word_at(block, 510));
    block_check(word_at(block, 0), &block[0..508]) == stored
}

/// Whether a block has its number, and the last of n its mark.
pub fn number_passes(block: &[u8], number: u8, n: u8) -> bool
    requires { (length block.now ≡ 512) × (number < n) }
    ensures { result ≡ number_passes block.now number n }
{
    let mark = u8::from(number + 1 == n);
    word_at(block, 0) == u16::from(number) && block[3] == mark
}

/// Whether a block has at most 15 records, and zeros after them.
pub fn count_passes(block: &[u8]) -> bool
    requires { length block.now ≡ 512 }
    ensures { result ≡ count_passes block.now }
{
    let end = 32 * count_of(block) + 4;
    block[2] <= 15 && are_zero(&block[end..508])
}
