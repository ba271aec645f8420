//! The check of a scheme file: each block, then its records, then the next block.
ghost use Rattle.std.specs.Prelude.{◌≡◌, ◌<◌, ◌≤◌, cond, length, Some, Ok, Err};
ghost use Rattle.scheme_records.specs.Bytes.{blocks};
ghost use Rattle.scheme_records.specs.Listed.{in_turn, listed};
ghost use Rattle.scheme_file.specs.Faults.{told, numbers, record_numbered, block_numbered, first_fault, Verdict};
ghost use Rattle.scheme_file.specs.Checks.{tests_of, record_tests, own_tests, block_tests, file_tests, fault_of};

use super::fault::{
    BlockCause, BlockFault, BlockLayer, FileCause, FileFault, FileLayer, RecordCause, RecordFault,
};
use super::fit::{
    check_passes, copy_passes, count_passes, field_passes, gift_passes, key_passes, length_passes,
    number_passes, tag_passes,
};
use scheme_records::{Record, Records, block_at, count_of, decode, record_bytes};

/// Checks a file: it has no fault, or this is its first. Everything in front of the fault passes.
pub fn check(file: &[u8]) -> Result<(), FileFault>
    ensures fault { told numbers result ≡ fault_of file.now }
    ensures first { Verdict (file_tests file.now) (told numbers result) }
{
    let fault = FileFault {
        layer: FileLayer::File(FileCause::Length),
    };
    must(length_passes(file), fault)?;
    let blocks = file.len() / 512;
    check_blocks(file, blocks as u8)?;
    Ok(())
}

// A test, or the fault where it does not pass.
fn must<F: Copy>(passes: bool, fault: F) -> Result<(), F>
    ensures { result ≡ cond passes (Ok tt) (Err fault) }
{
    if passes { Ok(()) } else { Err(fault) }
}

// Checks the n blocks of a file.
fn check_blocks(file: &[u8], n: u8) -> Result<(), BlockFault>
    requires { n ≡ blocks file.now }
    ensures { told block_numbered result ≡ first_fault (in_turn (block_tests file.now) n) }
{
    (0..n).try_for_each(|number| check_block(file, n, number))
}

// Checks a block of n, and then its records.
fn check_block(file: &[u8], n: u8, number: u8) -> Result<(), BlockFault>
    requires { (n ≡ blocks file.now) × (number < n) }
    ensures { told block_numbered result ≡ first_fault (block_tests file.now number) }
{
    let block = block_at(file, usize::from(number));
    check_own(block, n, number)?;
    check_records(file, number, count_of(block) as u8)?;
    Ok(())
}

// Checks a block of n by itself.
fn check_own(block: &[u8], n: u8, number: u8) -> Result<(), BlockFault>
    requires { (length block.now ≡ 512) × (number < n) }
    ensures { told block_numbered result ≡ first_fault (own_tests block.now number n) }
{
    let fault = |cause| BlockFault {
        block: number,
        layer: BlockLayer::Block(cause),
    };
    must(check_passes(block), fault(BlockCause::Check))?;
    must(number_passes(block, number, n), fault(BlockCause::Number))?;
    must(count_passes(block), fault(BlockCause::Count))
}

// Checks the first records of a block, as many as it has.
fn check_records(file: &[u8], block: u8, count: u8) -> Result<(), RecordFault>
    requires { (block < blocks file.now) × (count ≤ 15) }
    ensures { told record_numbered result ≡ first_fault (in_turn (record_tests file.now block) count) }
{
    (0..count).try_for_each(|number| check_record(file, block, number))
}

// Checks a record of a block.
fn check_record(file: &[u8], block: u8, number: u8) -> Result<(), RecordFault>
    requires { (block < blocks file.now) × (number < 15) }
    ensures { told record_numbered result ≡ first_fault (record_tests file.now block number) }
{
    let bytes = record_bytes(block_at(file, usize::from(block)), usize::from(number));
    let found = decode(bytes).ok_or(RecordFault {
        block,
        number,
        cause: RecordCause::Tag,
    })?;
    let before = Records::before(file, usize::from(block), usize::from(number));
    check_found(before, bytes, found, block, number)
}

// Checks a record whose tag is known against those before it. The record and those before it stand apart here and in each test, as they
// do in the definitions that the tests are told by.
fn check_found(
    before: Records,
    bytes: &[u8],
    found: Record,
    block: u8,
    number: u8,
) -> Result<(), RecordFault>
    requires { length bytes.now ≡ 32 }
    ensures { told record_numbered result ≡ first_fault (tests_of block number (listed before.entry) bytes.now (Some found)) }
{
    let fault = |cause| RecordFault {
        block,
        number,
        cause,
    };
    must(tag_passes(before, found), fault(RecordCause::Tag))?;
    must(
        field_passes(before, bytes, found),
        fault(RecordCause::Field),
    )?;
    must(key_passes(before, found), fault(RecordCause::Repeated))?;
    must(copy_passes(found), fault(RecordCause::Beyond))?;
    must(gift_passes(before, found), fault(RecordCause::Gifted))
}
