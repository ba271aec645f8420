//! Blocks of a file: numbers in bytes, the block check, and where the records stand.
ghost use Rattle.std.specs.Prelude.{◌≡◌, ◌+◌, ◌*◌, ◌/◌, ◌^◌, ◌<◌, ◌≤◌, length};
ghost use Rattle.scheme_records.specs.Bytes.{word, checked, block, record_count, record_slice};

/// The number in two bytes, the highest first.
pub fn word_at(bytes: &[u8], at: usize) -> u16
    requires { at + 1 < length bytes.now }
    ensures { result ≡ word bytes.now at }
{
    u16::from_be_bytes([bytes[at], bytes[at + 1]])
}

/// The check of a block with this number over these bytes of it.
pub fn block_check(number: u16, bytes: &[u8]) -> u32
    ensures { result ≡ checked (number + 1) bytes.now }
{
    // A loop over the bytes, by a rule of the project.
    let mut check = u32::from(number) + 1;
    for byte in bytes {
        check = (check * 31 + u32::from(*byte)) % 65521;
    }
    check
}

/// A block of a file.
pub fn block_at(file: &[u8], number: usize) -> &[u8]
    requires { number < length file.now / 512 }
    ensures same { result.now ≡ block file.now number }
    ensures long { length result.now ≡ 512 }
{
    let from = 512 * number;
    &file[from..from + 512]
}

/// How many records a block says that it has; no block has room for more than 15.
pub fn count_of(block: &[u8]) -> usize
    requires { length block.now ≡ 512 }
    ensures { result ≡ record_count block.now }
{
    usize::from(block[2]).min(15)
}

/// The bytes of a record of a block.
pub fn record_bytes(block: &[u8], number: usize) -> &[u8]
    requires { (length block.now ≡ 512) × (number < 15) }
    ensures same { result.now ≡ record_slice block.now number }
    ensures long { length result.now ≡ 32 }
{
    let from = 32 * number + 4;
    &block[from..from + 32]
}
