//! A value in blocks of 64 bytes, after its padding (FIPS 180-4, sections 5.1.1 and 5.2.1).
ghost use Rattle.mxf_digests.specs.Blocks.{block_count, block_of};
ghost use Rattle.sha2.specs.Sha256.{padding};
ghost use Rattle.std.specs.Prelude.{◌≡◌, ◌++◌, ◌<◌, ◌%◌, length, take};

/// How many blocks `value` has: two more than are full of its own bytes, if its last bytes leave no room for the
/// padding, else one more.
pub(crate) fn count_blocks(value: &[u8]) -> usize
    ensures { result ≡ block_count value.now }
{
    let whole = value.len() / 64;
    if value.len() % 64 < 56 {
        whole + 1
    } else {
        whole + 2
    }
}

// The bytes after the last full block of a value of `total` bytes, with the padding. What is left is zeros.
fn padded(rest: &[u8], total: usize) -> [u8; 128]
    requires { length rest.now ≡ total % 64 }
    ensures { take (length (rest.now ++ padding total)) result ≡ rest.now ++ padding total }
{
    let mut tail = [0; 128];
    tail[..rest.len()].copy_from_slice(rest);
    tail[rest.len()] = 0x80;
    let end = if rest.len() < 56 { 64 } else { 128 };
    let bits = (total as u64).wrapping_mul(8);
    tail[end - 8..end].copy_from_slice(&bits.to_be_bytes());
    tail
}

/// Block `index` of `value`. Past its last block, anything.
pub(crate) fn block_at(value: &[u8], index: usize) -> [u8; 64]
    ensures { index < block_count value.now → result ≡ block_of value.now index }
{
    let whole = value.len() / 64;
    let mut block = [0; 64];
    if index < whole {
        block.copy_from_slice(&value[64 * index..64 * index + 64]);
    } else if index - whole < 2 {
        let tail = padded(&value[64 * whole..], value.len());
        let at = 64 * (index - whole);
        block.copy_from_slice(&tail[at..at + 64]);
    }
    block
}
