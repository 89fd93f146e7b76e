//! Blocks of 16 bytes in a text.

ghost use Rattle.std.specs.Prelude.{◌≡◌, ◌↔◌, ◌≤◌, ◌+◌, ◌++◌, IsTrue, length, take, drop};
ghost use Rattle.ssh_aes.specs.Aes.{block};
ghost use Rattle.ssh_aes.specs.Modes.{block_sum};

/// The block at a place.
pub(crate) fn block_at(bytes: &[u8], at: usize) -> [u8; 16]
    requires { at + 16 ≤ length bytes.now }
    ensures cut { result ≡ take 16 (drop at bytes.now) }
    ensures whole { result ≡ block (drop at bytes.now) }
{
    let mut cut = [0; 16];
    cut.copy_from_slice(&bytes[at..at + 16]);
    cut
}

/// Writes a block at a place.
pub(crate) fn put_block(bytes: &mut [u8], at: usize, put: &[u8; 16])
    requires { at + 16 ≤ length bytes.old }
    ensures { bytes.new ≡ take at bytes.old ++ put.now ++ drop (at + 16) bytes.old }
{
    bytes[at..at + 16].copy_from_slice(put);
}

/// Adds a block to another.
pub(crate) fn add_block(sum: &mut [u8; 16], other: &[u8; 16])
    ensures { sum.new ≡ block_sum sum.old other.now }
{
    for i in 0..16 {
        sum[i] ^= other[i];
    }
}

/// Whether two blocks are equal. Every byte of both is looked at, whatever the bytes are. It stays a function of its
/// own, so that its machine code can be looked at.
#[inline(never)]
pub(crate) fn is_same(one: &[u8; 16], other: &[u8; 16]) -> bool
    ensures { IsTrue result ↔ other.now ≡ one.now }
{
    let mut difference = 0;
    for i in 0..16 {
        difference |= one[i] ^ other[i];
    }
    difference == 0
}
