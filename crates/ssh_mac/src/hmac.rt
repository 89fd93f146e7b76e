//! HMAC (RFC 2104).

ghost use Rattle.std.specs.Prelude.{◌≡◌, ◌++◌, ◌≤◌, length, take};
ghost use Rattle.ssh_mac.specs.Digests.{block_length, digest_of};
ghost use Rattle.ssh_mac.specs.Hashing.{IsHashing};
ghost use Rattle.ssh_mac.specs.Hmac.{hmac, block_key, bytes_xor};

use crate::digest::{DigestKind, Hasher};
use crate::hash_value::HashValue;

/// The bytes that the key is combined with, for the inner and for the outer digest (section 2).
const INNER: u8 = 0x36;

const OUTER: u8 = 0x5c;

/// The length of the longest block of a hash function, in bytes.
const LONGEST_BLOCK: usize = 128;

/// The two hash states of a key, each after the key's block.
#[derive(Drop)]
pub(crate) struct KeyStates {
    inner: Hasher,
    outer: Hasher,
}

impl KeyStates {
    ghost use Rattle.std.specs.Prelude.{◌≡◌, ◌++◌, ℕ, List};
    ghost use Rattle.ssh_mac.specs.declared.digest.DigestKind.{DigestKind};
    ghost use Rattle.ssh_mac.specs.Hashing.{AreKeyed};
    ghost use Rattle.ssh_mac.specs.Hmac.{hmac};

    /// The states of a key of any length.
    pub(crate) fn new(kind: DigestKind, key: &[u8]) -> KeyStates
        ensures { AreKeyed result.inner result.outer kind key.now }
    {
        let mut inner_block = block_of(kind, key);
        let mut outer_block = inner_block;
        combine(&mut inner_block, INNER);
        combine(&mut outer_block, OUTER);
        let block_len = kind.block_len();
        KeyStates {
            inner: state_after(kind, &inner_block[..block_len]),
            outer: state_after(kind, &outer_block[..block_len]),
        }
    }

    /// HMAC under the key, of a text in two pieces. The states stay as they are.
    pub(crate) fn tag(&self, front: &[u8], rest: &[u8]) -> HashValue
        ensures { (kind : DigestKind) (key : List ℕ) → AreKeyed self.now.inner self.now.outer kind key
            → result ≡ hmac kind key (front.now ++ rest.now) }
    {
        let mut inner = self.inner.copied();
        inner.update(front);
        inner.update(rest);
        let hash = inner.finalize();
        let mut outer = self.outer.copied();
        outer.update(hash.as_bytes());
        outer.finalize()
    }
}

/// HMAC under a key of any length, of a text in two pieces: 20, 32, 48 or 64 bytes.
pub fn hmac_of(kind: DigestKind, key: &[u8], front: &[u8], rest: &[u8]) -> HashValue
    ensures { result ≡ hmac kind key.now (front.now ++ rest.now) }
{
    KeyStates::new(kind, key).tag(front, rest)
}

// The hash state after a block.
fn state_after(kind: DigestKind, block: &[u8]) -> Hasher
    ensures { IsHashing result kind block.now }
{
    let mut hasher = Hasher::new(kind);
    hasher.update(block);
    hasher
}

// The digest of a key.
fn digest_of_key(kind: DigestKind, key: &[u8]) -> HashValue
    ensures { result ≡ digest_of kind key.now }
{
    state_after(kind, key).finalize()
}

// The key as long as a block, with zeros behind the block.
fn block_of(kind: DigestKind, key: &[u8]) -> [u8; LONGEST_BLOCK]
    ensures { take (block_length kind) result ≡ block_key kind key.now }
{
    let mut block = [0; LONGEST_BLOCK];
    if key.len() > kind.block_len() {
        let hash = digest_of_key(kind, key);
        let bytes = hash.as_bytes();
        block[..bytes.len()].copy_from_slice(bytes);
    } else {
        block[..key.len()].copy_from_slice(key);
    }
    block
}

// Combines each byte with the same byte by exclusive or.
fn combine(block: &mut [u8], byte: u8)
    ensures { block.new ≡ bytes_xor byte block.old }
{
    for b in block.iter_mut() {
        *b ^= byte;
    }
}
