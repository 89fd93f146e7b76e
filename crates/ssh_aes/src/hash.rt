//! The hash of Galois counter mode (SP 800-38D sections 6.3 and 6.4). A block is held as a
//! polynomial: bit i is the coefficient of x^i.

ghost use Rattle.std.specs.Prelude.{◌≡◌, ◌<◌, ◌≤◌, ◌^◌, ◌+◌, ◌*◌, ◌/◌, ℕ, length, take, drop, bit_xor, slice_index};
ghost use Rattle.ssh_aes.specs.Field.{block_product};
ghost use Rattle.ssh_aes.specs.Aes.{bytes_by};
ghost use Rattle.ssh_aes.specs.Halves.{two_products};
ghost use Rattle.ssh_aes.specs.Gcm.{element, element_block, hash_of_blocks, padded_blocks, blocks, length_block};

use crate::blocks::block_at;
use crate::factors::{Factor, two_steps};
use crate::multiples::reversed;
use std::marker::Model;

/// The polynomial of a block, whose first bit is the coefficient of x^0.
pub(crate) fn from_block(bytes: [u8; 16]) -> u128
    ensures { result ≡ element bytes }
{
    u128::from_le_bytes(reversed(bytes))
}

/// The block of a polynomial.
pub(crate) fn to_block(polynomial: u128) -> [u8; 16]
    ensures { result ≡ element_block polynomial }
{
    reversed(polynomial.to_le_bytes())
}

/// A hash key as a factor, and with its square once it is prepared. A contract sees the key.
#[derive(Clone, Drop)]
pub(crate) struct HashKey {
    key: Factor,
    square: Option<Factor>,
}

impl Model for HashKey {
    ghost use Rattle.std.specs.Prelude.{◌≡◌, ℕ, IfSome};
    ghost use Rattle.ssh_aes.specs.Field.{block_product};

    ghost Value = { ℕ };

    ghost view = { λ h. h.key };

    ghost invariant = { λ h. IfSome h.square (λ s. s ≡ block_product h.key h.key) };
}

impl HashKey {
    pub(crate) fn new(key: u128) -> HashKey
        ensures { result ≡ key }
    {
        HashKey {
            key: Factor::new(key),
            square: None,
        }
    }

    /// Makes the square for long texts, once.
    pub(crate) fn prepare(&mut self)
        ensures { self.new ≡ self.old }
    {
        if self.square.is_none() {
            self.square = Some(self.key.square());
        }
    }

    /// The product of a polynomial with the key.
    pub(crate) fn product(&self, a: u128) -> u128
        ensures { result ≡ block_product a self.now }
    {
        self.key.product(a)
    }
}

/// The byte at a place, and 0 past the end.
fn byte_at(bytes: &[u8], at: usize) -> u8
    ensures { result ≡ slice_index bytes.now at }
{
    if at < bytes.len() { bytes[at] } else { 0 }
}

/// The block at a place, filled up with zeros.
fn zero_filled_block(bytes: &[u8], at: usize) -> [u8; 16]
    requires { at < 2 ^ 32 }
    ensures { result ≡ bytes_by 16 (λ i. slice_index bytes.now (at + i)) }
{
    if at + 16 <= bytes.len() {
        return block_at(bytes, at);
    }
    let mut cut = [0; 16];
    for i in 0..16 {
        cut[i] = byte_at(bytes, at + i);
    }
    cut
}

/// The hash with two blocks taken in.
fn two_after(key: &Factor, square: &Factor, state: u128, bytes: &[u8], at: usize) -> u128
    requires square { square.now ≡ block_product key.now key.now }
    requires bytes { at + 32 ≤ length bytes.now }
    ensures { result ≡ two_products
        key.now
        (bit_xor state (element (take 16 (drop at bytes.now))))
        (element (take 16 (drop (at + 16) bytes.now))) }
{
    two_steps(
        key,
        square,
        state ^ from_block(block_at(bytes, at)),
        from_block(block_at(bytes, at + 16)),
    )
}

/// The hash with the blocks of pairs taken in.
fn pairs_after(key: &Factor, square: &Factor, state: u128, bytes: &[u8]) -> u128
    requires square { square.now ≡ block_product key.now key.now }
    requires bytes { length bytes.now < 2 ^ 32 }
    ensures { result ≡ hash_of_blocks key.now state (blocks (2 * (length bytes.now / 32)) bytes.now) }
{
    let mut hash = state;
    for k in 0..bytes.len() / 32 {
        hash = two_after(key, square, hash, bytes, 32 * k);
    }
    hash
}

/// The hash with the blocks of some bytes taken in, one by one.
fn ones_after(key: &Factor, state: u128, bytes: &[u8]) -> u128
    requires { length bytes.now < 2 ^ 32 }
    ensures { result ≡ hash_of_blocks key.now state (padded_blocks bytes.now) }
{
    let mut hash = state;
    for k in 0..(bytes.len() + 15) / 16 {
        hash = key.product(hash ^ from_block(zero_filled_block(bytes, 16 * k)));
    }
    hash
}

/// The hash with the blocks of some bytes taken in, by the key and its square.
fn all_after(key: &Factor, square: &Factor, state: u128, bytes: &[u8]) -> u128
    requires square { square.now ≡ block_product key.now key.now }
    requires bytes { length bytes.now < 2 ^ 32 }
    ensures { result ≡ hash_of_blocks key.now state (padded_blocks bytes.now) }
{
    let hash = pairs_after(key, square, state, bytes);
    ones_after(key, hash, &bytes[bytes.len() / 32 * 32..])
}

/// The hash with the blocks of some bytes taken in: two at once under a key that is prepared.
pub(crate) fn hash_after(key: &HashKey, state: u128, bytes: &[u8]) -> u128
    requires { length bytes.now < 2 ^ 32 }
    ensures { result ≡ hash_of_blocks key.now state (padded_blocks bytes.now) }
{
    match &key.square {
        Some(square) => all_after(&key.key, square, state, bytes),
        None => ones_after(&key.key, state, bytes),
    }
}

/// The block of both lengths in bits.
pub(crate) fn lengths(aad: usize, text: usize) -> [u8; 16]
    requires aad { aad < 2 ^ 32 }
    requires text { text < 2 ^ 32 }
    ensures { result ≡ length_block aad text }
{
    let a = (8 * aad as u64).to_be_bytes();
    let t = (8 * text as u64).to_be_bytes();
    [
        a[0], a[1], a[2], a[3], a[4], a[5], a[6], a[7], t[0], t[1], t[2], t[3], t[4], t[5], t[6],
        t[7],
    ]
}
