//! The key stream of counter mode (SP 800-38A section 6.5), which Galois counter mode has too.

ghost use Rattle.std.specs.Prelude.{◌≡◌, ◌≢◌, ◌≤◌, ◌<◌, ◌+◌, ◌*◌, ◌/◌, ◌%◌, ◌++◌, length, take, drop};
ghost use Rattle.std.specs.Int.{w128, to_be_bytes};
ghost use Rattle.ssh_aes.specs.Modes.{block_sum, counter_block, stream_block, counter_text};

use crate::blocks::{add_block, block_at, put_block};
use crate::encryption::Encryption;
use std::simd::prelude::*;

/// The counter block of the byte at a place.
#[inline(never)]
fn counter_at(iv: &[u8; 16], place: u64) -> [u8; 16]
    ensures { result ≡ counter_block iv.now (place / 16) }
{
    let counter = u128::from_be_bytes(*iv).wrapping_add(u128::from(place / 16));
    spelled(counter)
}

/// The bytes of a number, the highest first: `to_be_bytes` in fewer instructions.
fn spelled(number: u128) -> [u8; 16]
    ensures { result ≡ to_be_bytes w128 number }
{
    let high = (number / 0x1_0000_0000_0000_0000) as u64;
    let low = (number % 0x1_0000_0000_0000_0000) as u64;
    let mut bytes = [0; 16];
    u64x2::from_array([high, low])
        .to_le_bytes()
        .swizzle([7, 6, 5, 4, 3, 2, 1, 0, 15, 14, 13, 12, 11, 10, 9, 8])
        .copy_to_slice(&mut bytes);
    bytes
}

/// The block of the key stream that has the byte at a place.
fn stream_at(aes: &Encryption, iv: &[u8; 16], place: u64) -> [u8; 16]
    ensures { result ≡ stream_block aes.now iv.now (place / 16) }
{
    let mut block = counter_at(iv, place);
    aes.encrypt_block(&mut block);
    block
}

/// Combines bytes of one block with the key stream from a place on.
fn mask_part(aes: &Encryption, iv: &[u8; 16], place: u64, bytes: &mut [u8])
    requires { place % 16 + length bytes.old ≤ 16 }
    ensures { bytes.new ≡ counter_text aes.now iv.now place bytes.old }
{
    if bytes.is_empty() {
        return;
    }
    let block = stream_at(aes, iv, place);
    let start = (place % 16) as usize;
    for i in 0..bytes.len() {
        bytes[i] ^= block[start + i];
    }
}

/// Combines whole blocks with the key stream from the front of a block on.
fn mask_blocks(aes: &Encryption, iv: &[u8; 16], place: u64, bytes: &mut [u8])
    requires place { length bytes.old ≢ 0 → place % 16 ≡ 0 }
    requires whole { length bytes.old % 16 ≡ 0 }
    ensures { bytes.new ≡ counter_text aes.now iv.now place bytes.old }
{
    for k in 0..bytes.len() / 16 {
        let mut block = block_at(bytes, 16 * k);
        let stream = stream_at(aes, iv, place.wrapping_add((16 * k) as u64));
        add_block(&mut block, &stream);
        put_block(bytes, 16 * k, &block);
    }
}

/// Combines pairs of blocks with the key stream from the front of a block on.
fn mask_pairs(aes: &Encryption, iv: &[u8; 16], place: u64, bytes: &mut [u8])
    requires place { length bytes.old ≢ 0 → place % 16 ≡ 0 }
    requires whole { length bytes.old % 32 ≡ 0 }
    ensures { bytes.new ≡ counter_text aes.now iv.now place bytes.old }
{
    for pair in 0..bytes.len() / 32 {
        let k = 2 * pair;
        let mut one = counter_at(iv, place.wrapping_add((16 * k) as u64));
        let mut two = counter_at(iv, place.wrapping_add((16 * (k + 1)) as u64));
        aes.encrypt_two(&mut one, &mut two);
        mask_block(bytes, k, &one);
        mask_block(bytes, k + 1, &two);
    }
}

/// Combines block `k` of bytes with another.
fn mask_block(bytes: &mut [u8], k: usize, stream: &[u8; 16])
    requires { 16 * k + 16 ≤ length bytes.old }
    ensures long { length stream.now ≡ 16 }
    ensures masked { bytes.new ≡ take (16 * k) bytes.old
        ++ block_sum (take 16 (drop (16 * k) bytes.old)) stream.now
        ++ drop (16 * k + 16) bytes.old }
{
    let sum = u8x16::from_slice(&bytes[16 * k..]) ^ u8x16::from_array(*stream);
    sum.copy_to_slice(&mut bytes[16 * k..]);
}

/// Combines bytes with the key stream from the front of a block on: pairs of blocks, then the rest.
fn mask_from_block(aes: &Encryption, iv: &[u8; 16], place: u64, bytes: &mut [u8])
    requires { length bytes.old ≢ 0 → place % 16 ≡ 0 }
    ensures { bytes.new ≡ counter_text aes.now iv.now place bytes.old }
{
    let whole = bytes.len() / 32 * 32;
    let (front, rest) = bytes.split_at_mut(whole);
    mask_pairs(aes, iv, place, front);
    mask_less(aes, iv, place.wrapping_add(whole as u64), rest);
}

/// Combines bytes with the key stream from the front of a block on, one block after another.
fn mask_less(aes: &Encryption, iv: &[u8; 16], place: u64, bytes: &mut [u8])
    requires { length bytes.old ≢ 0 → place % 16 ≡ 0 }
    ensures { bytes.new ≡ counter_text aes.now iv.now place bytes.old }
{
    let whole = bytes.len() / 16 * 16;
    let (front, rest) = bytes.split_at_mut(whole);
    mask_blocks(aes, iv, place, front);
    mask_part(aes, iv, place.wrapping_add(whole as u64), rest);
}

/// How many of so many bytes from a place on come before the front of the next block.
fn before_block(place: u64, len: usize) -> usize
    ensures most { result ≤ len }
    ensures room { place % 16 + result ≤ 16 }
    ensures next { result < len → (place + result) % 16 ≡ 0 }
{
    let missing = ((16 - place % 16) % 16) as usize;
    if missing < len { missing } else { len }
}

/// Combines bytes with the key stream from a place on.
pub(crate) fn mask_from(aes: &Encryption, iv: &[u8; 16], place: u64, bytes: &mut [u8])
    ensures { bytes.new ≡ counter_text aes.now iv.now place bytes.old }
{
    let before = before_block(place, bytes.len());
    let (front, rest) = bytes.split_at_mut(before);
    mask_part(aes, iv, place, front);
    mask_from_block(aes, iv, place.wrapping_add(before as u64), rest);
}
