//! The key schedule (FIPS 197 section 5.2), and what rounds hold of it.

ghost use Rattle.std.specs.Prelude.{◌≡◌, ◌<◌, ◌≤◌, ◌*◌, ◌+◌, ◌++◌, ◌/◌, [], ◌∷◌, length, take, drop, slice_index};
ghost use Rattle.ssh_aes.specs.Aes.{expanded_key, next_word, plus_word, substitute, inverse_mix_columns};
ghost use Rattle.ssh_aes.specs.Columns.{AreUnmixed, round_key};
ghost use Rattle.ssh_aes.specs.Keys.{IsKeyLength};
ghost use Rattle.ssh_aes.specs.Held.{keys_left, inverse_keys_left, key_bytes, inverse_key_bytes};

use crate::tables::ROUND_CONSTANTS;
use crate::vector_tables::{
    CROSSED_ELEVEN_HIGH, CROSSED_ELEVEN_LOW, CROSSED_FOURTEEN_HIGH, CROSSED_FOURTEEN_LOW,
    CROSSED_NINE_HIGH, CROSSED_NINE_LOW, CROSSED_THIRTEEN_HIGH, CROSSED_THIRTEEN_LOW, ENTERED_HIGH,
    ENTERED_LOW, LEFT_HIGH, LEFT_LOW, SUBSTITUTED_FIRST, SUBSTITUTED_SECOND,
};
use crate::vectors::{by_halves, by_places, key_at, next_row, places_of};
use std::simd::prelude::*;

/// The substitution of four bytes.
fn substituted(word: &[u8; 4]) -> [u8; 4]
    ensures { result
        ≡ substitute (slice_index word.now 0)
        ∷ substitute (slice_index word.now 1)
        ∷ substitute (slice_index word.now 2)
        ∷ substitute (slice_index word.now 3)
        ∷ [] }
{
    let bytes = [
        word[0], word[1], word[2], word[3], 0, 0, 0, 0, 0, 0, 0, 0, 0, 0, 0, 0,
    ];
    let plain = (u8x16::from_array(bytes) ^ u8x16::splat(0x63)).to_array();
    let entered = by_halves(&ENTERED_LOW, &ENTERED_HIGH, &plain).to_array();
    let once = by_places(&SUBSTITUTED_FIRST, &SUBSTITUTED_SECOND, places_of(&entered)).to_array();
    let all = (by_halves(&LEFT_LOW, &LEFT_HIGH, &once) ^ u8x16::splat(0x63)).to_array();
    [all[0], all[1], all[2], all[3]]
}

/// Room for a schedule, with the key at its front.
fn with_key_first(key: &[u8]) -> [u8; 240]
    requires { length key.now ≤ 240 }
    ensures { take (length key.now) result ≡ key.now }
{
    let mut keys = [0u8; 240];
    keys[..key.len()].copy_from_slice(key);
    keys
}

/// The schedule of a key.
pub(crate) fn schedule_of(key: &[u8]) -> [u8; 240]
    requires { IsKeyLength (length key.now) }
    ensures front { take (4 * (length key.now / 4)) result ≡ key.now }
    ensures whole { take (16 * (length key.now / 4 + 7)) result ≡ expanded_key key.now }
{
    let words = key.len() / 4;
    let mut keys = with_key_first(key);
    for i in words..4 * (words + 7) {
        let word = word_after(&keys, words, i);
        keys[4 * i..4 * i + 4].copy_from_slice(&word);
    }
    keys
}

/// Word `i` of the schedule, from those before it (FIPS 197 section 5.2).
fn word_after(keys: &[u8; 240], words: usize, i: usize) -> [u8; 4]
    requires words { IsKeyLength (4 * words) }
    requires low { words ≤ i }
    requires high { i < 4 * (words + 7) }
    ensures { result ≡ next_word words keys.now i }
{
    let at = 4 * (i - 1);
    let (a, b, c, d) = (keys[at], keys[at + 1], keys[at + 2], keys[at + 3]);
    if i % words == 0 {
        let [a, b, c, d] = substituted(&[b, c, d, a]);
        return sum_with_word(
            keys,
            i - words,
            [a ^ ROUND_CONSTANTS[i / words - 1], b, c, d],
        );
    }
    if words == 8 && i % 8 == 4 {
        return sum_with_word(keys, i - words, substituted(&[a, b, c, d]));
    }
    sum_with_word(keys, i - words, [a, b, c, d])
}

/// The sum of word `i` and four bytes.
fn sum_with_word(keys: &[u8; 240], i: usize, word: [u8; 4]) -> [u8; 4]
    requires { i < 60 }
    ensures { result
        ≡ plus_word keys.now i (slice_index word 0) (slice_index word 1) (slice_index word 2) (slice_index word 3) }
{
    let at = 4 * i;
    [
        keys[at] ^ word[0],
        keys[at + 1] ^ word[1],
        keys[at + 2] ^ word[2],
        keys[at + 3] ^ word[3],
    ]
}

/// Writes the key of a round.
fn put_key(keys: &mut [u8; 240], round: usize, key: &[u8; 16])
    requires { round < 15 }
    ensures long { length key.now ≡ 16 }
    ensures put { keys.new ≡ take (16 * round) keys.old ++ key.now ++ drop (16 * round + 16) keys.old }
{
    keys[16 * round..16 * round + 16].copy_from_slice(key);
}

/// The key of a round as rounds of encryption hold it.
fn held_key(keys: &[u8; 240], round: usize) -> [u8; 16]
    requires { round ≤ 14 }
    ensures { key_bytes result ≡ round_key keys.now round }
{
    by_halves(&ENTERED_LOW, &ENTERED_HIGH, &key_at(keys, round).to_array()).to_array()
}

/// The bytes of a schedule as rounds of encryption hold them.
pub(crate) fn held(keys: &[u8; 240]) -> [u8; 240]
    ensures { keys_left result ≡ keys.now }
{
    let mut all = *keys;
    for round in 0..15 {
        let key = held_key(keys, round);
        put_key(&mut all, round, &key);
    }
    all
}

/// The key of a round of decryption, for that of encryption: it is unmixed (FIPS 197 section 5.3.5).
fn unmixed(keys: &[u8; 240], round: usize) -> [u8; 16]
    requires { round ≤ 14 }
    ensures { inverse_key_bytes result ≡ inverse_mix_columns (round_key (keys_left keys.now) round) }
{
    let key = key_at(keys, round).to_array();
    let nine = by_halves(&CROSSED_NINE_LOW, &CROSSED_NINE_HIGH, &key);
    let thirteen = by_halves(&CROSSED_THIRTEEN_LOW, &CROSSED_THIRTEEN_HIGH, &key);
    let eleven = by_halves(&CROSSED_ELEVEN_LOW, &CROSSED_ELEVEN_HIGH, &key);
    let fourteen = by_halves(&CROSSED_FOURTEEN_LOW, &CROSSED_FOURTEEN_HIGH, &key);
    let sum = next_row(nine) ^ thirteen;
    let sum = next_row(sum) ^ eleven;
    (next_row(sum) ^ fourteen).to_array()
}

/// The keys of the rounds of decryption.
pub(crate) fn inverse_keys_of(keys: &[u8; 240]) -> [u8; 240]
    ensures { AreUnmixed 15 (keys_left keys.now) (inverse_keys_left result) }
{
    let mut inverse_keys = *keys;
    for round in 0..15 {
        let key = unmixed(keys, round);
        put_key(&mut inverse_keys, round, &key);
    }
    inverse_keys
}
