//! The rounds of encryption and decryption. A block between rounds stands in the basis of its round.

ghost use Rattle.std.specs.Prelude.{◌≡◌, ◌≤◌};
ghost use Rattle.ssh_aes.specs.Aes.{sub_bytes, inverse_sub_bytes, shift_rows, inverse_shift_rows, mix_columns, inverse_mix_columns, add_round_key};
ghost use Rattle.ssh_aes.specs.Held.{left, inverse_left, keys_left, inverse_keys_left};

use crate::vector_tables::{
    CROSSED_HIGH, CROSSED_LOW, DOUBLED_FIRST, DOUBLED_SECOND, ELEVEN_FIRST, ELEVEN_SECOND,
    ENTERED_HIGH, ENTERED_LOW, FOURTEEN_FIRST, FOURTEEN_SECOND, INVERSE_ENTERED_HIGH,
    INVERSE_ENTERED_LOW, LEFT_HIGH, LEFT_LOW, NINE_FIRST, NINE_SECOND, RESTORED_FIRST,
    RESTORED_SECOND, SUBSTITUTED_FIRST, SUBSTITUTED_SECOND, THIRTEEN_FIRST, THIRTEEN_SECOND,
};
use crate::vectors::{
    by_halves, by_places, key_at, next_row, places_of, row_before, rows_shifted, rows_shifted_back,
};
use std::simd::prelude::*;

/// A block with the key of a round.
#[inline(always)]
pub(crate) fn with_key(block: &mut [u8; 16], keys: &[u8; 240], round: usize)
    requires { round ≤ 14 }
    ensures { left block.new ≡ add_round_key (keys_left keys.now) round block.old }
{
    let next = (by_halves(&ENTERED_LOW, &ENTERED_HIGH, block) ^ key_at(keys, round)).to_array();
    *block = next;
}

/// A whole round of encryption.
#[inline(always)]
pub(crate) fn round_of(state: &mut [u8; 16], keys: &[u8; 240], round: usize)
    requires { round ≤ 14 }
    ensures { left state.new
        ≡ add_round_key (keys_left keys.now) round (mix_columns (shift_rows (sub_bytes (left state.old)))) }
{
    let places = places_of(&rows_shifted(state));
    let once = by_places(&SUBSTITUTED_FIRST, &SUBSTITUTED_SECOND, places);
    let twice = by_places(&DOUBLED_FIRST, &DOUBLED_SECOND, places);
    let two = twice ^ next_row(once);
    let next = (two ^ row_before(once) ^ next_row(two) ^ key_at(keys, round)).to_array();
    *state = next;
}

/// The last round of encryption.
#[inline(always)]
pub(crate) fn last_round_of(state: &mut [u8; 16], keys: &[u8; 240], round: usize)
    requires { round ≤ 14 }
    ensures { state.new ≡ add_round_key (keys_left keys.now) round (shift_rows (sub_bytes (left state.old))) }
{
    let places = places_of(&rows_shifted(state));
    let once = by_places(&SUBSTITUTED_FIRST, &SUBSTITUTED_SECOND, places);
    let sum = once ^ key_at(keys, round);
    let next = by_halves(&LEFT_LOW, &LEFT_HIGH, &sum.to_array()).to_array();
    *state = next;
}

/// A block with the key of a round, for decryption.
#[inline(always)]
pub(crate) fn with_last_key(block: &mut [u8; 16], keys: &[u8; 240], round: usize)
    requires { round ≤ 14 }
    ensures { inverse_left block.new ≡ add_round_key (keys_left keys.now) round block.old }
{
    let next = (by_halves(&INVERSE_ENTERED_LOW, &INVERSE_ENTERED_HIGH, block)
        ^ by_halves(&CROSSED_LOW, &CROSSED_HIGH, &key_at(keys, round).to_array())).to_array();
    *block = next;
}

/// A whole round of decryption, of which the key comes after the mixing (FIPS 197 section 5.3.5).
#[inline(always)]
pub(crate) fn inverse_round_of(state: &mut [u8; 16], keys: &[u8; 240], round: usize)
    requires { round ≤ 14 }
    ensures { inverse_left state.new
        ≡ add_round_key (inverse_keys_left keys.now) round
        (inverse_mix_columns (inverse_sub_bytes (inverse_shift_rows (inverse_left state.old)))) }
{
    let places = places_of(&rows_shifted_back(state));
    let nine = by_places(&NINE_FIRST, &NINE_SECOND, places);
    let thirteen = by_places(&THIRTEEN_FIRST, &THIRTEEN_SECOND, places);
    let eleven = by_places(&ELEVEN_FIRST, &ELEVEN_SECOND, places);
    let fourteen = by_places(&FOURTEEN_FIRST, &FOURTEEN_SECOND, places);
    let sum = next_row(nine) ^ thirteen;
    let sum = next_row(sum) ^ eleven;
    let next = (next_row(sum) ^ fourteen ^ key_at(keys, round)).to_array();
    *state = next;
}

/// The last round of decryption.
#[inline(always)]
pub(crate) fn last_inverse_round_of(state: &mut [u8; 16], keys: &[u8; 240], round: usize)
    requires { round ≤ 14 }
    ensures { state.new
        ≡ add_round_key (keys_left keys.now) round (inverse_sub_bytes (inverse_shift_rows (inverse_left state.old))) }
{
    let places = places_of(&rows_shifted_back(state));
    let key = by_halves(&LEFT_LOW, &LEFT_HIGH, &key_at(keys, round).to_array())
        ^ u8x16::splat(0x63);
    let next = (by_places(&RESTORED_FIRST, &RESTORED_SECOND, places) ^ key).to_array();
    *state = next;
}
