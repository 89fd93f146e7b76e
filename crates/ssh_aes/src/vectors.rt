//! What a round makes of each of 16 bytes, by tables that are read whole.

ghost use Rattle.std.specs.Prelude.{◌≡◌, ◌<◌, ◌≤◌, ◌+◌, ◌*◌, ◌/◌, ◌%◌, length, slice_index};
ghost use Rattle.ssh_aes.specs.Aes.{bytes_by, shift_rows, inverse_shift_rows};
ghost use Rattle.ssh_aes.specs.Columns.{round_key};
ghost use Rattle.ssh_aes.specs.Reads.{ArePlaces, read_at, read_halves, read_parts, first_place, second_place};

use crate::vector_tables::{INVERSES, RATIOS};
use std::simd::prelude::*;

/// The entries of a table at places.
#[inline(always)]
fn entries(table: &[u8; 16], places: u8x16) -> u8x16
    requires { ArePlaces places }
    ensures { result ≡ bytes_by 16 (λ i. read_at table.now (slice_index places i)) }
{
    u8x16::from_array(*table).swizzle_dyn(places)
}

/// What tables for the halves of bytes give, added.
#[inline(always)]
pub(crate) fn by_halves(low: &[u8; 16], high: &[u8; 16], bytes: &[u8; 16]) -> u8x16
    ensures { result ≡ bytes_by 16 (λ i. read_halves low.now high.now (slice_index bytes.now i)) }
{
    let all = u8x16::from_array(*bytes);
    entries(low, all & u8x16::splat(15)) ^ entries(high, all >> u8x16::splat(4))
}

/// The places of an inverse in two tables.
#[derive(Clone, Copy)]
pub(crate) struct Places {
    pub(crate) first: u8x16,
    pub(crate) second: u8x16,
}

/// The places of the inverses of bytes.
#[inline(always)]
pub(crate) fn places_of(bytes: &[u8; 16]) -> Places
    ensures first { result.first ≡ bytes_by 16 (λ i. first_place (slice_index bytes.now i)) }
    ensures second { result.second ≡ bytes_by 16 (λ i. second_place (slice_index bytes.now i)) }
    ensures first_places { ArePlaces result.first }
    ensures second_places { ArePlaces result.second }
{
    let all = u8x16::from_array(*bytes);
    let low = all & u8x16::splat(15);
    let high = all >> u8x16::splat(4);
    let both = low ^ high;
    let ratio = entries(&RATIOS, low);
    let first = entries(&INVERSES, high) ^ ratio;
    let second = entries(&INVERSES, both) ^ ratio;
    Places {
        first: entries(&INVERSES, first) ^ both,
        second: entries(&INVERSES, second) ^ high,
    }
}

/// What two tables give at places, added.
#[inline(always)]
pub(crate) fn by_places(first: &[u8; 16], second: &[u8; 16], places: Places) -> u8x16
    requires first { ArePlaces places.first }
    requires second { ArePlaces places.second }
    ensures { result ≡ bytes_by 16
        (λ i. read_parts first.now second.now (slice_index places.first i) (slice_index places.second i)) }
{
    entries(first, places.first) ^ entries(second, places.second)
}

/// Each byte's neighbour in the next row of its column.
#[inline(always)]
pub(crate) fn next_row(bytes: u8x16) -> u8x16
    requires { length bytes ≡ 16 }
    ensures { result ≡ bytes_by 16 (λ i. slice_index bytes (4 * (i / 4) + (i + 1) % 4)) }
{
    bytes.swizzle([1, 2, 3, 0, 5, 6, 7, 4, 9, 10, 11, 8, 13, 14, 15, 12])
}

/// Each byte's neighbour in the row before in its column.
#[inline(always)]
pub(crate) fn row_before(bytes: u8x16) -> u8x16
    requires { length bytes ≡ 16 }
    ensures { result ≡ bytes_by 16 (λ i. slice_index bytes (4 * (i / 4) + (i + 3) % 4)) }
{
    bytes.swizzle([3, 0, 1, 2, 7, 4, 5, 6, 11, 8, 9, 10, 15, 12, 13, 14])
}

/// The bytes with row r turned r places to the left.
#[inline(always)]
pub(crate) fn rows_shifted(bytes: &[u8; 16]) -> [u8; 16]
    ensures { result ≡ shift_rows bytes.now }
{
    u8x16::from_array(*bytes)
        .swizzle([0, 5, 10, 15, 4, 9, 14, 3, 8, 13, 2, 7, 12, 1, 6, 11])
        .to_array()
}

/// The bytes with row r turned r places to the right.
#[inline(always)]
pub(crate) fn rows_shifted_back(bytes: &[u8; 16]) -> [u8; 16]
    ensures { result ≡ inverse_shift_rows bytes.now }
{
    u8x16::from_array(*bytes)
        .swizzle([0, 13, 10, 7, 4, 1, 14, 11, 8, 5, 2, 15, 12, 9, 6, 3])
        .to_array()
}

/// The key of a round.
#[inline(always)]
pub(crate) fn key_at(keys: &[u8; 240], round: usize) -> u8x16
    requires { round ≤ 14 }
    ensures { result ≡ round_key keys.now round }
{
    u8x16::from_slice(&keys[16 * round..])
}
