//! Products of polynomials without reduction, half a byte of one at a time. A polynomial is a number: bit i is the
//! coefficient of x^i. A half's row is read whole, by a permutation, so no place in memory depends on a polynomial.

ghost use Rattle.std.specs.Prelude.{◌≡◌, ◌<◌, ◌≤◌, ◌*◌, ◌+◌, ◌/◌, ◌%◌, ◌^◌, ℕ, length, map, bit_xor, slice_index};
ghost use lib.Lanes.{chunk, put_chunk};
ghost use Rattle.std.specs.Int.{w8, w128, to_le_bytes, reverse_bits};
ghost use Rattle.ssh_aes.specs.Aes.{bytes_by};
ghost use Rattle.ssh_aes.specs.Field.{polynomial_product};
ghost use Rattle.ssh_aes.specs.Halves.{AreHalves, number_of, row_of};

use std::marker::Model;
use std::simd::prelude::*;

/// The bytes of a number, the lowest first.
fn lanes(a: u128) -> u8x16
    ensures { result ≡ to_le_bytes w128 a }
{
    u64x2::from_array([(a % (1 << 64)) as u64, (a / (1 << 64)) as u64]).to_le_bytes()
}

/// The low and the high half of each byte.
fn split(bytes: [u8; 16]) -> (u8x16, u8x16)
    ensures low { result.0 ≡ map (λ b. b % 16) bytes }
    ensures high { result.1 ≡ map (λ b. b / 16) bytes }
{
    let bytes = u8x16::from_array(bytes);
    (bytes & u8x16::splat(15), bytes >> 4)
}

/// Each byte with its bits in the other order.
pub(crate) fn reversed(bytes: [u8; 16]) -> [u8; 16]
    ensures { result ≡ bytes_by 16 (λ i. reverse_bits w8 (slice_index bytes i)) }
{
    let (low, high) = split(bytes);
    let to_high = u8x16::from_array([
        0x00, 0x80, 0x40, 0xc0, 0x20, 0xa0, 0x60, 0xe0, 0x10, 0x90, 0x50, 0xd0, 0x30, 0xb0, 0x70,
        0xf0,
    ]);
    let to_low = u8x16::from_array([
        0x00, 0x08, 0x04, 0x0c, 0x02, 0x0a, 0x06, 0x0e, 0x01, 0x09, 0x05, 0x0d, 0x03, 0x0b, 0x07,
        0x0f,
    ]);
    (to_high.swizzle_dyn(low) ^ to_low.swizzle_dyn(high)).to_array()
}

/// The low and the high half of each byte of a number.
pub(crate) fn halves(a: u128) -> (u8x16, u8x16)
    ensures low { result.0 ≡ map (λ b. b % 16) (to_le_bytes w128 a) }
    ensures high { result.1 ≡ map (λ b. b / 16) (to_le_bytes w128 a) }
{
    let bytes = lanes(a);
    (bytes & u8x16::splat(15), bytes >> 4)
}

/// The products of a polynomial of degree below 4 with all sixteen of them, a byte each: x^k times it where these
/// have x^k.
fn row(half: u8) -> u8x16
    requires { half < 16 }
    ensures { result ≡ row_of half }
{
    let odd = u8x16::from_array([
        0, 255, 0, 255, 0, 255, 0, 255, 0, 255, 0, 255, 0, 255, 0, 255,
    ]);
    let second = u8x16::from_array([
        0, 0, 255, 255, 0, 0, 255, 255, 0, 0, 255, 255, 0, 0, 255, 255,
    ]);
    let third = u8x16::from_array([
        0, 0, 0, 0, 255, 255, 255, 255, 0, 0, 0, 0, 255, 255, 255, 255,
    ]);
    let fourth = u8x16::from_array([
        0, 0, 0, 0, 0, 0, 0, 0, 255, 255, 255, 255, 255, 255, 255, 255,
    ]);
    (u8x16::splat(half) & odd)
        ^ (u8x16::splat(2 * half) & second)
        ^ (u8x16::splat(4 * half) & third)
        ^ (u8x16::splat(8 * half) & fourth)
}

/// Writes a row at a place.
fn put_row(rows: &mut [u8], at: usize, row: u8x16)
    requires { at + 16 ≤ length rows.old }
    ensures { rows.new ≡ put_chunk at rows.old row }
{
    row.copy_to_slice(&mut rows[at..]);
}

/// The row at a place.
fn row_at(rows: &[u8; 256], at: usize) -> u8x16
    requires { at + 16 ≤ 256 }
    ensures { result ≡ chunk at 16 rows.now }
{
    u8x16::from_slice(&rows[at..])
}

/// The halves of a polynomial's bytes, each with its products with the polynomials of degree below
/// 4. A contract sees the polynomial that has these halves in its bytes.
#[derive(Clone, Drop)]
pub(crate) struct Multiples {
    halves: [u8; 16],
    rows: [u8; 256],
}

impl Model for Multiples {
    ghost use Rattle.std.specs.Prelude.{ℕ};
    ghost use Rattle.ssh_aes.specs.Halves.{AreRows, number_of};

    ghost Value = { ℕ };

    ghost view = { λ m. number_of m.halves };

    ghost invariant = { λ m. AreRows m.halves m.rows };
}

impl Multiples {
    pub(crate) fn new(halves: u8x16) -> Multiples
        requires { AreHalves halves }
        ensures { result ≡ number_of halves }
    {
        let halves = halves.to_array();
        let mut rows = [0; 256];
        for i in 0..16 {
            put_row(&mut rows, 16 * i, row(halves[i]));
        }
        Multiples { halves, rows }
    }

    /// The product with a polynomial that has these halves in its bytes, as its higher and its lower
    /// 128 coefficients.
    pub(crate) fn product(&self, halves: u8x16) -> (u128, u128)
        requires { AreHalves halves }
        ensures { result.0 * 2 ^ 128 + result.1 ≡ polynomial_product 128 (number_of halves) self.now }
    {
        let zero = u8x16::splat(0);
        let mut high = zero;
        let mut low = zero;
        for i in 0..16 {
            let row = row_at(&self.rows, 240 - 16 * i);
            high = low.shuffle(
                high,
                [
                    15, 16, 17, 18, 19, 20, 21, 22, 23, 24, 25, 26, 27, 28, 29, 30,
                ],
            );
            low = zero.shuffle(
                low,
                [
                    0, 16, 17, 18, 19, 20, 21, 22, 23, 24, 25, 26, 27, 28, 29, 30,
                ],
            );
            low ^= row.swizzle_dyn(halves);
        }
        (
            u128::from_le_bytes(high.to_array()),
            u128::from_le_bytes(low.to_array()),
        )
    }
}

/// The sum of two products, as its higher and its lower 128 coefficients.
pub(crate) fn sum_of_products(a: &Multiples, b: &Multiples, at: (u8x16, u8x16)) -> (u128, u128)
    requires first { AreHalves at.0 }
    requires second { AreHalves at.1 }
    ensures { result.0 * 2 ^ 128 + result.1
        ≡ bit_xor (polynomial_product 128 (number_of at.0) a.now) (polynomial_product 128 (number_of at.1) b.now) }
{
    let (w, x) = at;
    let zero = u8x16::splat(0);
    let mut high = zero;
    let mut low = zero;
    for i in 0..16 {
        high = low.shuffle(
            high,
            [
                15, 16, 17, 18, 19, 20, 21, 22, 23, 24, 25, 26, 27, 28, 29, 30,
            ],
        );
        low = zero.shuffle(
            low,
            [
                0, 16, 17, 18, 19, 20, 21, 22, 23, 24, 25, 26, 27, 28, 29, 30,
            ],
        );
        low ^= row_at(&a.rows, 240 - 16 * i).swizzle_dyn(w);
        low ^= row_at(&b.rows, 240 - 16 * i).swizzle_dyn(x);
    }
    (
        u128::from_le_bytes(high.to_array()),
        u128::from_le_bytes(low.to_array()),
    )
}
