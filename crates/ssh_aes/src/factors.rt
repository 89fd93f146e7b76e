//! Products of polynomials in the field of GHASH (SP 800-38D section 6.3), and what is held of a factor that many
//! others are multiplied by. No place in memory and no branch depends on a polynomial.

ghost use Rattle.std.specs.Prelude.{◌≡◌, ◌<◌, ◌^◌, ◌+◌, ◌*◌, bit_xor};
ghost use Rattle.ssh_aes.specs.Field.{block_modulus, block_product, remainder};
ghost use Rattle.ssh_aes.specs.Halves.{put_together, two_products};

use crate::multiples::{Multiples, halves, sum_of_products};
use std::marker::Model;

/// What is left of a polynomial, given as its higher and its lower 128 coefficients.
fn reduced(high: u128, low: u128) -> u128
    ensures { result ≡ remainder 128 block_modulus 128 (high * 2 ^ 128 + low) }
{
    let folded = high ^ (high >> 127) ^ (high >> 126) ^ (high >> 121);
    low ^ folded ^ (folded << 1) ^ (folded << 2) ^ (folded << 7)
}

/// What is left of the product that three products of halves make up (Karatsuba).
fn joined(low: (u128, u128), high: (u128, u128), both: (u128, u128)) -> u128
    requires low { low.0 < 2 ^ 124 }
    requires high { high.0 < 2 ^ 120 }
    requires both { both.0 < 2 ^ 124 }
    ensures { result ≡ remainder 128 block_modulus 128 (put_together
        (low.0 * 2 ^ 128 + low.1)
        (high.0 * 2 ^ 128 + high.1)
        (both.0 * 2 ^ 128 + both.1)) }
{
    let (l1, l0) = low;
    let (h1, h0) = high;
    let (b1, b0) = both;
    let (m1, m0) = (b1 ^ l1 ^ h1, b0 ^ l0 ^ h0);
    reduced(
        l1 ^ (m1 << 4) ^ (m0 >> 124) ^ (h1 << 8) ^ (h0 >> 120),
        l0 ^ (m0 << 4) ^ (h0 << 8),
    )
}

/// A polynomial with the multiples of the low halves of its bytes, of the high halves, and of the sums of both. A
/// contract sees the polynomial.
#[derive(Clone, Drop)]
pub(crate) struct Factor {
    whole: u128,
    low: Multiples,
    high: Multiples,
    both: Multiples,
}

impl Model for Factor {
    ghost use Rattle.std.specs.Prelude.{ℕ};
    ghost use Rattle.ssh_aes.specs.Halves.{AreParts};

    ghost Value = { ℕ };

    ghost view = { λ f. f.whole };

    ghost invariant = { λ f. AreParts f.whole f.low f.high f.both };
}

impl Factor {
    pub(crate) fn new(whole: u128) -> Factor
        ensures { result ≡ whole }
    {
        let (low, high) = halves(whole);
        Factor {
            whole,
            low: Multiples::new(low),
            high: Multiples::new(high),
            both: Multiples::new(low ^ high),
        }
    }

    /// The product with itself.
    pub(crate) fn square(&self) -> Factor
        ensures { result ≡ block_product self.now self.now }
    {
        Factor::new(self.product(self.whole))
    }

    /// The product with another polynomial.
    pub(crate) fn product(&self, a: u128) -> u128
        ensures { result ≡ block_product a self.now }
    {
        let (l, h) = halves(a);
        joined(
            self.low.product(l),
            self.high.product(h),
            self.both.product(l ^ h),
        )
    }
}

/// The sum of two products, which share the shifts and the reduction.
fn sum_of_two(w: &Factor, x: &Factor, a: u128, b: u128) -> u128
    ensures sum { result ≡ bit_xor (block_product a w.now) (block_product b x.now) }
    ensures first_short { w.now < 2 ^ 128 }
    ensures second_short { x.now < 2 ^ 128 }
{
    let (l0, h0) = halves(a);
    let (l1, h1) = halves(b);
    joined(
        sum_of_products(&w.low, &x.low, (l0, l1)),
        sum_of_products(&w.high, &x.high, (h0, h1)),
        sum_of_products(&w.both, &x.both, (l0 ^ h0, l1 ^ h1)),
    )
}

/// Two steps of the hash under a key by its square, the first from the sum `a`.
pub(crate) fn two_steps(key: &Factor, square: &Factor, a: u128, b: u128) -> u128
    requires { square.now ≡ block_product key.now key.now }
    ensures { result ≡ two_products key.now a b }
{
    sum_of_two(square, key, a, b)
}
