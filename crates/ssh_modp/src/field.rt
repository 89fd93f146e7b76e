//! Values and secrets of a key agreement in a finite field (RFC 4253 section 8, RFC 4419 section 3).

ghost use Rattle.std.specs.Prelude.{◌≡◌, ◌≤◌, ◌+◌, ℕ, List, length, IfOk, OnOk, None, true, false};
ghost use Rattle.rand_core.specs.Stream.{fill_bytes};
ghost use Rattle.ssh_wire.specs.Fields.{is_shortest};
ghost use Rattle.ssh_wire.specs.Forms.{AreBytes, magnitude, number, unsigned};
ghost use Rattle.ssh_kex.specs.Parts.{IsRefused, IsSmall};
ghost use Rattle.ssh_power.specs.Moduli.{modulus_fault};
ghost use Rattle.ssh_power.specs.Numbers.{power_modulo};
ghost use Rattle.ssh_modp.specs.Fields.{AgreedBy, DrawsZero, HasPublicValue, SpellsSecret, field_power, is_public_value};

use rand_core::Rng;
use ssh_kex::{Agreed, Refusal, Started};
use ssh_power::{Modulus, ModulusError, is_less};
use ssh_wire::{Blob, mpint_parts};
use std::alloc::{AllocError, Global};

/// How many bytes an exponent has: twice as many bits as the strength of the largest fixed group asks for.
const EXPONENT: usize = 64;

/// The prime as a modulus. Refused where it is even, 0, 1 or of over 8192 bits.
fn modulus_of(alloc: Global, prime: &[u8]) -> Result<Modulus, Refusal>
    ensures value { IfOk result (λ m. m ≡ magnitude prime.now) }
    ensures short { IfOk result (λ m. IsSmall m) }
    ensures taken { IfOk result (λ _. modulus_fault (number prime.now) ≡ None) }
    ensures refused { IsRefused result → ¬ (modulus_fault (number prime.now) ≡ None) }
{
    match Modulus::new(alloc, prime) {
        Ok(modulus) => Ok(modulus),
        Err(ModulusError::Memory) => Err(Refusal::Memory),
        Err(_) => Err(Refusal::Refused),
    }
}

/// A number as the body of an mpint. Memory.
fn mpint_body(alloc: Global, bytes: &[u8]) -> Result<Blob, AllocError>
    ensures value { IfOk result (λ b. b ≡ unsigned (magnitude bytes.now)) }
    ensures short { IfOk result (λ b. length b ≤ length bytes.now + 1) }
{
    let (sign, digits) = mpint_parts(bytes);
    let mut body = Vec::new(alloc);
    body.extend_from_slice(sign)?;
    body.extend_from_slice(digits)?;
    Ok(Blob::new(body))
}

/// Whether bytes are the body of an mpint (RFC 4251 section 5): the first bit isn't set, and a zero byte at the front
/// stands before one whose first bit is.
fn is_mpint_body(bytes: &[u8]) -> bool
    ensures { result ≡ is_shortest bytes.now }
{
    match bytes {
        [] => true,
        [byte] => 0 < *byte && *byte < 128,
        [first, second, ..] => *first < 128 && (0 < *first || 128 <= *second),
    }
}

/// Whether bytes may stand as a public value: the body of an mpint, of a number from 1 on and below the modulus.
fn is_public_value(modulus: &Modulus, public: &[u8]) -> bool
    ensures { result ≡ is_public_value (number modulus.now) public.now }
{
    is_mpint_body(public) && is_less(&[], public) && is_less(public, modulus.as_bytes())
}

/// What a side keeps and sends: an exponent of 64 drawn bytes, and the generator's power. Refused where the prime is no
/// odd number from 3 on of at most 8192 bits, and where the power is 0. Memory.
pub(crate) fn own_value<R: Rng>(
    alloc: Global,
    prime: &[u8],
    generator: &[u8],
    rng: &mut R,
) -> Result<Started, Refusal>
    ensures drawn { IfOk result (λ v. (v.local, R.stream rng.new) ≡ fill_bytes 64 (R.stream rng.old)) }
    ensures value { IfOk result (λ v. HasPublicValue (record { prime = prime.now; generator = generator.now })
        v.local v.public) }
    ensures refused { IsRefused result → modulus_fault (number prime.now) ≡ None
        → DrawsZero (record { prime = prime.now; generator = generator.now }) (R.stream rng.old) }
    ensures small { IfOk result (λ v. IsSmall v.local × IsSmall v.public) }
{
    let modulus = modulus_of(alloc, prime)?;
    let mut exponent = [0; EXPONENT];
    rng.fill_bytes(&mut exponent);
    let Ok(power) = modulus.power(alloc, generator, &exponent) else {
        return Err(Refusal::Memory);
    };
    if !is_less(&[], power.as_slice()) {
        return Err(Refusal::Refused);
    }
    let Ok(public) = mpint_body(alloc, power.as_slice()) else {
        return Err(Refusal::Memory);
    };
    let Ok(local) = Blob::copy_of(alloc, &exponent) else {
        return Err(Refusal::Memory);
    };
    Ok(Started { public, local })
}

/// These bytes.
pub(crate) fn blob_of(bytes: Vec<u8>) -> Blob
    ensures value { result ≡ bytes.items }
    ensures digits { AreBytes result }
{
    Blob::new(bytes)
}

/// The secret that an exponent makes of the other side's public value: as many bytes as the prime has without zeros at
/// its front. Refused where the prime is no odd number from 3 on of at most 8192 bits, where the value isn't the body
/// of an mpint, and where its number is 0 or not below the prime. Memory.
pub(crate) fn secret_of(
    alloc: Global,
    prime: &[u8],
    exponent: &[u8],
    public: &[u8],
) -> Result<Blob, Refusal>
    ensures secret { IfOk result (λ b. (g : List ℕ) → SpellsSecret (record { prime = prime.now; generator = g }) b
        (field_power (record { prime = prime.now; generator = g }) public.now exponent.now)) }
    ensures taken { OnOk result (is_public_value (number prime.now) public.now ≡ true) }
    ensures refused { IsRefused result → modulus_fault (number prime.now) ≡ None
        → is_public_value (number prime.now) public.now ≡ false }
    ensures small { IfOk result (λ b. IsSmall b) }
{
    let modulus = modulus_of(alloc, prime)?;
    if !is_public_value(&modulus, public) {
        return Err(Refusal::Refused);
    }
    match modulus.power(alloc, public, exponent) {
        Ok(power) => Ok(blob_of(power)),
        Err(_) => Err(Refusal::Memory),
    }
}

/// A server's value, and the secret that its exponent makes of a client's. Refused as each of both. Memory.
pub(crate) fn agreed_in<R: Rng>(
    alloc: Global,
    prime: &[u8],
    generator: &[u8],
    client_public: &[u8],
    rng: &mut R,
) -> Result<Agreed, Refusal>
    ensures agreed { IfOk result (λ v. AgreedBy (record { prime = prime.now; generator = generator.now })
        client_public.now (R.stream rng.old) v.public v.secret (R.stream rng.new)) }
    ensures refused { IsRefused result → modulus_fault (number prime.now) ≡ None
        → is_public_value (number prime.now) client_public.now ≡ true
        → DrawsZero (record { prime = prime.now; generator = generator.now }) (R.stream rng.old) }
    ensures small { IfOk result (λ v. IsSmall v.public × IsSmall v.secret) }
{
    let Started { public, local } = own_value(alloc, prime, generator, rng)?;
    let secret = secret_of(alloc, prime, local.as_slice(), client_public)?;
    Ok(Agreed { public, secret })
}
