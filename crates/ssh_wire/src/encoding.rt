//! Writing the forms of RFC 4251 section 5.

ghost use Rattle.std.specs.Prelude.{◌≡◌, ◌∷◌, [], ◌++◌, ◌<◌, ◌≤◌, ◌-◌, ◌^◌, ◌+◌, length, vec_len, vec_capacity, OnOk, OnErr, IfErr, IsOk};
ghost use Rattle.ssh_wire.specs.Forms.{u32be, string, mpint, unsigned, magnitude};
ghost use Rattle.ssh_wire.specs.declared.error.Error.TheVariants.{Memory};

use crate::error::Error;
use crate::fields::without_leading_zeros;

/// Appends one byte. Memory leaves `out` as it was.
pub fn put_u8(out: &mut Vec<u8>, v: u8) -> Result<(), Error>
    ensures ok { OnOk result (out.new.items ≡ out.old.items ++ v ∷ []) }
    ensures unchanged { OnErr result (out.new.items ≡ out.old.items) }
    ensures err { IfErr result (λ e. e ≡ Memory) }
    ensures ready { vec_len out.old + 1 ≤ vec_capacity out.old → IsOk result }
    ensures capacity { vec_capacity out.old ≤ vec_capacity out.new }
{
    out.push(v)?;
    Ok(())
}

/// Appends a `uint32`: four bytes, the most significant first. Memory leaves `out` as it was.
pub fn put_u32(out: &mut Vec<u8>, v: u32) -> Result<(), Error>
    ensures ok { OnOk result (out.new.items ≡ out.old.items ++ u32be v) }
    ensures unchanged { OnErr result (out.new.items ≡ out.old.items) }
    ensures err { IfErr result (λ e. e ≡ Memory) }
    ensures ready { vec_len out.old + 4 ≤ vec_capacity out.old → IsOk result }
    ensures capacity { vec_capacity out.old ≤ vec_capacity out.new }
{
    out.extend_from_slice(&v.to_be_bytes())?;
    Ok(())
}

/// Appends a `string`: its length as a `uint32`, then its bytes. Memory leaves `out` as it was.
pub fn put_string(out: &mut Vec<u8>, s: &[u8]) -> Result<(), Error>
    requires { length s.now < 2 ^ 32 }
    ensures ok { OnOk result (out.new.items ≡ out.old.items ++ string s.now) }
    ensures unchanged { OnErr result (out.new.items ≡ out.old.items) }
    ensures err { IfErr result (λ e. e ≡ Memory) }
    ensures ready { vec_len out.old + 4 + length s.now ≤ vec_capacity out.old → IsOk result }
    ensures capacity { vec_capacity out.old ≤ vec_capacity out.new }
{
    out.reserve(4 + s.len())?;
    out.extend_from_slice(&(s.len() as u32).to_be_bytes())?;
    out.extend_from_slice(s)?;
    Ok(())
}

/// Appends an `mpint` of the number that the bytes spell, the most significant first: a `string` without
/// leading zeros, with one zero byte before a first byte of at least 0x80. Memory leaves `out` as it was.
pub fn encode_mpint(s: &[u8], out: &mut Vec<u8>) -> Result<(), Error>
    requires { length s.now < 2 ^ 32 - 1 }
    ensures ok { OnOk result (out.new.items ≡ out.old.items ++ mpint s.now) }
    ensures unchanged { OnErr result (out.new.items ≡ out.old.items) }
    ensures err { IfErr result (λ e. e ≡ Memory) }
    ensures ready { vec_len out.old + length (mpint s.now) ≤ vec_capacity out.old → IsOk result }
    ensures capacity { vec_capacity out.old ≤ vec_capacity out.new }
{
    let (sign, digits) = mpint_parts(s);
    let size = sign.len() + digits.len();
    out.reserve(4 + size)?;
    out.extend_from_slice(&(size as u32).to_be_bytes())?;
    out.extend_from_slice(sign)?;
    out.extend_from_slice(digits)?;
    Ok(())
}

/// What stands in an `mpint` behind its length, in two pieces: the zero byte that keeps the first bit clear, where it
/// is needed, and the number's bytes without leading zeros.
pub fn mpint_parts(bytes: &[u8]) -> (&'static [u8], &[u8])
    ensures body { result.0.now ++ result.1.now ≡ unsigned (magnitude bytes.now) }
    ensures digits { result.1.now ≡ magnitude bytes.now }
    ensures short { length result.0.now ≤ 1 }
    ensures within { length result.1.now ≤ length bytes.now }
{
    let digits = without_leading_zeros(bytes);
    (sign_of(digits), digits)
}

/// The zero byte that keeps the first bit clear, where it is needed.
fn sign_of(digits: &[u8]) -> &'static [u8]
    ensures value { result.now ++ digits.now ≡ unsigned digits.now }
    ensures short { length result.now ≤ 1 }
{
    match digits {
        [first, ..] if *first >= 0x80 => &[0],
        _ => &[],
    }
}
