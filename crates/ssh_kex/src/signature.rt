//! The canonical form of ECDSA signatures (RFC 5656 section 3.1.2).

ghost use Rattle.std.specs.Prelude.{◌≡◌, ◌++◌, ◌≤◌, ◌<◌, ◌+◌, ◌^◌, length, IfOk, IfErr, IfSome};
ghost use Rattle.ssh_wire.specs.Forms.{mpint, string};
ghost use Rattle.ssh_wire.specs.declared.error.Error.TheVariants.{Memory};
ghost use Rattle.ssh_kex.specs.Signature.{AreStrings, canonical_form, is_ecdsa};

use ssh_wire::{Blob, Error, Reader, encode_mpint, put_string};
use std::alloc::Global;
use std::str;

/// The beginning of each name of an ECDSA algorithm.
const ECDSA: &str = "ecdsa-sha2-";

/// The canonical form of an ECDSA signature: its name, and a string of both numbers, each written anew as an `mpint`.
/// None where the blob is no such signature: its name is another or isn't UTF-8, something is cut short or stands
/// behind, or there are not exactly two numbers. Memory.
pub fn canonicalize_ecdsa_signature(alloc: Global, blob: &[u8]) -> Result<Option<Blob>, Error>
    requires { length blob.now < 2 ^ 32 }
    ensures exact { IfOk result (λ form. form ≡ canonical_form blob.now) }
    ensures err { IfErr result (λ e. e ≡ Memory) }
{
    let Some((name, scalars)) = two_strings(blob) else {
        return Ok(None);
    };
    if !is_ecdsa_name(name) {
        return Ok(None);
    }
    match two_strings(scalars) {
        Some((r, s)) => Ok(Some(signature_of(alloc, name, r, s)?)),
        None => Ok(None),
    }
}

/// The two strings that bytes are, with nothing behind them.
fn two_strings(bytes: &[u8]) -> Option<(&[u8], &[u8])>
    ensures value { AreStrings bytes.now result }
    ensures short { IfSome result (λ p. length p.0.now + length p.1.now + 8 ≤ length bytes.now) }
{
    let mut reader = Reader::new(bytes);
    let Ok(first) = reader.read_string() else {
        return None;
    };
    let Ok(second) = reader.read_string() else {
        return None;
    };
    if reader.remaining_len() > 0 {
        return None;
    }
    Some((first, second))
}

/// Whether it is the name of an ECDSA algorithm.
fn is_ecdsa_name(name: &[u8]) -> bool
    ensures { result ≡ is_ecdsa name.now }
{
    name.starts_with(ECDSA.as_bytes()) && str::from_utf8(name).is_ok()
}

/// A signature of a name and two numbers. Memory.
fn signature_of(alloc: Global, name: &[u8], r: &[u8], s: &[u8]) -> Result<Blob, Error>
    requires name { length name.now < 2 ^ 32 }
    requires scalars { length r.now + length s.now + 16 ≤ 2 ^ 32 }
    ensures ok { IfOk result (λ b. b ≡ string name.now ++ string (mpint r.now ++ mpint s.now)) }
    ensures err { IfErr result (λ e. e ≡ Memory) }
{
    let mut scalars = Vec::new(alloc);
    encode_mpint(r, &mut scalars)?;
    encode_mpint(s, &mut scalars)?;
    let mut signature = Vec::new(alloc);
    put_string(&mut signature, name)?;
    put_string(&mut signature, scalars.as_slice())?;
    Ok(Blob::new(signature))
}
