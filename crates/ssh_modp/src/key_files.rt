//! The files of keys.

ghost use Rattle.std.specs.Prelude.{◌≡◌, ◌⊎◌, IfErr, IfOk, MatchOption, None, Some};
ghost use Rattle.ssh_wire.specs.declared.error.Error.TheVariants.{Memory};
ghost use Rattle.ssh_modp.specs.KeyFiles.{NamesHost, NamesNone, armoured, base64_bytes, exponent_of, key_in, key_of_bytes, one_in_clear, outer_at, private_at};

use crate::hosts::RsaKey;
use base64::DecodeAllocError;
use base64::engine::general_purpose::STANDARD;
use ssh_lines::{Words, cut};
use ssh_wire::{Blob, EncodingFault, Error, Reader};
use std::alloc::{AllocError, Global};

/// What stands before the fields of a private key (OpenSSH's PROTOCOL.key).
const MAGIC: &[u8] = b"openssh-key-v1\0";

/// The type of an RSA key (RFC 4253 section 6.6).
const RSA: &[u8] = b"ssh-rsa";

/// The file isn't a key of this form.
const NO_KEY: Error = Error::SshEncoding(EncodingFault::CharacterEncoding);

/// The bytes that a text in base64 stands for. Fails with `SshEncoding(CharacterEncoding)` if it isn't base64, or with
/// `Memory`.
fn decoded(alloc: Global, text: &[u8]) -> Result<Vec<u8>, Error>
    ensures decoded { IfOk result (λ v. base64_bytes text.now ≡ Some v.items) }
    ensures faulty { IfErr result (λ e. (e ≡ Memory) ⊎ (base64_bytes text.now ≡ None)) }
{
    match STANDARD.decode(alloc, text) {
        Ok(bytes) => Ok(bytes),
        Err(DecodeAllocError::OutOfMemory) => Err(Error::Memory),
        Err(_) => Err(NO_KEY),
    }
}

/// The text of a file without the lines that begin with a dash, and without line ends.
fn armoured(alloc: Global, text: &[u8]) -> Result<Vec<u8>, AllocError>
    ensures { IfOk result (λ v. v.items ≡ armoured text.now) }
{
    let mut body = Vec::new(alloc);
    let mut begins = true;
    let mut skips = false;
    for byte in text {
        if begins {
            skips = *byte == b'-';
        }
        begins = *byte == b'\n';
        if !begins && !skips && *byte != b'\r' {
            body.push(*byte)?;
        }
    }
    Ok(body)
}

/// The RSA key of a private key's file in OpenSSH's own form, without a passphrase. Fails with `SshEncoding` if the file
/// isn't one, or with `Memory`. Whether the private exponent belongs to the public key isn't tested here, since a key
/// signs nothing that its public key doesn't accept.
pub fn private_key(alloc: Global, text: &[u8]) -> Result<RsaKey, Error>
    ensures key { IfOk result (λ k. key_in text.now ≡ Some k) }
    ensures faulty { IfErr result (λ e. (e ≡ Memory) ⊎ (key_in text.now ≡ None)) }
{
    let body = armoured(alloc, text)?;
    let bytes = decoded(alloc, body.as_slice())?;
    let Some((blob, exponent)) = key_fields(bytes.as_slice()) else {
        return Err(NO_KEY);
    };
    Ok(RsaKey {
        blob: Blob::copy_of(alloc, blob)?,
        private: Blob::copy_of(alloc, exponent)?,
    })
}

/// The public key's blob and the private exponent of a file's bytes.
fn key_fields<'a>(bytes: &'a [u8]) -> Option<(&'a [u8], &'a [u8])>
    ensures { MatchOption result (key_of_bytes bytes.now ≡ None)
        (λ k. key_of_bytes bytes.now ≡ Some (record { blob = k.0.now; private = k.1.now })) }
{
    let fields = bytes.strip_prefix(MAGIC)?;
    let (blob, private) = outer_fields(fields).ok()?;
    let exponent = private_exponent(private).ok()?;
    Some((blob, exponent))
}

/// The public key's blob and the private part of a file of one key that isn't encrypted.
fn outer_fields<'a>(fields: &'a [u8]) -> Result<(&'a [u8], &'a [u8]), Error>
    ensures ok { IfOk result (λ v. one_in_clear (outer_at fields.now) ≡ Some (v.0.now, v.1.now)) }
    ensures err { IfErr result (λ _. one_in_clear (outer_at fields.now) ≡ None) }
{
    let mut r = Reader::new(fields);
    let cipher = r.read_string()?;
    let _derivation = r.read_string()?;
    let _options = r.read_string()?;
    let count = r.read_u32()?;
    let blob = r.read_string()?;
    let private = r.read_string()?;
    if cipher == b"none".as_slice() && count == 1 {
        Ok((blob, private))
    } else {
        Err(NO_KEY)
    }
}

/// The private exponent of an RSA key's private part.
fn private_exponent<'a>(private: &'a [u8]) -> Result<&'a [u8], Error>
    ensures ok { IfOk result (λ exponent. exponent_of (private_at private.now) ≡ Some exponent.now) }
    ensures err { IfErr result (λ _. exponent_of (private_at private.now) ≡ None) }
{
    let mut r = Reader::new(private);
    let check = r.read_u32()?;
    let again = r.read_u32()?;
    let kind = r.read_string()?;
    let _modulus = r.read_mpint()?;
    let _public = r.read_mpint()?;
    let exponent = r.read_mpint()?;
    if check == again && kind == RSA {
        Ok(exponent)
    } else {
        Err(NO_KEY)
    }
}

/// The blob of an RSA key, from the first line of its public key's file. Fails with `SshEncoding` if the file isn't one,
/// or with `Memory`.
pub fn known_blob(alloc: Global, text: &[u8]) -> Result<Blob, Error>
    ensures named { IfOk result (NamesHost text.now) }
    ensures faulty { IfErr result (λ e. (e ≡ Memory) ⊎ NamesNone text.now) }
{
    let (line, _behind) = cut(text, b'\n');
    let mut words = Words::of(line);
    let Some(kind) = words.take() else {
        return Err(NO_KEY);
    };
    if kind != RSA {
        return Err(NO_KEY);
    }
    let Some(blob) = words.take() else {
        return Err(NO_KEY);
    };
    Ok(Blob::new(decoded(alloc, blob)?))
}
