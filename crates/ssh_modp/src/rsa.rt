//! RSA signatures (RFC 8017 sections 8.2 and 9.2, RFC 8332).

ghost use Rattle.std.specs.Prelude.{◌≡◌, ◌≤◌, ◌++◌, ◌==◌, length, replicate, OnOk, true, false, IfOk, IfErr, IfSome, Some, None, Ok};
ghost use Rattle.ssh_mac.specs.Digests.{digest_of};
ghost use Rattle.ssh_wire.specs.Algorithms.{hash_of};
ghost use Rattle.ssh_wire.specs.Forms.{magnitude, number};
ghost use Rattle.ssh_kex.specs.Agreeing.{lent_bytes};
ghost use Rattle.ssh_kex.specs.Parts.{IsSmall, IsValue};
ghost use Rattle.ssh_power.specs.Moduli.{modulus_fault};
ghost use Rattle.ssh_modp.specs.Keys.{key_seen};
ghost use Rattle.ssh_modp.specs.Rsa.{IsOwnSignature, IsRsaBlob, LacksSignature, accepts_blobs, digest_info, digest_kind};
ghost use Rattle.ssh_modp.specs.Rsa.{encoded_message, has_message, rsa_key, rsa_signature, verifies};

use crate::field::blob_of;
use ssh_mac::{DigestKind, HashValue, Hasher};
use ssh_power::{Modulus, ModulusError, is_less};
use ssh_wire::{Algorithm, Blob, Error, HashAlg, Reader, put_string};
use std::alloc::{AllocError, Global};

/// What stands before a digest of SHA-256 (RFC 8017 section 9.2, note 1).
const INFO_256: [u8; 19] = [
    0x30, 0x31, 0x30, 0x0d, 0x06, 0x09, 0x60, 0x86, 0x48, 0x01, 0x65, 0x03, 0x04, 0x02, 0x01, 0x05,
    0x00, 0x04, 0x20,
];

/// What stands before a digest of SHA-512.
const INFO_512: [u8; 19] = [
    0x30, 0x51, 0x30, 0x0d, 0x06, 0x09, 0x60, 0x86, 0x48, 0x01, 0x65, 0x03, 0x04, 0x02, 0x03, 0x05,
    0x00, 0x04, 0x40,
];

/// The fewest bytes of ones in an encoded message, and the three bytes beside them.
const LEAST_BESIDE: usize = 11;

/// The form before the digests of a hash.
fn info_of(hash: HashAlg) -> &'static [u8]
    ensures { result.now ≡ digest_info hash }
{
    match hash {
        HashAlg::Sha256 => &INFO_256,
        HashAlg::Sha512 => &INFO_512,
    }
}

/// The digest of a text.
fn digest_of(hash: HashAlg, text: &[u8]) -> HashValue
    ensures { result ≡ digest_of (digest_kind hash) text.now }
{
    let mut hasher = Hasher::new(match hash {
        HashAlg::Sha256 => DigestKind::Sha256,
        HashAlg::Sha512 => DigestKind::Sha512,
    });
    hasher.update(text);
    hasher.finalize()
}

/// The encoded message of so many bytes (EMSA-PKCS1-v1_5). None where they are too few for eight bytes of ones. Memory.
fn encoded(
    alloc: Global,
    hash: HashAlg,
    text: &[u8],
    size: usize,
) -> Result<Option<Vec<u8>>, AllocError>
    ensures few { result ≡ Ok None → has_message hash text.now size ≡ false }
    ensures message { IfOk result (λ m. IfSome m (λ v. (has_message hash text.now size ≡ true)
        × (v.items ≡ encoded_message hash text.now size))) }
{
    let info = info_of(hash);
    let digest = digest_of(hash, text);
    let digest = digest.as_bytes();
    let used = info.len() + digest.len();
    if size < used + LEAST_BESIDE {
        return Ok(None);
    }
    let mut message = Vec::new(alloc);
    message.extend_from_slice(&[0, 1])?;
    put_ones(alloc, &mut message, size - used - 3)?;
    message.push(0)?;
    message.extend_from_slice(info)?;
    message.extend_from_slice(digest)?;
    Ok(Some(message))
}

/// Appends so many bytes of ones. Memory.
fn put_ones(alloc: Global, out: &mut Vec<u8>, count: usize) -> Result<(), AllocError>
    ensures { OnOk result (out.new.items ≡ out.old.items ++ replicate count 0xff) }
{
    let ones = vec![in alloc; 0xff; count]?;
    out.extend_from_slice(ones.as_slice())
}

/// Whether a signature is that of a text under a public key. The modulus has no zeros at its front. Memory.
pub(crate) fn verifies(
    alloc: Global,
    hash: HashAlg,
    text: &[u8],
    exponent: &[u8],
    modulus: &[u8],
    signature: &[u8],
) -> Result<bool, AllocError>
    requires { magnitude modulus.now ≡ modulus.now }
    ensures { IfOk result (λ b. b ≡ verifies hash text.now (record {
      exponent = exponent.now;
      modulus = modulus.now;
    }) signature.now) }
{
    let field = match Modulus::new(alloc, modulus) {
        Ok(field) => field,
        Err(ModulusError::Memory) => return Err(AllocError),
        Err(_) => return Ok(false),
    };
    let Some(message) = encoded(alloc, hash, text, modulus.len())? else {
        return Ok(false);
    };
    if signature.len() != modulus.len() {
        return Ok(false);
    }
    if !is_less(signature, modulus) {
        return Ok(false);
    }
    let power = field.power(alloc, signature, exponent)?;
    Ok(is_same(power.as_slice(), message.as_slice()))
}

/// Whether bytes spell one number.
fn is_same(a: &[u8], b: &[u8]) -> bool
    ensures { result ≡ (number a.now == number b.now) }
{
    !is_less(a, b) && !is_less(b, a)
}

/// The exponent and the modulus of a public key's blob. None where it is no blob of an RSA key (RFC 4253 section 6.6).
pub(crate) fn rsa_key(blob: &[u8]) -> Option<(&[u8], &[u8])>
    ensures value { key_seen result ≡ rsa_key blob.now }
    ensures shortest { IfSome result (λ k. magnitude k.1.now ≡ k.1.now) }
{
    match key_of(blob) {
        Ok(key) => Some(key),
        Err(_) => None,
    }
}

fn key_of(blob: &[u8]) -> Result<(&[u8], &[u8]), Error>
    ensures ok { IfOk result (λ k. rsa_key blob.now ≡ Some (record { exponent = k.0.now; modulus = k.1.now })) }
    ensures shortest { IfOk result (λ k. magnitude k.1.now ≡ k.1.now) }
    ensures err { IfErr result (λ _. rsa_key blob.now ≡ None) }
{
    let mut fields = Reader::new(blob);
    let name = fields.read_string()?;
    let exponent = fields.read_mpint()?;
    let modulus = fields.read_mpint()?;
    fields.ensure_end()?;
    if name == b"ssh-rsa".as_slice() {
        Ok((exponent, modulus))
    } else {
        Err(Error::Inconsistent)
    }
}

/// The signature in a blob. None where it is no blob of a signature of this algorithm.
pub(crate) fn rsa_signature(algorithm: Algorithm, blob: &[u8]) -> Option<&[u8]>
    ensures { lent_bytes result ≡ rsa_signature algorithm blob.now }
{
    match signature_of(algorithm, blob) {
        Ok(signature) => Some(signature),
        Err(_) => None,
    }
}

fn signature_of(algorithm: Algorithm, blob: &[u8]) -> Result<&[u8], Error>
    ensures ok { IfOk result (λ s. rsa_signature algorithm blob.now ≡ Some s.now) }
    ensures err { IfErr result (λ _. rsa_signature algorithm blob.now ≡ None) }
{
    let mut fields = Reader::new(blob);
    let name = fields.read_string()?;
    let signature = fields.read_string()?;
    fields.ensure_end()?;
    if name == algorithm.as_str().as_bytes() {
        Ok(signature)
    } else {
        Err(Error::Inconsistent)
    }
}

/// The hash of an algorithm's signatures. None where it isn't RSA, or where no hash is named (`ssh-rsa`).
pub(crate) fn hash_of(algorithm: Algorithm) -> Option<HashAlg>
    ensures { result ≡ hash_of algorithm }
{
    match algorithm {
        Algorithm::Rsa(hash) => hash,
        Algorithm::Ed25519 | Algorithm::Ecdsa(_) => None,
    }
}

/// Whether a host's signature of a text is right. Memory.
pub(crate) fn accepts(
    alloc: Global,
    blob: &[u8],
    algorithm: Algorithm,
    text: &[u8],
    signature: &[u8],
) -> Result<bool, AllocError>
    ensures { IfOk result (λ b. b ≡ accepts_blobs blob.now algorithm text.now signature.now) }
{
    let Some(hash) = hash_of(algorithm) else {
        return Ok(false);
    };
    let Some((exponent, modulus)) = rsa_key(blob) else {
        return Ok(false);
    };
    let Some(signature) = rsa_signature(algorithm, signature) else {
        return Ok(false);
    };
    verifies(alloc, hash, text, exponent, modulus, signature)
}

/// The signature of a text under a private key, as a blob: tested under the public key. None where the key's blob or
/// the algorithm is none of RSA, and where the test fails. Memory.
pub(crate) fn signature_blob(
    alloc: Global,
    blob: &[u8],
    private: &[u8],
    algorithm: Algorithm,
    text: &[u8],
) -> Result<Option<Blob>, Error>
    ensures right { IfOk result (λ s. IfSome s (λ b. accepts_blobs blob.now algorithm text.now b ≡ true)) }
    ensures small { IfOk result (λ s. IfSome s (λ b. IsSmall b)) }
    ensures value { IfOk result (λ s. IfSome s (λ b. IsValue b)) }
    ensures form { IfOk result (λ s. IfSome s (λ b. IsRsaBlob algorithm b)) }
    ensures none { result ≡ Ok None → LacksSignature blob.now private.now algorithm text.now }
{
    let Some(hash) = hash_of(algorithm) else {
        return Ok(None);
    };
    let Some((_, modulus)) = rsa_key(blob) else {
        return Ok(None);
    };
    let Some(power) = private_power(alloc, hash, modulus, private, text)? else {
        return Ok(None);
    };
    let mut signature = Vec::new(alloc);
    put_string(&mut signature, algorithm.as_str().as_bytes())?;
    put_string(&mut signature, power.as_slice())?;
    if accepts(alloc, blob, algorithm, text, signature.as_slice())? {
        Ok(Some(Blob::new(signature)))
    } else {
        Ok(None)
    }
}

/// The power of the encoded message, as many bytes as the modulus has: at most 1024. None where the modulus is none, or
/// where it is too short for the message. The modulus has no zeros at its front. Memory.
fn private_power(
    alloc: Global,
    hash: HashAlg,
    modulus: &[u8],
    private: &[u8],
    text: &[u8],
) -> Result<Option<Blob>, AllocError>
    requires { magnitude modulus.now ≡ modulus.now }
    ensures short { IfOk result (λ p. IfSome p (λ b. length b ≤ 1024)) }
    ensures own { IfOk result (λ p. IfSome p (λ b. IsOwnSignature hash text.now modulus.now private.now b)) }
    ensures none { result ≡ Ok None → modulus_fault (number modulus.now) ≡ None
        → has_message hash text.now (length modulus.now) ≡ false }
{
    let field = match Modulus::new(alloc, modulus) {
        Ok(field) => field,
        Err(ModulusError::Memory) => return Err(AllocError),
        Err(_) => return Ok(None),
    };
    let Some(message) = encoded(alloc, hash, text, modulus.len())? else {
        return Ok(None);
    };
    let power = field.power(alloc, message.as_slice(), private)?;
    Ok(Some(blob_of(power)))
}
