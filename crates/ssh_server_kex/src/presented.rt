//! The host that a server presents.

ghost use Rattle.std.specs.Prelude.{◌≡◌, ◌&&◌, find};
ghost use Rattle.std.specs.Option.{option_copied};
ghost use Rattle.std.specs.Str.{bytes_eq};
ghost use Rattle.ssh_negotiate.specs.Advertised.{fits, has_key, is_rsa};
ghost use Rattle.ssh_negotiate.specs.declared.preferred.HostKey.{HostKey};
ghost use Rattle.ssh_negotiate.specs.declared.preferred.HostCertificate.{HostCertificate};
ghost use Rattle.ssh_kex.specs.Messages.{presented};
ghost use Rattle.ssh_server_kex.specs.ServerRows.{shown_of};

use ssh_negotiate::{HostCertificate, HostKey, ServerKeys, is_key_compatible_with_algo};
use ssh_wire::{Algorithm, Blob};

/// The key that signs, and the blob that is shown.
#[derive(Clone, Copy, Debug)]
pub(crate) struct PresentedHost<'h> {
    pub(crate) signer: &'h HostKey,
    pub(crate) blob: &'h Blob,
}

/// What a server presents under an algorithm: the first certificate that fits and whose key is there, or the first key
/// that fits.
#[tactic(auto, unfolding(ssh_kex::specs::Messages::presented))]
pub(crate) fn presented(
    hosts: &ServerKeys,
    is_certificate: bool,
    algorithm: Algorithm,
) -> Option<PresentedHost<'_>>
    ensures { shown_of result ≡ presented hosts.now is_certificate algorithm }
{
    let keys = hosts.keys.as_slice();
    if !is_certificate {
        return match fitting_key(keys, algorithm) {
            Some(signer) => Some(PresentedHost {
                signer,
                blob: &signer.blob,
            }),
            None => None,
        };
    }
    let Some(certificate) = fitting_certificate(hosts.certificates.as_slice(), keys, algorithm)
    else {
        return None;
    };
    match key_with(keys, certificate.key_blob.as_slice()) {
        Some(signer) => Some(PresentedHost {
            signer,
            blob: &certificate.blob,
        }),
        None => None,
    }
}

/// The first key that signs under an algorithm.
fn fitting_key(keys: &[HostKey], algorithm: Algorithm) -> Option<&HostKey>
    ensures { option_copied result ≡ find (λ (k : HostKey). fits k.algorithm algorithm) keys.now }
{
    keys.iter()
        .find(|key| is_key_compatible_with_algo(key, algorithm))
}

/// The first key with a blob.
fn key_with<'h>(keys: &'h [HostKey], blob: &[u8]) -> Option<&'h HostKey>
    ensures { option_copied result ≡ find (λ (k : HostKey). bytes_eq k.blob blob.now) keys.now }
{
    keys.iter().find(|key| key.blob.as_slice() == blob)
}

/// The first certificate that fits an algorithm, and whose key is there.
fn fitting_certificate<'h>(
    certificates: &'h [HostCertificate],
    keys: &[HostKey],
    algorithm: Algorithm,
) -> Option<&'h HostCertificate>
    ensures { option_copied result ≡ find (λ (c : HostCertificate). fits c.algorithm algorithm && has_key keys.now c)
        certificates.now }
{
    certificates.iter().find(|certificate| {
        fits(certificate.algorithm, algorithm) && is_key_there(keys, certificate)
    })
}

/// Whether the key of a certificate is there.
fn is_key_there(keys: &[HostKey], certificate: &HostCertificate) -> bool
    ensures { result ≡ has_key keys.now certificate.now }
{
    keys.iter().any(|key| key.blob.as_slice() == certificate.key_blob.as_slice())
}

/// Whether a certificate of an algorithm fits another: all RSA algorithms alike (RFC 8332).
fn fits(certified: Algorithm, algorithm: Algorithm) -> bool
    ensures { result ≡ fits certified algorithm }
{
    (is_rsa(certified) && is_rsa(algorithm)) || certified.as_str() == algorithm.as_str()
}

fn is_rsa(algorithm: Algorithm) -> bool
    ensures { result ≡ is_rsa algorithm }
{
    match algorithm {
        Algorithm::Rsa(_) => true,
        Algorithm::Ed25519 | Algorithm::Ecdsa(_) => false,
    }
}
