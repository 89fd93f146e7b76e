//! The host that a server presents.

ghost use Rattle.std.specs.Prelude.{◌≡◌, ◌&&◌, false, find, true};
ghost use Rattle.std.specs.Option.{option_copied};
ghost use Rattle.std.specs.Str.{bytes_eq};
ghost use Rattle.ssh_negotiate.specs.Advertised.{fits, has_key, is_rsa};
ghost use Rattle.ssh_negotiate.specs.declared.preferred.HostKey.{HostKey};
ghost use Rattle.ssh_negotiate.specs.declared.preferred.HostCertificate.{HostCertificate};
ghost use Rattle.ssh_kex.specs.Messages.{presented};
ghost use Rattle.ssh_rules.specs.Headline.{blob_in, blob_shown};

use ssh_kex::Config;
use ssh_negotiate::{HostCertificate, HostKey, Names, ServerKeys, is_key_compatible_with_algo};
use ssh_wire::Algorithm;

/// The blob that a server presents under the names: that of the first certificate that fits and whose key is there, or
/// of the first key that fits.
pub fn blob_shown<'h>(config: &'h Config, names: &Names) -> Option<&'h [u8]>
    ensures { option_copied result ≡ blob_shown config.now names.now }
{
    if names.host_key_is_certificate {
        certificate_shown(&config.host, names.key)
    } else {
        key_shown(&config.host, names.key)
    }
}

/// The blob of the first key that fits.
fn key_shown(hosts: &ServerKeys, algorithm: Algorithm) -> Option<&[u8]>
    ensures { option_copied result ≡ blob_in (presented hosts.now false algorithm) }
{
    match fitting_key(hosts.keys.as_slice(), algorithm) {
        Some(key) => Some(key.blob.as_slice()),
        None => None,
    }
}

/// The blob of the first certificate that fits and whose key is there.
fn certificate_shown(hosts: &ServerKeys, algorithm: Algorithm) -> Option<&[u8]>
    ensures { option_copied result ≡ blob_in (presented hosts.now true algorithm) }
{
    let keys = hosts.keys.as_slice();
    match fitting_certificate(hosts.certificates.as_slice(), keys, algorithm) {
        Some(certificate) => Some(certificate.blob.as_slice()),
        None => None,
    }
}

/// The first key that signs under an algorithm.
fn fitting_key(keys: &[HostKey], algorithm: Algorithm) -> Option<&HostKey>
    ensures { option_copied result ≡ find (λ (k : HostKey). fits k.algorithm algorithm) keys.now }
{
    keys.iter()
        .find(|key| is_key_compatible_with_algo(key, algorithm))
}

/// The first certificate that fits an algorithm, and whose key is there.
fn fitting_certificate<'h>(
    certificates: &'h [HostCertificate],
    keys: &[HostKey],
    algorithm: Algorithm,
) -> Option<&'h HostCertificate>
    ensures { option_copied result ≡ find (λ (c : HostCertificate). fits c.algorithm algorithm && has_key keys.now c)
        certificates.now }
{
    certificates.iter().find(|certificate| {
        fits(certificate.algorithm, algorithm) && is_key_there(keys, certificate)
    })
}

/// Whether the key of a certificate is there.
fn is_key_there(keys: &[HostKey], certificate: &HostCertificate) -> bool
    ensures { result ≡ has_key keys.now certificate.now }
{
    keys.iter().any(|key| key.blob.as_slice() == certificate.key_blob.as_slice())
}

/// Whether a certificate of an algorithm fits another: all RSA algorithms alike (RFC 8332).
fn fits(certified: Algorithm, algorithm: Algorithm) -> bool
    ensures { result ≡ fits certified algorithm }
{
    (is_rsa(certified) && is_rsa(algorithm)) || certified.as_str() == algorithm.as_str()
}

fn is_rsa(algorithm: Algorithm) -> bool
    ensures { result ≡ is_rsa algorithm }
{
    match algorithm {
        Algorithm::Rsa(_) => true,
        Algorithm::Ed25519 | Algorithm::Ecdsa(_) => false,
    }
}
