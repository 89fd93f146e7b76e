//! Lists of names, as a script spells them.

ghost use Rattle.std.specs.Prelude.{◌≡◌, IfOk};
ghost use Rattle.std.specs.Option.{option_map};
ghost use Rattle.ssh_script.specs.RunScript.{named_by, all_named, list_of};
ghost use Rattle.ssh_lines.specs.Lines.{pieces};

use ssh_lines::cut;
use ssh_negotiate::{AsName, kex};
use ssh_packet::cipher;
use ssh_wire::{Algorithm, EcdsaCurve, HashAlg};
use std::alloc::{AllocError, Global};

const NO_NAMES: &[u8] = b"-";

/// The names of key exchanges and of extensions.
pub(crate) const KEX_NAMES: [kex::Name; 20] = [
    kex::MLKEM768X25519_SHA256,
    kex::CURVE25519,
    kex::CURVE25519_PRE_RFC_8731,
    kex::DH_GEX_SHA1,
    kex::DH_GEX_SHA256,
    kex::DH_G1_SHA1,
    kex::DH_G14_SHA1,
    kex::DH_G14_SHA256,
    kex::DH_G15_SHA512,
    kex::DH_G16_SHA512,
    kex::DH_G17_SHA512,
    kex::DH_G18_SHA512,
    kex::ECDH_SHA2_NISTP256,
    kex::ECDH_SHA2_NISTP384,
    kex::ECDH_SHA2_NISTP521,
    kex::NONE,
    kex::EXTENSION_SUPPORT_AS_CLIENT,
    kex::EXTENSION_SUPPORT_AS_SERVER,
    kex::EXTENSION_OPENSSH_STRICT_KEX_AS_CLIENT,
    kex::EXTENSION_OPENSSH_STRICT_KEX_AS_SERVER,
];

/// The names of host key algorithms.
pub(crate) const HOST_KEY_NAMES: [Algorithm; 7] = [
    Algorithm::Ed25519,
    Algorithm::Ecdsa(EcdsaCurve::NistP256),
    Algorithm::Ecdsa(EcdsaCurve::NistP384),
    Algorithm::Ecdsa(EcdsaCurve::NistP521),
    Algorithm::Rsa(Some(HashAlg::Sha512)),
    Algorithm::Rsa(Some(HashAlg::Sha256)),
    Algorithm::Rsa(None),
];

/// The name among these that is spelled so.
pub(crate) fn named<T: AsName + Copy + Drop>(all: &[T], word: &[u8]) -> Option<T>
    ensures { result ≡ named_by T.text all.now word.now }
{
    all.iter()
        .copied()
        .find(|name| name.as_name().as_bytes() == word)
}

/// LIST: names with single commas between, or `-` for none. None where a name isn't one of these.
pub(crate) fn names<T: AsName + Copy + Drop>(
    alloc: Global,
    all: &[T],
    word: &[u8],
) -> Result<Option<Vec<T>>, AllocError>
    ensures { IfOk result (λ names. option_map (λ v. v.items) names ≡ list_of T.text all.now word.now) }
{
    if word == NO_NAMES {
        return Ok(Some(Vec::new(alloc)));
    }
    all_named(alloc, all, word)
}

/// Names with single commas between.
fn all_named<T: AsName + Copy + Drop>(
    alloc: Global,
    all: &[T],
    word: &[u8],
) -> Result<Option<Vec<T>>, AllocError>
    ensures { IfOk result (λ names. option_map (λ v. v.items) names ≡ all_named T.text all.now (pieces 44 word.now)) }
{
    let mut names = Vec::new(alloc);
    let mut rest = Some(word);
    while let Some(list) = rest {
        let (piece, behind) = cut(list, b',');
        let Some(name) = named(all, piece) else {
            return Ok(None);
        };
        names.push(name)?;
        rest = behind;
    }
    Ok(Some(names))
}
