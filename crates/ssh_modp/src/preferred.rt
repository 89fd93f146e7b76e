//! What a side offers that has RSA host keys.

ghost use Rattle.std.specs.Prelude.{◌≡◌, ◌||◌, filter, IfErr, IfOk};
ghost use Rattle.ssh_negotiate.specs.Tables.{is_extension};
ghost use Rattle.ssh_modp.specs.Preferred.{is_rsa_sha2, preferences_with};
ghost use Rattle.ssh_wire.specs.declared.error.Error.TheVariants.{Memory};

use ssh_kex::Agreement;
use ssh_negotiate::{Preferred, kex};
use ssh_wire::{Algorithm, Error};
use std::alloc::{AllocError, Global};

/// The default preferences with only those names that `RsaHosts` and the key agreement have: of the key exchanges those
/// that the agreement offers, and the host key algorithms `rsa-sha2-512` and `rsa-sha2-256`. The names of extensions and
/// all other lists stay. Fails with `Memory`.
///
/// If the agreement offers none of the default key exchanges, only names of extensions are left, and no exchange can be
/// negotiated.
pub fn preferred_for<A: Agreement>(alloc: Global, agreement: &A) -> Result<Preferred, Error>
    ensures made { IfOk result (λ p. p ≡ preferences_with (A.offered agreement.now)) }
    ensures err { IfErr result (λ e. e ≡ Memory) }
{
    let Preferred {
        kex,
        key,
        host_key_certificates,
        cipher,
        mac,
        compression,
    } = Preferred::default(alloc)?;
    Ok(Preferred {
        kex: offered_by(alloc, agreement, kex.as_slice())?,
        key: of_rsa(alloc, key.as_slice())?,
        host_key_certificates,
        cipher,
        mac,
        compression,
    })
}

/// The extension names, and the key exchanges that the agreement offers.
fn offered_by<A: Agreement>(
    alloc: Global,
    agreement: &A,
    names: &[kex::Name],
) -> Result<Vec<kex::Name>, AllocError>
    ensures { IfOk result (λ v. v.items ≡ filter (λ name. is_extension name || A.offered agreement.now name)
        names.now) }
{
    names
        .iter()
        .copied()
        .filter(|name| is_extension(*name) || agreement.offers(*name))
        .collect(alloc)
}

/// Whether it is an extension name, which is no key exchange.
#[tactic(auto, unfolding(ssh_negotiate::specs::Tables::is_extension))]
fn is_extension(name: kex::Name) -> bool
    ensures { result ≡ is_extension name }
{
    matches!(
        name,
        kex::EXTENSION_SUPPORT_AS_CLIENT
            | kex::EXTENSION_SUPPORT_AS_SERVER
            | kex::EXTENSION_OPENSSH_STRICT_KEX_AS_CLIENT
            | kex::EXTENSION_OPENSSH_STRICT_KEX_AS_SERVER
    )
}

/// The algorithms under which RSA keys sign.
fn of_rsa(alloc: Global, algorithms: &[Algorithm]) -> Result<Vec<Algorithm>, AllocError>
    ensures { IfOk result (λ v. v.items ≡ filter is_rsa_sha2 algorithms.now) }
{
    algorithms
        .iter()
        .copied()
        .filter(|algorithm| matches!(algorithm, Algorithm::Rsa(Some(_))))
        .collect(alloc)
}
