//! What a side offers (RFC 4253 section 7.1): names of key exchanges and of host keys.

ghost use Rattle.std.specs.Prelude.{◌≡◌, ◌++◌, not, filter, map, IfOk, IfErr, OnOk, Option};
ghost use Rattle.std.specs.List.{list_any};
ghost use Rattle.std.specs.Option.{option_copied};
ghost use Rattle.std.specs.Str.{bytes_eq};
ghost use Rattle.ssh_wire.specs.Algorithms.{algorithm_name};
ghost use Rattle.ssh_wire.specs.declared.error.Error.TheVariants.{Memory};
ghost use Rattle.ssh_negotiate.specs.Advertised.{certificate_names, each_once, fits, has_key, held_certificates, host_names, is_foreign, key_names, some_fits};
ghost use Rattle.ssh_negotiate.specs.Chosen.{asks, without_extensions};
ghost use Rattle.ssh_negotiate.specs.Reading.{slice_list, offered_by};
ghost use Rattle.ssh_negotiate.specs.declared.negotiation.HostName.TheVariants.{Certificate, Plain};

use crate::kex;
use crate::negotiation::HostName;
use crate::preferred::{
    HostCertificate, HostKey, Preferred, ServerKeys, is_fitting, some_key_fits,
};
use ssh_wire::{Algorithm, Error, Side};
use std::alloc::{AllocError, Global};

/// The algorithms under which a server has a certificate, each once: for each certificate whose key is there, in
/// order, the preferred ones that it fits. Memory.
#[tactic(auto, unfolding(crate::specs::Advertised::certificate_names))]
pub fn server_certificate_names(
    alloc: Global,
    pref: &Preferred,
    certificates: &[HostCertificate],
    keys: &[HostKey],
) -> Result<Vec<Algorithm>, Error>
    ensures ok { IfOk result (λ v. v.items ≡ certificate_names pref.now.key certificates.now keys.now) }
    ensures err { IfErr result (λ e. e ≡ Memory) }
{
    let mut names = Vec::new(alloc);
    for certificate in certificates {
        if is_key_there(keys, certificate) {
            add_fitting(&mut names, pref.key.as_slice(), certificate.algorithm)?;
        }
    }
    Ok(each_once(alloc, names.as_slice())?)
}

/// Whether the key of a certificate is there.
pub(crate) fn is_key_there(keys: &[HostKey], certificate: &HostCertificate) -> bool
    ensures { result ≡ has_key keys.now certificate.now }
{
    keys.iter().any(|key| key.blob.as_slice() == certificate.key_blob.as_slice())
}

/// Appends the preferred algorithms that a certificate fits.
fn add_fitting(
    names: &mut Vec<Algorithm>,
    preferred: &[Algorithm],
    certificate: Algorithm,
) -> Result<(), AllocError>
    ensures { OnOk result (names.new.items ≡ names.old.items ++ filter (fits certificate) preferred.now) }
{
    for algorithm in preferred {
        if is_fitting(certificate, *algorithm) {
            names.push(*algorithm)?;
        }
    }
    Ok(())
}

/// Each algorithm once, where it stands first.
fn each_once(alloc: Global, names: &[Algorithm]) -> Result<Vec<Algorithm>, AllocError>
    ensures { IfOk result (λ v. v.items ≡ each_once names.now) }
{
    let mut once = Vec::new(alloc);
    for name in names {
        if !stands_in(once.as_slice(), *name) {
            once.push(*name)?;
        }
    }
    Ok(once)
}

/// Whether an algorithm stands in a list.
fn stands_in(list: &[Algorithm], name: Algorithm) -> bool
    ensures { result ≡ list_any (λ a. bytes_eq (algorithm_name a) (algorithm_name name)) list.now }
{
    list.iter().any(|a| a.as_str() == name.as_str())
}

/// The key exchanges that a side advertises: all but the two extension names of the other side. Memory.
pub(crate) fn advertised_kex(
    alloc: Global,
    side: Side,
    kex: &[kex::Name],
) -> Result<Vec<kex::Name>, AllocError>
    ensures { IfOk result (λ v. v.items ≡ filter (λ n. not (is_foreign side n)) kex.now) }
{
    kex.iter()
        .copied()
        .filter(|name| !is_foreign(side, *name))
        .collect(alloc)
}

/// Whether a name belongs to the other side alone.
pub(crate) fn is_foreign(side: Side, name: kex::Name) -> bool
    ensures { result ≡ is_foreign side name }
{
    match side {
        Side::Client => {
            name.as_str() == kex::EXTENSION_SUPPORT_AS_SERVER.as_str()
                || name.as_str() == kex::EXTENSION_OPENSSH_STRICT_KEX_AS_SERVER.as_str()
        }
        Side::Server => {
            name.as_str() == kex::EXTENSION_SUPPORT_AS_CLIENT.as_str()
                || name.as_str() == kex::EXTENSION_OPENSSH_STRICT_KEX_AS_CLIENT.as_str()
        }
    }
}

/// The key exchanges that are compared: those that a side advertises without the extension names. Memory.
#[tactic(auto, unfolding(crate::specs::Chosen::without_extensions))]
pub(crate) fn comparable_kex(
    alloc: Global,
    side: Side,
    kex: &[kex::Name],
) -> Result<Vec<kex::Name>, AllocError>
    ensures { IfOk result (λ v. v.items ≡ without_extensions (filter (λ n. not (is_foreign side n)) kex.now)) }
{
    kex.iter()
        .copied()
        .filter(|name| !is_foreign(side, *name))
        .filter(|name| !name.is_extension())
        .collect(alloc)
}

/// Whether a side advertises a name of key exchange.
pub(crate) fn asks_for(side: Side, kex: &[kex::Name], name: kex::Name) -> bool
    ensures { result ≡ asks (filter (λ n. not (is_foreign side n)) kex.now) name }
{
    kex.iter()
        .copied()
        .filter(|n| !is_foreign(side, *n))
        .any(|n| n.as_str() == name.as_str())
}

/// The names of host keys that a side advertises, certificates before keys. A client has what it prefers, a server
/// what its keys and certificates fit. Memory.
pub(crate) fn advertised_hosts(
    alloc: Global,
    side: Side,
    pref: &Preferred,
    keys: Option<&[HostKey]>,
    certificates: Option<&[HostCertificate]>,
) -> Result<Vec<HostName>, Error>
    ensures ok { IfOk result (λ v. v.items ≡ host_names side pref.now (slice_list keys.entry)
        (slice_list certificates.entry)) }
    ensures err { IfErr result (λ e. e ≡ Memory) }
{
    match side {
        Side::Client => Ok(host_list(
            alloc,
            pref.host_key_certificates.as_slice(),
            pref.key.as_slice(),
        )?),
        Side::Server => server_hosts(alloc, pref, keys, certificates),
    }
}

/// The names of a server's certificates and keys; those of all keys, where no keys are given. Memory.
fn server_hosts(
    alloc: Global,
    pref: &Preferred,
    keys: Option<&[HostKey]>,
    certificates: Option<&[HostCertificate]>,
) -> Result<Vec<HostName>, Error>
    ensures ok { IfOk result (λ v. v.items ≡ map Certificate (held_certificates pref.now.key (slice_list keys.entry)
        (slice_list certificates.entry)) ++ map Plain (key_names pref.now.key (slice_list keys.entry))) }
    ensures err { IfErr result (λ e. e ≡ Memory) }
{
    let Some(keys) = keys else {
        return Ok(host_list(alloc, &[], pref.key.as_slice())?);
    };
    match certificates {
        Some(certificates) => {
            let certified = server_certificate_names(alloc, pref, certificates, keys)?;
            Ok(fitting_list(alloc, certified.as_slice(), pref.key.as_slice(), keys)?)
        }
        None => Ok(fitting_list(alloc, &[], pref.key.as_slice(), keys)?),
    }
}

/// Names of certificates, and behind them those of keys. Memory.
fn host_list(
    alloc: Global,
    certificates: &[Algorithm],
    plain: &[Algorithm],
) -> Result<Vec<HostName>, AllocError>
    ensures { IfOk result (λ v. v.items ≡ map Certificate certificates.now ++ map Plain plain.now) }
{
    let front = certificates
        .iter()
        .map(|algorithm| HostName::Certificate(*algorithm));
    let behind = plain.iter().map(|algorithm| HostName::Plain(*algorithm));
    front.chain(behind).collect(alloc)
}

/// Names of certificates, and behind them those of keys under which some key signs. Memory.
fn fitting_list(
    alloc: Global,
    certificates: &[Algorithm],
    preferred: &[Algorithm],
    keys: &[HostKey],
) -> Result<Vec<HostName>, AllocError>
    ensures { IfOk result (λ v. v.items ≡ map Certificate certificates.now ++ map Plain
        (filter (some_fits keys.now) preferred.now)) }
{
    certificates
        .iter()
        .map(|algorithm| HostName::Certificate(*algorithm))
        .chain(
            preferred
                .iter()
                .copied()
                .filter(|algorithm| some_key_fits(keys, *algorithm))
                .map(|algorithm| HostName::Plain(algorithm)),
        )
        .collect(alloc)
}

/// The key exchanges that are written: a server's where its keys are given. Memory.
#[tactic(auto, unfolding(crate::specs::Advertised::offers_with))]
pub(crate) fn kex_to_write(
    alloc: Global,
    prefs: &Preferred,
    server_config: Option<&ServerKeys>,
) -> Result<Vec<kex::Name>, AllocError>
    ensures { IfOk result (λ v. v.items ≡ (offered_by prefs.now (option_copied server_config.entry)).kex) }
{
    match server_config {
        Some(_) => advertised_kex(alloc, Side::Server, prefs.kex.as_slice()),
        None => advertised_kex(alloc, Side::Client, prefs.kex.as_slice()),
    }
}

/// The names of host keys that are written: a server's where its keys are given. Memory.
#[tactic(auto, unfolding(crate::specs::Advertised::offers_with))]
pub(crate) fn hosts_to_write(
    alloc: Global,
    prefs: &Preferred,
    server_config: Option<&ServerKeys>,
) -> Result<Vec<HostName>, Error>
    ensures ok { IfOk result (λ v. v.items ≡ (offered_by prefs.now (option_copied server_config.entry)).key) }
    ensures err { IfErr result (λ e. e ≡ Memory) }
{
    match server_config {
        Some(hosts) => advertised_hosts(
            alloc,
            Side::Server,
            prefs,
            Some(hosts.keys.as_slice()),
            Some(hosts.certificates.as_slice()),
        ),
        None => advertised_hosts(alloc, Side::Client, prefs, None, None),
    }
}
