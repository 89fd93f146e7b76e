//! Whether what a side offers can be advertised.

ghost use Rattle.std.specs.Prelude.{◌≡◌, ◌↔◌, ◌&&◌, ◌++◌, IsTrue, filter, map, not};
ghost use Rattle.std.specs.Option.{option_copied};
ghost use Rattle.ssh_wire.specs.Algorithms.{algorithm_name, certificate_name};
ghost use Rattle.ssh_negotiate.specs.Advertised.{certificate_names, is_foreign, some_fits};
ghost use Rattle.ssh_negotiate.specs.Laws.{AreShort, IsListed, IsWithin};
ghost use Rattle.ssh_negotiate.specs.Reading.{offered_by};
ghost use Rattle.ssh_negotiate.specs.Tables.{kex_text};

use crate::kex;
use crate::negotiation::AsName;
use crate::preferred::{Preferred, ServerKeys};
use crate::told::Told;
use ssh_wire::{Algorithm, Side};

/// Whether each list that a side advertises has at most 1024 names and 16384 bytes, as `write_kex` wants it. It is a
/// server's where the keys are given. It takes no memory.
pub fn can_be_advertised(prefs: &Preferred, server_config: Option<&ServerKeys>) -> bool
    ensures exact { IsTrue result ↔ IsWithin (offered_by prefs.now (option_copied server_config.entry)) }
    ensures short { IsTrue result → AreShort (offered_by prefs.now (option_copied server_config.entry)) }
{
    let ciphers = is_listed(prefs.cipher.as_slice());
    let macs = is_listed(prefs.mac.as_slice());
    let compressions = is_listed(prefs.compression.as_slice());
    match server_config {
        Some(hosts) => {
            let kex = is_kex_listed(Side::Server, prefs.kex.as_slice());
            let keys = are_server_hosts_listed(prefs.key.as_slice(), hosts);
            are_all(kex, keys, ciphers, macs, compressions)
        }
        None => {
            let kex = is_kex_listed(Side::Client, prefs.kex.as_slice());
            let keys = are_client_hosts_listed(
                prefs.host_key_certificates.as_slice(),
                prefs.key.as_slice(),
            );
            are_all(kex, keys, ciphers, macs, compressions)
        }
    }
}

/// Whether a side's list of key exchanges can be advertised.
fn is_kex_listed(side: Side, kex: &[kex::Name]) -> bool
    ensures { IsTrue result ↔ IsListed (map kex_text (filter (λ n. not (is_foreign side n)) kex.now)) }
{
    let mut told = Told::nothing();
    told.add_kex(side, kex);
    told.is_listed()
}

/// Whether a client's list of host keys can be advertised.
fn are_client_hosts_listed(certificates: &[Algorithm], keys: &[Algorithm]) -> bool
    ensures { IsTrue result ↔ IsListed (map certificate_name certificates.now ++ map algorithm_name keys.now) }
{
    let mut told = Told::nothing();
    told.add_certificates(certificates);
    told.add_keys(keys);
    told.is_listed()
}

/// Whether a server's list of host keys can be advertised.
#[tactic(auto, unfolding(crate::specs::Advertised::certificate_names))]
fn are_server_hosts_listed(preferred: &[Algorithm], hosts: &ServerKeys) -> bool
    ensures { IsTrue result ↔ IsListed (map certificate_name (certificate_names preferred.now hosts.now.certificates
        hosts.now.keys)
        ++ map algorithm_name (filter (some_fits hosts.now.keys) preferred.now)) }
{
    let mut told = Told::nothing();
    told.add_held(
        preferred,
        hosts.certificates.as_slice(),
        hosts.keys.as_slice(),
    );
    told.add_fitting(preferred, hosts.keys.as_slice());
    told.is_listed()
}

/// Whether all hold.
fn are_all(kex: bool, keys: bool, ciphers: bool, macs: bool, compressions: bool) -> bool
    ensures { result ≡ (kex && (keys && (ciphers && (macs && compressions)))) }
{
    kex && keys && ciphers && macs && compressions
}

/// Whether a list can be advertised.
fn is_listed<A: AsName>(names: &[A]) -> bool
    ensures { IsTrue result ↔ IsListed (map A.text names.now) }
{
    let mut told = Told::nothing();
    told.add_all(names);
    told.is_listed()
}
