//! The parts of a side of a run: test parts.

ghost use Rattle.std.specs.Prelude.{◌≡◌, IfOk, map};
ghost use Rattle.rand_chacha.specs.ChaCha.{of_seed};
ghost use Rattle.ssh_mux.specs.Sides.{trusted_key};
ghost use Rattle.ssh_vectors.specs.Seeds.{seed_of};

use rand_chacha::ChaCha20Rng;
use rand_core::SeedableRng;
use ssh_kex::Parts;
use ssh_negotiate::{HostKey, ServerKeys};
use ssh_vectors::{TestAgreement, TestGroups, TestHosts, TrustedHost, seed_bytes};
use ssh_wire::Blob;
use std::alloc::{AllocError, Global};

/// The parts of one side of a run.
pub(crate) type MuxParts = Parts<TestAgreement, TestHosts, TestGroups, ChaCha20Rng>;

/// The parts of a side that trusts this server's keys, with a generator of this seed. Memory.
pub(crate) fn mux_parts(
    alloc: Global,
    seed: u64,
    server: &ServerKeys,
) -> Result<MuxParts, AllocError>
    ensures trusted { IfOk result (λ parts. parts.hosts.trusted ≡ map trusted_key server.now.keys) }
    ensures bits { IfOk result (λ parts. parts.groups.bits ≡ 0) }
    ensures rng { IfOk result (λ parts. parts.rng ≡ of_seed (seed_of seed)) }
{
    let trusted = trusted_keys(alloc, server.keys.as_slice())?;
    Ok(Parts {
        agreement: TestAgreement::new(),
        hosts: TestHosts::new(trusted),
        groups: TestGroups { bits: 0 },
        rng: ChaCha20Rng::from_seed(seed_bytes(seed)),
    })
}

/// Trusts each key as its own. Memory.
fn trusted_keys(alloc: Global, keys: &[HostKey]) -> Result<Vec<TrustedHost>, AllocError>
    ensures { IfOk result (λ trusted. trusted.items ≡ map trusted_key keys.now) }
{
    let mut trusted = Vec::new(alloc);
    for key in keys {
        trusted.push(TrustedHost {
            blob: Blob::copy_of(alloc, key.blob.as_slice())?,
            key_blob: Blob::copy_of(alloc, key.blob.as_slice())?,
        })?;
    }
    Ok(trusted)
}
