//! Host keys of a client that has none of its own.

use ssh_kex::{HostKeys, Refusal, ServerHost};
use ssh_mac::HashValue;
use ssh_negotiate::HostKey;
use ssh_wire::{Algorithm, Blob};
use std::alloc::Global;

/// Judges as the inner ones do, and refuses to sign. So a list of known hosts, which holds no private key, meets the
/// laws of a client's host keys.
#[derive(Drop)]
pub struct KnownHosts<H> {
    pub inner: H,
    /// How often it was asked to sign; the count stops at its end.
    pub refused: u64,
}

impl<H: HostKeys> HostKeys for KnownHosts<H> {
    ghost accepts = { λ v. H.accepts v.inner };

    ghost trusts = { λ v. H.trusts v.inner };

    ghost makes = { H.makes };

    ghost lawful = { λ v. H.lawful v.inner };

    // It is no server's.
    ghost signs = { λ v later s. ⊥ };

    ghost judges = { λ v later. H.judges v.inner later.inner };

    ghost refused_sign = { λ v. v.refused };

    ghost refused_verify = { λ v. H.refused_verify v.inner };

    ghost refused_check = { λ v. H.refused_check v.inner };

    ghost calls = { λ v. H.calls v.inner };

    ghost answered = { λ v. H.answered v.inner };

    ghost signs_lawful = { λ v later s signs. absurd signs };

    ghost judges_lawful = { λ v later s. H.judges_lawful v.inner later.inner s };

    ghost judges_trusts = { λ v later s. H.judges_trusts v.inner later.inner s };

    ghost judges_accepts = { λ v later s. H.judges_accepts v.inner later.inner s };

    fn sign(
        &mut self,
        _alloc: Global,
        _key: &HostKey,
        _algorithm: Algorithm,
        _hash: &HashValue,
    ) -> Result<Blob, Refusal> {
        self.refused = self.refused.saturating_add(1);
        Err(Refusal::Refused)
    }

    fn verify(
        &mut self,
        alloc: Global,
        host: &ServerHost,
        hash: &HashValue,
        signature: &[u8],
    ) -> Result<(), Refusal> {
        self.inner.verify(alloc, host, hash, signature)
    }

    fn check(&mut self, alloc: Global, host: &ServerHost) -> Result<(), Refusal> {
        self.inner.check(alloc, host)
    }
}
