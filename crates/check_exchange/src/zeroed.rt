//! The tests' agreement, but for the secret of a client.

ghost use Rattle.std.specs.Prelude.{true};

use rand_core::Rng;
use ssh_kex::{Agreed, Agreement, DhGroup, Refusal, Started};
use ssh_negotiate::kex;
use ssh_vectors::TestAgreement;
use ssh_wire::Blob;
use std::alloc::Global;

/// Makes the values of the tests' agreement, and a server's secret as that does; a client's secret is 32 zeros. So both
/// sides never agree, and no value of it is lawful. What the tests' agreement refuses is answered as want of memory.
#[derive(Drop)]
pub(crate) struct ZeroAgreement {
    inner: TestAgreement,
}

impl ZeroAgreement {
    /// One that was never asked.
    pub(crate) fn new() -> ZeroAgreement {
        ZeroAgreement {
            inner: TestAgreement::new(),
        }
    }
}

impl Agreement for ZeroAgreement {
    ghost offered = { λ zero name. true };

    ghost client_makes = { λ name group local public. ⊥ };

    ghost server_makes = { λ name group client public. ⊥ };

    ghost agrees = { λ name group client server secret. ⊥ };

    ghost client_draws = { λ name group before local public behind. Unit {0} };

    ghost server_draws = { λ name group client before public secret behind. Unit {0} };

    ghost lawful = { λ zero setup. ⊥ };

    ghost obliging = { λ zero later setup group. ⊥ };

    ghost refusals = { λ zero. 0 };

    ghost calls = { λ zero. 0 };

    ghost answered = { λ v known n. true };

    fn offers(&self, _name: kex::Name) -> bool {
        true
    }

    fn client_start<R: Rng>(
        &mut self,
        alloc: Global,
        name: kex::Name,
        group: Option<&DhGroup>,
        rng: &mut R,
    ) -> Result<Started, Refusal> {
        match self.inner.client_start(alloc, name, group, rng) {
            Ok(started) => Ok(started),
            Err(_) => Err(Refusal::Memory),
        }
    }

    fn server_agree<R: Rng>(
        &mut self,
        alloc: Global,
        name: kex::Name,
        group: Option<&DhGroup>,
        client_public: &[u8],
        rng: &mut R,
    ) -> Result<Agreed, Refusal> {
        match self
            .inner
            .server_agree(alloc, name, group, client_public, rng)
        {
            Ok(agreed) => Ok(agreed),
            Err(_) => Err(Refusal::Memory),
        }
    }

    fn client_agree(
        &mut self,
        alloc: Global,
        _name: kex::Name,
        _group: Option<&DhGroup>,
        _local: &[u8],
        _server_public: &[u8],
    ) -> Result<Blob, Refusal> {
        match Blob::copy_of(alloc, &[0; 32]) {
            Ok(secret) => Ok(secret),
            Err(_) => Err(Refusal::Memory),
        }
    }

    ghost one_secret = { λ v s name group local client server x y lawful. absurd lawful };

    ghost obliging_lawful = { λ v later s group obliging. obliging };
}
