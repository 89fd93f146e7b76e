//! A secret that is given, in the place of an agreement.

ghost use Rattle.std.specs.Prelude.{◌≡◌, ◌<◌, ◌^◌, length, IfOk, IfErr};
ghost use Rattle.ssh_kex.specs.declared.parts.Refusal.TheVariants.{Memory};

use rand_core::Rng;
use ssh_kex::{Agreed, Agreement, DhGroup, Refusal, Started};
use ssh_negotiate::kex;
use ssh_wire::Blob;
use std::alloc::Global;

/// Agrees on what it is handed: the secret is the client's public value. So an exchange whose secret is known is made
/// without its values.
#[derive(Drop)]
pub struct GivenSecret;

/// A value has fewer bytes.
const MOST: usize = 1 << 31;

impl Agreement for GivenSecret {
    ghost use Rattle.std.specs.Prelude.{◌≡◌, true};
    ghost use Rattle.std.proofs.Common.{◌∙◌, sym};

    ghost offered = { λ v name. true };

    ghost client_makes = { λ name group local public. public ≡ local };

    ghost server_makes = { λ name group client public. Unit {0} };

    ghost agrees = { λ name group client server secret. secret ≡ client };

    ghost client_draws = { λ name group stream local public behind. Unit {0} };

    ghost server_draws = { λ name group client stream public secret behind. secret ≡ client };

    ghost lawful = { λ v s. ⊥ };

    ghost obliging = { λ v later s group. ⊥ };

    ghost refusals = { λ v. 0 };

    ghost calls = { λ v. 0 };

    ghost answered = { λ v known n. true };

    ghost one_secret = { λ v s name group local client server x y l c r a b. a ∙ sym b };

    ghost obliging_lawful = { λ v later s group o. o };

    fn offers(&self, _name: kex::Name) -> bool {
        true
    }

    fn client_start<R: Rng>(
        &mut self,
        alloc: Global,
        _name: kex::Name,
        _group: Option<&DhGroup>,
        _rng: &mut R,
    ) -> Result<Started, Refusal> {
        Ok(Started {
            public: Blob::new(Vec::new(alloc)),
            local: Blob::new(Vec::new(alloc)),
        })
    }

    fn server_agree<R: Rng>(
        &mut self,
        alloc: Global,
        _name: kex::Name,
        _group: Option<&DhGroup>,
        client_public: &[u8],
        _rng: &mut R,
    ) -> Result<Agreed, Refusal> {
        let secret = copied(alloc, client_public)?;
        Ok(Agreed {
            public: Blob::new(Vec::new(alloc)),
            secret,
        })
    }

    fn client_agree(
        &mut self,
        alloc: Global,
        _name: kex::Name,
        _group: Option<&DhGroup>,
        local: &[u8],
        _server_public: &[u8],
    ) -> Result<Blob, Refusal> {
        copied(alloc, local)
    }
}

/// A copy of a value. Memory, also where it has 2^31 bytes or more.
fn copied(alloc: Global, bytes: &[u8]) -> Result<Blob, Refusal>
    ensures ok { IfOk result (λ copy. copy ≡ bytes.now) }
    ensures short { IfOk result (λ copy. length copy < 2 ^ 31) }
    ensures err { IfErr result (λ e. e ≡ Memory) }
{
    if MOST <= bytes.len() {
        return Err(Refusal::Memory);
    }
    match Blob::copy_of(alloc, bytes) {
        Ok(copy) => Ok(copy),
        Err(_) => Err(Refusal::Memory),
    }
}
