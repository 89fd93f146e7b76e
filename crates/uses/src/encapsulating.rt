//! An encapsulation of one's own: a server's value is made of the client's.

ghost use Rattle.std.specs.Prelude.{◌≡◌, ◌≤◌, IfOk, length, true, false};
ghost use Rattle.rand_core.specs.Stream.{fill_bytes};
ghost use Rattle.ssh_kex.specs.Parts.{IsRefused};
ghost use Rattle.ssh_modp.specs.Counts.{CountsAnswer};
ghost use Rattle.uses.specs.Encapsulating.{is_mask, masked};

use rand_core::Rng;
use ssh_kex::{Agreed, Agreement, DhGroup, Refusal, Started};
use ssh_negotiate::kex;
use ssh_wire::Blob;
use std::alloc::{AllocError, Global};
use std::marker::Model;

const MASK: usize = 32;

/// Agrees under the name of a hybrid of ML-KEM. A client sends 32 drawn bytes, and a server 32 drawn bytes under the
/// client's as a mask: these are the secret. It hides nothing, and shows what an encapsulation owes.
#[derive(Debug, Drop)]
pub struct MaskedAgreement {
    calls: u64,
    refusals: u64,
}

impl Model for MaskedAgreement {
    ghost use Rattle.ssh_modp.specs.Counts.{Counts};

    ghost Value = { Counts };

    ghost view = { λ a. record { calls = a.calls; refusals = a.refusals } };
}

impl MaskedAgreement {
    /// One that was never asked.
    pub fn new() -> MaskedAgreement
        ensures { result ≡ record { calls = 0; refusals = 0 } }
    {
        MaskedAgreement {
            calls: 0,
            refusals: 0,
        }
    }

    /// An answer, counted where it is a refusal.
    fn count<T: Drop>(&mut self, answer: Result<T, Refusal>) -> Result<T, Refusal>
        ensures same { result ≡ answer }
        ensures counts { CountsAnswer self.old self.new result }
    {
        self.calls = self.calls.saturating_add(1);
        if matches!(answer, Err(Refusal::Refused)) {
            self.refusals = self.refusals.saturating_add(1);
        }
        answer
    }
}

/// The exclusive or of two strings, byte by byte. Memory.
fn masked(alloc: Global, mask: &[u8], bytes: &[u8]) -> Result<Blob, AllocError>
    ensures { IfOk result (λ b. b ≡ masked mask.now bytes.now) }
{
    let mut masked = Vec::new(alloc);
    for (left, right) in mask.iter().zip(bytes) {
        masked.push(*left ^ *right)?;
    }
    Ok(Blob::new(masked))
}

/// A mask of drawn bytes, which is kept as it is sent. Memory.
fn drawn_mask<R: Rng>(alloc: Global, rng: &mut R) -> Result<Started, AllocError>
    ensures drawn { IfOk result (λ v. (v.public, R.stream rng.new) ≡ fill_bytes 32 (R.stream rng.old)) }
    ensures same { IfOk result (λ v. v.local ≡ v.public) }
    ensures long { IfOk result (λ v. is_mask v.public ≡ true) }
{
    let mut mask = [0; MASK];
    rng.fill_bytes(&mut mask);
    Ok(Started {
        public: Blob::copy_of(alloc, &mask)?,
        local: Blob::copy_of(alloc, &mask)?,
    })
}

/// Drawn bytes under a mask. Memory.
fn masked_secret<R: Rng>(alloc: Global, mask: &[u8], rng: &mut R) -> Result<Agreed, AllocError>
    ensures drawn { IfOk result (λ v. (v.secret, R.stream rng.new) ≡ fill_bytes 32 (R.stream rng.old)) }
    ensures sent { IfOk result (λ v. v.public ≡ masked mask.now v.secret) }
    ensures long { IfOk result (λ v. is_mask v.secret ≡ true) }
{
    let mut secret = [0; MASK];
    rng.fill_bytes(&mut secret);
    Ok(Agreed {
        public: masked(alloc, mask, &secret)?,
        secret: Blob::copy_of(alloc, &secret)?,
    })
}

impl Agreement for MaskedAgreement {
    ghost use Rattle.std.specs.Prelude.{◌≡◌};
    ghost use Rattle.std.proofs.Common.{◌∙◌, sym};
    ghost use Rattle.uses.specs.Encapsulating.{DrawsMask, DrawsSecret, SendsMask, SendsMasked, Unmasks, is_hybrid};

    ghost offered = { λ v name. is_hybrid name };

    ghost client_makes = { SendsMask };

    ghost server_makes = { SendsMasked };

    ghost agrees = { Unmasks };

    ghost client_draws = { DrawsMask };

    ghost server_draws = { DrawsSecret };

    // It keeps its laws under every setup, and refuses nothing in any group.
    ghost lawful = { λ v s. Unit {0} };

    ghost obliging = { λ v later s group. Unit {0} };

    ghost refusals = { λ v. v.refusals };

    ghost calls = { λ v. v.calls };

    ghost answered = { λ v known n. true };

    ghost one_secret = { λ v s name group local client server x y l c r a b. a ∙ sym b };

    ghost obliging_lawful = { λ v later s group o. tt };

    fn offers(&self, name: kex::Name) -> bool {
        matches!(name.shape().form, kex::SecretForm::Str)
    }

    fn client_start<R: Rng>(
        &mut self,
        alloc: Global,
        _name: kex::Name,
        _group: Option<&DhGroup>,
        rng: &mut R,
    ) -> Result<Started, Refusal>
        ensures drawn { IfOk result (λ v. (v.public, R.stream rng.new) ≡ fill_bytes 32 (R.stream rng.old)) }
        ensures same { IfOk result (λ v. v.local ≡ v.public) }
        ensures long { IfOk result (λ v. is_mask v.public ≡ true) }
        ensures never { IsRefused result → ⊥ }
        ensures after { CountsAnswer self.old self.new result }
    {
        self.count(match drawn_mask(alloc, rng) {
            Ok(started) => Ok(started),
            Err(_) => Err(Refusal::Memory),
        })
    }

    #[tactic(auto, using(crate::proofs::Masking::masked_twice, crate::proofs::Masking::masked_long))]
    fn server_agree<R: Rng>(
        &mut self,
        alloc: Global,
        _name: kex::Name,
        _group: Option<&DhGroup>,
        client_public: &[u8],
        rng: &mut R,
    ) -> Result<Agreed, Refusal>
        ensures drawn { IfOk result (λ v. (v.secret, R.stream rng.new) ≡ fill_bytes 32 (R.stream rng.old)) }
        ensures sent { IfOk result (λ v. v.public ≡ masked client_public.now v.secret) }
        ensures secret { IfOk result (λ v. v.secret ≡ masked client_public.now v.public) }
        ensures long { IfOk result (λ v. (is_mask v.public ≡ true) × (is_mask v.secret ≡ true)) }
        ensures refused { IsRefused result → is_mask client_public.now ≡ false }
        ensures after { CountsAnswer self.old self.new result }
    {
        let agreed = if client_public.len() == MASK {
            match masked_secret(alloc, client_public, rng) {
                Ok(agreed) => Ok(agreed),
                Err(_) => Err(Refusal::Memory),
            }
        } else {
            Err(Refusal::Refused)
        };
        self.count(agreed)
    }

    #[tactic(auto, using(crate::proofs::Masking::masked_short))]
    fn client_agree(
        &mut self,
        alloc: Global,
        _name: kex::Name,
        _group: Option<&DhGroup>,
        local: &[u8],
        server_public: &[u8],
    ) -> Result<Blob, Refusal>
        ensures secret { IfOk result (λ v. v ≡ masked local.now server_public.now) }
        ensures short { IfOk result (λ v. length v ≤ 32) }
        ensures refused { IsRefused result → is_mask server_public.now ≡ false }
        ensures after { CountsAnswer self.old self.new result }
    {
        let secret = if server_public.len() == MASK {
            match masked(alloc, local, server_public) {
                Ok(secret) => Ok(secret),
                Err(_) => Err(Refusal::Memory),
            }
        } else {
            Err(Refusal::Refused)
        };
        self.count(secret)
    }
}
