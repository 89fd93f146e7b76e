//! Host keys of a server that has one key.

ghost use Rattle.std.specs.Prelude.{◌≡◌, Err, IfOk, OnOk};
ghost use Rattle.ssh_kex.specs.Parts.{Answers, Counted, IsRefused, IsSmall, IsValue, KeepsHosts, Presents, Setup};
ghost use Rattle.ssh_kex.specs.Signature.{judged};
ghost use Rattle.ssh_kex.specs.declared.exchange.ServerHost.{ServerHost};
ghost use Rattle.ssh_kex.specs.declared.parts.Refusal.TheVariants.{Refused};
ghost use Rattle.uses.specs.OneKey.{OneKeyPresented, RefusesHere, SignsByOne, with_refused};

use ssh_kex::{HostKeys, Refusal, ServerHost};
use ssh_mac::HashValue;
use ssh_negotiate::HostKey;
use ssh_wire::{Algorithm, Blob};
use std::alloc::Global;

/// Signs as the inner ones do under the key of one blob, and refuses to sign under another; it judges as they do. So it
/// is obliging where they are, for a server that presents this key alone, though it refuses others.
#[derive(Drop)]
pub struct OneKey<H> {
    pub inner: H,
    /// The blob of the key's public part.
    pub blob: Blob,
    /// How often it was asked to sign under another key; the count stops at its end.
    pub refused: u64,
}

impl<H: HostKeys> HostKeys for OneKey<H> {
    ghost use Rattle.uses.specs.OneKey.{SignsByOne, with_refused};

    ghost accepts = { λ v. H.accepts v.inner };

    ghost trusts = { λ v. H.trusts v.inner };

    ghost makes = { H.makes };

    ghost lawful = { λ v. H.lawful v.inner };

    ghost signs = { SignsByOne H.signs };

    ghost judges = { λ v later. H.judges v.inner later.inner };

    ghost refused_sign = { with_refused H.refused_sign };

    ghost refused_verify = { λ v. H.refused_verify v.inner };

    ghost refused_check = { λ v. H.refused_check v.inner };

    ghost calls = { with_refused H.calls };

    ghost answered = { λ v. H.answered v.inner };

    ghost signs_lawful = { λ v later s signs. H.signs_lawful v.inner later.inner s signs.0 };

    ghost judges_lawful = { λ v later s. H.judges_lawful v.inner later.inner s };

    ghost judges_trusts = { λ v later s. H.judges_trusts v.inner later.inner s };

    ghost judges_accepts = { λ v later s. H.judges_accepts v.inner later.inner s };

    fn sign(
        &mut self,
        alloc: Global,
        key: &HostKey,
        algorithm: Algorithm,
        hash: &HashValue,
    ) -> Result<Blob, Refusal>
        ensures other { (key.now.blob ≡ self.old.blob → ⊥) → result ≡ Err Refused }
        ensures unasked { (key.now.blob ≡ self.old.blob → ⊥) → RefusesHere self.old self.new }
        ensures asked { key.now.blob ≡ self.old.blob
            → Counted (H.refused_sign self.old.inner) (H.refused_sign self.new.inner)
            (H.calls self.old.inner) (H.calls self.new.inner) result }
        ensures uncounted { key.now.blob ≡ self.old.blob → self.new.refused ≡ self.old.refused }
        ensures blob { self.new.blob ≡ self.old.blob }
        ensures answers { OnOk result (Answers H.answered 1 self.old.inner self.new.inner) }
        ensures counts { Counted (with_refused H.refused_sign self.old) (with_refused H.refused_sign self.new)
            (with_refused H.calls self.old) (with_refused H.calls self.new) result }
        ensures keeps { KeepsHosts (λ v. H.lawful v.inner) (SignsByOne H.signs)
            (λ v later. H.judges v.inner later.inner) (λ v. H.accepts v.inner) (λ v. H.trusts v.inner)
            (with_refused H.refused_sign) (λ v. H.refused_verify v.inner) (λ v. H.refused_check v.inner)
            (with_refused H.calls) self.old self.new }
        ensures verify { H.refused_verify self.new.inner ≡ H.refused_verify self.old.inner }
        ensures check { H.refused_check self.new.inner ≡ H.refused_check self.old.inner }
        ensures values { IfOk result (λ v. IsValue v) }
        ensures small { (s : Setup) → H.lawful self.old.inner s → IfOk result (λ v. IsSmall v) }
        ensures made { (later : OneKey H) (s : Setup) (host : ServerHost) → SignsByOne H.signs self.old later s
            → Presents s.server host key.now algorithm → IfOk result (λ v. H.makes s.server host hash.now (judged v)) }
        ensures never { (s : Setup) (host : ServerHost) → SignsByOne H.signs self.old self.new s
            → Presents s.server host key.now algorithm → IsRefused result → ⊥ }
    {
        if key.blob.as_slice() != self.blob.as_slice() {
            self.refused = self.refused.saturating_add(1);
            return Err(Refusal::Refused);
        }
        self.inner.sign(alloc, key, algorithm, hash)
    }

    fn verify(
        &mut self,
        alloc: Global,
        host: &ServerHost,
        hash: &HashValue,
        signature: &[u8],
    ) -> Result<(), Refusal> {
        self.inner.verify(alloc, host, hash, signature)
    }

    fn check(&mut self, alloc: Global, host: &ServerHost) -> Result<(), Refusal> {
        self.inner.check(alloc, host)
    }
}

/// A server whose configured keys all have one blob presents that key alone, whatever certificates it has.
pub fn one_key_presented()
    ensures { OneKeyPresented }
{}
