//! A part that refuses one of its calls.

ghost use Rattle.std.specs.Prelude.{◌≡◌, ◌<◌, ◌≤◌, ℕ, List, true, false, Err, IfOk, OnOk};
ghost use Rattle.std.specs.Option.{option_copied};
ghost use Rattle.ssh_kex.specs.Parts.{Answers, Counted, HasItsGroup, IsRefused, IsSmall, IsValue, Presents, Setup};
ghost use Rattle.ssh_kex.specs.Parts.{KeepsAgreement, KeepsGroups, KeepsHosts};
ghost use Rattle.ssh_kex.specs.Signature.{judged};
ghost use Rattle.ssh_kex.specs.declared.exchange.ServerHost.{ServerHost};
ghost use Rattle.ssh_kex.specs.declared.parts.Refusal.TheVariants.{Refused};
ghost use Rattle.ssh_wire.specs.Outside.{next_count};
ghost use Rattle.ssh_vectors.specs.Refusing.{CountsCall, Obliges, Within, answered_before, is_due, raised, refuses_next};
ghost use Rattle.ssh_vectors.specs.Refusing.{refusals_at, refusals_with};

use crate::counts::one_more;
use rand_core::Rng;
use ssh_kex::{
    Agreed, Agreement, DhGroup, GexParams, GroupLookup, HostKeys, Refusal, ServerHost, Started,
};
use ssh_mac::HashValue;
use ssh_negotiate::{HostKey, kex};
use ssh_wire::{Algorithm, Blob};
use std::alloc::Global;

/// Refuses the call with the number `refuse_at`, counted from 1 over all calls but `offers`, and passes on the others.
/// A `refuse_at` of 0 is no call's number.
#[derive(Debug, Drop)]
pub struct Refusing<T> {
    pub inner: T,
    pub refuse_at: u64,
    /// How many calls there were; the count stops at its end.
    pub calls: u64,
    /// How many calls were refused here: one place for each call of the trait, in its order.
    pub refusals: [u64; 3],
}

/// Counts a call, and tells whether it is to be refused; it then counts the refusal at its place.
fn refuses(refuse_at: u64, calls: &mut u64, count: &mut u64) -> bool
    ensures refused { result ≡ is_due refuse_at calls.old }
    ensures between { result ≡ true → (calls.old < refuse_at) × (refuse_at ≤ calls.new) }
    ensures calls { calls.new ≡ next_count calls.old }
    ensures count { count.new ≡ raised result count.old }
{
    let due = *calls < u64::MAX && *calls + 1 == refuse_at;
    *calls = one_more(*calls);
    if due {
        *count = one_more(*count);
    }
    due
}

impl<A: Agreement> Agreement for Refusing<A> {
    ghost use Rattle.ssh_vectors.specs.Refusing.{ObligesIn, Within, answered_before, refusals_with};

    ghost offered = { λ v. A.offered v.inner };

    ghost client_makes = { A.client_makes };

    ghost server_makes = { A.server_makes };

    ghost agrees = { A.agrees };

    ghost client_draws = { A.client_draws };

    ghost server_draws = { A.server_draws };

    ghost lawful = { Within A.lawful };

    ghost obliging = { ObligesIn A.obliging };

    ghost refusals = { refusals_with A.refusals };

    ghost calls = { λ v. v.calls };

    ghost answered = { answered_before };

    ghost one_secret = { λ v s. A.one_secret v.inner s };

    ghost obliging_lawful = { λ v later s group o. A.obliging_lawful v.inner later.inner s group o.0 };

    fn offers(&self, name: kex::Name) -> bool {
        self.inner.offers(name)
    }

    fn client_start<R: Rng>(
        &mut self,
        alloc: Global,
        name: kex::Name,
        group: Option<&DhGroup>,
        rng: &mut R,
    ) -> Result<Started, Refusal>
        ensures due { refuses_next self.old ≡ true → result ≡ Err Refused }
        ensures passed { refuses_next self.old ≡ false
            → Counted (A.refusals self.old.inner) (A.refusals self.new.inner)
            (A.calls self.old.inner) (A.calls self.new.inner) result }
        ensures own { CountsCall 0 self.old self.new }
        ensures answers { OnOk result (Answers answered_before 1 self.old self.new) }
        ensures counts { Counted (refusals_with A.refusals self.old) (refusals_with A.refusals self.new)
            self.old.calls self.new.calls result }
        ensures keeps { KeepsAgreement (Within A.lawful) (ObligesIn A.obliging) (λ v. A.offered v.inner)
            (refusals_with A.refusals) (λ v. v.calls) self.old self.new }
        ensures undrawn { refuses_next self.old ≡ true → R.stream rng.new ≡ R.stream rng.old }
        ensures values { IfOk result (λ v. IsValue v.public × IsValue v.local) }
        ensures drawn { IfOk result (λ v. A.client_draws name (option_copied group.entry) (R.stream rng.old) v.local
            v.public (R.stream rng.new)) }
        ensures made { (s : Setup) → A.lawful self.old.inner s → IfOk result (λ v.
            A.client_makes name (option_copied group.entry) v.local v.public × IsSmall v.public × IsSmall v.local) }
        ensures only { (s : Setup) → A.obliging self.old.inner self.new.inner s (option_copied group.entry)
            → HasItsGroup name (option_copied group.entry) → A.offered self.old.inner name ≡ true
            → IsRefused result → refuses_next self.old ≡ true }
        ensures never { (s : Setup) → ObligesIn A.obliging self.old self.new s (option_copied group.entry)
            → HasItsGroup name (option_copied group.entry) → A.offered self.old.inner name ≡ true
            → IsRefused result → ⊥ }
    {
        if refuses(self.refuse_at, &mut self.calls, &mut self.refusals[0]) {
            return Err(Refusal::Refused);
        }
        self.inner.client_start(alloc, name, group, rng)
    }

    fn server_agree<R: Rng>(
        &mut self,
        alloc: Global,
        name: kex::Name,
        group: Option<&DhGroup>,
        client_public: &[u8],
        rng: &mut R,
    ) -> Result<Agreed, Refusal>
        ensures due { refuses_next self.old ≡ true → result ≡ Err Refused }
        ensures passed { refuses_next self.old ≡ false
            → Counted (A.refusals self.old.inner) (A.refusals self.new.inner)
            (A.calls self.old.inner) (A.calls self.new.inner) result }
        ensures own { CountsCall 1 self.old self.new }
        ensures answers { OnOk result (Answers answered_before 1 self.old self.new) }
        ensures counts { Counted (refusals_with A.refusals self.old) (refusals_with A.refusals self.new)
            self.old.calls self.new.calls result }
        ensures keeps { KeepsAgreement (Within A.lawful) (ObligesIn A.obliging) (λ v. A.offered v.inner)
            (refusals_with A.refusals) (λ v. v.calls) self.old self.new }
        ensures undrawn { refuses_next self.old ≡ true → R.stream rng.new ≡ R.stream rng.old }
        ensures values { IfOk result (λ v. IsValue v.public × IsValue v.secret) }
        ensures drawn { IfOk result (λ v. A.server_draws name (option_copied group.entry) client_public.now
            (R.stream rng.old) v.public v.secret (R.stream rng.new)) }
        ensures made { (s : Setup) → A.lawful self.old.inner s → IfOk result (λ v.
            A.server_makes name (option_copied group.entry) client_public.now v.public
            × A.agrees name (option_copied group.entry) client_public.now v.public v.secret
            × IsSmall v.public × IsSmall v.secret) }
        ensures only { (s : Setup) (local : List ℕ) → A.obliging self.old.inner self.new.inner s
            (option_copied group.entry)
            → HasItsGroup name (option_copied group.entry) → A.offered self.old.inner name ≡ true
            → A.client_makes name (option_copied group.entry) local client_public.now
            → IsRefused result → refuses_next self.old ≡ true }
        ensures never { (s : Setup) (local : List ℕ) → ObligesIn A.obliging self.old self.new s
            (option_copied group.entry)
            → HasItsGroup name (option_copied group.entry) → A.offered self.old.inner name ≡ true
            → A.client_makes name (option_copied group.entry) local client_public.now
            → IsRefused result → ⊥ }
    {
        if refuses(self.refuse_at, &mut self.calls, &mut self.refusals[1]) {
            return Err(Refusal::Refused);
        }
        self.inner
            .server_agree(alloc, name, group, client_public, rng)
    }

    fn client_agree(
        &mut self,
        alloc: Global,
        name: kex::Name,
        group: Option<&DhGroup>,
        local: &[u8],
        server_public: &[u8],
    ) -> Result<Blob, Refusal>
        ensures due { refuses_next self.old ≡ true → result ≡ Err Refused }
        ensures passed { refuses_next self.old ≡ false
            → Counted (A.refusals self.old.inner) (A.refusals self.new.inner)
            (A.calls self.old.inner) (A.calls self.new.inner) result }
        ensures own { CountsCall 2 self.old self.new }
        ensures answers { OnOk result (Answers answered_before 1 self.old self.new) }
        ensures counts { Counted (refusals_with A.refusals self.old) (refusals_with A.refusals self.new)
            self.old.calls self.new.calls result }
        ensures keeps { KeepsAgreement (Within A.lawful) (ObligesIn A.obliging) (λ v. A.offered v.inner)
            (refusals_with A.refusals) (λ v. v.calls) self.old self.new }
        ensures values { IfOk result (λ v. IsValue v) }
        ensures made { (s : Setup) (public : List ℕ) → A.lawful self.old.inner s
            → A.client_makes name (option_copied group.entry) local.now public → IfOk result (λ v.
            A.agrees name (option_copied group.entry) public server_public.now v × IsSmall v) }
        ensures only { (s : Setup) (public : List ℕ) → A.obliging self.old.inner self.new.inner s
            (option_copied group.entry)
            → HasItsGroup name (option_copied group.entry) → A.offered self.old.inner name ≡ true
            → A.client_makes name (option_copied group.entry) local.now public
            → A.server_makes name (option_copied group.entry) public server_public.now
            → IsRefused result → refuses_next self.old ≡ true }
        ensures never { (s : Setup) (public : List ℕ) → ObligesIn A.obliging self.old self.new s
            (option_copied group.entry)
            → HasItsGroup name (option_copied group.entry) → A.offered self.old.inner name ≡ true
            → A.client_makes name (option_copied group.entry) local.now public
            → A.server_makes name (option_copied group.entry) public server_public.now
            → IsRefused result → ⊥ }
    {
        if refuses(self.refuse_at, &mut self.calls, &mut self.refusals[2]) {
            return Err(Refusal::Refused);
        }
        self.inner
            .client_agree(alloc, name, group, local, server_public)
    }
}

impl<H: HostKeys> HostKeys for Refusing<H> {
    ghost use Rattle.ssh_vectors.specs.Refusing.{Obliges, Within, answered_before, refusals_at};

    ghost accepts = { λ v. H.accepts v.inner };

    ghost trusts = { λ v. H.trusts v.inner };

    ghost makes = { H.makes };

    ghost lawful = { Within H.lawful };

    ghost signs = { Obliges H.signs };

    ghost judges = { Obliges H.judges };

    ghost refused_sign = { refusals_at 0 H.refused_sign };

    ghost refused_verify = { refusals_at 1 H.refused_verify };

    ghost refused_check = { refusals_at 2 H.refused_check };

    ghost calls = { λ v. v.calls };

    ghost answered = { answered_before };

    ghost signs_lawful = { λ v later s o. H.signs_lawful v.inner later.inner s o.0 };

    ghost judges_lawful = { λ v later s o. H.judges_lawful v.inner later.inner s o.0 };

    ghost judges_trusts = { λ v later s host key o. H.judges_trusts v.inner later.inner s host key o.0 };

    ghost judges_accepts = { λ v later s host hash signature o.
        H.judges_accepts v.inner later.inner s host hash signature o.0 };

    fn sign(
        &mut self,
        alloc: Global,
        key: &HostKey,
        algorithm: Algorithm,
        hash: &HashValue,
    ) -> Result<Blob, Refusal>
        ensures due { refuses_next self.old ≡ true → result ≡ Err Refused }
        ensures passed { refuses_next self.old ≡ false
            → Counted (H.refused_sign self.old.inner) (H.refused_sign self.new.inner)
            (H.calls self.old.inner) (H.calls self.new.inner) result }
        ensures own { CountsCall 0 self.old self.new }
        ensures answers { OnOk result (Answers answered_before 1 self.old self.new) }
        ensures counts { Counted (refusals_at 0 H.refused_sign self.old) (refusals_at 0 H.refused_sign self.new)
            self.old.calls self.new.calls result }
        ensures keeps { KeepsHosts (Within H.lawful) (Obliges H.signs) (Obliges H.judges) (λ v. H.accepts v.inner)
            (λ v. H.trusts v.inner) (refusals_at 0 H.refused_sign) (refusals_at 1 H.refused_verify)
            (refusals_at 2 H.refused_check) (λ v. v.calls) self.old self.new }
        ensures verify { refusals_at 1 H.refused_verify self.new ≡ refusals_at 1 H.refused_verify self.old }
        ensures check { refusals_at 2 H.refused_check self.new ≡ refusals_at 2 H.refused_check self.old }
        ensures values { IfOk result (λ v. IsValue v) }
        ensures small { (s : Setup) → H.lawful self.old.inner s → IfOk result (λ v. IsSmall v) }
        ensures made { (later : Refusing H) (s : Setup) (host : ServerHost) → Obliges H.signs self.old later s
            → Presents s.server host key.now algorithm → IfOk result (λ v. H.makes s.server host hash.now (judged v)) }
        ensures only { (s : Setup) (host : ServerHost) → H.signs self.old.inner self.new.inner s
            → Presents s.server host key.now algorithm → IsRefused result → refuses_next self.old ≡ true }
        ensures never { (s : Setup) (host : ServerHost) → Obliges H.signs self.old self.new s
            → Presents s.server host key.now algorithm → IsRefused result → ⊥ }
    {
        if refuses(self.refuse_at, &mut self.calls, &mut self.refusals[0]) {
            return Err(Refusal::Refused);
        }
        self.inner.sign(alloc, key, algorithm, hash)
    }

    fn verify(
        &mut self,
        alloc: Global,
        host: &ServerHost,
        hash: &HashValue,
        signature: &[u8],
    ) -> Result<(), Refusal>
        ensures due { refuses_next self.old ≡ true → result ≡ Err Refused }
        ensures passed { refuses_next self.old ≡ false
            → Counted (H.refused_verify self.old.inner) (H.refused_verify self.new.inner)
            (H.calls self.old.inner) (H.calls self.new.inner) result }
        ensures own { CountsCall 1 self.old self.new }
        ensures answers { OnOk result (Answers answered_before 1 self.old self.new) }
        ensures counts { Counted (refusals_at 1 H.refused_verify self.old) (refusals_at 1 H.refused_verify self.new)
            self.old.calls self.new.calls result }
        ensures keeps { KeepsHosts (Within H.lawful) (Obliges H.signs) (Obliges H.judges) (λ v. H.accepts v.inner)
            (λ v. H.trusts v.inner) (refusals_at 0 H.refused_sign) (refusals_at 1 H.refused_verify)
            (refusals_at 2 H.refused_check) (λ v. v.calls) self.old self.new }
        ensures sign { refusals_at 0 H.refused_sign self.new ≡ refusals_at 0 H.refused_sign self.old }
        ensures check { refusals_at 2 H.refused_check self.new ≡ refusals_at 2 H.refused_check self.old }
        ensures ok { OnOk result (H.accepts self.old.inner host.now hash.now signature.now ≡ true) }
        ensures only { (s : Setup) → H.judges self.old.inner self.new.inner s
            → H.accepts self.old.inner host.now hash.now signature.now ≡ true
            → IsRefused result → refuses_next self.old ≡ true }
        ensures never { (s : Setup) → Obliges H.judges self.old self.new s
            → H.accepts self.old.inner host.now hash.now signature.now ≡ true
            → IsRefused result → ⊥ }
    {
        if refuses(self.refuse_at, &mut self.calls, &mut self.refusals[1]) {
            return Err(Refusal::Refused);
        }
        self.inner.verify(alloc, host, hash, signature)
    }

    fn check(&mut self, alloc: Global, host: &ServerHost) -> Result<(), Refusal>
        ensures due { refuses_next self.old ≡ true → result ≡ Err Refused }
        ensures passed { refuses_next self.old ≡ false
            → Counted (H.refused_check self.old.inner) (H.refused_check self.new.inner)
            (H.calls self.old.inner) (H.calls self.new.inner) result }
        ensures own { CountsCall 2 self.old self.new }
        ensures answers { OnOk result (Answers answered_before 1 self.old self.new) }
        ensures counts { Counted (refusals_at 2 H.refused_check self.old) (refusals_at 2 H.refused_check self.new)
            self.old.calls self.new.calls result }
        ensures keeps { KeepsHosts (Within H.lawful) (Obliges H.signs) (Obliges H.judges) (λ v. H.accepts v.inner)
            (λ v. H.trusts v.inner) (refusals_at 0 H.refused_sign) (refusals_at 1 H.refused_verify)
            (refusals_at 2 H.refused_check) (λ v. v.calls) self.old self.new }
        ensures sign { refusals_at 0 H.refused_sign self.new ≡ refusals_at 0 H.refused_sign self.old }
        ensures verify { refusals_at 1 H.refused_verify self.new ≡ refusals_at 1 H.refused_verify self.old }
        ensures ok { OnOk result (H.trusts self.old.inner host.now ≡ true) }
        ensures only { (s : Setup) → H.judges self.old.inner self.new.inner s
            → H.trusts self.old.inner host.now ≡ true
            → IsRefused result → refuses_next self.old ≡ true }
        ensures never { (s : Setup) → Obliges H.judges self.old self.new s → H.trusts self.old.inner host.now ≡ true
            → IsRefused result → ⊥ }
    {
        if refuses(self.refuse_at, &mut self.calls, &mut self.refusals[2]) {
            return Err(Refusal::Refused);
        }
        self.inner.check(alloc, host)
    }
}

impl<G: GroupLookup> GroupLookup for Refusing<G> {
    ghost use Rattle.ssh_vectors.specs.Refusing.{Obliges, Within, answered_before, refusals_at};

    ghost group = { λ v. G.group v.inner };

    ghost lawful = { Within G.lawful };

    ghost obliging = { Obliges G.obliging };

    ghost refusals = { refusals_at 0 G.refusals };

    ghost calls = { λ v. v.calls };

    ghost answered = { answered_before };

    ghost canonical = { λ v s. G.canonical v.inner s };

    ghost small = { λ v s. G.small v.inner s };

    ghost fitting = { λ v later s o. G.fitting v.inner later.inner s o.0 };

    ghost obliging_lawful = { λ v later s o. G.obliging_lawful v.inner later.inner s o.0 };

    fn lookup_dh_gex_group(
        &mut self,
        alloc: Global,
        gex_params: &GexParams,
    ) -> Result<DhGroup, Refusal>
        ensures due { refuses_next self.old ≡ true → result ≡ Err Refused }
        ensures passed { refuses_next self.old ≡ false
            → Counted (G.refusals self.old.inner) (G.refusals self.new.inner)
            (G.calls self.old.inner) (G.calls self.new.inner) result }
        ensures own { CountsCall 0 self.old self.new }
        ensures answers { OnOk result (Answers answered_before 1 self.old self.new) }
        ensures counts { Counted (refusals_at 0 G.refusals self.old) (refusals_at 0 G.refusals self.new)
            self.old.calls self.new.calls result }
        ensures keeps { KeepsGroups (Within G.lawful) (Obliges G.obliging) (λ v. G.group v.inner)
            (refusals_at 0 G.refusals) (λ v. v.calls) self.old self.new }
        ensures values { IfOk result (λ g. IsValue g.prime × IsValue g.generator) }
        ensures found { (s : Setup) → G.lawful self.old.inner s
            → IfOk result (λ g. g ≡ G.group self.old.inner gex_params.now) }
        ensures only { (s : Setup) → G.obliging self.old.inner self.new.inner s → IsRefused result
            → refuses_next self.old ≡ true }
        ensures never { (s : Setup) → Obliges G.obliging self.old self.new s → IsRefused result → ⊥ }
    {
        if refuses(self.refuse_at, &mut self.calls, &mut self.refusals[0]) {
            return Err(Refusal::Refused);
        }
        self.inner.lookup_dh_gex_group(alloc, gex_params)
    }
}
