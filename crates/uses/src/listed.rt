//! An agreement that takes the groups of a list alone, and a lookup of such a list.

ghost use Rattle.std.specs.Prelude.{◌≡◌, ◌↔◌, ℕ, List, Option, true, false, None, Some, Err, Contains, IfOk, IfSome, OnOk, IsTrue};
ghost use Rattle.std.specs.Option.{option_copied};
ghost use Rattle.ssh_kex.specs.Parts.{Answers, Counted, HasItsGroup, IsRefused, IsSmall, IsValue, KeepsAgreement, Setup};
ghost use Rattle.ssh_kex.specs.declared.group.DhGroup.{DhGroup};
ghost use Rattle.ssh_kex.specs.declared.parts.Refusal.TheVariants.{Refused};
ghost use Rattle.ssh_wire.specs.Outside.{next_count};
ghost use Rattle.uses.specs.declared.listed.ListedAgreement.{ListedAgreement};
ghost use Rattle.uses.specs.declared.listed.ListedGroups.{ListedGroups};
ghost use Rattle.uses.specs.Listed.{FindsBetween, ObligesIfListed, RefusesUnlisted, Takes, first_within, is_within, with_unlisted};

use crate::moduli::answer_of;
use rand_core::Rng;
use ssh_kex::{Agreed, Agreement, DhGroup, GexParams, GroupLookup, Refusal, Started};
use ssh_negotiate::kex;
use ssh_wire::Blob;
use std::alloc::Global;

/// Agrees as the inner one does, without a group and in the groups of its list, and refuses other groups.
#[derive(Drop)]
pub struct ListedAgreement<A> {
    pub inner: A,
    pub groups: Vec<DhGroup>,
    /// How often it was asked for another group; the count stops at its end.
    pub refused: u64,
}

/// Whether a group is to be refused, which is then counted.
fn refuses(groups: &[DhGroup], group: Option<&DhGroup>, refused: &mut u64) -> bool
    ensures listed { result ≡ false → Takes groups.now (option_copied group.entry) }
    ensures unlisted { result ≡ true → Takes groups.now (option_copied group.entry) → ⊥ }
    ensures counted { result ≡ true → refused.new ≡ next_count refused.old }
    ensures uncounted { result ≡ false → refused.new ≡ refused.old }
{
    let Some(group) = group else {
        return false;
    };
    if is_listed(groups, group) {
        return false;
    }
    *refused = refused.saturating_add(1);
    true
}

/// Whether two groups are of the same numbers, byte by byte.
fn is_same(left: &DhGroup, right: &DhGroup) -> bool
    ensures { IsTrue result ↔ (left.now ≡ right.now) }
{
    left.prime.as_slice() == right.prime.as_slice()
        && left.generator.as_slice() == right.generator.as_slice()
}

/// Whether the group is one of the list.
fn is_listed(groups: &[DhGroup], group: &DhGroup) -> bool
    ensures { IsTrue result ↔ Contains groups.now group.now }
{
    groups.iter().any(|listed| is_same(listed, group))
}

/// Whether the group's size is one that is allowed.
fn is_within(sizes: &GexParams, group: &DhGroup) -> bool
    ensures { result ≡ is_within sizes.now group.now }
{
    let bits = group.bit_size();
    u64::from(sizes.min_group_size) <= bits && bits <= u64::from(sizes.max_group_size)
}

/// The first group of an allowed size.
fn first_within<'a>(groups: &'a [DhGroup], sizes: &GexParams) -> Option<&'a DhGroup>
    ensures { option_copied result ≡ first_within sizes.now groups.now }
{
    groups.iter().find(|group| is_within(sizes, group))
}

impl<A: Agreement> Agreement for ListedAgreement<A> {
    ghost use Rattle.uses.specs.declared.listed.ListedAgreement.{ListedAgreement};
    ghost use Rattle.uses.specs.declared.listed.ListedGroups.{ListedGroups};
    ghost use Rattle.uses.specs.Listed.{FindsBetween, ObligesIfListed, with_unlisted};

    ghost offered = { λ v. A.offered v.inner };

    ghost client_makes = { A.client_makes };

    ghost server_makes = { A.server_makes };

    ghost agrees = { A.agrees };

    ghost client_draws = { A.client_draws };

    ghost server_draws = { A.server_draws };

    ghost lawful = { λ v. A.lawful v.inner };

    ghost obliging = { ObligesIfListed A.obliging };

    ghost refusals = { with_unlisted A.refusals };

    ghost calls = { with_unlisted A.calls };

    ghost answered = { λ v. A.answered v.inner };

    ghost one_secret = { λ v s. A.one_secret v.inner s };

    ghost obliging_lawful = { λ v later s group o. A.obliging_lawful v.inner later.inner s group o.0 };

    fn offers(&self, name: kex::Name) -> bool {
        self.inner.offers(name)
    }

    fn client_start<R: Rng>(
        &mut self,
        alloc: Global,
        name: kex::Name,
        group: Option<&DhGroup>,
        rng: &mut R,
    ) -> Result<Started, Refusal>
        ensures unlisted { (Takes self.old.groups.items (option_copied group.entry) → ⊥) → result ≡ Err Refused }
        ensures unasked { (Takes self.old.groups.items (option_copied group.entry) → ⊥)
            → RefusesUnlisted self.old self.new }
        ensures undrawn { (Takes self.old.groups.items (option_copied group.entry) → ⊥)
            → R.stream rng.new ≡ R.stream rng.old }
        ensures asked { Takes self.old.groups.items (option_copied group.entry)
            → Counted (A.refusals self.old.inner) (A.refusals self.new.inner)
            (A.calls self.old.inner) (A.calls self.new.inner) result }
        ensures uncounted { Takes self.old.groups.items (option_copied group.entry)
            → self.new.refused ≡ self.old.refused }
        ensures groups { self.new.groups ≡ self.old.groups }
        ensures answers { OnOk result (Answers A.answered 1 self.old.inner self.new.inner) }
        ensures counts { Counted (with_unlisted A.refusals self.old) (with_unlisted A.refusals self.new)
            (with_unlisted A.calls self.old) (with_unlisted A.calls self.new) result }
        ensures keeps { KeepsAgreement (λ v. A.lawful v.inner) (ObligesIfListed A.obliging) (λ v. A.offered v.inner)
            (with_unlisted A.refusals) (with_unlisted A.calls) self.old self.new }
        ensures values { IfOk result (λ v. IsValue v.public × IsValue v.local) }
        ensures drawn { IfOk result (λ v. A.client_draws name (option_copied group.entry) (R.stream rng.old) v.local
            v.public (R.stream rng.new)) }
        ensures made { (s : Setup) → A.lawful self.old.inner s → IfOk result (λ v.
            A.client_makes name (option_copied group.entry) v.local v.public × IsSmall v.public × IsSmall v.local) }
        ensures never { (s : Setup) → ObligesIfListed A.obliging self.old self.new s (option_copied group.entry)
            → HasItsGroup name (option_copied group.entry) → A.offered self.old.inner name ≡ true
            → IsRefused result → ⊥ }
    {
        if refuses(self.groups.as_slice(), group, &mut self.refused) {
            return Err(Refusal::Refused);
        }
        self.inner.client_start(alloc, name, group, rng)
    }

    fn server_agree<R: Rng>(
        &mut self,
        alloc: Global,
        name: kex::Name,
        group: Option<&DhGroup>,
        client_public: &[u8],
        rng: &mut R,
    ) -> Result<Agreed, Refusal>
        ensures unlisted { (Takes self.old.groups.items (option_copied group.entry) → ⊥) → result ≡ Err Refused }
        ensures unasked { (Takes self.old.groups.items (option_copied group.entry) → ⊥)
            → RefusesUnlisted self.old self.new }
        ensures undrawn { (Takes self.old.groups.items (option_copied group.entry) → ⊥)
            → R.stream rng.new ≡ R.stream rng.old }
        ensures asked { Takes self.old.groups.items (option_copied group.entry)
            → Counted (A.refusals self.old.inner) (A.refusals self.new.inner)
            (A.calls self.old.inner) (A.calls self.new.inner) result }
        ensures uncounted { Takes self.old.groups.items (option_copied group.entry)
            → self.new.refused ≡ self.old.refused }
        ensures groups { self.new.groups ≡ self.old.groups }
        ensures answers { OnOk result (Answers A.answered 1 self.old.inner self.new.inner) }
        ensures counts { Counted (with_unlisted A.refusals self.old) (with_unlisted A.refusals self.new)
            (with_unlisted A.calls self.old) (with_unlisted A.calls self.new) result }
        ensures keeps { KeepsAgreement (λ v. A.lawful v.inner) (ObligesIfListed A.obliging) (λ v. A.offered v.inner)
            (with_unlisted A.refusals) (with_unlisted A.calls) self.old self.new }
        ensures values { IfOk result (λ v. IsValue v.public × IsValue v.secret) }
        ensures drawn { IfOk result (λ v. A.server_draws name (option_copied group.entry) client_public.now
            (R.stream rng.old) v.public v.secret (R.stream rng.new)) }
        ensures made { (s : Setup) → A.lawful self.old.inner s → IfOk result (λ v.
            A.server_makes name (option_copied group.entry) client_public.now v.public
            × A.agrees name (option_copied group.entry) client_public.now v.public v.secret
            × IsSmall v.public × IsSmall v.secret) }
        ensures never { (s : Setup) (local : List ℕ) → ObligesIfListed A.obliging self.old self.new s
            (option_copied group.entry)
            → HasItsGroup name (option_copied group.entry) → A.offered self.old.inner name ≡ true
            → A.client_makes name (option_copied group.entry) local client_public.now
            → IsRefused result → ⊥ }
    {
        if refuses(self.groups.as_slice(), group, &mut self.refused) {
            return Err(Refusal::Refused);
        }
        self.inner
            .server_agree(alloc, name, group, client_public, rng)
    }

    fn client_agree(
        &mut self,
        alloc: Global,
        name: kex::Name,
        group: Option<&DhGroup>,
        local: &[u8],
        server_public: &[u8],
    ) -> Result<Blob, Refusal>
        ensures unlisted { (Takes self.old.groups.items (option_copied group.entry) → ⊥) → result ≡ Err Refused }
        ensures unasked { (Takes self.old.groups.items (option_copied group.entry) → ⊥)
            → RefusesUnlisted self.old self.new }
        ensures asked { Takes self.old.groups.items (option_copied group.entry)
            → Counted (A.refusals self.old.inner) (A.refusals self.new.inner)
            (A.calls self.old.inner) (A.calls self.new.inner) result }
        ensures uncounted { Takes self.old.groups.items (option_copied group.entry)
            → self.new.refused ≡ self.old.refused }
        ensures groups { self.new.groups ≡ self.old.groups }
        ensures answers { OnOk result (Answers A.answered 1 self.old.inner self.new.inner) }
        ensures counts { Counted (with_unlisted A.refusals self.old) (with_unlisted A.refusals self.new)
            (with_unlisted A.calls self.old) (with_unlisted A.calls self.new) result }
        ensures keeps { KeepsAgreement (λ v. A.lawful v.inner) (ObligesIfListed A.obliging) (λ v. A.offered v.inner)
            (with_unlisted A.refusals) (with_unlisted A.calls) self.old self.new }
        ensures values { IfOk result (λ v. IsValue v) }
        ensures made { (s : Setup) (public : List ℕ) → A.lawful self.old.inner s
            → A.client_makes name (option_copied group.entry) local.now public → IfOk result (λ v.
            A.agrees name (option_copied group.entry) public server_public.now v × IsSmall v) }
        ensures never { (s : Setup) (public : List ℕ) → ObligesIfListed A.obliging self.old self.new s
            (option_copied group.entry)
            → HasItsGroup name (option_copied group.entry) → A.offered self.old.inner name ≡ true
            → A.client_makes name (option_copied group.entry) local.now public
            → A.server_makes name (option_copied group.entry) public server_public.now
            → IsRefused result → ⊥ }
    {
        if refuses(self.groups.as_slice(), group, &mut self.refused) {
            return Err(Refusal::Refused);
        }
        self.inner
            .client_agree(alloc, name, group, local, server_public)
    }
}

/// Finds the first group of its list whose size a client allows, and refuses where none has such a size.
///
/// What obliges owes an answer for whatever sizes it is asked. No list has a group for each of them, so it obliges from
/// one of its states to a later one only where it refused none between them.
#[derive(Debug, Drop)]
pub struct ListedGroups {
    pub groups: Vec<DhGroup>,
    /// How often it was asked; the count stops at its end.
    pub calls: u64,
    /// How often it found none; the count stops at its end.
    pub refused: u64,
}

impl GroupLookup for ListedGroups {
    ghost use Rattle.std.specs.Prelude.{All, true};
    ghost use Rattle.uses.specs.Moduli.{IsLawfulGroup};
    ghost use Rattle.uses.specs.declared.listed.ListedAgreement.{ListedAgreement};
    ghost use Rattle.uses.specs.declared.listed.ListedGroups.{ListedGroups};
    ghost use Rattle.uses.specs.Listed.{FindsBetween, first_within, group_or_empty};
    ghost use Rattle.uses.specs.ListedLaws.{found_fits, found_lawful};

    ghost group = { λ v sizes. group_or_empty (first_within sizes v.groups.items) };

    ghost lawful = { λ v s. All IsLawfulGroup v.groups.items };

    ghost obliging = { λ v later s. FindsBetween s.client.gex v.groups.items v.refused later.refused };

    ghost refusals = { λ v. v.refused };

    ghost calls = { λ v. v.calls };

    ghost answered = { λ v known n. true };

    ghost canonical = { λ v s sizes l. (found_lawful sizes v.groups.items l).canonical };

    ghost small = { λ v s l. let p = found_lawful s.client.gex v.groups.items l in (p.prime, p.generator) };

    ghost fitting = { λ v later s o. found_fits s.client.gex v.groups.items o.found };

    ghost obliging_lawful = { λ v later s o. o.lawful };

    fn lookup_dh_gex_group(
        &mut self,
        alloc: Global,
        gex_params: &GexParams,
    ) -> Result<DhGroup, Refusal>
        ensures exact { IfOk result (λ g. first_within gex_params.now self.old.groups.items ≡ Some g) }
        ensures none { first_within gex_params.now self.old.groups.items ≡ None → result ≡ Err Refused }
        ensures values { IfOk result (λ g. IsValue g.prime × IsValue g.generator) }
        ensures calls { self.new.calls ≡ next_count self.old.calls }
        ensures refused { IsRefused result → first_within gex_params.now self.old.groups.items ≡ None }
        ensures counted { IsRefused result → self.new.refused ≡ next_count self.old.refused }
        ensures uncounted { (IsRefused result → ⊥) → self.new.refused ≡ self.old.refused }
        ensures groups { self.new.groups ≡ self.old.groups }
        ensures never { (s : Setup) → FindsBetween s.client.gex self.old.groups.items self.old.refused self.new.refused
            → IsRefused result → ⊥ }
    {
        self.calls = self.calls.saturating_add(1);
        let Some(group) = first_within(self.groups.as_slice(), gex_params) else {
            self.refused = self.refused.saturating_add(1);
            return Err(Refusal::Refused);
        };
        answer_of(alloc, group)
    }
}

/// An agreement takes the group that a lookup of the same list finds for a client's sizes, where the lookup is obliging
/// for that client. So it obliges in whatever group is exchanged, if in any, where the inner one does.
#[tactic(auto, using(crate::proofs::Listing::found_listed))]
pub fn found_group_taken<A: Agreement>()
    ensures { (agreement after : ListedAgreement A) (lookup later : ListedGroups) (s : Setup) (group : Option DhGroup)
        → lookup.groups.items ≡ agreement.groups.items
        → ⟦<ListedGroups as GroupLookup>⟧.obliging lookup later s
        → IfSome group (λ g. g ≡ ⟦<ListedGroups as GroupLookup>⟧.group lookup s.client.gex)
        → A.obliging agreement.inner after.inner s group
        → ⟦<ListedAgreement<A> as Agreement>⟧.obliging agreement after s group }
{}
