//! A key agreement in finite fields.

ghost use Rattle.std.specs.Prelude.{◌≡◌, ℕ, List, IfOk, true};
ghost use Rattle.std.specs.Option.{option_copied};
ghost use Rattle.ssh_kex.specs.Parts.{HasItsGroup, IsRefused, IsSmall, IsValue};
ghost use Rattle.ssh_modp.specs.Counts.{CountsAnswer};
ghost use Rattle.ssh_modp.specs.Fields.{AgreesInField, FieldClientDraws, FieldServerDraws, LacksAgreed, LacksPublic};
ghost use Rattle.ssh_modp.specs.Fields.{LacksSecretOf, MakesPublic, ServerPublic, SpellsIn, TakesGroup, field_group};
ghost use Rattle.ssh_modp.specs.Fields.{group_seen, is_field_name};

use crate::counts::one_more;
use crate::field::{agreed_in, own_value, secret_of};
use crate::primes::fixed_prime;
use rand_core::Rng;
use ssh_kex::{Agreed, Agreement, DhGroup, Refusal, Started};
use ssh_negotiate::kex;
use ssh_wire::Blob;
use std::alloc::Global;
use std::marker::Model;

/// Agrees in the groups 14, 15 and 16 of RFC 3526, and in those that a group exchange finds. A group is refused whose
/// prime is no odd number from 3 on of at most 8192 bits, and a value that isn't the body of an `mpint` from 1 on and
/// below the prime (RFC 4253 section 8). An own value of 0 is refused too: in the groups of RFC 3526 none is.
///
/// Nothing is promised of its time: it depends on the exponents.
#[derive(Debug, Drop)]
pub struct FieldAgreement {
    calls: u64,
    refusals: u64,
}

impl Model for FieldAgreement {
    ghost use Rattle.ssh_modp.specs.Counts.{Counts};

    ghost Value = { Counts };

    ghost view = { λ a. record { calls = a.calls; refusals = a.refusals } };
}

impl FieldAgreement {
    /// One that was never asked.
    pub fn new() -> FieldAgreement
        ensures { result ≡ record { calls = 0; refusals = 0 } }
    {
        FieldAgreement {
            calls: 0,
            refusals: 0,
        }
    }

    /// How often it was asked; the count stops at its end.
    pub fn calls(&self) -> u64
        ensures { result ≡ self.now.calls }
    {
        self.calls
    }

    /// How often it refused; the count stops at its end.
    pub fn refusals(&self) -> u64
        ensures { result ≡ self.now.refusals }
    {
        self.refusals
    }

    /// An answer, counted where it is a refusal.
    fn count<T: Drop>(&mut self, answer: Result<T, Refusal>) -> Result<T, Refusal>
        ensures same { result ≡ answer }
        ensures counts { CountsAnswer self.old self.new result }
    {
        self.calls = one_more(self.calls);
        if matches!(answer, Err(Refusal::Refused)) {
            self.refusals = one_more(self.refusals);
        }
        answer
    }
}

/// The prime and the generator of the group in which a name agrees: the one that is handed over, or its own.
fn group_for(name: kex::Name, group: Option<&DhGroup>) -> Option<(&[u8], &[u8])>
    ensures { group_seen result ≡ field_group name (option_copied group.entry) }
{
    match group {
        Some(group) => Some((group.prime.as_slice(), group.generator.as_slice())),
        None => match fixed_prime(name) {
            Some(prime) => Some((prime, &[2])),
            None => None,
        },
    }
}

/// The secret that an exponent makes of the other side's public value, in the group of a name. Refused where there is
/// no group, and as `secret_of`. Memory.
fn secret_in(
    alloc: Global,
    name: kex::Name,
    group: Option<&DhGroup>,
    exponent: &[u8],
    public: &[u8],
) -> Result<Blob, Refusal>
    ensures secret { IfOk result (SpellsIn name (option_copied group.entry) exponent.now public.now) }
    ensures refused { IsRefused result → LacksSecretOf name (option_copied group.entry) public.now }
    ensures small { IfOk result (λ b. IsSmall b) }
{
    match group_for(name, group) {
        Some((prime, _)) => secret_of(alloc, prime, exponent, public),
        None => Err(Refusal::Refused),
    }
}

impl Agreement for FieldAgreement {
    ghost use Rattle.std.specs.Prelude.{◌≡◌};
    ghost use Rattle.ssh_modp.specs.Fields.{AgreesInField, FieldClientDraws, FieldServerDraws, MakesPublic, ServerPublic, TakesGroup, is_field_name};
    ghost use Rattle.ssh_modp.specs.OneSecret.{one_secret};

    ghost offered = { λ v name. is_field_name name };

    ghost client_makes = { MakesPublic };

    ghost server_makes = { ServerPublic };

    ghost agrees = { AgreesInField };

    ghost client_draws = { FieldClientDraws };

    ghost server_draws = { FieldServerDraws };

    ghost lawful = { λ v s. Unit {0} };

    ghost obliging = { λ v later s group. TakesGroup group };

    ghost refusals = { λ v. v.refusals };

    ghost calls = { λ v. v.calls };

    ghost answered = { λ v known n. true };

    ghost one_secret = { λ v s name group local client server x y l c r a b. one_secret c r a b };

    ghost obliging_lawful = { λ v later s group o. tt };

    fn offers(&self, name: kex::Name) -> bool {
        name.shape().gex || fixed_prime(name).is_some()
    }

    fn client_start<R: Rng>(
        &mut self,
        alloc: Global,
        name: kex::Name,
        group: Option<&DhGroup>,
        rng: &mut R,
    ) -> Result<Started, Refusal>
        ensures drawn { IfOk result (λ v. FieldClientDraws name (option_copied group.entry) (R.stream rng.old) v.local
            v.public (R.stream rng.new)) }
        ensures made { IfOk result (λ v. MakesPublic name (option_copied group.entry) v.local v.public
            × IsSmall v.public × IsSmall v.local) }
        ensures refused { IsRefused result → LacksPublic name (option_copied group.entry) (R.stream rng.old) }
        ensures never { TakesGroup (option_copied group.entry) → HasItsGroup name (option_copied group.entry)
            → is_field_name name ≡ true → IsRefused result → ⊥ }
        ensures values { IfOk result (λ v. IsValue v.public × IsValue v.local) }
        ensures after { CountsAnswer self.old self.new result }
    {
        let started = match group_for(name, group) {
            Some((prime, generator)) => own_value(alloc, prime, generator, rng),
            None => Err(Refusal::Refused),
        };
        self.count(started)
    }

    fn server_agree<R: Rng>(
        &mut self,
        alloc: Global,
        name: kex::Name,
        group: Option<&DhGroup>,
        client_public: &[u8],
        rng: &mut R,
    ) -> Result<Agreed, Refusal>
        ensures drawn { IfOk result (λ v. FieldServerDraws name (option_copied group.entry) client_public.now
            (R.stream rng.old) v.public v.secret (R.stream rng.new)) }
        ensures made { IfOk result (λ v. ServerPublic name (option_copied group.entry) client_public.now v.public
            × AgreesInField name (option_copied group.entry) client_public.now v.public v.secret × IsSmall v.public
            × IsSmall v.secret) }
        ensures refused { IsRefused result → LacksAgreed name (option_copied group.entry) client_public.now
            (R.stream rng.old) }
        ensures never { (local : List ℕ) → TakesGroup (option_copied group.entry)
            → HasItsGroup name (option_copied group.entry) → is_field_name name ≡ true
            → MakesPublic name (option_copied group.entry) local client_public.now → IsRefused result → ⊥ }
        ensures values { IfOk result (λ v. IsValue v.public × IsValue v.secret) }
        ensures after { CountsAnswer self.old self.new result }
    {
        let agreed = match group_for(name, group) {
            Some((prime, generator)) => agreed_in(alloc, prime, generator, client_public, rng),
            None => Err(Refusal::Refused),
        };
        self.count(agreed)
    }

    fn client_agree(
        &mut self,
        alloc: Global,
        name: kex::Name,
        group: Option<&DhGroup>,
        local: &[u8],
        server_public: &[u8],
    ) -> Result<Blob, Refusal>
        ensures made { (public : List ℕ) → MakesPublic name (option_copied group.entry) local.now public
            → IfOk result (λ v. AgreesInField name (option_copied group.entry) public server_public.now v
            × IsSmall v) }
        ensures refused { IsRefused result → LacksSecretOf name (option_copied group.entry) server_public.now }
        ensures never { (public : List ℕ) → TakesGroup (option_copied group.entry)
            → HasItsGroup name (option_copied group.entry) → is_field_name name ≡ true
            → MakesPublic name (option_copied group.entry) local.now public
            → ServerPublic name (option_copied group.entry) public server_public.now → IsRefused result → ⊥ }
        ensures values { IfOk result (λ v. IsValue v) }
        ensures after { CountsAnswer self.old self.new result }
    {
        let secret = secret_in(alloc, name, group, local, server_public);
        self.count(secret)
    }
}
