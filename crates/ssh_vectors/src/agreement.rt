//! A key agreement whose secret is a hash of both public values.

ghost use Rattle.std.specs.Prelude.{◌≡◌, ◌≤◌, length, not, Option, Some, None, Err, false, true, IfOk, IfErr, []};
ghost use Rattle.std.specs.Option.{option_copied};
ghost use Rattle.ssh_kex.specs.declared.parts.Refusal.TheVariants.{Refused, Memory};
ghost use Rattle.ssh_vectors.specs.Agreement.{asked_again, behind_value, has_value_length, secret_between, value_from};
ghost use Rattle.ssh_vectors.specs.Agreement.{group_prime, group_generator};
ghost use Rattle.ssh_vectors.specs.Refusing.{is_refused};

use crate::counts::one_more;
use crate::hashing::take_string;
use rand_core::Rng;
use ssh_kex::{Agreed, Agreement, DhGroup, Refusal, Started};
use ssh_mac::{DigestKind, Hasher};
use ssh_negotiate::kex;
use ssh_wire::Blob;
use std::alloc::{AllocError, Global};
use std::marker::Model;

const VALUE: usize = 32;

/// Offers every name but `none`. A public value is 32 drawn bytes; one of another length is refused. What a client
/// keeps is what it sends, so that nothing of it is secret.
#[derive(Debug, Drop)]
pub struct TestAgreement {
    calls: u64,
    refusals: u64,
}

impl Model for TestAgreement {
    ghost use Rattle.ssh_vectors.specs.Agreement.{AskedAgreement};

    ghost Value = { AskedAgreement };

    ghost view = { λ t. record { calls = t.calls; refusals = t.refusals } };
}

impl TestAgreement {
    /// One that was never asked.
    pub fn new() -> TestAgreement
        ensures { result ≡ record { calls = 0; refusals = 0 } }
    {
        TestAgreement {
            calls: 0,
            refusals: 0,
        }
    }

    /// How often it was asked; the count stops at its end.
    pub fn calls(&self) -> u64
        ensures { result ≡ self.now.calls }
    {
        self.calls
    }

    /// How many values it refused; the count stops at its end.
    pub fn refusals(&self) -> u64
        ensures { result ≡ self.now.refusals }
    {
        self.refusals
    }
}

impl Agreement for TestAgreement {
    ghost use Rattle.std.specs.Prelude.{◌≡◌, not, Bool, true};
    ghost use Rattle.std.proofs.Common.{◌∙◌, sym};
    ghost use Rattle.ssh_negotiate.specs.Tables.{shape_of};
    ghost use Rattle.ssh_vectors.specs.Agreement.{Agrees, ClientMakes, ServerMakes};
    ghost use Rattle.ssh_vectors.specs.Drawing.{ClientDraws, ServerDraws};

    ghost offered = { λ v name. not (shape_of name).skip };

    ghost client_makes = { ClientMakes };

    ghost server_makes = { ServerMakes };

    ghost agrees = { Agrees };

    ghost client_draws = { ClientDraws };

    ghost server_draws = { ServerDraws };

    ghost lawful = { λ v s. Unit {0} };

    ghost obliging = { λ v later s group. Unit {0} };

    ghost refusals = { λ v. v.refusals };

    ghost calls = { λ v. v.calls };

    ghost answered = { λ v known n. true };

    ghost one_secret = { λ v s name group local client server x y l c r a b. a ∙ sym b };

    ghost obliging_lawful = { λ v later s group o. o };

    #[tactic(auto, unfolding(ssh_negotiate::specs::Tables::shape_of))]
    fn offers(&self, name: kex::Name) -> bool {
        !matches!(name, kex::Name::NoKex)
    }

    fn client_start<R: Rng>(
        &mut self,
        alloc: Global,
        _name: kex::Name,
        _group: Option<&DhGroup>,
        rng: &mut R,
    ) -> Result<Started, Refusal>
        ensures public { IfOk result (λ v. v.public ≡ value_from (R.stream rng.old)) }
        ensures local { IfOk result (λ v. v.local ≡ v.public) }
        ensures size { IfOk result (λ v. length v.public ≡ 32) }
        ensures stream { R.stream rng.new ≡ behind_value (R.stream rng.old) }
        ensures after { self.new ≡ asked_again self.old false }
        ensures err { IfErr result (λ e. e ≡ Memory) }
    {
        self.calls = one_more(self.calls);
        let Ok(public) = drawn(alloc, rng) else {
            return Err(Refusal::Memory);
        };
        let Ok(local) = copied(alloc, public.as_slice()) else {
            return Err(Refusal::Memory);
        };
        Ok(Started { public, local })
    }

    fn server_agree<R: Rng>(
        &mut self,
        alloc: Global,
        name: kex::Name,
        group: Option<&DhGroup>,
        client_public: &[u8],
        rng: &mut R,
    ) -> Result<Agreed, Refusal>
        ensures public { IfOk result (λ v. v.public ≡ value_from (R.stream rng.old)) }
        ensures secret { IfOk result (λ v. v.secret
            ≡ secret_between name (option_copied group.entry) client_public.now v.public) }
        ensures size { IfOk result (λ v. (length v.public ≡ 32) × (length v.secret ≡ 32)) }
        ensures refused { has_value_length client_public.now ≡ false → result ≡ Err Refused }
        ensures taken { has_value_length client_public.now ≡ true → is_refused result ≡ false }
        ensures undrawn { has_value_length client_public.now ≡ false → R.stream rng.new ≡ R.stream rng.old }
        ensures stream { has_value_length client_public.now ≡ true
            → R.stream rng.new ≡ behind_value (R.stream rng.old) }
        ensures after { self.new ≡ asked_again self.old (not (has_value_length client_public.now)) }
    {
        self.calls = one_more(self.calls);
        if client_public.len() != VALUE {
            self.refusals = one_more(self.refusals);
            return Err(Refusal::Refused);
        }
        let Ok(public) = drawn(alloc, rng) else {
            return Err(Refusal::Memory);
        };
        let Ok(secret) = secret_of(alloc, name, group, client_public, public.as_slice()) else {
            return Err(Refusal::Memory);
        };
        Ok(Agreed { public, secret })
    }

    fn client_agree(
        &mut self,
        alloc: Global,
        name: kex::Name,
        group: Option<&DhGroup>,
        local: &[u8],
        server_public: &[u8],
    ) -> Result<Blob, Refusal>
        ensures secret { IfOk result (λ v. v
            ≡ secret_between name (option_copied group.entry) local.now server_public.now) }
        ensures size { IfOk result (λ v. length v ≡ 32) }
        ensures refused { has_value_length server_public.now ≡ false → result ≡ Err Refused }
        ensures taken { has_value_length server_public.now ≡ true → is_refused result ≡ false }
        ensures after { self.new ≡ asked_again self.old (not (has_value_length server_public.now)) }
    {
        self.calls = one_more(self.calls);
        if server_public.len() != VALUE {
            self.refusals = one_more(self.refusals);
            return Err(Refusal::Refused);
        }
        let Ok(secret) = secret_of(alloc, name, group, local, server_public) else {
            return Err(Refusal::Memory);
        };
        Ok(secret)
    }
}

/// A vector of these bytes. Memory.
fn copied(alloc: Global, bytes: &[u8]) -> Result<Blob, AllocError>
    ensures { IfOk result (λ b. b ≡ bytes.now) }
{
    let mut copy = Vec::new(alloc);
    copy.extend_from_slice(bytes)?;
    Ok(Blob::new(copy))
}

/// Thirty-two drawn bytes. They are drawn also where memory runs out.
fn drawn<R: Rng>(alloc: Global, rng: &mut R) -> Result<Blob, AllocError>
    ensures bytes { IfOk result (λ b. b ≡ value_from (R.stream rng.old)) }
    ensures size { IfOk result (λ b. length b ≡ 32) }
    ensures stream { R.stream rng.new ≡ behind_value (R.stream rng.old) }
{
    let mut bytes = [0; VALUE];
    rng.fill_bytes(&mut bytes);
    copied(alloc, &bytes)
}

/// The bytes of a group: the prime and the generator, none where there is no group.
fn group_bytes(group: Option<&DhGroup>) -> (&[u8], &[u8])
    ensures prime { result.0.now ≡ group_prime (option_copied group.entry) }
    ensures generator { result.1.now ≡ group_generator (option_copied group.entry) }
{
    match group {
        Some(group) => (group.prime.as_slice(), group.generator.as_slice()),
        None => (&[], &[]),
    }
}

/// The secret between two public values. Memory.
fn secret_of(
    alloc: Global,
    name: kex::Name,
    group: Option<&DhGroup>,
    client: &[u8],
    server: &[u8],
) -> Result<Blob, AllocError>
    ensures secret { IfOk result (λ b. b ≡ secret_between name (option_copied group.entry) client.now server.now) }
    ensures size { IfOk result (λ b. length b ≡ 32) }
{
    let mut hasher = Hasher::new(DigestKind::Sha256);
    let (prime, generator) = group_bytes(group);
    take_string(&mut hasher, name.as_str().as_bytes());
    take_string(&mut hasher, prime);
    take_string(&mut hasher, generator);
    take_string(&mut hasher, client);
    take_string(&mut hasher, server);
    let hash = hasher.finalize();
    copied(alloc, hash.as_bytes())
}
