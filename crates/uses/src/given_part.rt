//! Parts that answer what they were given, for the replay of an exchange.

ghost use Rattle.std.specs.Prelude.{◌≡◌, ◌∷◌, ◌++◌, [], length, slice_get, Ok, IsSomeAnd, IfOk, IfErr, OnErr, OnOk};
ghost use Rattle.ssh_kex.specs.Parts.{IsValue};
ghost use Rattle.ssh_kex.specs.declared.parts.Refusal.TheVariants.{Memory};
ghost use Rattle.ssh_wire.specs.Outside.{next_count};
ghost use Rattle.ssh_wire.specs.declared.error.Error.TheVariants as errors;
ghost use Rattle.uses.specs.Given.{place_after};

use crate::moduli::answer_of;
use rand_core::Rng;
use ssh_kex::{
    Agreed, Agreement, DhGroup, GexParams, GroupLookup, HostKeys, Refusal, ServerHost, Started,
};
use ssh_mac::HashValue;
use ssh_negotiate::{HostKey, kex};
use ssh_wire::{Algorithm, Blob, Error};
use std::alloc::Global;

/// A public value, and the secret that was agreed by it.
#[derive(Drop)]
struct GivenValue {
    public: Vec<u8>,
    secret: Vec<u8>,
}

/// Answers the public values and the secrets of exchanges, one after the other, whatever it is asked; the last ones
/// stay. It keeps none of the laws of an agreement, so no value of it is lawful; what holds of whatever agreement holds
/// of it.
#[derive(Drop)]
pub struct GivenAgreement {
    values: Vec<GivenValue>,
    at: usize,
}

impl GivenAgreement {
    /// One that has no values yet, and answers want of memory.
    pub fn new(alloc: Global) -> GivenAgreement
        ensures values { result.values.items ≡ [] }
        ensures at { result.at ≡ 0 }
    {
        GivenAgreement {
            values: Vec::new(alloc),
            at: 0,
        }
    }

    /// One of one exchange. Memory.
    pub fn of(alloc: Global, public: Vec<u8>, secret: Vec<u8>) -> Result<GivenAgreement, Error>
        ensures values { IfOk result (λ given. given.values.items
            ≡ record { public = public; secret = secret } ∷ []) }
        ensures at { IfOk result (λ given. given.at ≡ 0) }
        ensures err { IfErr result (λ e. e ≡ errors.Memory) }
    {
        let mut given = GivenAgreement::new(alloc);
        given.push(public, secret)?;
        Ok(given)
    }

    /// Adds the values of another exchange. Memory.
    pub fn push(&mut self, public: Vec<u8>, secret: Vec<u8>) -> Result<(), Error>
        ensures added { OnOk result (self.new.values.items
            ≡ self.old.values.items ++ record { public = public; secret = secret } ∷ []) }
        ensures at { self.new.at ≡ self.old.at }
        ensures kept { OnErr result (self.new.values.items ≡ self.old.values.items) }
        ensures err { IfErr result (λ e. e ≡ errors.Memory) }
    {
        self.values.push(GivenValue { public, secret })?;
        Ok(())
    }

    /// Goes on to the next exchange's values, where there are any.
    fn go_on(&mut self)
        ensures { self.new ≡ record self.old { at = place_after (length self.old.values.items) self.old.at } }
    {
        self.at = place_after(self.values.len(), self.at);
    }
}

/// The place behind this one of so many, which stays at the last.
fn place_after(count: usize, at: usize) -> usize
    ensures { result ≡ place_after count at }
{
    let next = at.saturating_add(1);
    if next < count { next } else { at }
}

/// The bytes again. Memory, also where they are too many for a part's value.
fn again(alloc: Global, bytes: &[u8]) -> Result<Blob, Refusal>
    ensures same { IfOk result (λ b. b ≡ bytes.now) }
    ensures value { IfOk result (λ b. IsValue b) }
    ensures err { IfErr result (λ e. e ≡ Memory) }
{
    if bytes.len() >= 1 << 31 {
        return Err(Refusal::Memory);
    }
    match Blob::copy_of(alloc, bytes) {
        Ok(copy) => Ok(copy),
        Err(_) => Err(Refusal::Memory),
    }
}

impl Agreement for GivenAgreement {
    ghost use Rattle.std.specs.Prelude.{true};

    ghost offered = { λ given name. true };

    ghost client_makes = { λ name group local public. ⊥ };

    ghost server_makes = { λ name group client public. ⊥ };

    ghost agrees = { λ name group client server secret. ⊥ };

    ghost client_draws = { λ name group before local public behind. Unit {0} };

    ghost server_draws = { λ name group client before public secret behind. Unit {0} };

    ghost lawful = { λ given setup. ⊥ };

    ghost obliging = { λ given later setup group. ⊥ };

    ghost refusals = { λ given. 0 };

    ghost calls = { λ given. 0 };

    ghost answered = { λ v known n. true };

    fn offers(&self, _name: kex::Name) -> bool {
        true
    }

    fn client_start<R: Rng>(
        &mut self,
        alloc: Global,
        _name: kex::Name,
        _group: Option<&DhGroup>,
        _rng: &mut R,
    ) -> Result<Started, Refusal>
        ensures given { IfOk result (λ v. IsSomeAnd (slice_get self.old.values.items self.old.at)
            (λ g. v.public ≡ g.public.items)) }
        ensures local { IfOk result (λ v. v.local ≡ []) }
        ensures values { IfOk result (λ v. IsValue v.public × IsValue v.local) }
        ensures stays { self.new ≡ self.old }
        ensures undrawn { R.stream _rng.new ≡ R.stream _rng.old }
        ensures err { IfErr result (λ e. e ≡ Memory) }
    {
        let Some(value) = self.values.get(self.at) else {
            return Err(Refusal::Memory);
        };
        Ok(Started {
            public: again(alloc, value.public.as_slice())?,
            local: Blob::new(Vec::new(alloc)),
        })
    }

    fn server_agree<R: Rng>(
        &mut self,
        alloc: Global,
        _name: kex::Name,
        _group: Option<&DhGroup>,
        _client_public: &[u8],
        _rng: &mut R,
    ) -> Result<Agreed, Refusal>
        ensures given { IfOk result (λ v. IsSomeAnd (slice_get self.old.values.items self.old.at)
            (λ g. (v.public ≡ g.public.items) × (v.secret ≡ g.secret.items))) }
        ensures values { IfOk result (λ v. IsValue v.public × IsValue v.secret) }
        ensures goes_on { OnOk result (self.new
            ≡ record self.old { at = place_after (length self.old.values.items) self.old.at }) }
        ensures stays { OnErr result (self.new ≡ self.old) }
        ensures undrawn { R.stream _rng.new ≡ R.stream _rng.old }
        ensures err { IfErr result (λ e. e ≡ Memory) }
    {
        let Some(value) = self.values.get(self.at) else {
            return Err(Refusal::Memory);
        };
        let agreed = Agreed {
            public: again(alloc, value.public.as_slice())?,
            secret: again(alloc, value.secret.as_slice())?,
        };
        self.go_on();
        Ok(agreed)
    }

    fn client_agree(
        &mut self,
        alloc: Global,
        _name: kex::Name,
        _group: Option<&DhGroup>,
        _local: &[u8],
        _server_public: &[u8],
    ) -> Result<Blob, Refusal>
        ensures given { IfOk result (λ v. IsSomeAnd (slice_get self.old.values.items self.old.at)
            (λ g. v ≡ g.secret.items)) }
        ensures values { IfOk result (λ v. IsValue v) }
        ensures goes_on { OnOk result (self.new
            ≡ record self.old { at = place_after (length self.old.values.items) self.old.at }) }
        ensures stays { OnErr result (self.new ≡ self.old) }
        ensures err { IfErr result (λ e. e ≡ Memory) }
    {
        let Some(value) = self.values.get(self.at) else {
            return Err(Refusal::Memory);
        };
        let secret = again(alloc, value.secret.as_slice())?;
        self.go_on();
        Ok(secret)
    }

    ghost one_secret = { λ v s name group local client server x y lawful. absurd lawful };

    ghost obliging_lawful = { λ v later s group obliging. obliging };
}

/// Signs by the signatures of exchanges, one after the other, whatever it is asked, the last one again and again;
/// accepts and trusts whatever it is shown. No value of it is lawful.
#[derive(Drop)]
pub struct GivenHosts {
    signatures: Vec<Vec<u8>>,
    at: usize,
    judged: usize,
}

impl GivenHosts {
    /// One that has no signatures yet, and answers want of memory.
    pub fn new(alloc: Global) -> GivenHosts
        ensures signatures { result.signatures.items ≡ [] }
        ensures at { result.at ≡ 0 }
        ensures judged { result.judged ≡ 0 }
    {
        GivenHosts {
            signatures: Vec::new(alloc),
            at: 0,
            judged: 0,
        }
    }

    /// Adds the signature of another exchange. Memory.
    pub fn push(&mut self, signature: Vec<u8>) -> Result<(), Error>
        ensures added { OnOk result (self.new.signatures.items ≡ self.old.signatures.items ++ signature ∷ []) }
        ensures at { self.new.at ≡ self.old.at }
        ensures judged { self.new.judged ≡ self.old.judged }
        ensures kept { OnErr result (self.new.signatures.items ≡ self.old.signatures.items) }
        ensures err { IfErr result (λ e. e ≡ errors.Memory) }
    {
        self.signatures.push(signature)?;
        Ok(())
    }

    /// How many signatures it was shown.
    pub fn judged(&self) -> usize
        ensures { result ≡ self.now.judged }
    {
        self.judged
    }
}

impl HostKeys for GivenHosts {
    ghost use Rattle.std.specs.Prelude.{true};

    ghost accepts = { λ given host hash signature. true };

    ghost trusts = { λ given host. true };

    ghost makes = { λ config host hash signature. ⊥ };

    ghost lawful = { λ given setup. ⊥ };

    ghost signs = { λ given later setup. ⊥ };

    ghost judges = { λ given later setup. ⊥ };

    ghost refused_sign = { λ given. 0 };

    ghost refused_verify = { λ given. 0 };

    ghost refused_check = { λ given. 0 };

    ghost calls = { λ given. 0 };

    ghost answered = { λ v known n. true };

    fn sign(
        &mut self,
        alloc: Global,
        _key: &HostKey,
        _algorithm: Algorithm,
        _hash: &HashValue,
    ) -> Result<Blob, Refusal>
        ensures given { IfOk result (λ v. IsSomeAnd (slice_get self.old.signatures.items self.old.at)
            (λ g. v ≡ g.items)) }
        ensures values { IfOk result (λ v. IsValue v) }
        ensures goes_on { OnOk result (self.new
            ≡ record self.old { at = place_after (length self.old.signatures.items) self.old.at }) }
        ensures stays { OnErr result (self.new ≡ self.old) }
        ensures err { IfErr result (λ e. e ≡ Memory) }
    {
        let Some(signature) = self.signatures.get(self.at) else {
            return Err(Refusal::Memory);
        };
        let given = again(alloc, signature.as_slice())?;
        self.at = place_after(self.signatures.len(), self.at);
        Ok(given)
    }

    fn verify(
        &mut self,
        _alloc: Global,
        _host: &ServerHost,
        _hash: &HashValue,
        _signature: &[u8],
    ) -> Result<(), Refusal>
        ensures accepted { result ≡ Ok tt }
        ensures counted { self.new ≡ record self.old { judged = next_count self.old.judged } }
    {
        self.judged = self.judged.saturating_add(1);
        Ok(())
    }

    fn check(&mut self, _alloc: Global, _host: &ServerHost) -> Result<(), Refusal>
        ensures trusted { result ≡ Ok tt }
        ensures stays { self.new ≡ self.old }
    {
        Ok(())
    }

    ghost signs_lawful = { λ v later s signs. signs };

    ghost judges_lawful = { λ v later s judges. judges };

    ghost judges_trusts = { λ v later s host key judges. absurd judges };

    ghost judges_accepts = { λ v later s host hash signature judges. absurd judges };
}

/// Answers the groups of exchanges, one after the other, whatever sizes are asked; the last one stays. No value of it
/// is lawful.
#[derive(Drop)]
pub struct GivenGroups {
    groups: Vec<DhGroup>,
    at: usize,
}

impl GivenGroups {
    /// One that has no groups yet, and answers want of memory.
    pub fn new(alloc: Global) -> GivenGroups
        ensures groups { result.groups.items ≡ [] }
        ensures at { result.at ≡ 0 }
    {
        GivenGroups {
            groups: Vec::new(alloc),
            at: 0,
        }
    }

    /// Adds the group of another exchange. Memory.
    pub fn push(&mut self, group: DhGroup) -> Result<(), Error>
        ensures added { OnOk result (self.new.groups.items ≡ self.old.groups.items ++ group ∷ []) }
        ensures at { self.new.at ≡ self.old.at }
        ensures kept { OnErr result (self.new.groups.items ≡ self.old.groups.items) }
        ensures err { IfErr result (λ e. e ≡ errors.Memory) }
    {
        self.groups.push(group)?;
        Ok(())
    }
}

impl GroupLookup for GivenGroups {
    ghost use Rattle.std.specs.Prelude.{[], true};

    ghost group = { λ given sizes. record { prime = []; generator = [] } };

    ghost lawful = { λ given setup. ⊥ };

    ghost obliging = { λ given later setup. ⊥ };

    ghost refusals = { λ given. 0 };

    ghost calls = { λ given. 0 };

    ghost answered = { λ v known n. true };

    fn lookup_dh_gex_group(
        &mut self,
        alloc: Global,
        _gex_params: &GexParams,
    ) -> Result<DhGroup, Refusal>
        ensures given { IfOk result (λ group. IsSomeAnd (slice_get self.old.groups.items self.old.at)
            (λ g. group ≡ g)) }
        ensures values { IfOk result (λ group. IsValue group.prime × IsValue group.generator) }
        ensures goes_on { OnOk result (self.new
            ≡ record self.old { at = place_after (length self.old.groups.items) self.old.at }) }
        ensures stays { OnErr result (self.new ≡ self.old) }
        ensures err { IfErr result (λ e. e ≡ Memory) }
    {
        let Some(group) = self.groups.get(self.at) else {
            return Err(Refusal::Memory);
        };
        let given = answer_of(alloc, group)?;
        self.at = place_after(self.groups.len(), self.at);
        Ok(given)
    }

    ghost canonical = { λ v s sizes lawful. absurd lawful };

    ghost small = { λ v s lawful. absurd lawful };

    ghost fitting = { λ v later s obliging. absurd obliging };

    ghost obliging_lawful = { λ v later s obliging. obliging };
}
