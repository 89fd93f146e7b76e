//! What is handed in: key agreements, host keys, and the lookup of groups.

ghost use Rattle.std.specs.Prelude.{◌≡◌, ℕ, ◌≤◌, codes, List, Bool, true, Option, Some, None, IfOk, OnOk};
ghost use Rattle.rand_core.specs.Stream.{Stream};
ghost use Rattle.std.specs.Option.{option_copied};
ghost use Rattle.ssh_kex.specs.Messages.{IsCanonical, bit_size};
ghost use Rattle.ssh_kex.specs.Parts.{Answers, Counted, HasItsGroup, IsRefused, IsSmall, IsValue, KeepsAgreement, KeepsGroups, KeepsHosts, Presents, Setup};
ghost use Rattle.ssh_kex.specs.Signature.{judged};
ghost use Rattle.ssh_kex.specs.declared.config.Config.{Config};
ghost use Rattle.ssh_kex.specs.declared.exchange.ServerHost.{ServerHost};
ghost use Rattle.ssh_kex.specs.declared.group.DhGroup.{DhGroup};
ghost use Rattle.ssh_kex.specs.declared.group.GexParams.{GexParams};
ghost use Rattle.ssh_negotiate.specs.declared.kex.Name as kexes;
ghost use Rattle.ssh_negotiate.specs.declared.preferred.HostKey.{HostKey};

use crate::exchange::ServerHost;
use crate::group::{DhGroup, GexParams};
use rand_core::Rng;
use ssh_mac::HashValue;
use ssh_negotiate::{HostKey, kex};
use ssh_wire::{Algorithm, Blob};
use std::alloc::Global;
use std::fmt;

/// Why a part gave no answer.
#[derive(Clone, Copy, Debug, PartialEq, Eq)]
pub enum Refusal {
    /// The part has refused, and counted it.
    Refused,
    /// Memory ran out.
    Memory,
}

/// A client's first value: what it sends, and what it keeps.
#[derive(Drop)]
pub struct Started {
    pub public: Blob,
    pub local: Blob,
}

/// Shows no byte of a value.
impl fmt::Debug for Started {
    ghost debug_output = { λ v. Some (codes "Started") };

    fn fmt<W: fmt::Write>(&self, f: &mut fmt::Formatter<W>) -> fmt::Result {
        f.write_str("Started")
    }
}

/// A server's value, and the secret.
#[derive(Drop)]
pub struct Agreed {
    pub public: Blob,
    pub secret: Blob,
}

/// Shows no byte of a value.
impl fmt::Debug for Agreed {
    ghost debug_output = { λ v. Some (codes "Agreed") };

    fn fmt<W: fmt::Write>(&self, f: &mut fmt::Formatter<W>) -> fmt::Result {
        f.write_str("Agreed")
    }
}

/// Agrees on secrets. What is said of both sides' values is said of the type, for all its values alike.
///
/// A public value is the body of its field: in a finite-field exchange that of an `mpint` (RFC 4253 section 8), so with
/// a zero byte before a first bit that is set. Bare bytes would be sent as a negative number.
pub trait Agreement {
    // Which names it offers.
    ghost offered: { Self → kexes.Name → Bool };

    // Which pairs of a local and a public value a client makes, and which public values a server makes for a client's.
    ghost client_makes: { kexes.Name → Option DhGroup → List ℕ → List ℕ → Type 0 };

    ghost server_makes: { kexes.Name → Option DhGroup → List ℕ → List ℕ → Type 0 };

    // Name, group, the client's and the server's public value, and a secret.
    ghost agrees: { kexes.Name → Option DhGroup → List ℕ → List ℕ → List ℕ → Type 0 };

    // What is drawn from a generator's stream: a local and a public value, and what is left of the stream; and for a
    // client's public value, a server's and the secret.
    ghost client_draws: { kexes.Name → Option DhGroup → Stream → List ℕ → List ℕ → Stream → Type 0 };

    ghost server_draws: { kexes.Name → Option DhGroup → List ℕ → Stream → List ℕ → List ℕ → Stream → Type 0 };

    // What it keeps under two sides' configurations; and that besides, from one of its states to a later one, it
    // refuses nothing that it owes an answer to in this group, which is None where no group is exchanged. Of other
    // groups it says nothing: an agreement may refuse those that aren't in its list.
    ghost lawful: { Self → Setup → Type 0 };

    ghost obliging: { Self → Self → Setup → Option DhGroup → Type 0 };

    ghost refusals: { Self → ℕ };

    ghost calls: { Self → ℕ };

    // Whether it may have answered so many calls, by the second number, and refused none. By the first one a caller
    // knows it: what each call keeps of it is said for every such number, as that of the call which it is to refuse.
    ghost answered: { Self → ℕ → ℕ → Bool };

    /// Whether it has the key exchange of a name.
    fn offers(&self, name: kex::Name) -> bool
        ensures { result ≡ offered self.now name };

    /// A client's value.
    fn client_start<R: Rng>(
        &mut self,
        alloc: Global,
        name: kex::Name,
        group: Option<&DhGroup>,
        rng: &mut R,
    ) -> Result<Started, Refusal>
        ensures counts { Counted (refusals self.old) (refusals self.new) (calls self.old) (calls self.new) result }
        ensures answers { OnOk result (Answers answered 1 self.old self.new) }
        ensures keeps { KeepsAgreement lawful obliging offered refusals calls self.old self.new }
        ensures values { IfOk result (λ v. IsValue v.public × IsValue v.local) }
        ensures drawn { IfOk result (λ v. client_draws name (option_copied group.entry) (R.stream rng.old) v.local
            v.public (R.stream rng.new)) }
        ensures made { (s : Setup) → lawful self.old s
            → IfOk result (λ v. client_makes name (option_copied group.entry) v.local v.public × IsSmall v.public
            × IsSmall v.local) }
        ensures never { (s : Setup) → obliging self.old self.new s (option_copied group.entry)
            → HasItsGroup name (option_copied group.entry) → offered self.old name ≡ true → IsRefused result → ⊥ };

    /// A server's value for a client's, and the secret.
    fn server_agree<R: Rng>(
        &mut self,
        alloc: Global,
        name: kex::Name,
        group: Option<&DhGroup>,
        client_public: &[u8],
        rng: &mut R,
    ) -> Result<Agreed, Refusal>
        ensures counts { Counted (refusals self.old) (refusals self.new) (calls self.old) (calls self.new) result }
        ensures answers { OnOk result (Answers answered 1 self.old self.new) }
        ensures keeps { KeepsAgreement lawful obliging offered refusals calls self.old self.new }
        ensures values { IfOk result (λ v. IsValue v.public × IsValue v.secret) }
        ensures drawn { IfOk result (λ v. server_draws name (option_copied group.entry) client_public.now
            (R.stream rng.old) v.public v.secret (R.stream rng.new)) }
        ensures made { (s : Setup) → lawful self.old s
            → IfOk result (λ v. server_makes name (option_copied group.entry) client_public.now v.public
            × agrees name (option_copied group.entry) client_public.now v.public v.secret × IsSmall v.public
            × IsSmall v.secret) }
        ensures never { (s : Setup) (local : List ℕ) → obliging self.old self.new s (option_copied group.entry)
            → HasItsGroup name (option_copied group.entry) → offered self.old name ≡ true
            → client_makes name (option_copied group.entry) local client_public.now → IsRefused result → ⊥ };

    /// The secret of a client's own value and a server's.
    fn client_agree(
        &mut self,
        alloc: Global,
        name: kex::Name,
        group: Option<&DhGroup>,
        local: &[u8],
        server_public: &[u8],
    ) -> Result<Blob, Refusal>
        ensures counts { Counted (refusals self.old) (refusals self.new) (calls self.old) (calls self.new) result }
        ensures answers { OnOk result (Answers answered 1 self.old self.new) }
        ensures keeps { KeepsAgreement lawful obliging offered refusals calls self.old self.new }
        ensures values { IfOk result (λ v. IsValue v) }
        ensures made { (s : Setup) (public : List ℕ) → lawful self.old s
            → client_makes name (option_copied group.entry) local.now public
            → IfOk result (λ v. agrees name (option_copied group.entry) public server_public.now v × IsSmall v) }
        ensures never { (s : Setup) (public : List ℕ) → obliging self.old self.new s (option_copied group.entry)
            → HasItsGroup name (option_copied group.entry) → offered self.old name ≡ true
            → client_makes name (option_copied group.entry) local.now public
            → server_makes name (option_copied group.entry) public server_public.now → IsRefused result → ⊥ };

    // What both sides made leaves one secret.
    ghost one_secret: { (v : Self) (s : Setup) (name : kexes.Name) (group : Option DhGroup)
        (local client server x y : List ℕ) → lawful v s → client_makes name group local client
        → server_makes name group client server → agrees name group client server x → agrees name group client server y
        → x ≡ y };

    // What is obliging in some group is lawful.
    ghost obliging_lawful: { (v w : Self) (s : Setup) (group : Option DhGroup) → obliging v w s group → lawful v s };
}

/// Finds the group of a group exchange.
pub trait GroupLookup {
    // The group of the sizes that are asked for.
    ghost group: { Self → GexParams → DhGroup };

    ghost lawful: { Self → Setup → Type 0 };

    ghost obliging: { Self → Self → Setup → Type 0 };

    ghost refusals: { Self → ℕ };

    ghost calls: { Self → ℕ };

    // Whether it may have answered so many calls, by the second number, and refused none. By the first one a caller
    // knows it: what each call keeps of it is said for every such number, as that of the call which it is to refuse.
    ghost answered: { Self → ℕ → ℕ → Bool };

    /// The group of the sizes.
    fn lookup_dh_gex_group(
        &mut self,
        alloc: Global,
        gex_params: &GexParams,
    ) -> Result<DhGroup, Refusal>
        ensures counts { Counted (refusals self.old) (refusals self.new) (calls self.old) (calls self.new) result }
        ensures answers { OnOk result (Answers answered 1 self.old self.new) }
        ensures keeps { KeepsGroups lawful obliging group refusals calls self.old self.new }
        ensures values { IfOk result (λ g. IsValue g.prime × IsValue g.generator) }
        ensures found { (s : Setup) → lawful self.old s → IfOk result (λ g. g ≡ group self.old gex_params.now) }
        ensures never { (s : Setup) → obliging self.old self.new s → IsRefused result → ⊥ };

    // A lawful group has no leading zeros.
    ghost canonical: { (v : Self) (s : Setup) (sizes : GexParams) → lawful v s → IsCanonical (group v sizes) };

    // That of the client's sizes is small, and within them where the lookup is obliging.
    ghost small: { (v : Self) (s : Setup) → lawful v s → IsSmall (group v s.client.gex).prime
        × IsSmall (group v s.client.gex).generator };

    ghost fitting: { (v w : Self) (s : Setup) → obliging v w s
        → (s.client.gex.min_group_size ≤ bit_size (group v s.client.gex).prime)
        × (bit_size (group v s.client.gex).prime ≤ s.client.gex.max_group_size) };

    ghost obliging_lawful: { (v w : Self) (s : Setup) → obliging v w s → lawful v s };
}

/// Signs, and judges signatures and hosts. A signature is the blob of RFC 4253 section 6.6: two strings, the name of
/// its format and what that format makes.
pub trait HostKeys {
    // The hosts, hashes and signatures that are accepted, and the hosts that are trusted.
    ghost accepts: { Self → ServerHost → List ℕ → List ℕ → Bool };

    ghost trusts: { Self → ServerHost → Bool };

    // The signatures that are made for a host that a server presents, each in its canonical form.
    ghost makes: { Config → ServerHost → List ℕ → List ℕ → Type 0 };

    // What they keep under two sides' configurations. And that besides, from one state to a later one, a server's sign
    // for each host that it presents, and a client's refuse no signature that such keys make and no host that is
    // presented.
    ghost lawful: { Self → Setup → Type 0 };

    ghost signs: { Self → Self → Setup → Type 0 };

    ghost judges: { Self → Self → Setup → Type 0 };

    ghost refused_sign: { Self → ℕ };

    ghost refused_verify: { Self → ℕ };

    ghost refused_check: { Self → ℕ };

    ghost calls: { Self → ℕ };

    // Whether it may have answered so many calls, by the second number, and refused none. By the first one a caller
    // knows it: what each call keeps of it is said for every such number, as that of the call which it is to refuse.
    ghost answered: { Self → ℕ → ℕ → Bool };

    /// A signature of the hash, under a key and an algorithm that it fits.
    fn sign(
        &mut self,
        alloc: Global,
        key: &HostKey,
        algorithm: Algorithm,
        hash: &HashValue,
    ) -> Result<Blob, Refusal>
        ensures counts { Counted (refused_sign self.old) (refused_sign self.new) (calls self.old) (calls self.new)
            result }
        ensures answers { OnOk result (Answers answered 1 self.old self.new) }
        ensures keeps { KeepsHosts lawful signs judges accepts trusts refused_sign refused_verify refused_check calls
            self.old self.new }
        ensures verify { refused_verify self.new ≡ refused_verify self.old }
        ensures check { refused_check self.new ≡ refused_check self.old }
        ensures values { IfOk result (λ v. IsValue v) }
        ensures small { (s : Setup) → lawful self.old s → IfOk result (λ v. IsSmall v) }
        ensures made { (later : Self) (s : Setup) (host : ServerHost) → signs self.old later s
            → Presents s.server host key.now algorithm → IfOk result (λ v. makes s.server host hash.now (judged v)) }
        ensures never { (s : Setup) (host : ServerHost) → signs self.old self.new s
            → Presents s.server host key.now algorithm → IsRefused result → ⊥ };

    /// Whether a signature of a host is right.
    fn verify(
        &mut self,
        alloc: Global,
        host: &ServerHost,
        hash: &HashValue,
        signature: &[u8],
    ) -> Result<(), Refusal>
        ensures counts { Counted (refused_verify self.old) (refused_verify self.new) (calls self.old) (calls self.new)
            result }
        ensures answers { OnOk result (Answers answered 1 self.old self.new) }
        ensures keeps { KeepsHosts lawful signs judges accepts trusts refused_sign refused_verify refused_check calls
            self.old self.new }
        ensures sign { refused_sign self.new ≡ refused_sign self.old }
        ensures check { refused_check self.new ≡ refused_check self.old }
        ensures ok { OnOk result (accepts self.old host.now hash.now signature.now ≡ true) }
        ensures never { (s : Setup) → judges self.old self.new s
            → accepts self.old host.now hash.now signature.now ≡ true → IsRefused result → ⊥ };

    /// Whether a host is trusted.
    fn check(&mut self, alloc: Global, host: &ServerHost) -> Result<(), Refusal>
        ensures counts { Counted (refused_check self.old) (refused_check self.new) (calls self.old) (calls self.new)
            result }
        ensures answers { OnOk result (Answers answered 1 self.old self.new) }
        ensures keeps { KeepsHosts lawful signs judges accepts trusts refused_sign refused_verify refused_check calls
            self.old self.new }
        ensures sign { refused_sign self.new ≡ refused_sign self.old }
        ensures verify { refused_verify self.new ≡ refused_verify self.old }
        ensures ok { OnOk result (trusts self.old host.now ≡ true) }
        ensures never { (s : Setup) → judges self.old self.new s → trusts self.old host.now ≡ true
            → IsRefused result → ⊥ };

    ghost signs_lawful: { (v w : Self) (s : Setup) → signs v w s → lawful v s };

    ghost judges_lawful: { (v w : Self) (s : Setup) → judges v w s → lawful v s };

    ghost judges_trusts: { (v w : Self) (s : Setup) (host : ServerHost) (key : HostKey) → judges v w s
        → Presents s.server host key host.algorithm → trusts v host ≡ true };

    ghost judges_accepts: { (v w : Self) (s : Setup) (host : ServerHost) (hash signature : List ℕ) → judges v w s
        → makes s.server host hash signature → accepts v host hash signature ≡ true };
}

/// What one side is handed.
#[derive(Drop)]
pub struct Parts<A, H, G, R> {
    pub agreement: A,
    pub hosts: H,
    pub groups: G,
    pub rng: R,
}
