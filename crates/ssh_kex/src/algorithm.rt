//! One key exchange: its group, its values and its secret.

ghost use Rattle.std.specs.Prelude.{◌≡◌, ◌↔◌, ◌⊎◌, ◌∷◌, ◌++◌, ◌+◌, ◌<◌, ◌≤◌, ◌^◌, ℕ, List, length, true, false, Option, Some, None, Err, Ok, IfOk, IfErr, IfSome, OnOk, OnErr, IsTrue, if◌then◌else◌};
ghost use Rattle.std.specs.Option.{option_copied};
ghost use Rattle.ssh_packet.specs.Keys.{opening_of, sealing_of};
ghost use Rattle.ssh_wire.specs.Outside.{Rose};
ghost use Rattle.ssh_wire.specs.Sides.{other_side};
ghost use Rattle.ssh_wire.specs.declared.error.Error.TheVariants.{Kex, KexInit, Memory};
ghost use Rattle.ssh_negotiate.specs.Tables.{kex_text, shape_of};
ghost use Rattle.ssh_kex.specs.Agreeing.{Agreeing, ClientAgrees, ClientStarts, IsGexOrMemory, HoldsOne, IsWhole, ServerAgrees, lent_bytes, agreement_error};
ghost use Rattle.ssh_kex.specs.Drawing.{DrawsLocal, DrawsSecret};
ghost use Rattle.ssh_kex.specs.Exchange.{exchange_hash, keys_of, sealing_after, secret_of, secret_text, side_if};
ghost use Rattle.ssh_kex.specs.Members.{AgreementKept};
ghost use Rattle.ssh_kex.specs.Messages.{is_gex, request_message, value_message};
ghost use Rattle.ssh_kex.specs.Parts.{Answers, HasItsGroup, IsSmall, Setup};

use crate::exchange::{Exchange, NewCiphers, SharedSecret};
use crate::group::{DhGroup, GexParams};
use crate::hashing::hash_of;
use crate::keys;
use crate::parts::{Agreement, Refusal};
use rand_core::Rng;
use ssh_mac::HashValue;
use ssh_negotiate::Names;
use ssh_negotiate::kex::{self, SecretForm};
use ssh_wire::{Blob, Error, msg, put_string, put_u8};
use std::alloc::Global;
use std::fmt;
use std::marker::Model;

/// A key exchange by a name: the group of a group exchange, a client's local value, and the secret, as far as they are
/// there.
#[derive(Drop)]
pub struct KexAlgorithm {
    name: kex::Name,
    group: Option<DhGroup>,
    local: Option<Blob>,
    // In the form of the name, and of under 2^31 bytes.
    secret: Option<SharedSecret>,
    alloc: Global,
}

impl Model for KexAlgorithm {
    ghost use Rattle.ssh_kex.specs.Agreeing.{Agreeing, HoldsSecret, held_secret};

    ghost Value = { Agreeing };

    ghost view = { λ k. record { name = k.name; group = k.group; local = k.local; secret = held_secret k.secret } };

    ghost invariant = { λ k. HoldsSecret k.name k.secret };
}

/// Shows the name, and no byte of a value.
impl fmt::Debug for KexAlgorithm {
    ghost debug_output = { λ k. Some (kex_text k.name) };

    fn fmt<W: fmt::Write>(&self, f: &mut fmt::Formatter<W>) -> fmt::Result {
        f.write_str(self.name.as_str())
    }
}

/// What a refusal of an agreement is answered with.
fn error_of(refusal: Refusal) -> Error
    ensures { result ≡ agreement_error refusal }
{
    match refusal {
        Refusal::Refused => Error::Kex,
        Refusal::Memory => Error::Memory,
    }
}

/// A secret in the form of a name.
fn secret_by(name: kex::Name, bytes: Blob) -> SharedSecret
    requires { length bytes < 2 ^ 31 }
    ensures { HoldsOne name bytes result }
{
    match name.shape().form {
        SecretForm::Mpint => SharedSecret::Mpint(bytes),
        SecretForm::Str => SharedSecret::Str(bytes),
    }
}

impl KexAlgorithm {
    /// One that has nothing yet.
    pub fn new(alloc: Global, name: kex::Name) -> KexAlgorithm
        ensures { result ≡ record { name = name; group = None; local = None; secret = None } }
    {
        KexAlgorithm {
            name,
            group: None,
            local: None,
            secret: None,
            alloc,
        }
    }

    /// Whether no values are exchanged.
    pub fn skip_exchange(&self) -> bool
        ensures { result ≡ (shape_of self.now.name).skip }
    {
        self.name.shape().skip
    }

    /// Whether it is a group exchange.
    pub fn is_dh_gex(&self) -> bool
        ensures { result ≡ is_gex self.now.name }
    {
        self.name.shape().gex
    }

    /// Appends message 34, which asks for a group. KexInit where it isn't a group exchange; Memory. A refusal leaves
    /// `out` as it was.
    pub fn client_dh_gex_init(&self, gex: &GexParams, out: &mut Vec<u8>) -> Result<(), Error>
        ensures ok { OnOk result (out.new.items ≡ out.old.items ++ request_message gex.now) }
        ensures kind { OnOk result (is_gex self.now.name ≡ true) }
        ensures unchanged { OnErr result (out.new.items ≡ out.old.items) }
        ensures causes { IfErr result (IsGexOrMemory self.now.name) }
        ensures other { is_gex self.now.name ≡ false → result ≡ Err KexInit }
    {
        if !self.is_dh_gex() {
            return Err(Error::KexInit);
        }
        out.reserve(13)?;
        put_u8(out, msg::KEX_DH_GEX_REQUEST)?;
        gex.encode(out)
    }

    /// Keeps the group. KexInit where it isn't a group exchange, and nothing is kept.
    pub fn dh_gex_set_group(&mut self, group: DhGroup) -> Result<(), Error>
        ensures ok { is_gex self.old.name ≡ true → (result ≡ Ok tt)
            × (self.new ≡ record self.old { group = Some group }) }
        ensures other { is_gex self.old.name ≡ false → (result ≡ Err KexInit) × (self.new ≡ self.old) }
    {
        if !self.is_dh_gex() {
            return Err(Error::KexInit);
        }
        self.group = Some(group);
        Ok(())
    }

    /// Agrees on the client's value, gives the exchange the server's, and keeps the secret. Kex where the agreement
    /// refused, and counted it; Memory. A refusal leaves both as they were. Where no values are exchanged nobody is
    /// asked.
    pub fn server_dh<A: Agreement, R: Rng>(
        &mut self,
        agreement: &mut A,
        rng: &mut R,
        exchange: &mut Exchange,
    ) -> Result<(), Error>
        ensures keeps { AgreementKept A.Agreement agreement.old agreement.new }
        ensures calls { A.calls agreement.new ≤ A.calls agreement.old
            + (if (shape_of self.old.name).skip then 0 else 1) }
        ensures answered { OnOk result (Answers A.answered (if (shape_of self.old.name).skip then 0 else 1)
            agreement.old agreement.new) }
        ensures agrees { OnOk result (ServerAgrees (shape_of self.old.name).skip (λ v x. (s : Setup)
            → A.lawful agreement.old s → A.server_makes self.old.name self.old.group exchange.old.client_ephemeral v
            × A.agrees self.old.name self.old.group exchange.old.client_ephemeral v x × IsSmall v) self.old self.new
            exchange.old exchange.new) }
        ensures drawn { OnOk result (DrawsSecret (shape_of self.old.name).skip (A.server_draws self.old.name
            self.old.group exchange.old.client_ephemeral) (R.stream rng.old) self.new.secret
            exchange.new.server_ephemeral (R.stream rng.new)) }
        ensures unchanged { OnErr result ((self.new ≡ self.old) × (exchange.new ≡ exchange.old)) }
        ensures causes { IfErr result (λ e. (e ≡ Kex) ⊎ (e ≡ Memory)) }
        ensures rose { result ≡ Err Kex → Rose (A.refusals agreement.old) (A.refusals agreement.new) }
        ensures owed { result ≡ Err Kex → (s : Setup) (local : List ℕ)
            → A.obliging agreement.old agreement.new s self.old.group
            → HasItsGroup self.old.name self.old.group → A.offered agreement.old self.old.name ≡ true
            → A.client_makes self.old.name self.old.group local exchange.old.client_ephemeral → ⊥ }
        ensures none { (shape_of self.old.name).skip ≡ true → (result ≡ Ok tt) × (agreement.new ≡ agreement.old)
            × (rng.new ≡ rng.old) }
    {
        if self.skip_exchange() {
            return Ok(());
        }
        let agreed = match agreement.server_agree(
            self.alloc,
            self.name,
            self.group.as_ref(),
            exchange.client_ephemeral.as_slice(),
            rng,
        ) {
            Ok(agreed) => agreed,
            Err(refusal) => return Err(error_of(refusal)),
        };
        exchange.server_ephemeral = agreed.public;
        self.secret = Some(secret_by(self.name, agreed.secret));
        Ok(())
    }

    /// Makes a client's value, keeps what belongs to it, and appends message 30, or 32 in a group exchange. Kex where
    /// the agreement refused, and counted it; Memory. A refusal leaves all as it was. Where no values are exchanged
    /// nobody is asked, and nothing is written.
    pub fn client_dh<A: Agreement, R: Rng>(
        &mut self,
        agreement: &mut A,
        rng: &mut R,
        client_ephemeral: &mut Blob,
        out: &mut Vec<u8>,
    ) -> Result<(), Error>
        ensures keeps { AgreementKept A.Agreement agreement.old agreement.new }
        ensures calls { A.calls agreement.new ≤ A.calls agreement.old
            + (if (shape_of self.old.name).skip then 0 else 1) }
        ensures answered { OnOk result (Answers A.answered (if (shape_of self.old.name).skip then 0 else 1)
            agreement.old agreement.new) }
        ensures starts { OnOk result (ClientStarts (shape_of self.old.name).skip (λ l v. (s : Setup)
            → A.lawful agreement.old s → A.client_makes self.old.name self.old.group l v) (λ v. out.old.items
            ++ value_message (is_gex self.old.name) v) self.old self.new client_ephemeral.old client_ephemeral.new
            out.old.items out.new.items) }
        ensures drawn { OnOk result (DrawsLocal (shape_of self.old.name).skip (A.client_draws self.old.name
            self.old.group) (R.stream rng.old) self.new.local client_ephemeral.new (R.stream rng.new)) }
        ensures unchanged { OnErr result ((self.new ≡ self.old) × (client_ephemeral.new ≡ client_ephemeral.old)
            × (out.new.items ≡ out.old.items)) }
        ensures small { OnOk result ((shape_of self.old.name).skip ≡ false → (s : Setup) → A.lawful agreement.old s
            → IsSmall client_ephemeral.new) }
        ensures causes { IfErr result (λ e. (e ≡ Kex) ⊎ (e ≡ Memory)) }
        ensures rose { result ≡ Err Kex → Rose (A.refusals agreement.old) (A.refusals agreement.new) }
        ensures owed { result ≡ Err Kex → (s : Setup) → A.obliging agreement.old agreement.new s self.old.group
            → HasItsGroup self.old.name self.old.group → A.offered agreement.old self.old.name ≡ true → ⊥ }
        ensures none { (shape_of self.old.name).skip ≡ true → (result ≡ Ok tt) × (agreement.new ≡ agreement.old)
            × (rng.new ≡ rng.old) }
    {
        if self.skip_exchange() {
            return Ok(());
        }
        let started = match agreement.client_start(
            self.alloc,
            self.name,
            self.group.as_ref(),
            rng,
        ) {
            Ok(started) => started,
            Err(refusal) => return Err(error_of(refusal)),
        };
        put_value(self.is_dh_gex(), started.public.as_slice(), out)?;
        *client_ephemeral = started.public;
        self.local = Some(started.local);
        Ok(())
    }

    /// Agrees on a server's value, and keeps the secret. KexInit where no local value of `client_dh` is left. The local
    /// value is used up, also by a refusal. Kex where the agreement refused, and counted it; Memory. Where no values
    /// are exchanged nobody is asked.
    pub fn compute_shared_secret<A: Agreement>(
        &mut self,
        agreement: &mut A,
        server_public: &[u8],
    ) -> Result<(), Error>
        ensures keeps { AgreementKept A.Agreement agreement.old agreement.new }
        ensures calls { A.calls agreement.new ≤ A.calls agreement.old
            + (if (shape_of self.old.name).skip then 0 else 1) }
        ensures answered { OnOk result (Answers A.answered (if (shape_of self.old.name).skip then 0 else 1)
            agreement.old agreement.new) }
        ensures agrees { OnOk result (ClientAgrees (shape_of self.old.name).skip (λ l x. (s : Setup) (public : List ℕ)
            → A.lawful agreement.old s → A.client_makes self.old.name self.old.group l public
            → A.agrees self.old.name self.old.group public server_public.now x) self.old self.new) }
        ensures used { OnErr result (self.new ≡ record self.old { local = None }) }
        ensures causes { IfErr result (λ e. ((e ≡ KexInit) × (self.old.local ≡ None)) ⊎ ((e ≡ Kex) ⊎ (e ≡ Memory))) }
        ensures unstarted { (shape_of self.old.name).skip ≡ false → self.old.local ≡ None → (result ≡ Err KexInit)
            × (agreement.new ≡ agreement.old) }
        ensures rose { result ≡ Err Kex → Rose (A.refusals agreement.old) (A.refusals agreement.new) }
        ensures owed { result ≡ Err Kex → (s : Setup) (local public : List ℕ) → self.old.local ≡ Some local
            → A.obliging agreement.old agreement.new s self.old.group
            → HasItsGroup self.old.name self.old.group → A.offered agreement.old self.old.name ≡ true
            → A.client_makes self.old.name self.old.group local public
            → A.server_makes self.old.name self.old.group public server_public.now → ⊥ }
        ensures none { (shape_of self.old.name).skip ≡ true → (result ≡ Ok tt) × (agreement.new ≡ agreement.old) }
    {
        if self.skip_exchange() {
            return Ok(());
        }
        let Some(local) = self.local.take() else {
            return Err(Error::KexInit);
        };
        let secret = match agreement.client_agree(
            self.alloc,
            self.name,
            self.group.as_ref(),
            local.as_slice(),
            server_public,
        ) {
            Ok(secret) => secret,
            Err(refusal) => return Err(error_of(refusal)),
        };
        self.secret = Some(secret_by(self.name, secret));
        Ok(())
    }

    /// The bytes of the secret, where there is one.
    pub fn shared_secret_bytes(&self) -> Option<&[u8]>
        ensures { lent_bytes result ≡ self.now.secret }
    {
        match &self.secret {
            Some(secret) => Some(secret.as_bytes()),
            None => None,
        }
    }

    /// Whether `compute_exchange_hash` may be called: the host's blob and each byte string of the exchange have under
    /// 2^31 bytes, and the exchange has a group exactly where it is a group exchange.
    pub fn can_hash(&self, host_blob: &[u8], exchange: &Exchange) -> bool
        ensures { IsTrue result ↔ IsWhole self.now.name host_blob.now exchange.now }
    {
        exchange.can_be_hashed(self.name, host_blob)
    }

    /// The exchange hash (RFC 4253 section 8, RFC 4419 section 3): a digest of 20 to 64 bytes, none where no values are
    /// exchanged.
    pub fn compute_exchange_hash(&self, host_blob: &[u8], exchange: &Exchange) -> HashValue
        requires { IsWhole self.now.name host_blob.now exchange.now }
        ensures { result ≡ exchange_hash self.now.name exchange.now host_blob.now self.now.secret }
    {
        if self.skip_exchange() {
            return HashValue::empty();
        }
        hash_of(
            self.name.shape().digest,
            exchange,
            host_blob,
            self.secret.as_ref(),
        )
    }

    /// The six keys, and what one side seals and opens with under them.
    pub fn compute_keys(
        &self,
        session_id: &HashValue,
        exchange_hash: &HashValue,
        names: &Names,
        is_server: bool,
    ) -> NewCiphers
        ensures keys { result.keys ≡ keys_of (shape_of self.now.name).digest
            (secret_text (secret_of self.now.name self.now.secret)) exchange_hash.now session_id.now names.now }
        ensures seals { sealing_of result.cipher.local_to_remote ≡ sealing_after (side_if is_server) names.now
            result.keys }
        ensures opens { opening_of result.cipher.remote_to_local ≡ sealing_after (other_side (side_if is_server))
            names.now result.keys }
    {
        keys::compute_keys(
            self.name.shape().digest,
            self.secret.as_ref(),
            session_id,
            exchange_hash,
            names,
            is_server,
        )
    }
}

/// Appends a client's value: message 30, or 32 in a group exchange. Memory leaves `out` as it was.
fn put_value(is_gex: bool, value: &[u8], out: &mut Vec<u8>) -> Result<(), Error>
    requires { length value.now < 2 ^ 31 }
    ensures ok { OnOk result (out.new.items ≡ out.old.items ++ value_message is_gex value.now) }
    ensures unchanged { OnErr result (out.new.items ≡ out.old.items) }
    ensures err { IfErr result (λ e. e ≡ Memory) }
{
    out.reserve(5 + value.len())?;
    put_u8(
        out,
        if is_gex {
            msg::KEX_DH_GEX_INIT
        } else {
            msg::KEX_ECDH_INIT
        },
    )?;
    put_string(out, value)
}
