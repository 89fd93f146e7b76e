//! The server's reply, which a client agrees on, verifies and answers with NEWKEYS.

ghost use Rattle.std.specs.Prelude.{◌≡◌, ◌⊎◌, ◌+◌, ◌≤◌, ◌^◌, ◌<◌, [], ◌∷◌, true, false, is_ok, length, List, ℕ, Option, None, Some, Err, IfOk, IfErr, OnOk, OnErr};
ghost use Rattle.ssh_negotiate.specs.Tables.{shape_of};
ghost use Rattle.ssh_packet.specs.Stream.{message_type as message_type_of};
ghost use Rattle.ssh_packet.specs.Writing.{SameButRoom};
ghost use Rattle.ssh_wire.specs.Outside.{Rose};
ghost use Rattle.ssh_wire.specs.declared.error.Error.TheVariants.{Memory, WrongServerSig};
ghost use Rattle.ssh_client_kex.specs.Agreed.{MakesFirst};
ghost use Rattle.ssh_client_kex.specs.ClientRows.{AcceptsReply, AgreesOnReply, AnswersReply, made_with, RefusesReply, RefusesToAgree};
ghost use Rattle.ssh_client_kex.specs.ClientViews.{local_of, HasValue};
ghost use Rattle.ssh_kex.specs.Agreeing.{IsWhole};
ghost use Rattle.ssh_kex.specs.Drawing.{SendsAll};
ghost use Rattle.ssh_kex.specs.Fields.{fields, reply_front};
ghost use Rattle.ssh_kex.specs.Members.{AgreementKept, HostsKept};
ghost use Rattle.ssh_kex.specs.Signature.{judged, or_same};
ghost use Rattle.ssh_kex.specs.Messages.{host_with, is_gex, newkeys, reply_message};
ghost use Rattle.ssh_kex.specs.Parts.{Answers, HasItsGroup, Setup};
ghost use Rattle.ssh_kex.specs.Unasked.{asks_no_host, asks_nobody, is_early};
ghost use Rattle.ssh_kex.specs.Views.{HasShortSides};

use crate::client_kex::{ClientKex, ClientState, waits};
use crate::fields::{fields_of, front_of, value_of};
use rand_core::Rng;
use ssh_kex::last_message::finish;
use ssh_kex::message::{has_type, put_message};
use ssh_kex::{
    Agreement, HostKeys, KexAlgorithm, KexBase, KexProgress, Parts, Refusal, ServerHost,
    canonicalize_ecdsa_signature,
};
use ssh_mac::HashValue;
use ssh_negotiate::Names;
use ssh_packet::PacketWriter;
use ssh_wire::{Blob, Error, Reader, msg};
use std::alloc::Global;

/// The fields of a reply.
#[derive(Clone, Copy)]
struct Reply<'a> {
    host: &'a [u8],
    value: &'a [u8],
    signature: &'a [u8],
}

/// The type of a reply.
fn reply_type(is_gex: bool) -> u8
    ensures { result ≡ message_type_of (reply_message is_gex [] [] []) }
{
    if is_gex {
        msg::KEX_DH_GEX_REPLY
    } else {
        msg::KEX_ECDH_REPLY
    }
}

/// Reads a reply, and agrees on the server's value before the signature is read. KexInit where it is another message;
/// SshEncoding; Kex where the agreement refused; Memory.
fn agree_on_reply<'a, A: Agreement>(
    algorithm: &mut KexAlgorithm,
    agreement: &mut A,
    payload: &'a [u8],
) -> Result<Reply<'a>, Error>
    requires exchanges { (shape_of algorithm.old.name).skip ≡ false }
    requires local { algorithm.old.local ≡ Some (local_of algorithm.old.local) }
    ensures keeps { AgreementKept A.Agreement agreement.old agreement.new }
    ensures calls { A.calls agreement.new ≤ A.calls agreement.old + 1 }
    ensures answers { OnOk result (Answers A.answered 1 agreement.old agreement.new) }
    ensures ok { IfOk result (λ r. AgreesOnReply (λ l v x. (s : Setup) (public : List ℕ) → A.lawful agreement.old s
        → A.client_makes algorithm.old.name algorithm.old.group l public
        → A.agrees algorithm.old.name algorithm.old.group public v x) algorithm.old algorithm.new payload.now r.host.now
        r.value.now r.signature.now) }
    ensures err { IfErr result (RefusesToAgree (λ l v. Rose (A.refusals agreement.old) (A.refusals agreement.new)
        × ((s : Setup) (public : List ℕ) → A.obliging agreement.old agreement.new s algorithm.old.group
        → HasItsGroup algorithm.old.name algorithm.old.group → A.offered agreement.old algorithm.old.name ≡ true
        → A.client_makes algorithm.old.name algorithm.old.group l public
        → A.server_makes algorithm.old.name algorithm.old.group public v → ⊥)) (λ l v x. (s : Setup) (public : List ℕ)
        → A.lawful agreement.old s → A.client_makes algorithm.old.name algorithm.old.group l public
        → A.agrees algorithm.old.name algorithm.old.group public v x) algorithm.old payload.now) }
    ensures unasked { IfErr result (λ e. is_early (is_ok (reply_front (fields payload.now))) e ≡ true
        → agreement.new ≡ agreement.old) }
    ensures agreed { IfErr result (MakesFirst (λ v x. (s : Setup) (public : List ℕ) → A.lawful agreement.old s
        → A.client_makes algorithm.old.name algorithm.old.group (local_of algorithm.old.local) public
        → A.agrees algorithm.old.name algorithm.old.group public v x) payload.now) }
{
    if !has_type(payload, reply_type(algorithm.is_dh_gex())) {
        return Err(Error::KexInit);
    }
    let mut reader = Reader::new(fields_of(payload));
    let front = match front_of(&mut reader) {
        Ok(front) => front,
        Err(error) => return Err(error),
    };
    if let Err(error) = algorithm.compute_shared_secret(agreement, front.value) {
        return Err(error);
    }
    match value_of(&mut reader) {
        Ok(signature) => Ok(Reply {
            host: front.host,
            value: front.value,
            signature,
        }),
        Err(error) => Err(error),
    }
}

/// A signature as it is judged: its canonical form where there is one.
fn judged_of<'a>(form: &'a Option<Blob>, signature: &'a [u8]) -> &'a [u8]
    ensures { result.now ≡ or_same signature.now form.now }
{
    match form {
        Some(form) => form.as_slice(),
        None => signature,
    }
}

/// Has the canonical form of a signature verified. WrongServerSig where it was refused; Memory.
fn verify_signature<H: HostKeys>(
    alloc: Global,
    hosts: &mut H,
    host: &ServerHost,
    hash: &HashValue,
    signature: &[u8],
) -> Result<(), Error>
    requires { length signature.now < 2 ^ 31 }
    ensures keeps { HostsKept H.HostKeys hosts.old hosts.new }
    ensures calls { H.calls hosts.new ≤ H.calls hosts.old + 1 }
    ensures answers { OnOk result (Answers H.answered 1 hosts.old hosts.new) }
    ensures ok { OnOk result (H.accepts hosts.old host.now hash.now (judged signature.now) ≡ true) }
    ensures err { IfErr result (λ e. (e ≡ Memory) ⊎ ((e ≡ WrongServerSig)
        × (Rose (H.refused_verify hosts.old) (H.refused_verify hosts.new)
        × ((s : Setup) → H.judges hosts.old hosts.new s
        → H.accepts hosts.old host.now hash.now (judged signature.now) ≡ true
        → ⊥)))) }
{
    let form = match canonicalize_ecdsa_signature(alloc, signature) {
        Ok(form) => form,
        Err(error) => return Err(error),
    };
    match hosts.verify(alloc, host, hash, judged_of(&form, signature)) {
        Ok(()) => Ok(()),
        Err(Refusal::Refused) => Err(Error::WrongServerSig),
        Err(Refusal::Memory) => Err(Error::Memory),
    }
}

/// A reply on whose value is agreed: its signature is verified, and NEWKEYS sent. WrongServerSig where the signature
/// was refused; Memory. A refusal leaves the output as it was.
fn accept_reply<'c, H: HostKeys, R: Rng>(
    mut base: KexBase<'c>,
    names: Names,
    algorithm: KexAlgorithm,
    hosts: &mut H,
    rng: &mut R,
    reply: Reply<'_>,
    output: &mut PacketWriter,
) -> Result<KexProgress<ClientKex<'c>>, Error>
    requires name { algorithm.name ≡ names.kex }
    requires whole { IsWhole algorithm.name reply.host.now (record base.exchange
        { server_ephemeral = reply.value.now }) }
    requires signature { length reply.signature.now < 2 ^ 31 }
    ensures keeps { HostsKept H.HostKeys hosts.old hosts.new }
    ensures calls { H.calls hosts.new ≤ H.calls hosts.old + 1 }
    ensures answers { OnOk result (Answers H.answered 1 hosts.old hosts.new) }
    ensures ok { IfOk result (λ p. AcceptsReply (λ h d g. H.accepts hosts.old h d g ≡ true) base.entry.config.now
        base.entry.cause base.entry.exchange
        names algorithm.secret reply.entry.host.now reply.entry.value.now reply.entry.signature.now p output.old
        output.new) }
    ensures err { IfErr result (λ e. (e ≡ Memory) ⊎ ((e ≡ WrongServerSig)
        × (Rose (H.refused_verify hosts.old) (H.refused_verify hosts.new)
        × ((s : Setup) → H.judges hosts.old hosts.new s → H.accepts hosts.old (host_with names reply.entry.host.now)
        (made_with base.entry.cause names base.entry.exchange algorithm.secret reply.entry.host.now
        reply.entry.value.now).hash
        (judged reply.entry.signature.now) ≡ true → ⊥)))) }
    ensures drawn { OnOk result (SendsAll output.old (newkeys ∷ []) (R.stream rng.old) output.new (R.stream rng.new)) }
    ensures unchanged { OnErr result (SameButRoom output.old output.new) }
    ensures late { asks_no_host result ≡ false }
{
    let value = Blob::copy_of(base.alloc, reply.value)?;
    let exchange = &mut base.exchange;
    exchange.server_ephemeral = value;
    let host = ServerHost {
        algorithm: names.key,
        is_certificate: names.host_key_is_certificate,
        blob: Blob::copy_of(base.alloc, reply.host)?,
    };
    let hash = algorithm.compute_exchange_hash(reply.host, &base.exchange);
    if let Err(error) = verify_signature(base.alloc, hosts, &host, &hash, reply.signature) {
        return Err(error);
    }
    let (made, cipher) = finish(base.alloc, &algorithm, &base.cause, names, hash, false)?;
    let reset_seqn = names.strict_kex || base.cause.is_strict_rekey();
    match put_message(output, rng, &[msg::NEWKEYS]) {
        Ok(()) => {
            let state = ClientState::AwaitsNewkeys { host, made, cipher };
            Ok(waits(base, state, reset_seqn))
        }
        Err(error) => Err(error),
    }
}

/// The server's reply. KexInit where it is another message; SshEncoding; Kex where the agreement refused;
/// WrongServerSig; Memory. A refusal leaves the output as it was.
pub(crate) fn take_reply<'c, A: Agreement, H: HostKeys, G, R: Rng>(
    base: KexBase<'c>,
    names: Names,
    algorithm: KexAlgorithm,
    parts: &mut Parts<A, H, G, R>,
    payload: &[u8],
    output: &mut PacketWriter,
) -> Result<KexProgress<ClientKex<'c>>, Error>
    requires short { length payload.now < 2 ^ 31 }
    requires sides { HasShortSides base.exchange }
    requires value { HasValue base.exchange names algorithm }
    ensures agreement { AgreementKept A.Agreement parts.old.agreement parts.new.agreement }
    ensures agreement_calls { A.calls parts.new.agreement ≤ A.calls parts.old.agreement + 1 }
    ensures agreement_answers { OnOk result (Answers A.answered 1 parts.old.agreement parts.new.agreement) }
    ensures hosts { HostsKept H.HostKeys parts.old.hosts parts.new.hosts }
    ensures groups { parts.new.groups ≡ parts.old.groups }
    ensures hosts_calls { H.calls parts.new.hosts ≤ H.calls parts.old.hosts + 1 }
    ensures hosts_answer { OnOk result (Answers H.answered 1 parts.old.hosts parts.new.hosts) }
    ensures ok { IfOk result (λ p. AnswersReply (λ l v x. (s : Setup) (public : List ℕ)
        → A.lawful parts.old.agreement s → A.client_makes algorithm.name algorithm.group l public
        → A.agrees algorithm.name algorithm.group public v x)
        (λ h d g. H.accepts parts.old.hosts h d g ≡ true) base.entry.config.now base.entry.cause base.entry.exchange
        names algorithm payload.now p output.old
        output.new) }
    ensures err { IfErr result (RefusesReply (λ l v. Rose (A.refusals parts.old.agreement)
        (A.refusals parts.new.agreement) × ((s : Setup) (public : List ℕ) → A.obliging parts.old.agreement
        parts.new.agreement s algorithm.group
        → HasItsGroup algorithm.name algorithm.group → A.offered parts.old.agreement algorithm.name ≡ true
        → A.client_makes algorithm.name algorithm.group l public
        → A.server_makes algorithm.name algorithm.group public v → ⊥)) (λ l v x. (s : Setup) (public : List ℕ)
        → A.lawful parts.old.agreement s → A.client_makes algorithm.name algorithm.group l public
        → A.agrees algorithm.name algorithm.group public v x) (λ h d g. Rose (H.refused_verify parts.old.hosts)
        (H.refused_verify parts.new.hosts) × ((s : Setup) → H.judges parts.old.hosts parts.new.hosts s
        → H.accepts parts.old.hosts h d g ≡ true
        → ⊥)) base.entry.cause base.entry.exchange names algorithm payload.now) }
    ensures drawn { OnOk result (SendsAll output.old (newkeys ∷ []) (R.stream parts.old.rng) output.new
        (R.stream parts.new.rng)) }
    ensures unchanged { OnErr result (SameButRoom output.old output.new) }
    ensures unasked_agreement { asks_nobody (is_ok (reply_front (fields payload.now))) result ≡ true
        → parts.new.agreement ≡ parts.old.agreement }
    ensures unasked_hosts { asks_no_host result ≡ true → parts.new.hosts ≡ parts.old.hosts }
    ensures agreed { IfErr result (MakesFirst (λ v x. (s : Setup) (public : List ℕ) → A.lawful parts.old.agreement s
        → A.client_makes algorithm.name algorithm.group (local_of algorithm.local) public
        → A.agrees algorithm.name algorithm.group public v x) payload.now) }
{
    let mut algorithm = algorithm;
    let reply = match agree_on_reply(&mut algorithm, &mut parts.agreement, payload) {
        Ok(reply) => reply,
        Err(error) => return Err(error),
    };
    let Parts { hosts, rng, .. } = parts;
    accept_reply(base, names, algorithm, hosts, rng, reply, output)
}
