//! A server's answer to a client's value.

ghost use Rattle.std.specs.Prelude.{◌≡◌, ◌+◌, ◌≤◌, ◌<◌, ◌^◌, ◌⊎◌, true, false, [], ◌∷◌, ℕ, List, length, drop, is_some, Some, None, Ok, Err, IfOk, IfErr, OnErr, OnOk};
ghost use Rattle.std.specs.Option.{option_copied};
ghost use Rattle.ssh_negotiate.specs.Tables.{shape_of};
ghost use Rattle.ssh_packet.specs.Stream.{message_type};
ghost use Rattle.ssh_packet.specs.Writing.{SameButRoom};
ghost use Rattle.ssh_wire.specs.Outside.{Rose};
ghost use Rattle.ssh_wire.specs.declared.error.Error.TheVariants.{Kex, Memory};
ghost use Rattle.ssh_kex.specs.Drawing.{AnswerDrawn, SecretDrawn, StepDraws};
ghost use Rattle.ssh_kex.specs.Messages.{is_gex, reply_message, value_message};
ghost use Rattle.ssh_kex.specs.Parts.{Answers, HasItsGroup, IsSmall, Setup};
ghost use Rattle.ssh_kex.specs.Fields.{value_in};
ghost use Rattle.ssh_kex.specs.Members.{AgreementKept, HostsKept};
ghost use Rattle.ssh_server_kex.specs.ServerRows.{AgreesOn, AnswersValue, CanAnswer, IsLongAnswer, RefusesText, ServerRefusesValue};
ghost use Rattle.ssh_kex.specs.Setting.{group_of};
ghost use Rattle.ssh_kex.specs.Unasked.{is_early, is_unjudged};

use crate::presented::presented;
use rand_core::Rng;
use ssh_kex::last_message::finish;
use ssh_kex::message::{has_type, put_both};
use ssh_kex::{
    Agreement, Exchange, FinishedExchange, GexChosen, HostKeys, KexAlgorithm, KexBase, Parts,
    Refusal, copy_of_group,
};
use ssh_negotiate::{Names, kex};
use ssh_packet::{CipherPair, PacketWriter};
use ssh_wire::{Blob, Error, Reader, msg, put_string, put_u8};
use std::alloc::Global;

/// Whether it is a group exchange.
fn is_gex(name: kex::Name) -> bool
    ensures { result ≡ is_gex name }
{
    name.shape().gex
}

/// The type of the message that carries a client's value.
fn value_type(is_gex: bool) -> u8
    ensures { result ≡ message_type (value_message is_gex []) }
{
    if is_gex {
        msg::KEX_DH_GEX_INIT
    } else {
        msg::KEX_ECDH_INIT
    }
}

/// A client's value. KexInit where it is another message; SshEncoding.
fn read_value(payload: &[u8], is_gex: bool) -> Result<&[u8], Error>
    ensures ok { IfOk result (λ v. (payload.now ≡ value_message is_gex v.now)
        × (value_in (drop 1 payload.now) ≡ Ok v.now)) }
    ensures short { IfOk result (λ v. length v.now ≤ length payload.now) }
    ensures err { IfErr result (RefusesText is_gex payload.now) }
{
    if !has_type(payload, value_type(is_gex)) {
        return Err(Error::KexInit);
    }
    let mut reader = Reader::new(&payload[1..]);
    let value = match reader.read_string() {
        Ok(value) => value,
        Err(error) => return Err(error),
    };
    match reader.ensure_end() {
        Ok(()) => Ok(value),
        Err(error) => Err(error),
    }
}

/// A key exchange with the group that was chosen. Memory.
fn algorithm_with(
    alloc: Global,
    name: kex::Name,
    gex: Option<&GexChosen>,
) -> Result<KexAlgorithm, Error>
    requires { is_some gex ≡ is_gex name }
    ensures ok { IfOk result (λ k. k ≡ record {
      name = name;
      group = group_of
          (option_copied gex.entry);
      local = None;
      secret = None;
    }) }
    ensures err { IfErr result (λ e. e ≡ Memory) }
{
    let mut algorithm = KexAlgorithm::new(alloc, name);
    if let Some(gex) = gex {
        algorithm.dh_gex_set_group(copy_of_group(alloc, &gex.group)?)?;
    }
    Ok(algorithm)
}

/// Agrees on the client's value. Kex where the agreement refused, and counted it; Memory. A refusal leaves the exchange
/// as it was.
fn agree<A: Agreement, R: Rng>(
    alloc: Global,
    name: kex::Name,
    agreement: &mut A,
    rng: &mut R,
    exchange: &mut Exchange,
) -> Result<KexAlgorithm, Error>
    requires kind { is_some exchange.old.gex ≡ is_gex name }
    requires some { (shape_of name).skip ≡ false }
    ensures keeps { AgreementKept A.Agreement agreement.old agreement.new }
    ensures calls { A.calls agreement.new ≤ A.calls agreement.old + 1 }
    ensures answers { OnOk result (Answers A.answered 1 agreement.old agreement.new) }
    ensures ok { IfOk result (AgreesOn (λ v x. (s : Setup) → A.lawful agreement.old s
        → A.server_makes name (group_of exchange.old.gex) exchange.old.client_ephemeral v
        × A.agrees name (group_of exchange.old.gex) exchange.old.client_ephemeral v x
        × IsSmall v) name exchange.old exchange.new) }
    ensures drawn { IfOk result (λ k. SecretDrawn (A.server_draws name (group_of exchange.old.gex)
        exchange.old.client_ephemeral) (R.stream rng.old) k.secret exchange.new.server_ephemeral (R.stream rng.new)) }
    ensures causes { IfErr result (λ e. (e ≡ Kex) ⊎ (e ≡ Memory)) }
    ensures rose { IfErr result (λ e. e ≡ Kex → Rose (A.refusals agreement.old) (A.refusals agreement.new)) }
    ensures owed { IfErr result (λ e. e ≡ Kex → (s : Setup) (local : List ℕ) → A.obliging agreement.old agreement.new s
        (group_of exchange.old.gex) → HasItsGroup name (group_of exchange.old.gex)
        → A.offered agreement.old name ≡ true → A.client_makes name
        (group_of exchange.old.gex) local exchange.old.client_ephemeral → ⊥) }
{
    let mut algorithm = algorithm_with(alloc, name, exchange.gex.as_ref())?;
    match algorithm.server_dh(agreement, rng, exchange) {
        Ok(()) => Ok(algorithm),
        Err(error) => Err(error),
    }
}

/// A server's reply: message 31, or 33 in a group exchange. Memory.
fn reply(
    alloc: Global,
    is_gex: bool,
    host: &[u8],
    value: &[u8],
    signature: &[u8],
) -> Result<Vec<u8>, Error>
    requires host { length host.now < 2 ^ 31 }
    requires value { length value.now < 2 ^ 31 }
    requires signature { length signature.now < 2 ^ 31 }
    ensures ok { IfOk result (λ v. v.items ≡ reply_message is_gex host.now value.now signature.now) }
    ensures err { IfErr result (λ e. e ≡ Memory) }
{
    let mut message = Vec::new(alloc);
    put_u8(
        &mut message,
        if is_gex {
            msg::KEX_DH_GEX_REPLY
        } else {
            msg::KEX_ECDH_REPLY
        },
    )?;
    put_string(&mut message, host)?;
    put_string(&mut message, value)?;
    put_string(&mut message, signature)?;
    Ok(message)
}

/// Answers a client's value: agrees, signs the hash, sends reply and NEWKEYS. KexInit where it is another message;
/// SshEncoding; Kex where the agreement refused, Signature where the key did, and each counted it; PacketSize where the
/// reply is over 262157 bytes; Memory. Nothing is written by a refusal.
pub(crate) fn answer_value<A: Agreement, H: HostKeys, G, R: Rng>(
    base: &mut KexBase<'_>,
    names: &Names,
    parts: &mut Parts<A, H, G, R>,
    payload: &[u8],
    output: &mut PacketWriter,
) -> Result<(FinishedExchange, Box<CipherPair>), Error>
    requires can { CanAnswer base.old.config.now names.now base.old.exchange }
    requires short { length payload.now < 2 ^ 31 }
    ensures agreement { AgreementKept A.Agreement parts.old.agreement parts.new.agreement }
    ensures hosts { HostsKept H.HostKeys parts.old.hosts parts.new.hosts }
    ensures groups { parts.new.groups ≡ parts.old.groups }
    ensures agreement_calls { A.calls parts.new.agreement ≤ A.calls parts.old.agreement + 1 }
    ensures agreement_answers { OnOk result (Answers A.answered 1 parts.old.agreement parts.new.agreement) }
    ensures hosts_calls { H.calls parts.new.hosts ≤ H.calls parts.old.hosts + 1 }
    ensures hosts_answer { OnOk result (Answers H.answered 1 parts.old.hosts parts.new.hosts) }
    ensures ok { IfOk result (AnswersValue
        (λ c v. (s : Setup) → A.lawful parts.old.agreement s → A.server_makes names.now.kex
        (group_of base.old.exchange.gex) c v)
        (λ c v x. (s : Setup) → A.lawful parts.old.agreement s → A.agrees names.now.kex
        (group_of base.old.exchange.gex) c v x)
        (λ host hash signature. (later : H) (s : Setup) → s.server ≡ base.old.config.now → H.signs parts.old.hosts later
        s
        → H.makes base.old.config.now host hash signature)
        base.old.config.now base.old.cause names.now base.old.exchange base.new.exchange payload.now output.old
        output.new) }
    ensures causes { IfErr result (ServerRefusesValue (is_gex names.now.kex)
        (λ c. Rose (A.refusals parts.old.agreement) (A.refusals parts.new.agreement) × ((s : Setup) (l : List ℕ)
        → A.obliging parts.old.agreement parts.new.agreement s (group_of base.old.exchange.gex)
        → HasItsGroup names.now.kex (group_of base.old.exchange.gex)
        → A.offered parts.old.agreement names.now.kex ≡ true
        → A.client_makes names.now.kex (group_of base.old.exchange.gex) l c → ⊥))
        (Rose (H.refused_sign parts.old.hosts) (H.refused_sign parts.new.hosts) × ((s : Setup)
        → s.server ≡ base.old.config.now → H.signs parts.old.hosts parts.new.hosts s → ⊥))
        (IsLongAnswer
        (λ c v. (s : Setup) → A.lawful parts.old.agreement s → A.server_makes names.now.kex
        (group_of base.old.exchange.gex) c v)
        (λ v. (s : Setup) → A.lawful parts.old.agreement s → IsSmall v)
        (λ v. (s : Setup) → H.lawful parts.old.hosts s → IsSmall v) base.old.config.now names.now payload.now)
        payload.now) }
    ensures base { base.new ≡ record base.old { exchange = base.new.exchange } }
    ensures drawn { IfOk result (λ f. StepDraws (AnswerDrawn (A.server_draws names.now.kex (group_of
        base.old.exchange.gex)) (R.stream parts.old.rng) base.new.exchange f.0) output.old output.new
        (R.stream parts.new.rng)) }
    ensures unchanged { OnErr result (SameButRoom output.old output.new) }
    ensures unasked { IfErr result (λ e. is_early false e ≡ true → parts.new.agreement ≡ parts.old.agreement) }
    ensures unjudged { IfErr result (λ e. is_unjudged e ≡ true → parts.new.hosts ≡ parts.old.hosts) }
{
    let is_gex = is_gex(names.kex);
    let value = match read_value(payload, is_gex) {
        Ok(value) => value,
        Err(error) => return Err(error),
    };
    let Some(shown) = presented(&base.config.host, names.host_key_is_certificate, names.key) else {
        return Err(Error::UnknownKey);
    };
    base.exchange.client_ephemeral = Blob::copy_of(base.alloc, value)?;
    let algorithm = agree(
        base.alloc,
        names.kex,
        &mut parts.agreement,
        &mut parts.rng,
        &mut base.exchange,
    )?;
    let hash = algorithm.compute_exchange_hash(shown.blob.as_slice(), &base.exchange);
    let signature = match parts.hosts.sign(base.alloc, shown.signer, names.key, &hash) {
        Ok(signature) => signature,
        Err(Refusal::Refused) => return Err(Error::Signature),
        Err(Refusal::Memory) => return Err(Error::Memory),
    };
    let reply = reply(
        base.alloc,
        is_gex,
        shown.blob.as_slice(),
        base.exchange.server_ephemeral.as_slice(),
        signature.as_slice(),
    )?;
    let ended = finish(base.alloc, &algorithm, &base.cause, *names, hash, true)?;
    match put_both(output, &mut parts.rng, reply.as_slice(), &[msg::NEWKEYS]) {
        Ok(()) => Ok(ended),
        Err(error) => Err(error),
    }
}
