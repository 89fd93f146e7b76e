//! A client's side of an exchange, step by step.

ghost use Rattle.std.specs.Prelude.{◌≡◌, ◌+◌, ◌≤◌, ◌^◌, ◌<◌, [], ◌∷◌, true, false, length, is_some, Option, None, Some, Err, IfOk, IfErr, OnOk, OnErr, IfSome};
ghost use Rattle.ssh_negotiate.specs.Laws.{AreShort};
ghost use Rattle.ssh_negotiate.specs.Reading.{behind_cookie, cookie_from, kexinit_drawn};
ghost use Rattle.ssh_packet.specs.Sealing.{IsAdmissible, IsPadded, item_of, stream_after};
ghost use Rattle.ssh_wire.specs.Forms.{AreBytes};
ghost use Rattle.ssh_kex.specs.Refusals.{IsCreated};
ghost use Rattle.ssh_negotiate.specs.Tables.{shape_of};
ghost use Rattle.ssh_packet.specs.Writing.{SameButRoom, Sends};
ghost use Rattle.ssh_wire.specs.Lines.{id_text};
ghost use Rattle.ssh_wire.specs.Outside.{Rose};
ghost use Rattle.ssh_wire.specs.declared.error.Error.TheVariants.{Memory};
ghost use Rattle.ssh_wire.specs.declared.side.Side.TheVariants.{Client as client_side};
ghost use Rattle.ssh_client_kex.specs.Agreed.{AgreesFirst};
ghost use Rattle.ssh_client_kex.specs.ClientRows.{AnswersGroup, AnswersKexinit, OpensWithValue, SendsOfGroup, RefusesGroup, ClientRefusesKexinit, ClientRefusesValue, SendsValue};
ghost use Rattle.ssh_client_kex.specs.ClientViews.{client_behind_guess, client_machine, client_drops_guess, ClientHolds, HasNoValues};
ghost use Rattle.ssh_client_kex.specs.declared.client_kex.ClientState.TheVariants.{AwaitsGroup as awaits_group};
ghost use Rattle.ssh_kex.specs.declared.progress.KexProgress.TheVariants.{NeedsReply};
ghost use Rattle.ssh_kex.specs.Drawing.{DrawnByClient, SendsAll, StartsFrom, StepDraws, ValueDrawn};
ghost use Rattle.ssh_kex.specs.Messages.{is_gex, request_message};
ghost use Rattle.ssh_kex.specs.Parts.{Answers, HasItsGroup, IsSmall, Setup};
ghost use Rattle.ssh_kex.specs.Fields.{IsInside, IsOutside};
ghost use Rattle.ssh_kex.specs.Members.{AgreementKept};
ghost use Rattle.ssh_kex.specs.Setting.{offers_of};
ghost use Rattle.ssh_kex.specs.Stages.{Created as created, IsStageOf, has_ignored, names_in_stage, is_strict};
ghost use Rattle.ssh_kex.specs.Stepping.{at_kexinit, answers_agreement, asks_agreement, asks_hosts, asks_groups, kexinit_answers, next_of, Progresses, RefusesStep, Puts};
ghost use Rattle.ssh_kex.specs.Unasked.{asks_no_host, asks_nobody, has_front, is_early};
ghost use Rattle.ssh_kex.specs.Views.{HasShortSides};

use crate::client_reply::take_reply;
use crate::fields::{fields_of, group_of};
use rand_core::Rng;
use ssh_kex::first_message::{client_names, names_behind_guess};
use ssh_kex::kexinit_message::send_kexinit;
use ssh_kex::last_message::{end_at_once, last};
use ssh_kex::message::{has_type, put_message};
use ssh_kex::{
    Agreement, Config, DhGroup, Exchange, FinishedExchange, GexChosen, GexParams, GroupLookup,
    Handed, HostKeys, KexAlgorithm, KexBase, KexProgress, Parts, ServerHost, copy_of_group,
};
use ssh_negotiate::{KexCause, Names, kex};
use ssh_packet::{CipherPair, Incoming, PacketWriter};
use ssh_wire::{Blob, Error, SshId, msg};
use std::alloc::Global;
use std::marker::Model;

#[derive(Drop)]
pub(crate) enum ClientState {
    Created,
    AwaitsGroup {
        names: Names,
    },
    AwaitsReply {
        names: Names,
        algorithm: KexAlgorithm,
    },
    AwaitsNewkeys {
        host: ServerHost,
        made: FinishedExchange,
        cipher: Box<CipherPair>,
    },
}

/// A client's side of an exchange.
#[derive(Drop)]
pub struct ClientKex<'c> {
    base: KexBase<'c>,
    state: ClientState,
}

impl<'c> Model for ClientKex<'c> {
    ghost use Rattle.ssh_kex.specs.Stages.{Machine};
    ghost use Rattle.ssh_client_kex.specs.ClientViews.{ClientHolds, client_machine};

    ghost Value = { Machine };

    ghost view = { λ k. client_machine k.base.config.now k.base.cause k.base.exchange k.state };

    ghost invariant = { λ k. ClientHolds k.base.config.now k.base.exchange k.state };
}

impl<'c> ClientKex<'c> {
    /// A client's side of an exchange between these two version lines, before its KEXINIT. Memory.
    pub fn new(
        alloc: Global,
        config: &'c Config,
        client_sshid: &SshId,
        server_sshid: &[u8],
        cause: KexCause,
    ) -> Result<ClientKex<'c>, Error>
        requires client_id { length (id_text client_sshid.now) < 2 ^ 31 }
        requires server_id { length server_sshid.now < 2 ^ 31 }
        requires lists { AreShort (offers_of client_side config.now) }
        ensures ok { IfOk result (λ k. k ≡ record {
          setting = record {
            side = client_side;
            config = config.now;
            client_id = id_text client_sshid.now;
            server_id = server_sshid.now;
            cause = cause;
          };
          stage = created [];
        }) }
        ensures err { IfErr result (λ e. e ≡ Memory) }
    {
        let exchange = Exchange::new(alloc, client_sshid.as_kex_hash_bytes(), server_sshid)?;
        Ok(ClientKex {
            base: KexBase {
                alloc,
                config,
                cause,
                exchange,
            },
            state: ClientState::Created,
        })
    }

    /// One message of the peer. What each stage takes, refuses and writes is said of the stages; a wrong guess is
    /// dropped. A refusal leaves the output as it was. No part is asked for a message that is refused as it is read;
    /// the agreement is asked before a reply's signature is read.
    pub fn step<A: Agreement, H: HostKeys, G: GroupLookup, R: Rng>(
        self,
        parts: &mut Parts<A, H, G, R>,
        input: Option<Incoming<'_>>,
        output: &mut PacketWriter,
    ) -> Result<KexProgress<ClientKex<'c>>, Error>
        requires { IfSome input (λ i. length i.payload.now < 2 ^ 31) }
        ensures keeps { ⟦<Parts<A, H, G, R> as Handed>⟧.keeps parts.old parts.new }
        ensures agreement_calls { A.calls parts.new.agreement ≤ A.calls parts.old.agreement + asks_agreement
            self.entry.setting.side self.entry.stage (next_of result) }
        ensures hosts_calls { H.calls parts.new.hosts ≤ H.calls parts.old.hosts + asks_hosts self.entry.stage }
        ensures groups_calls { G.calls parts.new.groups ≤ G.calls parts.old.groups + asks_groups self.entry.stage }
        ensures fits { IsStageOf self.entry.setting.side self.entry.stage }
        ensures answers { OnOk result (⟦<Parts<A, H, G, R> as Handed>⟧.answers parts.old parts.new (answers_agreement
            self.entry.setting.side self.entry.stage (next_of result)) (asks_hosts self.entry.stage) (asks_groups
            self.entry.stage)) }
        ensures goes { IfOk result (λ p. Progresses (⟦<Parts<A, H, G, R> as Handed>⟧.says self.entry.setting.config
            parts.old)
            self.entry input.entry output.old p output.new) }
        ensures drawn { OnOk result (StepDraws (DrawnByClient A.client_draws (R.stream parts.old.rng) self.entry.stage
            (next_of result)) output.old output.new (R.stream parts.new.rng)) }
        ensures causes { IfErr result (λ e. RefusesStep (⟦<Parts<A, H, G, R> as Handed>⟧.says self.entry.setting.config
            parts.old)
            (⟦<Parts<A, H, G, R> as Handed>⟧.denies parts.old parts.new) self.entry input.entry e) }
        ensures unchanged { OnErr result (SameButRoom output.old output.new) }
        ensures unasked_agreement { asks_nobody (has_front self.entry.stage input.entry) result ≡ true
            → parts.new.agreement ≡ parts.old.agreement }
        ensures unasked_hosts { asks_no_host result ≡ true → parts.new.hosts ≡ parts.old.hosts }
        ensures unasked_groups { parts.new.groups ≡ parts.old.groups }
        ensures agreed { IfErr result (AgreesFirst (⟦<Parts<A, H, G, R> as Handed>⟧.says
            self.entry.setting.config parts.old) self.entry.stage input.entry) }
    {
        let Some(incoming) = input else {
            return Err(Error::KexInit);
        };
        let ClientKex { base, state } = self;
        if drops_guess(&state) {
            let state = behind_guess(state);
            return Ok(waits(base, state, false));
        }
        let payload = incoming.payload;
        match state {
            ClientState::Created => take_kexinit(
                base,
                &mut parts.agreement,
                &mut parts.rng,
                incoming,
                output,
            ),
            ClientState::AwaitsGroup { names } => take_group(
                base,
                names,
                &mut parts.agreement,
                &mut parts.rng,
                payload,
                output,
            ),
            ClientState::AwaitsReply { names, algorithm } => {
                take_reply(base, names, algorithm, parts, payload, output)
            }
            ClientState::AwaitsNewkeys { host, made, cipher } => {
                last(base.exchange, Some(host), made, cipher, payload)
            }
        }
    }

    /// Sends the own KEXINIT, with 16 drawn bytes as cookie, and keeps it. It is for a machine before the server's.
    /// A second call sends another, which takes the place of the first. Memory, and then machine and writer are as they
    /// were.
    pub fn kexinit<R: Rng>(&mut self, rng: &mut R, output: &mut PacketWriter) -> Result<(), Error>
        requires { IsCreated self.old.stage }
        ensures ok { OnOk result (self.new ≡ record self.old {
          stage = created
              (kexinit_drawn self.old.setting.config.preferred None (R.stream rng.old));
        }) }
        ensures sent { OnOk result (Sends output.old (kexinit_drawn self.old.setting.config.preferred None
            (R.stream rng.old)) (behind_cookie (R.stream rng.old)) output.new) }
        ensures stream { OnOk result (R.stream rng.new ≡ stream_after output.old.sealing
            (kexinit_drawn self.old.setting.config.preferred None (R.stream rng.old)) (behind_cookie
            (R.stream rng.old))) }
        ensures admissible { OnOk result (IsAdmissible output.old.sealing (item_of output.old.sealing
            (kexinit_drawn self.old.setting.config.preferred None (R.stream rng.old)) (behind_cookie
            (R.stream rng.old)))) }
        ensures padded { OnOk result (IsPadded output.old.sealing (item_of output.old.sealing
            (kexinit_drawn self.old.setting.config.preferred None (R.stream rng.old)) (behind_cookie
            (R.stream rng.old)))) }
        ensures cookie { OnOk result (length (cookie_from (R.stream rng.old)) ≡ 16) }
        ensures bytes { OnOk result (AreBytes (cookie_from (R.stream rng.old))) }
        ensures unchanged { OnErr result ((self.new ≡ self.old) × SameButRoom output.old output.new) }
        ensures err { IfErr result (λ e. e ≡ Memory) }
    {
        let preferred = &self.base.config.preferred;
        let kexinit = send_kexinit(self.base.alloc, preferred, None, rng, output)?;
        self.base.exchange.client_kex_init = kexinit;
        Ok(())
    }

    /// Whether the peer's KEXINIT was read.
    pub fn peer_kexinit_received(&self) -> bool
        ensures { result ≡ is_some (names_in_stage self.now.stage) }
    {
        match &self.state {
            ClientState::Created => false,
            ClientState::AwaitsGroup { .. }
            | ClientState::AwaitsReply { .. }
            | ClientState::AwaitsNewkeys { .. } => true,
        }
    }

    /// Whether the exchange is strict, as far as the peer's KEXINIT was read.
    pub fn strict_kex(&self) -> bool
        ensures { result ≡ is_strict (names_in_stage self.now.stage) }
    {
        match &self.state {
            ClientState::Created => false,
            ClientState::AwaitsGroup { names } | ClientState::AwaitsReply { names, .. } => {
                names.strict_kex
            }
            ClientState::AwaitsNewkeys { made, .. } => made.names.strict_kex,
        }
    }

    /// Whether a wrong guess of the server was dropped.
    pub fn guess_ignored(&self) -> bool
        ensures { result ≡ has_ignored (names_in_stage self.now.stage) }
    {
        match &self.state {
            ClientState::Created => false,
            ClientState::AwaitsGroup { names } | ClientState::AwaitsReply { names, .. } => {
                names.guessed_ignored
            }
            ClientState::AwaitsNewkeys { made, .. } => made.names.guessed_ignored,
        }
    }
}

/// Whether the next message is a wrong guess.
fn drops_guess(state: &ClientState) -> bool
    ensures { result ≡ client_drops_guess state.now }
{
    match state {
        ClientState::AwaitsGroup { names } | ClientState::AwaitsReply { names, .. } => {
            names.ignore_guessed
        }
        ClientState::Created | ClientState::AwaitsNewkeys { .. } => false,
    }
}

/// The state behind a wrong guess, which was dropped.
fn behind_guess(state: ClientState) -> ClientState
    ensures { result ≡ client_behind_guess state }
{
    match state {
        ClientState::AwaitsGroup { names } => ClientState::AwaitsGroup {
            names: names_behind_guess(names),
        },
        ClientState::AwaitsReply { names, algorithm } => ClientState::AwaitsReply {
            names: names_behind_guess(names),
            algorithm,
        },
        ClientState::Created | ClientState::AwaitsNewkeys { .. } => state,
    }
}

/// A machine that awaits the peer's next message.
pub(crate) fn waits<'c>(
    base: KexBase<'c>,
    state: ClientState,
    reset_seqn: bool,
) -> KexProgress<ClientKex<'c>>
    requires { ClientHolds base.config.now base.exchange state }
    ensures { result ≡ NeedsReply (client_machine base.entry.config.now base.entry.cause base.entry.exchange state)
        reset_seqn }
{
    KexProgress::NeedsReply {
        kex: ClientKex { base, state },
        reset_seqn,
    }
}

/// Makes the client's value, keeps it, and sends it. Kex where the agreement refused; PacketSize; Memory. A refusal
/// leaves the output as it was.
fn send_value<A: Agreement, R: Rng>(
    alloc: Global,
    algorithm: &mut KexAlgorithm,
    agreement: &mut A,
    rng: &mut R,
    client_ephemeral: &mut Blob,
    output: &mut PacketWriter,
) -> Result<(), Error>
    requires { (shape_of algorithm.old.name).skip ≡ false }
    ensures keeps { AgreementKept A.Agreement agreement.old agreement.new }
    ensures calls { A.calls agreement.new ≤ A.calls agreement.old + 1 }
    ensures answers { OnOk result (Answers A.answered 1 agreement.old agreement.new) }
    ensures ok { OnOk result (SendsValue (λ l v. (s : Setup) → A.lawful agreement.old s
        → A.client_makes algorithm.old.name algorithm.old.group l v) algorithm.old algorithm.new client_ephemeral.new
        output.old output.new) }
    ensures err { IfErr result (ClientRefusesValue (λ l v. (s : Setup) → A.lawful agreement.old s
        → A.client_makes algorithm.old.name algorithm.old.group l v) (λ v. (s : Setup) → A.lawful agreement.old s
        → IsSmall v) (Rose (A.refusals agreement.old) (A.refusals agreement.new)
        × ((s : Setup) → A.obliging agreement.old agreement.new s algorithm.old.group
        → HasItsGroup algorithm.old.name algorithm.old.group → A.offered agreement.old algorithm.old.name ≡ true
        → ⊥))) }
    ensures drawn { OnOk result (StepDraws (ValueDrawn (A.client_draws algorithm.old.name algorithm.old.group)
        (R.stream rng.old) algorithm.new.local client_ephemeral.new) output.old output.new (R.stream rng.new)) }
    ensures unchanged { OnErr result (SameButRoom output.old output.new) }
    ensures late { IfErr result (λ e. is_early false e ≡ false) }
{
    let mut message = Vec::new(alloc);
    if let Err(error) = algorithm.client_dh(agreement, rng, client_ephemeral, &mut message) {
        return Err(error);
    }
    put_message(output, rng, message.as_slice())
}

/// Whether a group is within the sizes.
fn is_inside(sizes: GexParams, group: &DhGroup) -> bool
    requires { length group.now.prime < 2 ^ 31 }
    ensures inside { result ≡ true → IsInside sizes group.now }
    ensures outside { result ≡ false → IsOutside sizes group.now }
{
    let size = group.bit_size();
    u64::from(sizes.min_group_size) <= size && size <= u64::from(sizes.max_group_size)
}

/// Asks for a group of the own sizes. Memory leaves the output as it was.
fn ask_group<'c, R: Rng>(
    base: KexBase<'c>,
    names: Names,
    rng: &mut R,
    output: &mut PacketWriter,
) -> Result<KexProgress<ClientKex<'c>>, Error>
    requires sides { HasShortSides base.exchange }
    requires exchanges { (shape_of names.kex).skip ≡ false }
    requires gex { is_gex names.kex ≡ true }
    ensures ok { IfOk result (λ p. (p ≡ NeedsReply (client_machine base.entry.config.now base.entry.cause
        base.entry.exchange
        (awaits_group names)) false) × Puts output.old (request_message base.entry.config.now.gex) output.new) }
    ensures drawn { OnOk result (SendsAll output.old (request_message base.entry.config.now.gex ∷ []) (R.stream rng.old)
        output.new (R.stream rng.new)) }
    ensures err { IfErr result (λ e. e ≡ Memory) }
    ensures unchanged { OnErr result (SameButRoom output.old output.new) }
{
    let mut message = Vec::new(base.alloc);
    let algorithm = KexAlgorithm::new(base.alloc, names.kex);
    if let Err(error) = algorithm.client_dh_gex_init(&base.config.gex, &mut message) {
        return Err(error);
    }
    match put_message(output, rng, message.as_slice()) {
        Ok(()) => Ok(waits(base, ClientState::AwaitsGroup { names }, false)),
        Err(error) => Err(error),
    }
}

/// Sends the client's value, of no group. Kex where the agreement refused; PacketSize; Memory. A refusal leaves the
/// output as it was.
fn open_with_value<'c, A: Agreement, R: Rng>(
    mut base: KexBase<'c>,
    names: Names,
    agreement: &mut A,
    rng: &mut R,
    output: &mut PacketWriter,
) -> Result<KexProgress<ClientKex<'c>>, Error>
    requires sides { HasShortSides base.exchange }
    requires none { HasNoValues base.exchange }
    requires exchanges { (shape_of names.kex).skip ≡ false }
    requires gex { is_gex names.kex ≡ false }
    ensures keeps { AgreementKept A.Agreement agreement.old agreement.new }
    ensures calls { A.calls agreement.new ≤ A.calls agreement.old + 1 }
    ensures answers { OnOk result (Answers A.answered 1 agreement.old agreement.new) }
    ensures ok { IfOk result (λ p. OpensWithValue (λ l v. (s : Setup) → A.lawful agreement.old s
        → A.client_makes names.kex None l v) base.entry.config.now base.entry.cause base.entry.exchange names p
        output.old output.new) }
    ensures err { IfErr result (ClientRefusesValue (λ l v. (s : Setup) → A.lawful agreement.old s
        → A.client_makes names.kex None l v) (λ v. (s : Setup) → A.lawful agreement.old s
        → IsSmall v) (Rose (A.refusals agreement.old) (A.refusals agreement.new)
        × ((s : Setup) → A.obliging agreement.old agreement.new s None → HasItsGroup names.kex None
        → A.offered agreement.old names.kex ≡ true → ⊥))) }
    ensures drawn { OnOk result (StepDraws (StartsFrom A.client_draws (R.stream rng.old) (next_of result)) output.old
        output.new (R.stream rng.new)) }
    ensures unchanged { OnErr result (SameButRoom output.old output.new) }
    ensures late { asks_nobody false result ≡ false }
{
    let mut algorithm = KexAlgorithm::new(base.alloc, names.kex);
    let mut client_ephemeral = Blob::new(Vec::new(base.alloc));
    let sent = send_value(
        base.alloc,
        &mut algorithm,
        agreement,
        rng,
        &mut client_ephemeral,
        output,
    );
    match sent {
        Ok(()) => {
            let exchange = &mut base.exchange;
            exchange.client_ephemeral = client_ephemeral;
            Ok(waits(base, ClientState::AwaitsReply { names, algorithm }, false))
        }
        Err(error) => Err(error),
    }
}

/// The peer's KEXINIT: the client asks for a group, or sends its value; where no values are exchanged, all is at its
/// end.
fn take_kexinit<'c, A: Agreement, R: Rng>(
    mut base: KexBase<'c>,
    agreement: &mut A,
    rng: &mut R,
    incoming: Incoming<'_>,
    output: &mut PacketWriter,
) -> Result<KexProgress<ClientKex<'c>>, Error>
    requires short { length incoming.payload.now < 2 ^ 31 }
    requires sides { HasShortSides base.exchange }
    requires none { HasNoValues base.exchange }
    ensures keeps { AgreementKept A.Agreement agreement.old agreement.new }
    ensures calls { A.calls agreement.new ≤ A.calls agreement.old + at_kexinit client_side (next_of result) }
    ensures answers { OnOk result (Answers A.answered (kexinit_answers client_side (next_of result)) agreement.old
        agreement.new) }
    ensures ok { IfOk result (λ p. AnswersKexinit (λ n. A.offered agreement.old n ≡ true) (λ n l v. (s : Setup)
        → A.lawful agreement.old s → A.client_makes n None l v) base.entry.config.now base.entry.cause
        base.entry.exchange incoming.entry p output.old
        output.new) }
    ensures err { IfErr result (ClientRefusesKexinit (λ n. A.offered agreement.old n ≡ true) (λ n l v. (s : Setup)
        → A.lawful agreement.old s → A.client_makes n None l v) (λ v. (s : Setup) → A.lawful agreement.old s
        → IsSmall v) (λ n. Rose (A.refusals agreement.old) (A.refusals agreement.new)
        × ((s : Setup) → A.obliging agreement.old agreement.new s None → HasItsGroup n None
        → A.offered agreement.old n ≡ true → ⊥)) base.entry.config.now base.entry.cause incoming.entry) }
    ensures drawn { OnOk result (StepDraws (StartsFrom A.client_draws (R.stream rng.old) (next_of result)) output.old
        output.new (R.stream rng.new)) }
    ensures unchanged { OnErr result (SameButRoom output.old output.new) }
    ensures unasked { asks_nobody false result ≡ true → agreement.new ≡ agreement.old }
{
    let names = match client_names(base.alloc, base.config, &base.cause, &incoming) {
        Ok(names) => names,
        Err(error) => return Err(error),
    };
    let kexinit = Blob::copy_of(base.alloc, incoming.payload)?;
    let exchange = &mut base.exchange;
    exchange.server_kex_init = kexinit;
    let algorithm = KexAlgorithm::new(base.alloc, names.kex);
    if algorithm.skip_exchange() {
        return end_at_once(base, &algorithm, names, false, rng, output);
    }
    if !agreement.offers(names.kex) {
        return Err(Error::UnknownAlgo);
    }
    if algorithm.is_dh_gex() {
        return ask_group(base, names, rng, output);
    }
    open_with_value(base, names, agreement, rng, output)
}

/// A key exchange that has a group. Memory.
fn algorithm_of(alloc: Global, name: kex::Name, group: &DhGroup) -> Result<KexAlgorithm, Error>
    requires { is_gex name ≡ true }
    ensures ok { IfOk result (λ k. k ≡ record { name = name; group = Some group.now; local = None; secret = None }) }
    ensures err { IfErr result (λ e. e ≡ Memory) }
{
    let mut algorithm = KexAlgorithm::new(alloc, name);
    match algorithm.dh_gex_set_group(copy_of_group(alloc, group)?) {
        Ok(()) => Ok(algorithm),
        Err(error) => Err(error),
    }
}

/// The client's value of a group within its sizes. Kex where the agreement refused; PacketSize; Memory. A refusal
/// leaves the output as it was.
fn answer_group<'c, A: Agreement, R: Rng>(
    mut base: KexBase<'c>,
    names: Names,
    group: DhGroup,
    agreement: &mut A,
    rng: &mut R,
    output: &mut PacketWriter,
) -> Result<KexProgress<ClientKex<'c>>, Error>
    requires sides { HasShortSides base.exchange }
    requires prime { length group.prime < 2 ^ 31 }
    requires generator { length group.generator < 2 ^ 31 }
    requires exchanges { (shape_of names.kex).skip ≡ false }
    requires gex { is_gex names.kex ≡ true }
    ensures keeps { AgreementKept A.Agreement agreement.old agreement.new }
    ensures calls { A.calls agreement.new ≤ A.calls agreement.old + 1 }
    ensures answers { OnOk result (Answers A.answered 1 agreement.old agreement.new) }
    ensures ok { IfOk result (λ p. SendsOfGroup (λ l v. (s : Setup) → A.lawful agreement.old s
        → A.client_makes names.kex (Some group) l v) base.entry.config.now base.entry.cause base.entry.exchange names
        group p output.old output.new) }
    ensures err { IfErr result (ClientRefusesValue (λ l v. (s : Setup) → A.lawful agreement.old s
        → A.client_makes names.kex (Some group) l v) (λ v. (s : Setup) → A.lawful agreement.old s
        → IsSmall v) (Rose (A.refusals agreement.old) (A.refusals agreement.new)
        × ((s : Setup) → A.obliging agreement.old agreement.new s (Some group)
        → HasItsGroup names.kex (Some group) → A.offered agreement.old names.kex ≡ true → ⊥))) }
    ensures drawn { OnOk result (StepDraws (StartsFrom A.client_draws (R.stream rng.old) (next_of result)) output.old
        output.new (R.stream rng.new)) }
    ensures unchanged { OnErr result (SameButRoom output.old output.new) }
    ensures late { asks_nobody false result ≡ false }
{
    let mut algorithm = match algorithm_of(base.alloc, names.kex, &group) {
        Ok(algorithm) => algorithm,
        Err(error) => return Err(error),
    };
    let mut client_ephemeral = Blob::new(Vec::new(base.alloc));
    let sent = send_value(
        base.alloc,
        &mut algorithm,
        agreement,
        rng,
        &mut client_ephemeral,
        output,
    );
    let params = base.config.gex;
    match sent {
        Ok(()) => {
            let exchange = &mut base.exchange;
            exchange.client_ephemeral = client_ephemeral;
            exchange.gex = Some(GexChosen { params, group });
            Ok(waits(base, ClientState::AwaitsReply { names, algorithm }, false))
        }
        Err(error) => Err(error),
    }
}

/// The server's group: the client sends its value of it. KexInit where it is another message or not within the own
/// sizes; SshEncoding; Kex where the agreement refused; PacketSize; Memory. A refusal leaves the output as it was.
fn take_group<'c, A: Agreement, R: Rng>(
    base: KexBase<'c>,
    names: Names,
    agreement: &mut A,
    rng: &mut R,
    payload: &[u8],
    output: &mut PacketWriter,
) -> Result<KexProgress<ClientKex<'c>>, Error>
    requires short { length payload.now < 2 ^ 31 }
    requires sides { HasShortSides base.exchange }
    requires exchanges { (shape_of names.kex).skip ≡ false }
    requires gex { is_gex names.kex ≡ true }
    ensures keeps { AgreementKept A.Agreement agreement.old agreement.new }
    ensures calls { A.calls agreement.new ≤ A.calls agreement.old + 1 }
    ensures answers { OnOk result (Answers A.answered 1 agreement.old agreement.new) }
    ensures ok { IfOk result (λ p. AnswersGroup (λ g l v. (s : Setup) → A.lawful agreement.old s
        → A.client_makes names.kex (Some g) l v) base.entry.config.now base.entry.cause base.entry.exchange names
        payload.now p output.old output.new) }
    ensures err { IfErr result (RefusesGroup (λ g l v. (s : Setup) → A.lawful agreement.old s
        → A.client_makes names.kex (Some g) l v) (λ v. (s : Setup) → A.lawful agreement.old s
        → IsSmall v) (λ g. Rose (A.refusals agreement.old) (A.refusals agreement.new)
        × ((s : Setup) → A.obliging agreement.old agreement.new s (Some g) → HasItsGroup names.kex (Some g)
        → A.offered agreement.old names.kex ≡ true → ⊥)) base.entry.config.now payload.now) }
    ensures drawn { OnOk result (StepDraws (StartsFrom A.client_draws (R.stream rng.old) (next_of result)) output.old
        output.new (R.stream rng.new)) }
    ensures unchanged { OnErr result (SameButRoom output.old output.new) }
    ensures unasked { asks_nobody false result ≡ true → agreement.new ≡ agreement.old }
{
    if !has_type(payload, msg::KEX_DH_GEX_GROUP) {
        return Err(Error::KexInit);
    }
    let group = match group_of(base.alloc, fields_of(payload)) {
        Ok(group) => group,
        Err(error) => return Err(error),
    };
    if !is_inside(base.config.gex, &group) {
        return Err(Error::KexInit);
    }
    answer_group(base, names, group, agreement, rng, output)
}
