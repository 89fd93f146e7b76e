//! A server's side of an exchange, step by step.

ghost use Rattle.std.specs.Prelude.{◌≡◌, ◌≤◌, ◌+◌, ◌<◌, ◌^◌, ◌||◌, true, false, List, [], ℕ, length, is_some, Option, Some, None, Ok, Err, IfOk, IfErr, OnOk, OnErr, IfSome};
ghost use Rattle.ssh_negotiate.specs.Causes.{was_strict};
ghost use Rattle.ssh_negotiate.specs.Tables.{shape_of};
ghost use Rattle.ssh_kex.specs.Drawing.{AnswersFrom, DrawnByServer, StepDraws};
ghost use Rattle.ssh_kex.specs.Members.{AgreementKept, GroupsKept, HostsKept};
ghost use Rattle.ssh_kex.specs.Messages.{IsCanonical, is_gex};
ghost use Rattle.ssh_negotiate.specs.Laws.{AreShort};
ghost use Rattle.ssh_negotiate.specs.Reading.{behind_cookie, cookie_from, kexinit_drawn};
ghost use Rattle.ssh_packet.specs.Sealing.{IsAdmissible, IsPadded, item_of, stream_after};
ghost use Rattle.ssh_packet.specs.Writing.{SameButRoom, Sends};
ghost use Rattle.ssh_wire.specs.Forms.{AreBytes};
ghost use Rattle.ssh_kex.specs.Refusals.{IsCreated};
ghost use Rattle.ssh_wire.specs.Lines.{id_text};
ghost use Rattle.ssh_wire.specs.declared.error.Error.TheVariants.{Memory};
ghost use Rattle.ssh_wire.specs.declared.side.Side.TheVariants.{Server as server_side};
ghost use Rattle.ssh_kex.specs.Parts.{Answers, HasItsGroup, IsSmall, Setup};
ghost use Rattle.ssh_server_kex.specs.ServerRows.{AreShortBlobs, CanAnswer, IsLongAnswer, RefusesRequest, ServerRefusesValue};
ghost use Rattle.ssh_server_kex.specs.ServerAnswers.{AnswersClient, AnswersOpening, AnswersSizes, ServerRefusesKexinit};
ghost use Rattle.ssh_wire.specs.Outside.{Rose};
ghost use Rattle.ssh_server_kex.specs.ServerViews.{Begins, CanAsk, CanBegin, IsFresh, ServerKeeps, server_behind_guess, server_drops_guess, server_machine};
ghost use Rattle.ssh_kex.specs.Setting.{group_of, offers_of};
ghost use Rattle.ssh_kex.specs.Stages.{Created as created_stage, IsStageOf, has_ignored, is_strict, names_in_stage};
ghost use Rattle.ssh_kex.specs.declared.progress.KexProgress.TheVariants.{NeedsReply};
ghost use Rattle.ssh_kex.specs.Stepping.{answers_agreement, asks_agreement, asks_hosts, asks_groups, next_of, Progresses, RefusesStep};
ghost use Rattle.ssh_kex.specs.Unasked.{asks_no_host, asks_nobody};

use crate::opening::open;
use crate::request::answer_request;
use crate::value::answer_value;
use rand_core::Rng;
use ssh_kex::first_message::names_behind_guess;
use ssh_kex::kexinit_message::send_kexinit;
use ssh_kex::last_message::{end_at_once, last};
use ssh_kex::{
    Agreement, Config, Exchange, FinishedExchange, GroupLookup, Handed, HostKeys, KexAlgorithm,
    KexBase, KexProgress, Parts,
};
use ssh_negotiate::{KexCause, Names};
use ssh_packet::{CipherPair, Incoming, PacketWriter};
use ssh_wire::{Blob, Error, SshId};
use std::alloc::Global;
use std::marker::Model;

#[derive(Debug, Drop)]
enum ServerState {
    Created,
    AwaitsRequest {
        names: Names,
    },
    AwaitsValue {
        names: Names,
    },
    AwaitsNewkeys {
        made: FinishedExchange,
        cipher: Box<CipherPair>,
    },
}

/// A server's side of an exchange.
#[derive(Debug, Drop)]
pub struct ServerKex<'c> {
    base: KexBase<'c>,
    state: ServerState,
}

impl<'c> Model for ServerKex<'c> {
    ghost use Rattle.ssh_kex.specs.Stages.{Machine};
    ghost use Rattle.ssh_server_kex.specs.ServerViews.{Begins, CanAsk, CanBegin, IsFresh, ServerKeeps, server_machine};

    ghost Value = { Machine };

    ghost view = { λ k. server_machine k.base.config.now k.base.cause k.base.exchange k.state };

    ghost invariant = { λ k. ServerKeeps k.base.config.now k.base.exchange k.state };
}

impl<'c> ServerKex<'c> {
    /// A server's side of the exchange that the cause begins, before its KEXINIT. Memory.
    pub fn new(
        alloc: Global,
        config: &'c Config,
        client_sshid: &[u8],
        server_sshid: &SshId,
        cause: KexCause,
    ) -> Result<ServerKex<'c>, Error>
        requires client_id { length client_sshid.now < 2 ^ 31 }
        requires server_id { length (id_text server_sshid.now) < 2 ^ 31 }
        requires lists { AreShort (offers_of server_side config.now) }
        requires blobs { AreShortBlobs config.now.host }
        ensures ok { IfOk result (λ k. k ≡ record {
          setting = record {
            side = server_side;
            config = config.now;
            client_id = client_sshid.now;
            server_id = id_text server_sshid.now;
            cause = cause;
          };
          stage = created_stage [];
        }) }
        ensures err { IfErr result (λ e. e ≡ Memory) }
    {
        let exchange = Exchange::new(alloc, client_sshid, server_sshid.as_kex_hash_bytes())?;
        Ok(ServerKex {
            base: KexBase {
                alloc,
                config,
                cause,
                exchange,
            },
            state: ServerState::Created,
        })
    }

    /// Sends the own KEXINIT, with 16 drawn bytes as cookie, and keeps it. It is for a machine before the client's.
    /// A second call sends another, which takes the place of the first. Memory, and then machine and writer are as they
    /// were.
    pub fn kexinit<R: Rng>(&mut self, rng: &mut R, output: &mut PacketWriter) -> Result<(), Error>
        requires { IsCreated self.old.stage }
        ensures ok { OnOk result (self.new ≡ record self.old {
          stage = created_stage
              (kexinit_drawn self.old.setting.config.preferred (Some self.old.setting.config.host)
              (R.stream rng.old));
        }) }
        ensures sent { OnOk result (Sends output.old (kexinit_drawn self.old.setting.config.preferred
            (Some self.old.setting.config.host) (R.stream rng.old)) (behind_cookie (R.stream rng.old)) output.new) }
        ensures stream { OnOk result (R.stream rng.new ≡ stream_after output.old.sealing
            (kexinit_drawn self.old.setting.config.preferred (Some self.old.setting.config.host) (R.stream rng.old))
            (behind_cookie (R.stream rng.old))) }
        ensures admissible { OnOk result (IsAdmissible output.old.sealing (item_of output.old.sealing
            (kexinit_drawn self.old.setting.config.preferred (Some self.old.setting.config.host) (R.stream rng.old))
            (behind_cookie (R.stream rng.old)))) }
        ensures padded { OnOk result (IsPadded output.old.sealing (item_of output.old.sealing
            (kexinit_drawn self.old.setting.config.preferred (Some self.old.setting.config.host) (R.stream rng.old))
            (behind_cookie (R.stream rng.old)))) }
        ensures cookie { OnOk result (length (cookie_from (R.stream rng.old)) ≡ 16) }
        ensures bytes { OnOk result (AreBytes (cookie_from (R.stream rng.old))) }
        ensures unchanged { OnErr result ((self.new ≡ self.old) × SameButRoom output.old output.new) }
        ensures err { IfErr result (λ e. e ≡ Memory) }
    {
        let config = self.base.config;
        let hosts = Some(&config.host);
        let kexinit = send_kexinit(self.base.alloc, &config.preferred, hosts, rng, output)?;
        self.base.exchange.server_kex_init = kexinit;
        Ok(())
    }

    /// Whether the client's KEXINIT was read.
    pub fn peer_kexinit_received(&self) -> bool
        ensures { result ≡ is_some (names_in_stage self.now.stage) }
    {
        self.names().is_some()
    }

    /// Whether the names are strict; not before the client's KEXINIT was read.
    pub fn strict_kex(&self) -> bool
        ensures { result ≡ is_strict (names_in_stage self.now.stage) }
    {
        match self.names() {
            Some(names) => names.strict_kex,
            None => false,
        }
    }

    /// Whether a wrong guess of the client was dropped.
    pub fn guess_ignored(&self) -> bool
        ensures { result ≡ has_ignored (names_in_stage self.now.stage) }
    {
        match self.names() {
            Some(names) => names.guessed_ignored,
            None => false,
        }
    }

    /// One message of the client. A wrong guess is dropped. A refusal leaves no machine, and the output as it was. No
    /// part is asked for a message that is refused as it is read.
    pub fn step<A: Agreement, H: HostKeys, G: GroupLookup, R: Rng>(
        self,
        parts: &mut Parts<A, H, G, R>,
        input: Option<Incoming<'_>>,
        output: &mut PacketWriter,
    ) -> Result<KexProgress<ServerKex<'c>>, Error>
        requires { IfSome input (λ i. length i.payload.now < 2 ^ 31) }
        ensures keeps { ⟦<Parts<A, H, G, R> as Handed>⟧.keeps parts.old parts.new }
        ensures agreement_calls { A.calls parts.new.agreement ≤ A.calls parts.old.agreement + asks_agreement
            self.entry.setting.side self.entry.stage (next_of result) }
        ensures hosts_calls { H.calls parts.new.hosts ≤ H.calls parts.old.hosts + asks_hosts self.entry.stage }
        ensures groups_calls { G.calls parts.new.groups ≤ G.calls parts.old.groups + asks_groups self.entry.stage }
        ensures fits { IsStageOf self.entry.setting.side self.entry.stage }
        ensures answers { OnOk result (⟦<Parts<A, H, G, R> as Handed>⟧.answers parts.old parts.new (answers_agreement
            self.entry.setting.side self.entry.stage (next_of result)) (asks_hosts self.entry.stage) (asks_groups
            self.entry.stage)) }
        ensures goes { IfOk result (λ p. Progresses (⟦<Parts<A, H, G, R> as Handed>⟧.says self.entry.setting.config
            parts.old)
            self.entry input.entry output.old p output.new) }
        ensures drawn { OnOk result (StepDraws (DrawnByServer A.server_draws (R.stream parts.old.rng) self.entry.stage
            (next_of result)) output.old output.new (R.stream parts.new.rng)) }
        ensures causes { IfErr result (λ e. RefusesStep (⟦<Parts<A, H, G, R> as Handed>⟧.says self.entry.setting.config
            parts.old)
            (⟦<Parts<A, H, G, R> as Handed>⟧.denies parts.old parts.new) self.entry input.entry e) }
        ensures unchanged { OnErr result (SameButRoom output.old output.new) }
        ensures unasked_agreement { asks_nobody false result ≡ true → parts.new.agreement ≡ parts.old.agreement }
        ensures unasked_hosts { asks_no_host result ≡ true → parts.new.hosts ≡ parts.old.hosts }
        ensures unasked_groups { asks_nobody false result ≡ true → parts.new.groups ≡ parts.old.groups }
    {
        let Some(incoming) = input else {
            return Err(Error::KexInit);
        };
        let ServerKex { base, state } = self;
        if drops_guess(&state) {
            let state = behind_guess(state);
            return Ok(waits(base, state, false));
        }
        let payload = incoming.payload;
        match state {
            ServerState::Created => take_kexinit(
                base,
                &parts.agreement,
                &mut parts.rng,
                incoming,
                output,
            ),
            ServerState::AwaitsRequest { names } => take_request(
                base,
                names,
                &mut parts.groups,
                &mut parts.rng,
                payload,
                output,
            ),
            ServerState::AwaitsValue { names } => {
                take_value(base, names, parts, payload, output)
            }
            ServerState::AwaitsNewkeys { made, cipher } => {
                last(base.exchange, None, made, cipher, payload)
            }
        }
    }

    /// The names, once the client's KEXINIT was read.
    fn names(&self) -> Option<Names>
        ensures { result ≡ names_in_stage self.now.stage }
    {
        match &self.state {
            ServerState::Created => None,
            ServerState::AwaitsRequest { names } | ServerState::AwaitsValue { names } => Some(
                *names,
            ),
            ServerState::AwaitsNewkeys { made, .. } => Some(made.names),
        }
    }
}

/// Whether the next message is a wrong guess.
fn drops_guess(state: &ServerState) -> bool
    ensures { result ≡ server_drops_guess state.now }
{
    match state {
        ServerState::AwaitsRequest { names } | ServerState::AwaitsValue { names } => {
            names.ignore_guessed
        }
        ServerState::Created | ServerState::AwaitsNewkeys { .. } => false,
    }
}

/// The state behind a wrong guess, which was dropped.
fn behind_guess(state: ServerState) -> ServerState
    ensures { result ≡ server_behind_guess state }
{
    match state {
        ServerState::AwaitsRequest { names } => ServerState::AwaitsRequest {
            names: names_behind_guess(names),
        },
        ServerState::AwaitsValue { names } => ServerState::AwaitsValue {
            names: names_behind_guess(names),
        },
        ServerState::Created | ServerState::AwaitsNewkeys { .. } => state,
    }
}

/// A machine that waits for the next message.
fn waits<'c>(base: KexBase<'c>, state: ServerState, reset_seqn: bool) -> KexProgress<ServerKex<'c>>
    requires { ServerKeeps base.config.now base.exchange state }
    ensures { result ≡ NeedsReply (server_machine base.entry.config.now base.entry.cause base.entry.exchange state)
        reset_seqn }
{
    KexProgress::NeedsReply {
        kex: ServerKex { base, state },
        reset_seqn,
    }
}

/// The client's KEXINIT, and what follows its names. As `open`; Memory. A refusal leaves the output as it was.
fn take_kexinit<'c, A: Agreement, R: Rng>(
    mut base: KexBase<'c>,
    agreement: &A,
    rng: &mut R,
    incoming: Incoming<'_>,
    output: &mut PacketWriter,
) -> Result<KexProgress<ServerKex<'c>>, Error>
    requires short { length incoming.payload.now < 2 ^ 31 }
    requires fresh { IsFresh base.config.now base.exchange }
    ensures ok { IfOk result (λ p. AnswersOpening (λ name. A.offered agreement.now name ≡ true) base.entry.config.now
        base.entry.cause base.entry.exchange incoming.entry p output.old output.new) }
    ensures err { IfErr result (ServerRefusesKexinit (λ name. A.offered agreement.now name ≡ true) base.entry.config.now
        base.entry.cause
        incoming.entry) }
    ensures drawn { OnOk result (StepDraws (λ behind. behind ≡ R.stream rng.old) output.old output.new
        (R.stream rng.new)) }
    ensures unchanged { OnErr result (SameButRoom output.old output.new) }
{
    let kept = &mut base;
    let names = match open(
        kept.alloc,
        kept.config,
        &kept.cause,
        agreement,
        &mut kept.exchange,
        &incoming,
    ) {
        Ok(names) => names,
        Err(error) => return Err(error),
    };
    begin(base, names, rng, output)
}

/// The sizes that a client asks for. As `answer_request`.
fn take_request<'c, G: GroupLookup, R: Rng>(
    mut base: KexBase<'c>,
    names: Names,
    groups: &mut G,
    rng: &mut R,
    payload: &[u8],
    output: &mut PacketWriter,
) -> Result<KexProgress<ServerKex<'c>>, Error>
    requires { CanAsk base.config.now names base.exchange }
    ensures keeps { GroupsKept G.GroupLookup groups.old groups.new }
    ensures calls { G.calls groups.new ≤ G.calls groups.old + 1 }
    ensures answers { OnOk result (Answers G.answered 1 groups.old groups.new) }
    ensures ok { IfOk result (λ p. AnswersSizes (λ sizes q. (s : Setup) → G.lawful groups.old s
        → (q ≡ G.group groups.old sizes) × IsCanonical q) base.entry.config.now base.entry.cause base.entry.exchange
        names payload.now p output.old
        output.new) }
    ensures causes { IfErr result (RefusesRequest (λ sizes q. (s : Setup) → G.lawful groups.old s
        → (q ≡ G.group groups.old sizes) × IsCanonical q) (λ sizes. Rose (G.refusals groups.old) (G.refusals groups.new)
        × ((s : Setup) → G.obliging groups.old groups.new s → ⊥)) payload.now) }
    ensures drawn { OnOk result (StepDraws (λ behind. behind ≡ R.stream rng.old) output.old output.new
        (R.stream rng.new)) }
    ensures unchanged { OnErr result (SameButRoom output.old output.new) }
    ensures unasked { asks_nobody false result ≡ true → groups.new ≡ groups.old }
{
    match answer_request(base.alloc, groups, rng, payload, output) {
        Ok(gex) => {
            let exchange = &mut base.exchange;
            exchange.gex = Some(gex);
            Ok(waits(base, ServerState::AwaitsValue { names }, false))
        }
        Err(error) => Err(error),
    }
}

/// A client's value. As `answer_value`.
fn take_value<'c, A: Agreement, H: HostKeys, G, R: Rng>(
    mut base: KexBase<'c>,
    names: Names,
    parts: &mut Parts<A, H, G, R>,
    payload: &[u8],
    output: &mut PacketWriter,
) -> Result<KexProgress<ServerKex<'c>>, Error>
    requires can { CanAnswer base.config.now names base.exchange }
    requires short { length payload.now < 2 ^ 31 }
    ensures agreement { AgreementKept A.Agreement parts.old.agreement parts.new.agreement }
    ensures hosts { HostsKept H.HostKeys parts.old.hosts parts.new.hosts }
    ensures groups { parts.new.groups ≡ parts.old.groups }
    ensures agreement_calls { A.calls parts.new.agreement ≤ A.calls parts.old.agreement + 1 }
    ensures agreement_answers { OnOk result (Answers A.answered 1 parts.old.agreement parts.new.agreement) }
    ensures hosts_calls { H.calls parts.new.hosts ≤ H.calls parts.old.hosts + 1 }
    ensures hosts_answer { OnOk result (Answers H.answered 1 parts.old.hosts parts.new.hosts) }
    ensures ok { IfOk result (λ p. AnswersClient
        (λ c v. (s : Setup) → A.lawful parts.old.agreement s
        → A.server_makes names.kex (group_of base.entry.exchange.gex) c v)
        (λ c v x. (s : Setup) → A.lawful parts.old.agreement s
        → A.agrees names.kex (group_of base.entry.exchange.gex) c v x)
        (λ host hash signature. (later : H) (s : Setup) → s.server ≡ base.entry.config.now → H.signs parts.old.hosts
        later s
        → H.makes base.entry.config.now host hash signature)
        base.entry.config.now base.entry.cause base.entry.exchange names payload.now p output.old output.new) }
    ensures causes { IfErr result (ServerRefusesValue (is_gex names.kex)
        (λ c. Rose (A.refusals parts.old.agreement) (A.refusals parts.new.agreement) × ((s : Setup) (l : List ℕ)
        → A.obliging parts.old.agreement parts.new.agreement s (group_of base.entry.exchange.gex)
        → HasItsGroup names.kex (group_of base.entry.exchange.gex) → A.offered parts.old.agreement names.kex ≡ true
        → A.client_makes names.kex (group_of base.entry.exchange.gex) l c → ⊥))
        (Rose (H.refused_sign parts.old.hosts) (H.refused_sign parts.new.hosts) × ((s : Setup)
        → s.server ≡ base.entry.config.now → H.signs parts.old.hosts parts.new.hosts s → ⊥))
        (IsLongAnswer
        (λ c v. (s : Setup) → A.lawful parts.old.agreement s
        → A.server_makes names.kex (group_of base.entry.exchange.gex) c v)
        (λ v. (s : Setup) → A.lawful parts.old.agreement s → IsSmall v)
        (λ v. (s : Setup) → H.lawful parts.old.hosts s → IsSmall v) base.entry.config.now names payload.now)
        payload.now) }
    ensures drawn { OnOk result (StepDraws (AnswersFrom A.server_draws (R.stream parts.old.rng) (next_of result))
        output.old output.new (R.stream parts.new.rng)) }
    ensures unchanged { OnErr result (SameButRoom output.old output.new) }
    ensures unasked_agreement { asks_nobody false result ≡ true → parts.new.agreement ≡ parts.old.agreement }
    ensures unasked_hosts { asks_no_host result ≡ true → parts.new.hosts ≡ parts.old.hosts }
{
    match answer_value(&mut base, &names, parts, payload, output) {
        Ok((made, cipher)) => {
            let is_strict = begins_again(&made, &base.cause);
            let state = ServerState::AwaitsNewkeys { made, cipher };
            Ok(waits(base, state, is_strict))
        }
        Err(error) => Err(error),
    }
}

/// What follows the names: the wait for the sizes of a group, or for the client's value; where no values are exchanged,
/// NEWKEYS is sent, and all is at its end. Memory leaves the output as it was.
fn begin<'c, R: Rng>(
    base: KexBase<'c>,
    names: Names,
    rng: &mut R,
    output: &mut PacketWriter,
) -> Result<KexProgress<ServerKex<'c>>, Error>
    requires { (shape_of names.kex).skip ≡ false → CanBegin (is_gex names.kex) base.config.now names base.exchange }
    ensures ok { IfOk result (λ p. Begins (shape_of names.kex).skip
        (is_gex names.kex) base.entry.config.now base.entry.cause base.entry.exchange names p output.old output.new) }
    ensures drawn { OnOk result (StepDraws (λ behind. behind ≡ R.stream rng.old) output.old output.new
        (R.stream rng.new)) }
    ensures err { IfErr result (λ e. e ≡ Memory) }
    ensures unchanged { OnErr result (SameButRoom output.old output.new) }
{
    let algorithm = KexAlgorithm::new(base.alloc, names.kex);
    if algorithm.skip_exchange() {
        return end_at_once(base, &algorithm, names, true, rng, output);
    }
    if algorithm.is_dh_gex() {
        let state = ServerState::AwaitsRequest { names };
        return Ok(waits(base, state, false));
    }
    let state = ServerState::AwaitsValue { names };
    Ok(waits(base, state, false))
}

/// Whether the numbers of the own packets begin again behind NEWKEYS.
fn begins_again(made: &FinishedExchange, cause: &KexCause) -> bool
    ensures { result ≡ (made.now.names.strict_kex || was_strict cause.now) }
{
    made.names.strict_kex || cause.is_strict_rekey()
}
