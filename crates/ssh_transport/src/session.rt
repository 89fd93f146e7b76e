//! What a side says: its version line, its messages of exchanges, the payloads that it seals or holds.

ghost use Rattle.std.specs.Prelude.{◌≡◌, [], ◌++◌, ◌+◌, ◌<◌, ◌≤◌, ◌-◌, if◌then◌else◌, ◌^◌, ◌||◌, ◌&&◌, ◌⊎◌, ℕ, nat_le, not, List, None, Some, Ok, Err, true, false, IfErr, IfOk, IfSome, OnErr, OnOk, length, take};
ghost use Rattle.ssh_rules.specs.MessageTypes.{is_payload_type, is_violation};
ghost use Rattle.ssh_packet.specs.Sealing.{next_number};
ghost use Rattle.ssh_packet.specs.Stream.{message_type as message_type_of};
ghost use Rattle.ssh_wire.specs.Orders.{is_kex};
ghost use Rattle.ssh_rules.specs.Machine.{cause_of, names_now};
ghost use Rattle.ssh_rules.specs.Standing.{is_outside, lets_pass};
ghost use Rattle.ssh_rules.specs.Valid.{config_fault, is_good_payload};
ghost use Rattle.ssh_wire.specs.Sides.{other_side};
ghost use Rattle.ssh_wire.specs.declared.error.Error.TheVariants.{Inconsistent, Memory, StrictKeyExchangeViolation, UnknownKey};
ghost use Rattle.ssh_transport.specs.SessionCalls.{TrustsHost};

use crate::calls::Calling;
use crate::machine::SessionKex;
use crate::message::{is_idle, is_payload, type_of};
use rand_core::Rng;
use ssh_kex::{
    Agreement, Config, FinishedExchange, GroupLookup, Handed, HostKeys, KexProgress, NewKeys,
    Parts, Refusal, ServerHost, SessionKexState,
};
use ssh_negotiate::KexCause;
use ssh_packet::{Incoming, OpenKey, PacketWriter};
use ssh_wire::{
    Error, IdProgress, Payload, ReadSshIdBuffer, Side, is_kex_msg, msg,
    validate_client_msg_strict_kex, validate_server_msg_strict_kex,
};
use std::alloc::Global;
use std::collections::VecDeque;

/// One side, but for the packets that it reads.
#[derive(Drop)]
pub(crate) struct Session<'c> {
    pub alloc: Global,
    pub side: Side,
    pub config: &'c Config,
    /// The peer's version line.
    pub line: ReadSshIdBuffer,
    pub writer: PacketWriter,
    pub kex: SessionKexState<SessionKex<'c>>,
    pub finished: Vec<FinishedExchange>,
    /// Payloads that were submitted inside an exchange.
    pub held: VecDeque<Payload>,
}

/// What is done with a packet.
#[derive(Clone, Copy)]
pub(crate) enum Disposition {
    /// Its payload is to be handed up.
    Delivers,
    /// Nothing is left to do with it.
    Done,
    /// It ended an exchange: the packets that follow are read under its key, and their numbers begin again if told.
    Rekeys { reset_seqn: bool },
}

impl<'c> Session<'c> {
    ghost use Rattle.ssh_transport.specs.Calls.{CanTreat, Treats};
    ghost use Rattle.ssh_transport.specs.SessionCalls.{StartsExchange, EndsExchange, RecordsExchange, HearsPiece, OpensExchange, SaysHeld, StepsExchange, TakesMachine, SealsOrHolds};
    ghost use Rattle.ssh_transport.specs.Handling.{IsOpen, Passes, counts_guess, is_ordered, may_deliver_by};
    ghost use Rattle.ssh_transport.specs.Saying.{AreGood, IsSettled};
    ghost use Rattle.ssh_transport.specs.States.{CanBegin, IsFresh, IsUnheard, is_silent, stands_of};
    ghost use Rattle.ssh_transport.specs.Stopping.{Appends, BreaksAt, IsAsBefore};

    /// A side with a valid configuration that has sent its version line. Fails with `Memory`.
    pub(crate) fn new(alloc: Global, side: Side, config: &'c Config) -> Result<Session<'c>, Error>
        requires valid { config_fault side config.now ≡ None }
        ensures fresh { IfOk result (IsFresh side config.now) }
        ensures causes { IfErr result (λ e. e ≡ Memory) }
    {
        let mut writer = PacketWriter::clear(alloc);
        writer.buffer().send_ssh_id(&config.id)?;
        Ok(Session {
            alloc,
            side,
            config,
            line: ReadSshIdBuffer::new(),
            writer,
            kex: SessionKexState::Idle,
            finished: Vec::new(alloc),
            held: VecDeque::new(alloc),
        })
    }

    /// Reads the peer's version line, and begins the first exchange once the line has ended. Returns the number of
    /// bytes of the piece before packets, if the line is read. Fails with `Version` or `Memory`.
    #[tactic(auto, using(crate::proofs::Hearing::heard_short, crate::proofs::Hearing::behind_kept, crate::proofs::Hearing::behind_heard))]
    pub(crate) fn hear<R: Rng>(&mut self, rng: &mut R, piece: &[u8]) -> Result<Option<usize>, Error>
        requires { CanBegin self.old }
        ensures { HearsPiece self.old piece.now (R.stream rng.old) (R.stream rng.new) (rng.new ≡ rng.old) result
            self.new }
    {
        match self.line.feed(piece, passes_others(self.side))? {
            IdProgress::NotYet => Ok(None),
            IdProgress::Id { used } => {
                if self.is_first_due() {
                    self.begin(rng)?;
                }
                Ok(Some(used))
            }
        }
    }

    /// Seals a payload outside an exchange, and holds it inside one. Fails with `Memory`.
    pub(crate) fn submit<R: Rng>(
        &mut self,
        rng: &mut R,
        payload: &[u8],
        read: usize,
    ) -> Result<(), Error>
        requires begins { CanBegin self.old }
        requires good { AreGood self.old.held.items }
        requires settled { IsSettled self.old read }
        requires payload { is_good_payload payload.now ≡ true }
        requires opened { IsOpen self.old }
        ensures { SealsOrHolds self.old read payload.now (R.stream rng.old) (R.stream rng.new) (rng.new ≡ rng.old)
            result self.new }
    {
        if self.is_inside() {
            self.held
                .push_back(Payload::new(Vec::from_slice(self.alloc, payload)?))?;
            return Ok(());
        }
        self.writer.packet_raw(rng, payload)?;
        self.go_on(rng, read)
    }

    /// Outside an exchange, begins one if a limit is reached; otherwise seals held payloads, in order, until one is.
    /// `read` counts the payload bytes read since the last exchange. Fails with `Memory`.
    pub(crate) fn go_on<R: Rng>(&mut self, rng: &mut R, read: usize) -> Result<(), Error>
        requires begins { CanBegin self.old }
        requires good { AreGood self.old.held.items }
        requires unheard { IsUnheard self.old }
        requires opened { IsOpen self.old }
        ensures { SaysHeld self.old read (R.stream rng.old) (R.stream rng.new) result self.new }
    {
        'held: while !self.is_inside() {
            if self.is_at_limit(read) {
                return self.begin(rng);
            }
            let Some(payload) = self.held.pop_front() else {
                return Ok(());
            };
            self.writer.packet_raw(rng, payload.as_slice())?;
        }
        Ok(())
    }

    /// Whether a byte limit is reached at which keys are to be exchanged (RFC 4253 section 9).
    fn is_at_limit(&self, read: usize) -> bool
        ensures { result ≡ (nat_le self.now.config.now.limits.rekey_write_limit self.now.writer.count || nat_le
            self.now.config.now.limits.rekey_read_limit read) }
    {
        self.writer.bytes_written() >= self.config.limits.rekey_write_limit
            || read >= self.config.limits.rekey_read_limit
    }

    /// Does with a packet what its type and the exchange ask for. Fails with `Disconnect` at a DISCONNECT,
    /// `StrictKeyExchangeViolation`, `Inconsistent` if the message is out of place, any error of the machine,
    /// `UnknownKey` if the host isn't trusted, or `Memory`. An error sends nothing.
    pub(crate) fn handle<A: Agreement, H: HostKeys, G: GroupLookup, R: Rng>(
        &mut self,
        parts: &mut Parts<A, H, G, R>,
        incoming: Incoming<'_>,
        opening: &mut OpenKey,
    ) -> Result<Disposition, Error>
        requires { CanTreat self.old incoming }
        ensures { Treats IsAsBefore (⟦<Parts<A, H, G, R> as Calling>⟧.call parts.old parts.new) self.old incoming.entry
            opening.old result self.new opening.new }
    {
        let sent = self.writer.output().len();
        match self.treat(parts, incoming, opening) {
            Ok(handled) => Ok(handled),
            Err(error) => {
                self.cut_output(sent);
                Err(error)
            }
        }
    }

    /// Does with a packet what its type and the exchange ask for. After an error more may stand behind the output.
    #[tactic(auto, using(crate::proofs::Parts::agreement_same, crate::proofs::Parts::hosts_same, crate::proofs::Parts::groups_same, crate::proofs::Parts::hosts_after))]
    fn treat<A: Agreement, H: HostKeys, G: GroupLookup, R: Rng>(
        &mut self,
        parts: &mut Parts<A, H, G, R>,
        incoming: Incoming<'_>,
        opening: &mut OpenKey,
    ) -> Result<Disposition, Error>
        requires { CanTreat self.old incoming }
        ensures { Treats Appends (⟦<Parts<A, H, G, R> as Calling>⟧.call parts.old parts.new) self.old incoming.entry
            opening.old result self.new opening.new }
    {
        let message_type = type_of(incoming.payload);
        if message_type == msg::DISCONNECT {
            return Err(Error::Disconnect);
        }
        self.check_order(message_type, incoming.seqn)?;
        if is_idle(message_type) {
            return Ok(Disposition::Done);
        }
        if is_kex_msg(message_type) {
            return self.take_message(parts, incoming, opening, message_type);
        }
        if self.delivers(message_type) {
            return Ok(Disposition::Delivers);
        }
        Err(Error::Inconsistent)
    }

    /// Takes a message of an exchange. It isn't inlined, so that packets outside an exchange don't pay for its locals.
    #[inline(never)]
    #[tactic(auto, using(crate::proofs::Parts::parts_same))]
    fn take_message<A: Agreement, H: HostKeys, G: GroupLookup, R: Rng>(
        &mut self,
        parts: &mut Parts<A, H, G, R>,
        incoming: Incoming<'_>,
        opening: &mut OpenKey,
        message_type: u8,
    ) -> Result<Disposition, Error>
        requires can { CanTreat self.old incoming }
        requires kind { message_type ≡ message_type_of incoming.payload.now }
        requires kex { is_kex message_type ≡ true }
        requires passes { Passes self.old incoming.seqn message_type }
        ensures { Treats Appends (⟦<Parts<A, H, G, R> as Calling>⟧.call parts.old parts.new) self.old incoming.entry
            opening.old result self.new opening.new }
    {
        let kex = self.take_kex(&mut parts.rng, message_type)?;
        self.step(kex, parts, incoming, opening)
    }

    /// The machine that a message is for: that of the open exchange, or outside one, at a KEXINIT, that of an exchange
    /// which is begun for it. Fails with `Inconsistent` if there is none, or with `Memory`.
    fn take_kex<R: Rng>(&mut self, rng: &mut R, message_type: u8) -> Result<SessionKex<'c>, Error>
        requires { CanBegin self.old }
        ensures { TakesMachine self.old message_type (R.stream rng.old) (R.stream rng.new) result self.new }
    {
        if message_type == msg::KEXINIT && !self.is_inside() {
            return self.open(rng);
        }
        match self.kex.take() {
            SessionKexState::InProgress(kex) => Ok(kex),
            SessionKexState::Idle | SessionKexState::Taken => Err(Error::Inconsistent),
        }
    }

    /// Hands a message to the machine. Fails with any error of the machine, `UnknownKey` or `Memory`.
    #[tactic(auto, using(crate::proofs::Parts::agreement_same, crate::proofs::Parts::hosts_same, crate::proofs::Parts::groups_same, crate::proofs::Parts::hosts_after))]
    fn step<A: Agreement, H: HostKeys, G: GroupLookup, R: Rng>(
        &mut self,
        kex: SessionKex<'c>,
        parts: &mut Parts<A, H, G, R>,
        incoming: Incoming<'_>,
        opening: &mut OpenKey,
    ) -> Result<Disposition, Error>
        requires begins { CanBegin self.old }
        requires short { length incoming.payload.now < 2 ^ 31 }
        ensures { StepsExchange (⟦<Parts<A, H, G, R> as Calling>⟧.call parts.old parts.new) self.old kex.entry
            incoming.entry opening.old result self.new opening.new }
    {
        match kex.step(parts, incoming, &mut self.writer)? {
            KexProgress::NeedsReply { kex, reset_seqn } => {
                if reset_seqn {
                    self.writer.reset_seqn();
                }
                self.kex = SessionKexState::InProgress(kex);
                Ok(Disposition::Done)
            }
            KexProgress::Done {
                server_host,
                newkeys,
            } => self.end_exchange(&mut parts.hosts, server_host, newkeys, opening),
        }
    }

    /// Ends an exchange whose host is trusted. Fails with `UnknownKey` if it isn't, or with `Memory`.
    fn end_exchange<H: HostKeys>(
        &mut self,
        hosts: &mut H,
        host: Option<ServerHost>,
        newkeys: NewKeys,
        opening: &mut OpenKey,
    ) -> Result<Disposition, Error>
        requires { CanBegin self.old }
        ensures { EndsExchange H.HostKeys hosts.old hosts.new self.old host newkeys result self.new
            opening.new }
    {
        check_host(self.alloc, hosts, host)?;
        self.finish(newkeys, opening)
    }

    /// Records an exchange, and goes on under its keys in both directions. Fails with `Memory`.
    fn finish(&mut self, newkeys: NewKeys, opening: &mut OpenKey) -> Result<Disposition, Error>
        requires { CanBegin self.old }
        ensures { RecordsExchange self.old newkeys result self.new opening.new }
    {
        let NewKeys {
            names,
            hash,
            session_id,
            keys,
            cipher,
            ..
        } = newkeys;
        self.finished.push(FinishedExchange {
            names,
            hash,
            session_id,
            keys,
        })?;
        let cipher = Box::into_inner(cipher);
        self.writer.set_cipher(cipher.local_to_remote);
        self.kex = SessionKexState::Idle;
        *opening = cipher.remote_to_local;
        Ok(Disposition::Rekeys {
            reset_seqn: names.strict_kex,
        })
    }

    /// Under strict key exchange the first exchange has its messages in order and no other ones (OpenSSH's strict key
    /// exchange). StrictKeyExchangeViolation.
    fn check_order(&self, message_type: u8, seqn: u32) -> Result<(), Error>
        requires { IsOpen self.now }
        ensures passes { OnOk result (Passes self.now seqn message_type) }
        ensures breaks { IfErr result (λ e. BreaksAt self.now seqn message_type e) }
    {
        if !self.is_first_strict() {
            return Ok(());
        }
        let place = order_place(seqn, self.has_dropped_guess());
        check_place(self.side, message_type, place)
    }

    /// Whether the first exchange runs, under strict key exchange as far as the peer's KEXINIT was read.
    fn is_first_strict(&self) -> bool
        requires { IsOpen self.now }
        ensures { result ≡ is_ordered self.now.finished.items (names_now
            (stands_of self.now.finished.items self.now.kex)) }
    {
        match &self.kex {
            SessionKexState::InProgress(kex) => self.finished.is_empty() && kex.strict_kex(),
            SessionKexState::Idle | SessionKexState::Taken => false,
        }
    }

    /// Whether a wrong guess was dropped in the exchange that runs.
    fn has_dropped_guess(&self) -> bool
        requires { IsOpen self.now }
        ensures { result ≡ counts_guess (names_now (stands_of self.now.finished.items self.now.kex)) }
    {
        match &self.kex {
            SessionKexState::InProgress(kex) => kex.guess_ignored(),
            SessionKexState::Idle | SessionKexState::Taken => false,
        }
    }

    /// Whether a message of this type is a payload that may come.
    fn delivers(&self, message_type: u8) -> bool
        requires { IsOpen self.now }
        ensures { result ≡ (is_payload_type message_type && may_deliver_by self.now.finished.items
            (stands_of self.now.finished.items self.now.kex)) }
    {
        is_payload(message_type) && self.may_deliver()
    }

    /// Whether payloads may come: outside an exchange, or in a later one before the peer's KEXINIT.
    fn may_deliver(&self) -> bool
        requires { IsOpen self.now }
        ensures { result ≡ may_deliver_by self.now.finished.items (stands_of self.now.finished.items self.now.kex) }
    {
        match &self.kex {
            SessionKexState::Idle => !self.finished.is_empty(),
            SessionKexState::InProgress(kex) => {
                !self.finished.is_empty() && !kex.peer_kexinit_received()
            }
            SessionKexState::Taken => false,
        }
    }

    /// Drops the output after its first `sent` bytes.
    fn cut_output(&mut self, sent: usize)
        ensures output { self.new.writer.output ≡ take sent self.old.writer.output }
        ensures rest { self.new ≡ record self.old { writer = self.new.writer } }
    {
        self.writer.buffer().buffer.truncate(sent);
    }

    /// Begins an exchange. Fails with `Memory`, and then nothing is sent.
    #[inline(never)]
    pub(crate) fn begin<R: Rng>(&mut self, rng: &mut R) -> Result<(), Error>
        requires { CanBegin self.old }
        ensures { StartsExchange self.old (R.stream rng.old) (R.stream rng.new) result self.new }
    {
        self.kex = SessionKexState::InProgress(self.open(rng)?);
        Ok(())
    }

    /// A machine of the exchange that is due, whose KEXINIT is sent. Fails with `Memory`, and then nothing is sent.
    #[tactic(auto, using(crate::proofs::Configs::usable))]
    fn open<R: Rng>(&mut self, rng: &mut R) -> Result<SessionKex<'c>, Error>
        requires { CanBegin self.old }
        ensures { OpensExchange self.old (R.stream rng.old) (R.stream rng.new) result self.new }
    {
        let cause = self.next_cause();
        let mut kex = SessionKex::new(self.alloc, self.side, self.config, self.line.id(), cause)?;
        kex.kexinit(rng, &mut self.writer)?;
        Ok(kex)
    }

    /// Why the next exchange begins: a later one goes by the first one's strict flag and hash.
    fn next_cause(&self) -> KexCause
        ensures { result ≡ cause_of self.now.finished.items }
    {
        match self.finished.first() {
            Some(first) => KexCause::Rekey {
                strict: first.names.strict_kex,
                session_id: first.hash,
            },
            None => KexCause::Initial,
        }
    }

    /// Whether no exchange was begun yet.
    fn is_first_due(&self) -> bool
        ensures { result ≡ is_silent (stands_of self.now.finished.items self.now.kex) }
    {
        !self.kex.active() && self.finished.is_empty()
    }

    /// Whether an exchange runs, or the first one is still to come.
    pub(crate) fn is_inside(&self) -> bool
        ensures { result ≡ not (is_outside (stands_of self.now.finished.items self.now.kex)) }
    {
        self.kex.active() || self.finished.is_empty()
    }
}

/// Whether other lines may stand before the peer's version line (RFC 4253 section 4.2).
fn passes_others(side: Side) -> bool
    ensures { result ≡ lets_pass side }
{
    match side {
        Side::Client => true,
        Side::Server => false,
    }
}

/// The place of the packet whose number plus one is given, without a dropped guess before it.
fn order_place(seqn: u32, dropped: bool) -> usize
    ensures { (number : ℕ) → number < 2 ^ 32 → seqn ≡ next_number number → result ≡ number -
        (if dropped then 1 else 0) }
{
    let number = seqn.wrapping_sub(1) as usize;
    if dropped {
        number.saturating_sub(1)
    } else {
        number
    }
}

/// A message of the other side in its place. StrictKeyExchangeViolation.
fn check_place(side: Side, message_type: u8, place: usize) -> Result<(), Error>
    ensures ok { OnOk result (is_violation (other_side side) message_type place ≡ false) }
    ensures err { IfErr result (λ e. (is_violation (other_side side) message_type place ≡ true)
        × (e ≡ StrictKeyExchangeViolation message_type place)) }
{
    match side {
        Side::Client => validate_server_msg_strict_kex(message_type, place),
        Side::Server => validate_client_msg_strict_kex(message_type, place),
    }
}

/// Asks a client's host keys whether the server's host is trusted. Fails with `UnknownKey` if it isn't, or with
/// `Memory`.
#[tactic(auto, using(crate::proofs::Parts::hosts_same))]
fn check_host<H: HostKeys>(
    alloc: Global,
    hosts: &mut H,
    host: Option<ServerHost>,
) -> Result<(), Error>
    ensures { TrustsHost H.HostKeys hosts.old hosts.new host result }
{
    let Some(host) = host else {
        return Ok(());
    };
    match hosts.check(alloc, &host) {
        Ok(()) => Ok(()),
        Err(Refusal::Refused) => Err(Error::UnknownKey),
        Err(Refusal::Memory) => Err(Error::Memory),
    }
}
