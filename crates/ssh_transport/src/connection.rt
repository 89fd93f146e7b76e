//! One side of a connection, with the packets that it reads.

ghost use Rattle.std.specs.Prelude.{◌≡◌, ◌⊎◌, ◌+◌, ◌<◌, ◌≤◌, ◌^◌, ◌++◌, ℕ, List, take, true, false, [], None, Some, Err, Ok, IfErr, IfOk, IfSome, IsTrue, OnErr, OnOk, length};
ghost use Rattle.ssh_rules.specs.Valid.{config_fault};
ghost use Rattle.ssh_transport.specs.Taking.{kept_by, read_as};
ghost use Rattle.ssh_transport.specs.declared.session.Disposition.TheVariants.{Delivers};
ghost use Rattle.ssh_wire.specs.declared.error.ConfigFault.{ConfigFault};
ghost use Rattle.ssh_wire.specs.declared.error.Error.TheVariants.{Disconnect, Inconsistent, InvalidConfig, Memory, PacketSize};

use crate::calls::Calling;
use crate::config::config_fault;
use crate::message::{LONGEST_INPUT, LONGEST_PAYLOAD, is_payload, type_of};
use crate::session::{Disposition, Session};
use rand_core::Rng;
use ssh_kex::{Agreement, Config, GroupLookup, Handed, HostKeys, Parts};
use ssh_packet::{OpenKey, PacketReader, clear};
use ssh_wire::{Error, Payload, ReadSshIdBuffer, Side};
use std::alloc::Global;

/// One side of a connection.
#[derive(Drop)]
pub(crate) struct Connection<'c> {
    pub alloc: Global,
    pub session: Session<'c>,
    pub reader: PacketReader,
    pub opening: OpenKey,
    pub delivered: Vec<Payload>,
    pub failed: bool,
}

/// What became of the next packet.
#[derive(Clone, Copy)]
pub(crate) enum PacketRead {
    /// No packet is whole.
    Nothing,
    /// It was handled, and no payload of it is lent.
    Packet,
    /// Its payload is delivered: the reader lends it.
    Payload,
}

impl<'c> Connection<'c> {
    ghost use Rattle.ssh_packet.specs.Reading.{window_length};
    ghost use Rattle.ssh_rules.specs.Standing.{IsNew, input_room, unfinished, with_input};
    ghost use Rattle.ssh_wire.specs.Reading.{waiting_length};
    ghost use Rattle.ssh_transport.specs.Calls.{HandlesNext, AsksExchange, CanRead, CanTake, EndsOn, FeedsPiece, HandsUp, HearsInput, KeepsNot, PollsPayload, ReadsWaiting, SubmitsTo, TakesKept, OpensNext, TakesWholePiece};
    ghost use Rattle.ssh_transport.specs.Kept.{IsKept, IsLive};
    ghost use Rattle.ssh_transport.specs.States.{CanBegin, standing_of};
    ghost use Rattle.ssh_transport.specs.Submitting.{AnswersAlone, DrawsAlone};
    ghost use Rattle.ssh_transport.specs.Taking.{TakesUp};

    /// A side that has written its version line. Fails with `InvalidConfig` if the configuration may not be used, and
    /// otherwise with `Memory`.
    #[tactic(auto, using(crate::proofs::Opened::open_fresh, crate::proofs::Opened::short_fresh, crate::proofs::Opened::heeds_fresh))]
    pub(crate) fn new(
        alloc: Global,
        side: Side,
        config: &'c Config,
    ) -> Result<Connection<'c>, Error>
        ensures kept { IfOk result IsKept }
        ensures made { IfOk result (λ c. IsNew side config.now (standing_of c)) }
        ensures valid { IfOk result (λ c. config_fault side config.now ≡ None) }
        ensures fault { IfSome (config_fault side config.now) (λ f. result ≡ Err (InvalidConfig f)) }
        ensures causes { IfErr result (λ e. (e ≡ Memory) ⊎ ((f : ConfigFault) × (config_fault side config.now ≡ Some f)
            × (e ≡ InvalidConfig f))) }
    {
        if let Some(fault) = config_fault(side, config) {
            return Err(Error::InvalidConfig(fault));
        }
        let reader = PacketReader::with_window(alloc)?;
        let session = Session::new(alloc, side, config)?;
        Ok(Connection {
            alloc,
            session,
            reader,
            opening: OpenKey::Clear(clear::Key),
            delivered: Vec::new(alloc),
            failed: false,
        })
    }

    /// Takes the next bytes that the peer sent, and handles all packets that are whole. Payloads are queued.
    pub(crate) fn feed<A: Agreement, H: HostKeys, G: GroupLookup, R: Rng>(
        &mut self,
        parts: &mut Parts<A, H, G, R>,
        piece: &[u8],
    ) -> Result<(), Error>
        requires { IsKept self.old }
        ensures dead { self.old.failed ≡ true
            → AnswersAlone (Err Disconnect) result self.old self.new parts.old parts.new }
        ensures fed { FeedsPiece (⟦<Parts<A, H, G, R> as Calling>⟧.call parts.old parts.new) self.old piece.now result
            self.new }
    {
        if self.failed {
            return Err(Error::Disconnect);
        }
        let taken = self.take(parts, piece);
        self.fail_on(taken)
    }

    /// Handles what is kept of the input, up to a payload that is delivered: the reader then lends it. Returns whether
    /// there is one.
    pub(crate) fn poll<A: Agreement, H: HostKeys, G: GroupLookup, R: Rng>(
        &mut self,
        parts: &mut Parts<A, H, G, R>,
    ) -> Result<bool, Error>
        requires { IsKept self.old }
        ensures dead { self.old.failed ≡ true
            → AnswersAlone (Err Disconnect) result self.old self.new parts.old parts.new }
        ensures polled { PollsPayload (⟦<Parts<A, H, G, R> as Calling>⟧.call parts.old parts.new) self.old result
            self.new }
    {
        if self.failed {
            return Err(Error::Disconnect);
        }
        let polled = self.take_kept(parts, false);
        self.fail_on(polled)
    }

    /// Seals a payload outside an exchange, and holds it inside one.
    pub(crate) fn submit<A: Agreement, H: HostKeys, G: GroupLookup, R: Rng>(
        &mut self,
        parts: &mut Parts<A, H, G, R>,
        payload: &[u8],
    ) -> Result<(), Error>
        requires { IsKept self.old }
        ensures submits { SubmitsTo (R.stream parts.old.rng) (R.stream parts.new.rng) (parts.new ≡ parts.old)
            self.old payload.now result self.new }
        ensures parts { DrawsAlone parts.old parts.new }
    {
        if self.failed {
            return Err(Error::Disconnect);
        }
        if payload.is_empty() || payload.len() > LONGEST_PAYLOAD {
            return Err(Error::PacketSize(payload.len()));
        }
        if !is_payload(type_of(payload)) {
            return Err(Error::Inconsistent);
        }
        let read = self.reader.bytes();
        let sent = self.session.submit(&mut parts.rng, payload, read);
        self.fail_on(sent)
    }

    /// Begins an exchange, unless one runs.
    pub(crate) fn rekey<A: Agreement, H: HostKeys, G: GroupLookup, R: Rng>(
        &mut self,
        parts: &mut Parts<A, H, G, R>,
    ) -> Result<(), Error>
        requires { IsKept self.old }
        ensures asks { AsksExchange (R.stream parts.old.rng) (R.stream parts.new.rng) (parts.new ≡ parts.old) self.old
            result self.new }
        ensures parts { DrawsAlone parts.old parts.new }
    {
        if self.failed {
            return Err(Error::Disconnect);
        }
        if self.session.is_inside() {
            return Ok(());
        }
        let begun = self.session.begin(&mut parts.rng);
        self.fail_on(begun)
    }

    /// Takes a piece of what the peer sent, and handles all packets that are whole. The piece goes through the window:
    /// what is whole is handled before more is taken.
    fn take<A: Agreement, H: HostKeys, G: GroupLookup, R: Rng>(
        &mut self,
        parts: &mut Parts<A, H, G, R>,
        piece: &[u8],
    ) -> Result<(), Error>
        requires { CanTake self.old }
        ensures { TakesWholePiece (⟦<Parts<A, H, G, R> as Calling>⟧.call parts.old parts.new) self.old piece.now result
            self.new }
    {
        let mut taken = self.keep(piece);
        self.take_kept(parts, true)?;
        'turns: while taken < piece.len() {
            taken += self.reader.take(&piece[taken..]);
            self.read_on(parts, true)?;
        }
        Ok(())
    }

    /// Handles what is kept of the input. If payloads aren't queued, it stops after one that is delivered, which the
    /// reader then lends. Returns whether there is one. An error leaves what is kept of the input.
    fn take_kept<A: Agreement, H: HostKeys, G: GroupLookup, R: Rng>(
        &mut self,
        parts: &mut Parts<A, H, G, R>,
        queues: bool,
    ) -> Result<bool, Error>
        requires { CanTake self.old }
        ensures { TakesKept queues (⟦<Parts<A, H, G, R> as Calling>⟧.call parts.old parts.new) self.old result
            self.new }
    {
        let is_heard = self.hear(&mut parts.rng)?;
        if is_heard {
            return self.read_on(parts, queues);
        }
        Ok(false)
    }

    /// Reads what waits of the peer's version line, and begins the first exchange once the line has ended. Returns
    /// whether the line is read. Fails with `Version` if it is no version line, and with `Memory`.
    fn hear<R: Rng>(&mut self, rng: &mut R) -> Result<bool, Error>
        requires { IsLive self.old }
        ensures { HearsInput self.old (R.stream rng.old) (R.stream rng.new) (rng.new ≡ rng.old) result self.new }
    {
        let Some(used) = self.session.hear(rng, self.reader.unread())? else {
            self.reader.skip(self.reader.waiting());
            return Ok(false);
        };
        self.reader.skip(used);
        Ok(true)
    }

    /// Handles the packets that are whole. If payloads aren't queued, it stops after one that is delivered. Returns
    /// whether there is one.
    fn read_on<A: Agreement, H: HostKeys, G: GroupLookup, R: Rng>(
        &mut self,
        parts: &mut Parts<A, H, G, R>,
        queues: bool,
    ) -> Result<bool, Error>
        requires { CanRead self.old }
        ensures { ReadsWaiting queues (⟦<Parts<A, H, G, R> as Calling>⟧.call parts.old parts.new) self.old result
            self.new }
    {
        'packets: loop {
            match self.next_packet(parts, queues)? {
                PacketRead::Nothing => return Ok(false),
                PacketRead::Packet => {}
                PacketRead::Payload => return Ok(true),
            }
        }
    }

    /// Handles the next packet, if one is whole. A payload is queued before a limit begins an exchange, so that it is
    /// kept if memory runs out for that exchange; a payload that is lent isn't.
    fn next_packet<A: Agreement, H: HostKeys, G: GroupLookup, R: Rng>(
        &mut self,
        parts: &mut Parts<A, H, G, R>,
        queues: bool,
    ) -> Result<PacketRead, Error>
        requires { CanRead self.old }
        ensures { HandlesNext queues (⟦<Parts<A, H, G, R> as Calling>⟧.call parts.old parts.new) self.old result
            self.new }
    {
        let Some(handled) = self.take_packet(parts)? else {
            return Ok(PacketRead::Nothing);
        };
        let read = self.hand_up(&handled, queues)?;
        self.take_up(handled);
        self.session.go_on(&mut parts.rng, self.reader.bytes())?;
        Ok(read)
    }

    /// Opens the next packet, if one is whole, and does what it asks for by itself. The reader lends its payload.
    fn take_packet<A: Agreement, H: HostKeys, G: GroupLookup, R: Rng>(
        &mut self,
        parts: &mut Parts<A, H, G, R>,
    ) -> Result<Option<Disposition>, Error>
        requires { CanRead self.old }
        ensures { OpensNext (⟦<Parts<A, H, G, R> as Calling>⟧.call parts.old parts.new) self.old result self.new }
    {
        let Some(incoming) = self.reader.next(&mut self.opening)? else {
            return Ok(None);
        };
        let handled = self.session.handle(parts, incoming, &mut self.opening)?;
        Ok(Some(handled))
    }

    /// Queues a payload that is delivered, or leaves it to be lent. Fails with `Memory`.
    fn hand_up(&mut self, handled: &Disposition, queues: bool) -> Result<PacketRead, Error>
        ensures done { IfOk result (λ read. HandsUp queues self.old handled.now read self.new) }
        ensures err { IfErr result (λ e. KeepsNot queues self.old handled.now e self.new) }
    {
        if !queues {
            return Ok(read_of(handled));
        }
        queue_payload(
            self.alloc,
            &mut self.delivered,
            handled,
            self.reader.handed(),
        )?;
        Ok(PacketRead::Packet)
    }

    /// After a packet that ended an exchange, counts bytes anew, and numbers if told.
    fn take_up(&mut self, handled: Disposition)
        ensures { TakesUp handled self.old self.new }
    {
        if let Disposition::Rekeys { reset_seqn } = handled {
            self.reader.reset_bytes();
            if reset_seqn {
                self.reader.reset_seqn();
            }
        }
    }

    /// After an error the connection has failed, and nothing is kept of the input.
    fn fail_on<T>(&mut self, done: Result<T, Error>) -> Result<T, Error>
        requires begins { CanBegin self.old.session }
        requires live { OnOk done (IsKept self.old) }
        ensures result { result ≡ done }
        ensures ends { EndsOn done self.old self.new }
    {
        if done.is_err() {
            self.failed = true;
            self.session.line = ReadSshIdBuffer::new();
            self.reader = PacketReader::new(self.alloc);
        }
        done
    }

    /// Keeps the first bytes of a piece, as many as there is room for, and returns how many.
    pub(crate) fn keep(&mut self, piece: &[u8]) -> usize
        requires kept { IsKept self.old }
        requires windowed { self.old.reader.window ≡ window_length }
        ensures kept { IsKept self.new }
        ensures count { result ≡ input_room (standing_of self.old) (length piece.now) }
        ensures standing { standing_of self.new ≡ with_input (standing_of self.old) (take result piece.now) }
        ensures fits { result + waiting_length self.old.session.line + length self.old.reader.waiting ≤ window_length }
        ensures all { (result + waiting_length self.old.session.line + length self.old.reader.waiting < window_length)
            → result ≡ length piece.now }
        ensures within { result ≤ length piece.now }
        ensures taken { self.new.reader ≡ record self.old.reader
            { waiting = self.old.reader.waiting ++ take result piece.now; handed = []; spent = self.new.reader.spent } }
        ensures rest { self.new ≡ record self.old { reader = self.new.reader } }
    {
        let n = piece.len().min(LONGEST_INPUT - self.unfinished());
        self.reader.take(&piece[..n])
    }

    /// The number of bytes that are kept of the input.
    pub(crate) fn unfinished(&self) -> usize
        requires { IsKept self.now }
        ensures { result ≡ length (unfinished (standing_of self.now)) }
    {
        self.session.line.waiting() + self.reader.waiting()
    }
}

/// Queues a payload that is delivered. Fails with `Memory`.
fn queue_payload(
    alloc: Global,
    delivered: &mut Vec<Payload>,
    handled: &Disposition,
    payload: &[u8],
) -> Result<(), Error>
    ensures kept { OnOk result (delivered.new.items ≡ delivered.old.items ++ kept_by handled.now payload.now) }
    ensures same { OnErr result ((delivered.new.items ≡ delivered.old.items) × (handled.now ≡ Delivers)) }
    ensures err { IfErr result (λ e. e ≡ Memory) }
{
    match handled {
        Disposition::Delivers => {
            delivered.push(Payload::new(Vec::from_slice(alloc, payload)?))?;
            Ok(())
        }
        Disposition::Done | Disposition::Rekeys { .. } => Ok(()),
    }
}

/// Whether the payload of a packet is delivered.
fn read_of(handled: &Disposition) -> PacketRead
    ensures { result ≡ read_as handled.now }
{
    match handled {
        Disposition::Delivers => PacketRead::Payload,
        Disposition::Done | Disposition::Rekeys { .. } => PacketRead::Packet,
    }
}
