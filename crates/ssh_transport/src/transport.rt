//! One side of a connection, driven by the bytes that its caller carries.

ghost use Rattle.std.specs.Borrow.{sem};
ghost use Rattle.std.specs.Prelude.{◌≡◌, ◌⊎◌, ◌≤◌, ◌++◌, ◌-◌, true, false, [], drop, take, length, not, IfErr, IfOk, IfSome, IsTrue, OnErr, OnOk, Ok, Err, Some};
ghost use Rattle.std.specs.List.{slice_get};
ghost use Rattle.ssh_rules.specs.Refusing.{RefusesPieceAsking};
ghost use Rattle.ssh_packet.specs.Stream.{message_type};
ghost use Rattle.ssh_rules.specs.MessageTypes.{is_payload_type};
ghost use Rattle.ssh_rules.specs.Valid.{config_fault, is_bad_size, is_good_payload};
ghost use Rattle.ssh_wire.specs.declared.error.ConfigFault.{ConfigFault};
ghost use Rattle.ssh_wire.specs.declared.error.Error.TheVariants.{Disconnect, Inconsistent, InvalidConfig, Memory, PacketSize};
ghost use Rattle.ssh_wire.specs.declared.side.Side.TheVariants.{Client as client_side, Server as server_side};

use crate::connection::Connection;
use rand_core::Rng;
use ssh_kex::{Agreement, Config, FinishedExchange, GroupLookup, Handed, HostKeys, Parts};
use ssh_rules::Asked;
use ssh_rules::link::ExchangeList;
use ssh_wire::{Error, PayloadList, Side};
use std::alloc::{AllocError, Global};
use std::marker::Model;
use std::mem;

/// One side of a connection. What it sends is taken from `output`. What the other side sent is handed to `feed`, which
/// queues the payloads that come; or it is kept by `take_input`, and `poll_payload` lends them one by one, without a
/// copy.
#[derive(Drop)]
pub struct Transport<'c> {
    connection: Connection<'c>,
    /// What `poll_payload` was refused with last, which it lends.
    refusal: Error,
}

impl<'c> Model for Transport<'c> {
    ghost use Rattle.ssh_rules.specs.Standing.{Standing};
    ghost use Rattle.ssh_transport.specs.Kept.{IsKept};
    ghost use Rattle.ssh_transport.specs.States.{standing_of};

    ghost Value = { Standing };

    ghost view = { λ t. standing_of t.connection };

    ghost invariant = { λ t. IsKept t.connection };
}

impl<'c> Transport<'c> {
    ghost use Rattle.ssh_rules.specs.Polling.{MayWant};
    ghost use Rattle.ssh_rules.specs.Standing.{IsNew, Rekeyed, Submitted, TakesInput, input_room, is_outside, most_unfinished, unfinished, with_input};
    ghost use Rattle.ssh_transport.specs.Asking.{tally};
    ghost use Rattle.ssh_transport.specs.Drawing.{AtMostNext, DrawsFirst, GoesNext, kexinit_packet, packet_with};
    ghost use Rattle.ssh_transport.specs.Lending.{IsRefusedWith, LendsPoll};
    ghost use Rattle.ssh_transport.specs.Sending.{MadeBy, NoneMade, SendsBetween, ServesCall};
    ghost use Rattle.ssh_transport.specs.Submitting.{AnswersAlone, Breaks, DrawsAlone, HoldsAlone};

    /// A client that has written its version line. InvalidConfig names the first test that refuses its configuration:
    ///
    /// - Id: the version line doesn't begin `SSH-2.0-` or `SSH-1.99-`, ends a line within, or is over 255 bytes;
    /// - Limit: a byte limit is outside 1 to 2^30;
    /// - GroupSizes: the least size is over the preferred one, or that over the most;
    /// - KexNone: the key exchange `none` is offered;
    /// - NameList: an advertised list has over 1024 names or over 16384 bytes;
    /// - HostBlob: the blob of a key or a certificate has over 65536 bytes.
    ///
    /// Memory, also for the window of its input, for which room for 524490 bytes is made.
    pub fn client(alloc: Global, config: &'c Config) -> Result<Transport<'c>, Error>
        ensures made { IfOk result (IsNew client_side config.now) }
        ensures fault { IfSome (config_fault client_side config.now) (λ f. result ≡ Err (InvalidConfig f)) }
        ensures causes { IfErr result (λ e. (e ≡ Memory) ⊎ ((f : ConfigFault)
            × (config_fault client_side config.now ≡ Some f) × (e ≡ InvalidConfig f))) }
    {
        Ok(Transport {
            connection: Connection::new(alloc, Side::Client, config)?,
            refusal: Error::Disconnect,
        })
    }

    /// A server that has written its version line. It is refused as `client` is.
    pub fn server(alloc: Global, config: &'c Config) -> Result<Transport<'c>, Error>
        ensures made { IfOk result (IsNew server_side config.now) }
        ensures fault { IfSome (config_fault server_side config.now) (λ f. result ≡ Err (InvalidConfig f)) }
        ensures causes { IfErr result (λ e. (e ≡ Memory) ⊎ ((f : ConfigFault)
            × (config_fault server_side config.now ≡ Some f) × (e ≡ InvalidConfig f))) }
    {
        Ok(Transport {
            connection: Connection::new(alloc, Side::Server, config)?,
            refusal: Error::Disconnect,
        })
    }

    /// Takes the next bytes that the other side sent, however they are cut: its version line, and then its packets,
    /// each as soon as it is whole. Payloads are delivered, and the messages that are due are written. Each cookie and
    /// each padding is what the handed-in generator gives next (RFC 4253 sections 6 and 7.1). A refusal
    /// is the end of the transport: each later `feed`, `submit` and `rekey` answers Disconnect, and what was delivered
    /// stays.
    ///
    /// Disconnect after a refusal, and at a DISCONNECT; Version where what stands there is no version line (RFC 4253
    /// section 4.2); PacketSize, PacketAuth, DecryptionError, IndexOutOfBounds as `PacketReader::next`; Inconsistent
    /// where a message is out of place; StrictKeyExchangeViolation; KexInit, Kex, UnknownAlgo, NoCommonAlgo,
    /// SshEncoding, Signature, WrongServerSig as the machine of the exchange; UnknownKey where the server's host isn't
    /// trusted; Memory.
    pub fn feed<A: Agreement, H: HostKeys, G: GroupLookup, R: Rng>(
        &mut self,
        parts: &mut Parts<A, H, G, R>,
        piece: &[u8],
    ) -> Result<(), Error>
        ensures dead { self.old.failed ≡ true
            → AnswersAlone (Err Disconnect) result self.old self.new parts.old parts.new }
        ensures stays { (self.new.side ≡ self.old.side) × (self.new.config ≡ self.old.config) }
        ensures lives { self.old.failed ≡ false → OnOk result (self.new.failed ≡ false) }
        ensures ends { self.old.failed ≡ false → OnErr result ((self.new.failed ≡ true) × (unfinished self.new ≡ [])) }
        ensures fed { OnOk result (TakesInput (⟦<Parts<A, H, G, R> as Handed>⟧.says self.old.config parts.old) self.old
            piece.now self.new) }
        ensures drawn { DrawsFirst (self.new.failed ≡ false) self.old self.new (R.stream parts.old.rng)
            (R.stream parts.new.rng) }
        ensures refused { self.old.failed ≡ false → IfErr result
            (λ e. RefusesPieceAsking (⟦<Parts<A, H, G, R> as Handed>⟧.says self.old.config parts.old)
            (⟦<Parts<A, H, G, R> as Handed>⟧.denies parts.old parts.new)
            (⟦<Parts<A, H, G, R> as Asked>⟧.distrusts parts.old parts.new) self.old piece.now e self.new
            (⟦<Parts<A, H, G, R> as Asked>⟧.calls parts.old) (⟦<Parts<A, H, G, R> as Asked>⟧.calls parts.new)) }
        ensures keeps { ⟦<Parts<A, H, G, R> as Handed>⟧.keeps parts.old parts.new }
        ensures serves { OnOk result (ServesCall (MadeBy A.client_draws A.server_draws) self.old self.new
            (tally (⟦<Parts<A, H, G, R> as Asked>⟧.calls parts.old) (⟦<Parts<A, H, G, R> as Asked>⟧.tests parts.old))
            (tally (⟦<Parts<A, H, G, R> as Asked>⟧.calls parts.new) (⟦<Parts<A, H, G, R> as Asked>⟧.tests parts.new))
            (R.stream parts.old.rng) (R.stream parts.new.rng)) }
    {
        self.connection.feed(parts, piece)
    }

    /// Keeps the first bytes of a piece that the other side sent, as many as there is room for, until `poll_payload` or
    /// `feed` makes something of them: at most 262245 bytes are kept. How many were taken of the piece. Disconnect
    /// after a refusal. It takes no memory.
    pub fn take_input(&mut self, piece: &[u8]) -> Result<usize, Error>
        ensures dead { self.old.failed ≡ true → (result ≡ Err Disconnect) × (self.new ≡ self.old) }
        ensures taken { self.old.failed ≡ false → (result ≡ Ok (input_room self.old (length piece.now)))
            × (self.new ≡ with_input self.old (take (input_room self.old (length piece.now)) piece.now)) }
        ensures within { length (unfinished self.new) ≤ most_unfinished }
    {
        if self.connection.failed {
            return Err(Error::Disconnect);
        }
        Ok(self.connection.keep(piece))
    }

    /// Handles what was kept of the input, as `feed` does, up to and with the first packet whose payload is handed up,
    /// and lends that payload: it is not queued for `take_delivered`. None where all that is whole was handled and
    /// nothing of it is handed up. It is refused as `feed` is, which is the end of the transport; the refusal is lent
    /// too.
    ///
    /// Memory only where this call read the end of the version line, handled a message of an exchange, or was to begin
    /// an exchange at a limit; where that limit was reached by a payload, the payload is not lent.
    pub fn poll_payload<A: Agreement, H: HostKeys, G: GroupLookup, R: Rng>(
        &mut self,
        parts: &mut Parts<A, H, G, R>,
    ) -> Result<Option<&[u8]>, &Error>
        ensures* after_borrow { sem 𝓛 (LendsPoll (⟦<Parts<A, H, G, R> as Handed>⟧.says self.entry.now.config parts.old)
            (⟦<Parts<A, H, G, R> as Handed>⟧.denies parts.old parts.new)
            (⟦<Parts<A, H, G, R> as Asked>⟧.distrusts parts.old parts.new)
            (tally (⟦<Parts<A, H, G, R> as Asked>⟧.calls parts.old) (⟦<Parts<A, H, G, R> as Asked>⟧.tests parts.old))
            (tally (⟦<Parts<A, H, G, R> as Asked>⟧.calls parts.new) (⟦<Parts<A, H, G, R> as Asked>⟧.tests parts.new))
            (MadeBy A.client_draws A.server_draws) (R.stream parts.old.rng) (R.stream parts.new.rng) self.entry
            result) }
        ensures dead { self.old.failed ≡ true → IsRefusedWith result Disconnect × (parts.new ≡ parts.old) }
        ensures memory { self.old.failed ≡ false → IsRefusedWith result Memory → MayWant
            (⟦<Parts<A, H, G, R> as Handed>⟧.says self.old.config parts.old) self.old }
        ensures keeps { ⟦<Parts<A, H, G, R> as Handed>⟧.keeps parts.old parts.new }
    {
        match self.connection.poll(parts) {
            Ok(true) => Ok(Some(self.connection.reader.handed())),
            Ok(false) => Ok(None),
            Err(error) => {
                self.refusal = error;
                Err(&self.refusal)
            }
        }
    }

    /// Seals a payload outside an exchange, and holds it inside one until that has ended (RFC 4253 section 7.1). It has
    /// 1 to 262157 bytes, and its type is 5 to 7 or at least 50.
    ///
    /// Disconnect after a refusal; PacketSize with another number of bytes; Inconsistent with another type; these
    /// change nothing. Memory, which is the end of the transport: output and finished exchanges stay, and at most the
    /// payload's packet stands behind the output.
    pub fn submit<A: Agreement, H: HostKeys, G: GroupLookup, R: Rng>(
        &mut self,
        parts: &mut Parts<A, H, G, R>,
        payload: &[u8],
    ) -> Result<(), Error>
        ensures dead { self.old.failed ≡ true
            → AnswersAlone (Err Disconnect) result self.old self.new parts.old parts.new }
        ensures size { self.old.failed ≡ false → IsTrue (is_bad_size (length payload.now))
            → AnswersAlone (Err (PacketSize (length payload.now))) result self.old self.new parts.old parts.new }
        ensures inconsistent { self.old.failed ≡ false → is_bad_size (length payload.now) ≡ false
            → is_payload_type (message_type payload.now) ≡ false
            → AnswersAlone (Err Inconsistent) result self.old self.new parts.old parts.new }
        ensures sent { OnOk result (Submitted (⟦<Parts<A, H, G, R> as Handed>⟧.says self.old.config parts.old) self.old
            payload.now self.new) }
        ensures drawn { is_outside self.old.state.stands ≡ true → OnOk result (GoesNext self.old.output
            (packet_with self.old.state.writing payload.now (R.stream parts.old.rng)) self.new.output) }
        ensures sends { OnOk result (SendsBetween NoneMade self.old self.new (R.stream parts.old.rng)
            (R.stream parts.new.rng)) }
        ensures held { is_outside self.old.state.stands ≡ false → (parts.new ≡ parts.old)
            × HoldsAlone result self.old self.new }
        ensures leaves { self.old.failed ≡ false → is_good_payload payload.now ≡ true → OnErr result
            ((self.new.state.records ≡ self.old.state.records) × AtMostNext self.old.output
            (packet_with self.old.state.writing payload.now (R.stream parts.old.rng)) self.new.output) }
        ensures memory { self.old.failed ≡ false → is_good_payload payload.now ≡ true
            → OnErr result ((result ≡ Err Memory) × Breaks self.old self.new) }
        ensures parts { DrawsAlone parts.old parts.new }
    {
        self.connection.submit(parts, payload)
    }

    /// Begins an exchange outside one; inside one nothing changes. Disconnect after a refusal; Memory, which is the end
    /// of the transport: output and finished exchanges stay.
    pub fn rekey<A: Agreement, H: HostKeys, G: GroupLookup, R: Rng>(
        &mut self,
        parts: &mut Parts<A, H, G, R>,
    ) -> Result<(), Error>
        ensures dead { self.old.failed ≡ true
            → AnswersAlone (Err Disconnect) result self.old self.new parts.old parts.new }
        ensures begun { OnOk result (Rekeyed (⟦<Parts<A, H, G, R> as Handed>⟧.says self.old.config parts.old) self.old
            self.new) }
        ensures drawn { is_outside self.old.state.stands ≡ true → OnOk result (self.new.output
            ≡ self.old.output ++ kexinit_packet self.old.side self.old.config self.old.state.writing
            (R.stream parts.old.rng)) }
        ensures sends { OnOk result (SendsBetween NoneMade self.old self.new (R.stream parts.old.rng)
            (R.stream parts.new.rng)) }
        ensures leaves { self.old.failed ≡ false → OnErr result
            ((self.new.state.records ≡ self.old.state.records) × (self.new.output ≡ self.old.output)) }
        ensures inside { self.old.failed ≡ false → is_outside self.old.state.stands ≡ false
            → AnswersAlone (Ok tt) result self.old self.new parts.old parts.new }
        ensures memory { self.old.failed ≡ false → OnErr result ((result ≡ Err Memory) × Breaks self.old self.new) }
        ensures parts { DrawsAlone parts.old parts.new }
    {
        self.connection.rekey(parts)
    }

    /// The bytes to be sent, from the front on.
    pub fn output(&self) -> &[u8]
        ensures { result.now ≡ self.now.output }
    {
        self.connection.session.writer.output()
    }

    /// The output itself, from the front on, of a transport that is done with: nothing is copied.
    pub fn into_output(self) -> Vec<u8>
        ensures { result.items ≡ self.entry.output }
    {
        let mut connection = self.connection;
        let alloc = connection.alloc;
        mem::replace(
            &mut connection.session.writer.buffer().buffer,
            Vec::new(alloc),
        )
    }

    /// Drops the first n bytes of the output, once they are sent.
    pub fn consume_output(&mut self, n: usize)
        requires { n ≤ length self.old.output }
        ensures { self.new ≡ record self.old { output = drop n self.old.output } }
    {
        self.connection.session.writer.consume_output(n);
    }

    /// The payloads that were delivered since the last take, in order.
    pub fn take_delivered(&mut self) -> PayloadList
        ensures taken { result ≡ self.old.delivered }
        ensures left { self.new ≡ record self.old { delivered = [] } }
    {
        let alloc = self.connection.alloc;
        PayloadList::new(mem::replace(&mut self.connection.delivered, Vec::new(alloc)))
    }

    /// How many exchanges are finished.
    pub fn finished(&self) -> usize
        ensures { result ≡ length self.now.state.records }
    {
        self.connection.session.finished.len()
    }

    /// Whether it is inside an exchange, as it is from the start until the first one is finished.
    pub fn inside(&self) -> bool
        ensures { result ≡ not (is_outside self.now.state.stands) }
    {
        self.connection.session.is_inside()
    }

    /// Whether it was refused.
    pub fn failed(&self) -> bool
        ensures { result ≡ self.now.failed }
    {
        self.connection.failed
    }

    /// How many bytes of a line or a packet that isn't whole are held.
    pub fn unfinished(&self) -> usize
        ensures { result ≡ length (unfinished self.now) }
    {
        self.connection.unfinished()
    }

    /// All finished exchanges, the first one first. Memory.
    pub fn exchanges(&self) -> Result<ExchangeList, AllocError>
        ensures { IfOk result (λ list. list ≡ self.now.state.records) }
    {
        let finished = self.connection.session.finished.as_slice();
        Ok(ExchangeList::new(Vec::from_slice(self.connection.alloc, finished)?))
    }

    /// A finished exchange, counted from 1.
    pub fn exchange(&self, k: usize) -> &FinishedExchange
        requires first { 1 ≤ k }
        requires last { k ≤ length self.now.state.records }
        ensures { slice_get self.now.state.records (k - 1) ≡ Some result.now }
    {
        &self.connection.session.finished[k - 1]
    }
}
