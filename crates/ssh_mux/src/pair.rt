//! Both sides of a run, and how much of what the link delivered they received.

ghost use Rattle.std.specs.Prelude.{◌≡◌, [], IfErr, IfOk, OnOk, drop, false, length, max, slice_get};
ghost use Rattle.ssh_wire.specs.Sides.{other_side};
ghost use Rattle.ssh_channels.specs.Asking.{IsReadFrom, IsRefused, ReceivesAll, RefusesOneOf, TakesPayload, payload_fault, request_fault};
ghost use Rattle.ssh_channels.specs.Ends.{CallClose, CallEof, Read, Write};
ghost use Rattle.ssh_channels.specs.Muxes.{On, Start};
ghost use Rattle.ssh_mux.specs.Running.{IsCall, ReceivesNew, both_of, is_call_fault, side_at, state_at};
ghost use Rattle.ssh_mux.specs.Pairs.{are_within, new_pair, new_side};

use ssh_channels::{Mux, MuxConfig, MuxFault};
use ssh_wire::{Payload, PayloadList, Side};
use std::alloc::Global;

/// What both sides tell of themselves.
#[derive(Clone, Copy, Debug, PartialEq, Eq)]
pub struct PairConfig {
    pub client: MuxConfig,
    pub server: MuxConfig,
}

impl PairConfig {
    /// Whether all numbers are within their bounds.
    pub fn is_within(&self) -> bool
        ensures { result ≡ are_within self.now }
    {
        self.client.is_within() && self.server.is_within()
    }
}

/// One side, and how many of the payloads that were delivered to it it received.
#[derive(Debug, Drop)]
pub struct PairSide {
    pub mux: Mux,
    pub received: usize,
}

/// A side without channels.
fn new_side(alloc: Global, config: &MuxConfig) -> PairSide
    ensures { result ≡ new_side config.now }
{
    PairSide {
        mux: Mux::new(alloc, config),
        received: 0,
    }
}

/// A side receives a payload.
#[tactic(auto, using(crate::proofs::Mild::no_call_refused))]
fn receive_one(mux: &mut Mux, payload: &Payload) -> Result<(), MuxFault>
    ensures ok { OnOk result (TakesPayload payload.now mux.old mux.new) }
    ensures err { IfErr result (λ f. is_call_fault f ≡ false) }
    ensures refused { IfErr result (λ f. IsRefused (payload_fault payload.now mux.old.side) f (mux.new ≡ mux.old)) }
{
    mux.receive(payload.as_slice())
}

/// A side receives those of the delivered payloads that it hasn't received.
fn receive_new(side: &mut PairSide, delivered: &[Payload]) -> Result<(), MuxFault>
    ensures takes { OnOk result (ReceivesAll (drop side.old.received delivered.now) side.old.mux side.new.mux
        × (side.new.received ≡ max side.old.received (length delivered.now))) }
    ensures err { IfErr result (λ f. is_call_fault f ≡ false) }
    ensures breaks { IfErr result (λ f. RefusesOneOf (drop side.old.received delivered.now) side.old.mux f) }
{
    let Some(new) = delivered.get(side.received..) else {
        return Ok(());
    };
    for payload in new {
        receive_one(&mut side.mux, payload)?;
    }
    side.received = delivered.len();
    Ok(())
}

/// Both sides of a run.
#[derive(Debug, Drop)]
pub struct Pair {
    pub client: PairSide,
    pub server: PairSide,
}

impl Pair {
    /// Two sides without channels.
    pub fn new(alloc: Global, config: &PairConfig) -> Pair
        ensures { result ≡ new_pair config.now }
    {
        Pair {
            client: new_side(alloc, &config.client),
            server: new_side(alloc, &config.server),
        }
    }

    /// A side receives those of the payloads delivered to it that it hasn't received.
    #[tactic(auto, using(crate::proofs::Carrying::received_ok))]
    pub fn receive(&mut self, side: Side, delivered: &[Payload]) -> Result<(), MuxFault>
        ensures received { OnOk result (ReceivesNew side delivered.now (both_of self.old) (both_of self.new)) }
        ensures err { IfErr result (λ f. is_call_fault f ≡ false) }
        ensures breaks { IfErr result (λ f. RefusesOneOf (drop (side_at side (both_of self.old)).received delivered.now)
            (state_at side (both_of self.old)) f) }
    {
        match side {
            Side::Client => receive_new(&mut self.client, delivered),
            Side::Server => receive_new(&mut self.server, delivered),
        }
    }

    /// What a side made since it was taken.
    pub fn take_output(&mut self, side: Side) -> PayloadList
        ensures taken { result ≡ (state_at side (both_of self.old)).made }
        ensures none { (state_at side (both_of self.new)).made ≡ [] }
        ensures side { (state_at side (both_of self.new)).side ≡ (state_at side (both_of self.old)).side }
        ensures received { (side_at side (both_of self.new)).received ≡ (side_at side (both_of self.old)).received }
        ensures other { side_at (other_side side) (both_of self.new) ≡ side_at (other_side side) (both_of self.old) }
    {
        match side {
            Side::Client => self.client.mux.take_output(),
            Side::Server => self.server.mux.take_output(),
        }
    }

    /// A side asks for a channel, whose number is how many it had. Full where it has 1024 channels. Memory.
    pub fn start(&mut self, side: Side) -> Result<u32, MuxFault>
        ensures ok { OnOk result (IsCall side Start (both_of self.old) (both_of self.new)) }
        ensures number { IfOk result (λ n. n ≡ length (state_at side (both_of self.old)).side.channels) }
        ensures refused { IfErr result (λ f. IsRefused (request_fault Start (state_at side (both_of self.old)).side) f
            (both_of self.new ≡ both_of self.old)) }
    {
        match side {
            Side::Client => self.client.mux.start(),
            Side::Server => self.server.mux.start(),
        }
    }

    /// Writes bytes to a channel of a side. Unknown, then Ended. Memory.
    pub fn write(&mut self, side: Side, channel: u32, bytes: &[u8]) -> Result<(), MuxFault>
        ensures ok { OnOk result (IsCall side (On channel (Write bytes.now)) (both_of self.old) (both_of self.new)) }
        ensures refused { IfErr result (λ f. IsRefused (request_fault (On channel (Write bytes.now))
            (state_at side (both_of self.old)).side) f (both_of self.new ≡ both_of self.old)) }
    {
        match side {
            Side::Client => self.client.mux.write(channel, bytes),
            Side::Server => self.server.mux.write(channel, bytes),
        }
    }

    /// The next bytes that came on a channel of a side, at most `n`. Unknown. Memory.
    pub fn read(&mut self, side: Side, channel: u32, n: u64) -> Result<Payload, MuxFault>
        ensures ok { OnOk result (IsCall side (On channel (Read n)) (both_of self.old) (both_of self.new)) }
        ensures bytes { IfOk result (λ bytes. IsReadFrom
            (slice_get (state_at side (both_of self.old)).side.channels channel) n bytes) }
        ensures refused { IfErr result (λ f. IsRefused (request_fault (On channel (Read n))
            (state_at side (both_of self.old)).side) f (both_of self.new ≡ both_of self.old)) }
    {
        match side {
            Side::Client => self.client.mux.read(channel, n),
            Side::Server => self.server.mux.read(channel, n),
        }
    }

    /// Says that no more is written to a channel of a side. Unknown, then Ended. Memory.
    pub fn eof(&mut self, side: Side, channel: u32) -> Result<(), MuxFault>
        ensures ok { OnOk result (IsCall side (On channel CallEof) (both_of self.old) (both_of self.new)) }
        ensures refused { IfErr result (λ f. IsRefused (request_fault (On channel CallEof)
            (state_at side (both_of self.old)).side) f (both_of self.new ≡ both_of self.old)) }
    {
        match side {
            Side::Client => self.client.mux.eof(channel),
            Side::Server => self.server.mux.eof(channel),
        }
    }

    /// Closes a channel of a side. Unknown, then Ended. Memory.
    pub fn close(&mut self, side: Side, channel: u32) -> Result<(), MuxFault>
        ensures ok { OnOk result (IsCall side (On channel CallClose) (both_of self.old) (both_of self.new)) }
        ensures refused { IfErr result (λ f. IsRefused (request_fault (On channel CallClose)
            (state_at side (both_of self.old)).side) f (both_of self.new ≡ both_of self.old)) }
    {
        match side {
            Side::Client => self.client.mux.close(channel),
            Side::Server => self.server.mux.close(channel),
        }
    }
}
