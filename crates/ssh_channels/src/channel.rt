//! A channel of a side.

ghost use Rattle.std.specs.Prelude.{◌≡◌, ◌≤◌, ◌<◌, ◌^◌, ◌+◌, ◌-◌, ◌++◌, ◌∷◌, ◌||◌, ◌&&◌, [], not, min, nat_le, nat_lt, if◌then◌else◌, OnOk, IfOk, IfErr, None, true, false, length, take, drop, List, ℕ};
ghost use Rattle.ssh_channels.specs.Asking.{CallsOn, HearsOn, IsRefused, awaits_answer, call_fault, excess, fault_in_place, fault_unless, message_fault, window_left};
ghost use Rattle.ssh_channels.specs.Ends.{CallClose, CallEof, IsSound, Read, Write, fresh, taken};
ghost use Rattle.ssh_channels.specs.Phases.{Talking, Silent, Shut, Open, Confirmation, Failure, Adjust, Data, Eof, Close, is_live, is_refused, may_send};
ghost use Rattle.ssh_channels.specs.Reading.{message_in, sender_in};
ghost use Rattle.ssh_channels.specs.Texts.{text};
ghost use Rattle.ssh_channels.specs.declared.fault.MuxFault.TheVariants.{Memory, Unexpected, Window};

use crate::end::{
    End, Phase, add_received, add_written, adjust_by, be_granted, call_close, call_eof, fresh,
    grants_too_much, has_ended, is_live, is_refused, mark_heard, mark_read, mark_said, may_send,
    pump, taken, told_behind, window_left,
};
use crate::fault::MuxFault;
use crate::incoming::{Offer, Said};
use crate::text::{Telling, adjust_text, close_text};
use ssh_wire::{Payload, msg};
use std::alloc::Global;
use std::marker::Model;
use std::mem;

/// A channel of a side: whether the side asked for it, its number on the other side, and the side's end.
#[derive(Debug, Drop)]
pub struct Channel {
    started: bool,
    peer: u32,
    end: End,
}

impl Model for Channel {
    ghost use Rattle.ssh_channels.specs.Ends.{IsSound};
    ghost use Rattle.ssh_channels.specs.Muxes.{Channel as channel_value};

    ghost Value = { channel_value };

    ghost view = { λ c. record { started = c.started; peer = c.peer; end = c.end } };

    ghost invariant = { λ c. IsSound c.end };
}

impl Channel {
    /// A channel that its side asks for.
    pub(crate) fn opened(alloc: Global, telling: &Telling) -> Channel
        ensures { result ≡ record {
          started = true;
          peer = 0;
          end = fresh telling.now.window telling.now.most Talking;
        } }
    {
        Channel {
            started: true,
            peer: 0,
            end: fresh(alloc, telling.window, telling.most, Phase::Talking),
        }
    }

    /// A channel that its side grants to this offer.
    pub(crate) fn granted(alloc: Global, telling: &Telling, offer: &Offer) -> Channel
        ensures { result ≡ record {
          started = false;
          peer = offer.now.sender;
          end =
              record (fresh telling.now.window telling.now.most Talking)
              { heard = Talking; granted = offer.now.window; largest = offer.now.largest };
        } }
    {
        let mut end = fresh(alloc, telling.window, telling.most, Phase::Talking);
        be_granted(&mut end, offer.window, offer.largest);
        Channel {
            started: false,
            peer: offer.sender,
            end,
        }
    }

    /// Whether its side asked for it.
    pub fn is_started(&self) -> bool
        ensures { result ≡ self.now.started }
    {
        self.started
    }

    /// Its number on the other side; 0 where that isn't known.
    pub fn peer(&self) -> u32
        ensures { result ≡ self.now.peer }
    {
        self.peer
    }

    /// The side's end.
    pub fn end(&self) -> &End
        ensures { result.now ≡ self.now.end }
    {
        &self.end
    }

    /// The side's end, for good. What is left is an end of which nothing is known.
    pub fn take_end(&mut self, alloc: Global) -> End
        ensures end { result ≡ self.old.end }
        ensures started { self.new.started ≡ self.old.started }
        ensures peer { self.new.peer ≡ self.old.peer }
    {
        let window = self.end.window;
        let most = self.end.most;
        mem::replace(&mut self.end, fresh(alloc, window, most, Phase::Silent))
    }

    /// Adds bytes to what is written.
    #[tactic(auto, using(crate::proofs::Asking::wrote))]
    pub(crate) fn write(
        &mut self,
        alloc: Global,
        own: u32,
        bytes: &[u8],
        out: &mut Vec<Payload>,
    ) -> Result<(), MuxFault>
        ensures ok { OnOk result (CallsOn own (Write bytes.now) self.old out.old.items self.new out.new.items) }
        ensures refused { IfErr result (λ f. IsRefused (call_fault (Write bytes.now) own self.old.end) f
            ((self.new ≡ self.old) × (out.new.items ≡ out.old.items))) }
    {
        if has_ended(&self.end) {
            return Err(MuxFault::Ended(own));
        }
        add_written(&mut self.end, bytes)?;
        pump(alloc, self.peer, &mut self.end, out)?;
        Ok(())
    }

    /// Says that no more is written.
    #[tactic(auto, using(crate::proofs::Asking::ended))]
    pub(crate) fn eof(
        &mut self,
        alloc: Global,
        own: u32,
        out: &mut Vec<Payload>,
    ) -> Result<(), MuxFault>
        ensures ok { OnOk result (CallsOn own CallEof self.old out.old.items self.new out.new.items) }
        ensures refused { IfErr result (λ f. IsRefused (call_fault CallEof own self.old.end) f
            ((self.new ≡ self.old) × (out.new.items ≡ out.old.items))) }
    {
        if has_ended(&self.end) {
            return Err(MuxFault::Ended(own));
        }
        call_eof(&mut self.end);
        pump(alloc, self.peer, &mut self.end, out)?;
        Ok(())
    }

    /// Closes the channel behind what is written.
    #[tactic(auto, using(crate::proofs::Asking::closed))]
    pub(crate) fn close(
        &mut self,
        alloc: Global,
        own: u32,
        out: &mut Vec<Payload>,
    ) -> Result<(), MuxFault>
        ensures ok { OnOk result (CallsOn own CallClose self.old out.old.items self.new out.new.items) }
        ensures refused { IfErr result (λ f. IsRefused (call_fault CallClose own self.old.end) f
            ((self.new ≡ self.old) × (out.new.items ≡ out.old.items))) }
    {
        if has_closed(&self.end) {
            return Err(MuxFault::Ended(own));
        }
        call_close(&mut self.end);
        pump(alloc, self.peer, &mut self.end, out)?;
        Ok(())
    }

    /// Takes at most `n` bytes of what was received and not read.
    #[tactic(auto, using(crate::proofs::Asking::was_read))]
    pub(crate) fn read(
        &mut self,
        alloc: Global,
        n: u64,
        out: &mut Vec<Payload>,
    ) -> Result<Payload, MuxFault>
        ensures ok { OnOk result ((own : ℕ) → CallsOn own (Read n) self.old out.old.items self.new out.new.items) }
        ensures bytes { IfOk result (λ p. p ≡ take (taken self.old.end n)
            (drop self.old.end.read self.old.end.received)) }
        ensures refused { IfErr result (λ f. f ≡ Memory) }
    {
        let count = taken(&self.end, n);
        let tells = count > 0 && is_live(self.end.said);
        let bytes = unread(alloc, &self.end, count)?;
        tell_read(alloc, self.peer, count, tells, out)?;
        let told = told_behind(&self.end, count, tells);
        mark_read(&mut self.end, count, told);
        Ok(bytes)
    }

    /// Takes a message for this channel.
    pub(crate) fn hear(
        &mut self,
        alloc: Global,
        own: u32,
        said: Said<'_>,
        out: &mut Vec<Payload>,
    ) -> Result<(), MuxFault>
        ensures ok { OnOk result (HearsOn own (sender_in said.entry) (message_in said.entry) self.old out.old.items
            self.new out.new.items) }
        ensures refused { IfErr result (λ f. IsRefused (message_fault (message_in said.entry) own self.old) f
            ((self.new ≡ self.old) × (out.new.items ≡ out.old.items))) }
    {
        match said {
            Said::Confirmation(offer) => self.confirm(alloc, own, &offer, out),
            Said::Failure => self.fail(own, out),
            Said::Adjust(count) => self.adjust(alloc, own, count, out),
            Said::Data(bytes) => self.take_data(own, bytes, out),
            Said::Eof => self.take_eof(own, out),
            Said::Close => self.take_close(alloc, own, out),
        }
    }

    /// It is granted.
    #[tactic(auto, using(crate::proofs::Asking::confirmed))]
    fn confirm(
        &mut self,
        alloc: Global,
        own: u32,
        offer: &Offer,
        out: &mut Vec<Payload>,
    ) -> Result<(), MuxFault>
        ensures ok { OnOk result (HearsOn own offer.now.sender (Confirmation offer.now.window offer.now.largest)
            self.old out.old.items self.new out.new.items) }
        ensures refused { IfErr result (λ f. IsRefused (fault_unless (awaits_answer self.old.started
            self.old.end.heard) (Unexpected 91 own)) f
            ((self.new ≡ self.old) × (out.new.items ≡ out.old.items))) }
    {
        if !awaits_answer(self.started, self.end.heard) {
            return Err(unexpected(msg::CHANNEL_OPEN_CONFIRMATION, own));
        }
        self.peer = offer.sender;
        be_granted(&mut self.end, offer.window, offer.largest);
        pump(alloc, self.peer, &mut self.end, out)?;
        Ok(())
    }

    /// It is refused.
    #[tactic(auto, using(crate::proofs::Asking::failed))]
    fn fail(&mut self, own: u32, out: &mut Vec<Payload>) -> Result<(), MuxFault>
        ensures ok { OnOk result (HearsOn own 0 Failure self.old out.old.items self.new out.new.items) }
        ensures refused { IfErr result (λ f. IsRefused (fault_unless (awaits_answer self.old.started
            self.old.end.heard) (Unexpected 92 own)) f
            ((self.new ≡ self.old) × (out.new.items ≡ out.old.items))) }
    {
        let _made = out.len();
        if !awaits_answer(self.started, self.end.heard) {
            return Err(unexpected(msg::CHANNEL_OPEN_FAILURE, own));
        }
        let ended = self.end.ended;
        mark_heard(&mut self.end, Phase::Failed, ended);
        Ok(())
    }

    /// So many bytes more may be sent.
    #[tactic(auto, using(crate::proofs::Asking::adjusted))]
    fn adjust(
        &mut self,
        alloc: Global,
        own: u32,
        count: u32,
        out: &mut Vec<Payload>,
    ) -> Result<(), MuxFault>
        ensures ok { OnOk result (HearsOn own 0 (Adjust count) self.old out.old.items self.new out.new.items) }
        ensures refused { IfErr result (λ f. IsRefused (fault_unless (is_live self.old.end.heard && not (nat_le (2 ^ 32)
            ((self.old.end.granted - self.old.end.gone) + count))) (Unexpected 93 own)) f
            ((self.new ≡ self.old) × (out.new.items ≡ out.old.items))) }
    {
        if !is_live(self.end.heard) || grants_too_much(&self.end, count) {
            return Err(unexpected(msg::CHANNEL_WINDOW_ADJUST, own));
        }
        adjust_by(&mut self.end, count);
        pump(alloc, self.peer, &mut self.end, out)?;
        Ok(())
    }

    /// Data.
    #[tactic(auto, using(crate::proofs::Asking::came))]
    fn take_data(&mut self, own: u32, bytes: &[u8], out: &mut Vec<Payload>) -> Result<(), MuxFault>
        ensures ok { OnOk result (HearsOn own 0 (Data bytes.now) self.old out.old.items self.new out.new.items) }
        ensures refused { IfErr result (λ f. IsRefused (fault_in_place (may_send self.old.end.heard) (Unexpected 94 own)
            (excess (Data bytes.now) own self.old.end)) f
            ((self.new ≡ self.old) × (out.new.items ≡ out.old.items))) }
    {
        let _made = out.len();
        if !may_send(self.end.heard) {
            return Err(unexpected(msg::CHANNEL_DATA, own));
        }
        if brings_too_much(&self.end, bytes) {
            return Err(window_fault(&self.end, own, bytes));
        }
        add_received(&mut self.end, bytes)?;
        Ok(())
    }

    /// No data follows.
    #[tactic(auto, using(crate::proofs::Asking::heard_eof))]
    fn take_eof(&mut self, own: u32, out: &mut Vec<Payload>) -> Result<(), MuxFault>
        ensures ok { OnOk result (HearsOn own 0 Eof self.old out.old.items self.new out.new.items) }
        ensures refused { IfErr result (λ f. IsRefused (fault_unless (may_send self.old.end.heard)
            (Unexpected 96 own)) f
            ((self.new ≡ self.old) × (out.new.items ≡ out.old.items))) }
    {
        let _made = out.len();
        if !may_send(self.end.heard) {
            return Err(unexpected(msg::CHANNEL_EOF, own));
        }
        mark_heard(&mut self.end, Phase::Ended, true);
        Ok(())
    }

    /// Nothing follows. It is answered where the side hadn't closed the channel; what waits to go out is dropped.
    #[tactic(auto, using(crate::proofs::Asking::shut))]
    fn take_close(
        &mut self,
        alloc: Global,
        own: u32,
        out: &mut Vec<Payload>,
    ) -> Result<(), MuxFault>
        ensures ok { OnOk result (HearsOn own 0 Close self.old out.old.items self.new out.new.items) }
        ensures refused { IfErr result (λ f. IsRefused (fault_unless (is_live self.old.end.heard) (Unexpected 97 own)) f
            ((self.new ≡ self.old) × (out.new.items ≡ out.old.items))) }
    {
        if !is_live(self.end.heard) {
            return Err(unexpected(msg::CHANNEL_CLOSE, own));
        }
        answer_close(alloc, self.peer, &mut self.end, out)?;
        let ended = self.end.ended;
        mark_heard(&mut self.end, Phase::Shut, ended);
        Ok(())
    }
}

/// Closes the channel where its side didn't.
fn answer_close(
    alloc: Global,
    peer: u32,
    end: &mut End,
    out: &mut Vec<Payload>,
) -> Result<(), MuxFault>
    requires { IsSound end.old }
    ensures sound { IsSound end.new }
    ensures end { OnOk result (end.new ≡ record end.old {
      said = if is_live end.old.said then Shut else end.old.said;
    }) }
    ensures out { OnOk result (out.new.items ≡ out.old.items
        ++ (if is_live end.old.said then text 0 peer Close ∷ [] else [])) }
    ensures err { IfErr result (λ f. f ≡ Memory) }
{
    if !is_live(end.said) {
        return Ok(());
    }
    out.push(close_text(alloc, peer)?)?;
    mark_said(end, Phase::Shut);
    Ok(())
}

/// Tells of bytes that were read, where that is due.
fn tell_read(
    alloc: Global,
    peer: u32,
    count: u64,
    tells: bool,
    out: &mut Vec<Payload>,
) -> Result<(), MuxFault>
    requires { count < 2 ^ 32 }
    ensures out { OnOk result (out.new.items ≡ out.old.items
        ++ (if tells then text 0 peer (Adjust count) ∷ [] else [])) }
    ensures err { IfErr result (λ f. f ≡ Memory) }
{
    if tells {
        out.push(adjust_text(alloc, peer, count as u32)?)?;
    }
    Ok(())
}

/// Whether a side that asked for a channel and heard this was not answered.
fn awaits_answer(started: bool, heard: Phase) -> bool
    ensures { result ≡ awaits_answer started heard }
{
    match heard {
        Phase::Silent => started,
        Phase::Talking | Phase::Ended | Phase::Shut | Phase::Failed => false,
    }
}

/// Whether no close may be called.
fn has_closed(end: &End) -> bool
    ensures { result ≡ (end.now.close_called || is_refused end.now.heard) }
{
    end.close_called || is_refused(end.heard)
}

/// Whether data is longer than the window left or than the largest packet.
fn brings_too_much(end: &End, bytes: &[u8]) -> bool
    requires { IsSound end.now }
    ensures { result ≡ (nat_lt end.now.most (length bytes.now) || nat_lt (window_left end.now) (length bytes.now)) }
{
    bytes.len() > end.most as usize || bytes.len() > window_left(end) as usize
}

/// Data is too long.
fn window_fault(end: &End, channel: u32, bytes: &[u8]) -> MuxFault
    requires { IsSound end.now }
    ensures { result ≡ Window channel (window_left end.now) (min (length bytes.now) (2 ^ 32 - 1)) }
{
    MuxFault::Window {
        channel,
        left: window_left(end),
        got: bytes.len().min(u32::MAX as usize) as u32,
    }
}

/// So many bytes of those that were received and not read.
fn unread(alloc: Global, end: &End, count: u64) -> Result<Payload, MuxFault>
    requires { end.now.read + count ≤ length end.now.received }
    ensures ok { IfOk result (λ p. p ≡ take count (drop end.now.read end.now.received)) }
    ensures err { IfErr result (λ f. f ≡ Memory) }
{
    let all = end.received.as_slice();
    let mut bytes = Vec::new(alloc);
    bytes.extend_from_slice(&all[end.read as usize..(end.read + count) as usize])?;
    Ok(Payload::new(bytes))
}

/// A message of this type is out of place.
pub(crate) fn unexpected(message_type: u8, channel: u32) -> MuxFault
    ensures { result ≡ Unexpected message_type channel }
{
    MuxFault::Unexpected {
        message_type,
        channel,
    }
}
