//! One side of a connection with its channels.

ghost use Rattle.std.specs.Prelude.{◌≡◌, ◌<◌, OnOk, IfOk, IfErr, [], length, slice_get};
ghost use Rattle.std.specs.Option.{option_map};
ghost use Rattle.ssh_channels.specs.Asking.{Answers, IsReadFrom, IsRefused, TakesPacket, TakesPayload, message_fault_at, packet_on, payload_fault, request_fault};
ghost use Rattle.ssh_channels.specs.Ends.{CallClose, CallEof, Read, Write};
ghost use Rattle.ssh_channels.specs.Muxes.{On, Start};
ghost use Rattle.ssh_channels.specs.Reading.{incoming_open, message_in, packet_in, sender_in};
ghost use Rattle.ssh_channels.specs.declared.fault.MuxFault.TheVariants.{Memory};

use crate::channel::{Channel, unexpected};
use crate::config::MuxConfig;
use crate::end::End;
use crate::fault::MuxFault;
use crate::incoming::{Incoming, Offer, Said};
use crate::text::{Telling, confirmation_text, failure_text, open_text};
use ssh_wire::{Payload, PayloadList};
use std::alloc::Global;
use std::marker::Model;
use std::mem;

/// How many channels a side may have.
const MOST_CHANNELS: usize = 1024;

/// One side: its channels, numbered from 0 in the order in which it asked for them or granted them, and the messages
/// that it made.
#[derive(Debug, Drop)]
pub struct Mux {
    window: u32,
    most: u32,
    channels: Vec<Channel>,
    made: Vec<Payload>,
}

impl Model for Mux {
    ghost use Rattle.ssh_channels.specs.Asking.{MuxState};

    ghost Value = { MuxState };

    ghost view = { λ m. record {
      side = record { window = m.window; most = m.most; channels = m.channels.items };
      made = m.made.items;
    } };
}

impl Mux {
    /// A side without channels.
    pub fn new(alloc: Global, config: &MuxConfig) -> Mux
        ensures side { result.side ≡ record { window = config.now.window; most = config.now.largest; channels = [] } }
        ensures made { result.made ≡ [] }
    {
        Mux {
            window: config.window,
            most: config.largest,
            channels: Vec::new(alloc),
            made: Vec::new(alloc),
        }
    }

    /// Its channels, by their numbers.
    pub fn channels(&self) -> &[Channel]
        ensures { result.now ≡ self.now.side.channels }
    {
        self.channels.as_slice()
    }

    /// The end of the channel with this number, for good. What is left there is an end of which nothing is known.
    pub fn take_end(&mut self, channel: u32) -> Option<End>
        ensures { option_map (λ c. c.end) (slice_get self.old.side.channels channel) ≡ result }
    {
        let alloc = *self.made.allocator();
        let c = self.channels.get_mut(channel as usize)?;
        Some(c.take_end(alloc))
    }

    /// Asks for a channel, and gives its number. Full where the side has 1024 channels. Memory.
    pub fn start(&mut self) -> Result<u32, MuxFault>
        ensures ok { OnOk result (Answers Start self.old self.new) }
        ensures number { IfOk result (λ n. n ≡ length self.old.side.channels) }
        ensures refused { IfErr result (λ f. IsRefused (request_fault Start self.old.side) f (self.new ≡ self.old)) }
    {
        if self.channels.len() >= MOST_CHANNELS {
            return Err(MuxFault::Full);
        }
        let alloc = *self.made.allocator();
        let telling = self.telling();
        self.made.push(open_text(alloc, &telling)?)?;
        self.channels.push(Channel::opened(alloc, &telling))?;
        Ok(telling.own)
    }

    /// Writes bytes to a channel. Unknown, then Ended where `eof` or `close` was called on it, the other side closed
    /// it, or it was refused. Memory.
    pub fn write(&mut self, channel: u32, bytes: &[u8]) -> Result<(), MuxFault>
        ensures ok { OnOk result (Answers (On channel (Write bytes.now)) self.old self.new) }
        ensures refused { IfErr result (λ f. IsRefused (request_fault (On channel (Write bytes.now)) self.old.side) f
            (self.new ≡ self.old)) }
    {
        let alloc = *self.made.allocator();
        match self.channels.get_mut(channel as usize) {
            Some(c) => c.write(alloc, channel, bytes, &mut self.made),
            None => Err(MuxFault::Unknown(channel)),
        }
    }

    /// The next bytes that were received on a channel, at most `n`. Unknown. Memory.
    pub fn read(&mut self, channel: u32, n: u64) -> Result<Payload, MuxFault>
        ensures ok { OnOk result (Answers (On channel (Read n)) self.old self.new) }
        ensures bytes { IfOk result (λ p. IsReadFrom (slice_get self.old.side.channels channel) n p) }
        ensures refused { IfErr result (λ f. IsRefused (request_fault (On channel (Read n)) self.old.side) f
            (self.new ≡ self.old)) }
    {
        let alloc = *self.made.allocator();
        match self.channels.get_mut(channel as usize) {
            Some(c) => c.read(alloc, n, &mut self.made),
            None => Err(MuxFault::Unknown(channel)),
        }
    }

    /// Says that no more is written to a channel. Unknown, then Ended as of `write`. Memory.
    pub fn eof(&mut self, channel: u32) -> Result<(), MuxFault>
        ensures ok { OnOk result (Answers (On channel CallEof) self.old self.new) }
        ensures refused { IfErr result (λ f. IsRefused (request_fault (On channel CallEof) self.old.side) f
            (self.new ≡ self.old)) }
    {
        let alloc = *self.made.allocator();
        match self.channels.get_mut(channel as usize) {
            Some(c) => c.eof(alloc, channel, &mut self.made),
            None => Err(MuxFault::Unknown(channel)),
        }
    }

    /// Closes a channel behind what was written to it. Unknown, then Ended where `close` was called on it, the other
    /// side closed it, or it was refused. Memory.
    pub fn close(&mut self, channel: u32) -> Result<(), MuxFault>
        ensures ok { OnOk result (Answers (On channel CallClose) self.old self.new) }
        ensures refused { IfErr result (λ f. IsRefused (request_fault (On channel CallClose) self.old.side) f
            (self.new ≡ self.old)) }
    {
        let alloc = *self.made.allocator();
        match self.channels.get_mut(channel as usize) {
            Some(c) => c.close(alloc, channel, &mut self.made),
            None => Err(MuxFault::Unknown(channel)),
        }
    }

    /// Takes a payload that came. Encoding where a field is bad, bytes follow the last one, or there is no byte. Else
    /// Unexpected where it is none of the seven messages, its channel isn't there, or it is out of place there, also
    /// where the window that the other side grants would reach 2^32. Else Window where data is longer than the window
    /// left or than the largest packet. Memory.
    pub fn receive(&mut self, payload: &[u8]) -> Result<(), MuxFault>
        ensures ok { OnOk result (TakesPayload payload.now self.old self.new) }
        ensures refused { IfErr result (λ f. IsRefused (payload_fault payload.now self.old.side) f
            (self.new ≡ self.old)) }
    {
        match Incoming::of(payload) {
            Ok(Incoming::Open(offer)) => self.answer(&offer),
            Ok(Incoming::On { channel, said }) => self.hear(channel, said),
            Err(fault) => Err(fault),
        }
    }

    /// The messages that were made since they were taken, the first one first.
    pub fn take_output(&mut self) -> PayloadList
        ensures taken { result ≡ self.old.made }
        ensures side { self.new.side ≡ self.old.side }
        ensures none { self.new.made ≡ [] }
    {
        let alloc = *self.made.allocator();
        PayloadList::new(mem::replace(&mut self.made, Vec::new(alloc)))
    }

    /// Answers an opening: grants the channel, or refuses it where the side has 1024 channels.
    fn answer(&mut self, offer: &Offer) -> Result<(), MuxFault>
        ensures ok { OnOk result (TakesPacket (packet_in (incoming_open offer.now)) self.old self.new) }
        ensures err { IfErr result (λ f. f ≡ Memory) }
    {
        let alloc = *self.made.allocator();
        if self.channels.len() >= MOST_CHANNELS {
            self.made.push(failure_text(alloc, offer.sender)?)?;
            return Ok(());
        }
        let telling = self.telling();
        self.made
            .push(confirmation_text(alloc, offer.sender, &telling)?)?;
        self.channels
            .push(Channel::granted(alloc, &telling, offer))?;
        Ok(())
    }

    /// Takes a message for a channel.
    fn hear(&mut self, channel: u32, said: Said<'_>) -> Result<(), MuxFault>
        ensures ok { OnOk result (TakesPacket (packet_on channel (sender_in said.entry)
            (message_in said.entry)) self.old self.new) }
        ensures refused { IfErr result (λ f. IsRefused (message_fault_at (message_in said.entry) channel
            (slice_get self.old.side.channels channel)) f (self.new ≡ self.old)) }
    {
        let alloc = *self.made.allocator();
        match self.channels.get_mut(channel as usize) {
            Some(c) => c.hear(alloc, channel, said, &mut self.made),
            None => Err(unexpected(said.message_type(), channel)),
        }
    }

    /// What it tells of itself to its next channel.
    fn telling(&self) -> Telling
        requires { length self.now.side.channels < 1024 }
        ensures { result ≡ record {
          own = length self.now.side.channels;
          window = self.now.side.window;
          most = self.now.side.most;
        } }
    {
        Telling {
            own: self.channels.len() as u32,
            window: self.window,
            most: self.most,
        }
    }
}
