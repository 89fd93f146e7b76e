//! The messages that come (RFC 4254 sections 5.1 to 5.3).

ghost use Rattle.std.specs.Prelude.{◌≡◌, ◌∷◌, Result};
ghost use Rattle.ssh_wire.specs.Fields.{string_at, u32_at};
ghost use Rattle.ssh_wire.specs.declared.error.EncodingFault.{EncodingFault};
ghost use Rattle.ssh_wire.specs.declared.error.Error.TheVariants.{SshEncoding};
ghost use Rattle.ssh_channels.specs.Formats.{last_at, adjust_at, confirmation_at, data_at, failure_at, opening_at, packet_of, read_so};
ghost use Rattle.ssh_channels.specs.Muxes.{Packet};
ghost use Rattle.ssh_channels.specs.Phases.{Eof as eof_message, Close as close_message};
ghost use Rattle.ssh_channels.specs.Asking.{type_of};
ghost use Rattle.ssh_channels.specs.Reading.{FindsPacket, IsAllRead, IsPacketRead, Reads, message_in};

use crate::fault::MuxFault;
use ssh_wire::{EncodingFault, Error, Reader, msg};

/// A message that came.
#[derive(Clone, Copy, Debug)]
pub enum Incoming<'p> {
    /// A channel is asked for. Its type is not judged.
    Open(Offer),
    /// A message for the recipient's channel with this number.
    On { channel: u32, said: Said<'p> },
}

/// What is said of a channel that is there.
#[derive(Clone, Copy, Debug)]
pub enum Said<'p> {
    /// It is granted.
    Confirmation(Offer),
    /// It is refused. The reason is not judged.
    Failure,
    /// So many bytes more may be sent.
    Adjust(u32),
    Data(&'p [u8]),
    /// No data follows.
    Eof,
    /// Nothing follows.
    Close,
}

/// What the other side tells of itself.
#[derive(Clone, Copy, Debug)]
pub struct Offer {
    /// The number of its channel.
    pub sender: u32,
    /// How many bytes of data it takes.
    pub window: u32,
    /// How many bytes of data it takes in one message.
    pub largest: u32,
}

impl<'p> Incoming<'p> {
    /// The message of a payload. Encoding by its first bad field, of an empty payload with Length; Unexpected of
    /// channel 0 where its type is none of the seven.
    pub fn of(payload: &'p [u8]) -> Result<Incoming<'p>, MuxFault>
        ensures { IsPacketRead (packet_of payload.now) result }
    {
        match payload.split_first() {
            Some((message_type, fields)) => incoming_of(*message_type, fields),
            None => Err(MuxFault::Encoding(EncodingFault::Length)),
        }
    }
}

/// The message of this type with these fields.
fn incoming_of<'p>(message_type: u8, fields: &'p [u8]) -> Result<Incoming<'p>, MuxFault>
    ensures { IsPacketRead (packet_of (message_type ∷ fields.now)) result }
{
    match message_type {
        msg::CHANNEL_OPEN => encoded(opening(fields)),
        msg::CHANNEL_OPEN_CONFIRMATION => encoded(confirmation(fields)),
        msg::CHANNEL_OPEN_FAILURE => encoded(failure(fields)),
        msg::CHANNEL_WINDOW_ADJUST => encoded(adjust(fields)),
        msg::CHANNEL_DATA => encoded(data(fields)),
        msg::CHANNEL_EOF => encoded(eof(fields)),
        msg::CHANNEL_CLOSE => encoded(close(fields)),
        _ => Err(MuxFault::Unexpected {
            message_type,
            channel: 0,
        }),
    }
}

/// The message, or Encoding with the fault.
fn encoded<'p>(read: Result<Incoming<'p>, EncodingFault>) -> Result<Incoming<'p>, MuxFault>
    ensures { (packet : Result Packet EncodingFault) → FindsPacket packet read.entry
        → IsPacketRead (read_so packet) result }
{
    match read {
        Ok(incoming) => Ok(incoming),
        Err(fault) => Err(MuxFault::Encoding(fault)),
    }
}

/// The fields of an opening: its type, the sender's number, the window and the largest packet.
#[tactic(auto, unfolding(crate::specs::Formats::opening_at))]
fn opening<'p>(fields: &'p [u8]) -> Result<Incoming<'p>, EncodingFault>
    ensures { FindsPacket (opening_at fields.now) result }
{
    let mut r = Reader::new(fields);
    let _type = text(&mut r)?;
    let sender = number(&mut r)?;
    let window = number(&mut r)?;
    let largest = number(&mut r)?;
    end(&r)?;
    Ok(Incoming::Open(Offer {
        sender,
        window,
        largest,
    }))
}

/// The recipient's number, the sender's, the window and the largest packet.
#[tactic(auto, unfolding(crate::specs::Formats::confirmation_at))]
fn confirmation<'p>(fields: &'p [u8]) -> Result<Incoming<'p>, EncodingFault>
    ensures { FindsPacket (confirmation_at fields.now) result }
{
    let mut r = Reader::new(fields);
    let channel = number(&mut r)?;
    let sender = number(&mut r)?;
    let window = number(&mut r)?;
    let largest = number(&mut r)?;
    end(&r)?;
    Ok(Incoming::On {
        channel,
        said: Said::Confirmation(Offer {
            sender,
            window,
            largest,
        }),
    })
}

/// The recipient's number, the reason, a text and its language.
#[tactic(auto, unfolding(crate::specs::Formats::failure_at))]
fn failure<'p>(fields: &'p [u8]) -> Result<Incoming<'p>, EncodingFault>
    ensures { FindsPacket (failure_at fields.now) result }
{
    let mut r = Reader::new(fields);
    let channel = number(&mut r)?;
    let _reason = number(&mut r)?;
    let _text = text(&mut r)?;
    let _language = text(&mut r)?;
    end(&r)?;
    Ok(Incoming::On {
        channel,
        said: Said::Failure,
    })
}

/// The recipient's number, and how many bytes more may be sent.
#[tactic(auto, unfolding(crate::specs::Formats::adjust_at))]
fn adjust<'p>(fields: &'p [u8]) -> Result<Incoming<'p>, EncodingFault>
    ensures { FindsPacket (adjust_at fields.now) result }
{
    let mut r = Reader::new(fields);
    let channel = number(&mut r)?;
    let count = number(&mut r)?;
    end(&r)?;
    Ok(Incoming::On {
        channel,
        said: Said::Adjust(count),
    })
}

/// The recipient's number, and data.
#[tactic(auto, unfolding(crate::specs::Formats::data_at))]
fn data<'p>(fields: &'p [u8]) -> Result<Incoming<'p>, EncodingFault>
    ensures { FindsPacket (data_at fields.now) result }
{
    let mut r = Reader::new(fields);
    let channel = number(&mut r)?;
    let bytes = text(&mut r)?;
    end(&r)?;
    Ok(Incoming::On {
        channel,
        said: Said::Data(bytes),
    })
}

/// The recipient's number alone.
#[tactic(auto, unfolding(crate::specs::Formats::last_at))]
fn eof<'p>(fields: &'p [u8]) -> Result<Incoming<'p>, EncodingFault>
    ensures { FindsPacket (last_at eof_message fields.now) result }
{
    let mut r = Reader::new(fields);
    let channel = number(&mut r)?;
    end(&r)?;
    Ok(Incoming::On {
        channel,
        said: Said::Eof,
    })
}

/// The recipient's number alone.
#[tactic(auto, unfolding(crate::specs::Formats::last_at))]
fn close<'p>(fields: &'p [u8]) -> Result<Incoming<'p>, EncodingFault>
    ensures { FindsPacket (last_at close_message fields.now) result }
{
    let mut r = Reader::new(fields);
    let channel = number(&mut r)?;
    end(&r)?;
    Ok(Incoming::On {
        channel,
        said: Said::Close,
    })
}

/// A `uint32`.
fn number(r: &mut Reader<'_>) -> Result<u32, EncodingFault>
    ensures { Reads (λ n. n) (u32_at r.old) result r.new }
{
    match r.read_u32() {
        Ok(n) => Ok(n),
        Err(error) => Err(fault_of(error)),
    }
}

/// A `string`.
fn text<'p>(r: &mut Reader<'p>) -> Result<&'p [u8], EncodingFault>
    ensures { Reads (λ s. s.now) (string_at r.old) result r.new }
{
    match r.read_string() {
        Ok(s) => Ok(s),
        Err(error) => Err(fault_of(error)),
    }
}

/// Nothing more.
fn end(r: &Reader<'_>) -> Result<(), EncodingFault>
    ensures { IsAllRead r.now result }
{
    if r.remaining_len() == 0 {
        Ok(())
    } else {
        Err(EncodingFault::TrailingData)
    }
}

/// How a field breaks its form.
fn fault_of(error: Error) -> EncodingFault
    ensures { (fault : EncodingFault) → error ≡ SshEncoding fault → result ≡ fault }
{
    match error {
        Error::SshEncoding(fault) => fault,
        _ => EncodingFault::Length,
    }
}

impl<'p> Said<'p> {
    /// The number of the message's type.
    pub fn message_type(&self) -> u8
        ensures { result ≡ type_of (message_in self.now) }
    {
        match self {
            Said::Confirmation(_) => msg::CHANNEL_OPEN_CONFIRMATION,
            Said::Failure => msg::CHANNEL_OPEN_FAILURE,
            Said::Adjust(_) => msg::CHANNEL_WINDOW_ADJUST,
            Said::Data(_) => msg::CHANNEL_DATA,
            Said::Eof => msg::CHANNEL_EOF,
            Said::Close => msg::CHANNEL_CLOSE,
        }
    }
}
