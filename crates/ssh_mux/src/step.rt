//! What a script of channels asks for.

use ssh_wire::{Payload, Side};

/// A step of a run of channels. A channel is named by its number on the side.
#[derive(Debug, Drop)]
pub enum ChannelStep {
    /// The side asks for a channel.
    Start(Side),
    /// Bytes are written to a channel of the side.
    Write(Side, u32, Payload),
    /// At most so many bytes are read that came on a channel of the side.
    Read(Side, u32, u64),
    /// No more is written to a channel of the side.
    Eof(Side, u32),
    /// A channel of the side is closed.
    Close(Side, u32),
    /// The next so many bytes of the other side's wire come to the side.
    Deliver(Side, u64),
    /// The side asks for new keys.
    Rekey(Side),
    /// All is carried until nothing is on the way.
    Settle,
}
