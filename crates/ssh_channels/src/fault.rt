//! Why a side of channels refuses a call.

ghost use Rattle.std.specs.Prelude.{◌≡◌};
ghost use Rattle.ssh_channels.specs.declared.fault.MuxFault.TheVariants.{Memory};

use ssh_wire::EncodingFault;
use std::alloc::{AllocError, AllocFailed};

/// Why a side of channels refuses a call.
#[derive(Clone, Copy, Debug, PartialEq, Eq)]
pub enum MuxFault {
    /// A field of a received message breaks its form, or bytes follow the last one.
    Encoding(EncodingFault),
    /// A received message is out of place. The channel is 0 where none was read.
    Unexpected { message_type: u8, channel: u32 },
    /// Data of so many bytes came where so many bytes of the window were left, or over the largest packet.
    Window { channel: u32, left: u32, got: u32 },
    /// The side has no channel with this number.
    Unknown(u32),
    /// Nothing more may be written to this channel, or it was closed.
    Ended(u32),
    /// The side has 1024 channels.
    Full,
    /// Memory ran out.
    Memory,
}

impl From<AllocError> for MuxFault {
    ghost from_gives = { λ _ f. f ≡ Memory };

    fn from(_value: AllocError) -> MuxFault {
        MuxFault::Memory
    }
}

impl<T: Drop> From<AllocFailed<T>> for MuxFault {
    ghost from_gives = { λ _ f. f ≡ Memory };

    fn from(_value: AllocFailed<T>) -> MuxFault {
        MuxFault::Memory
    }
}
