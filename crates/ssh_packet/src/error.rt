//! Why a packet isn't opened.

use ssh_wire::Error;
use std::fmt;
use thiserror::Error as IsError;

/// Why a reader gave no packet. It owns no memory, so that it can stand beside a packet that is lent. Its texts
/// are those of `ssh_wire::Error`.
#[derive(Clone, Copy, Debug, PartialEq, Eq, Hash, IsError)]
pub enum OpenError {
    /// The packet length is over 262177, too short for its cipher, or leaves no payload.
    PacketSize(usize),
    /// The padding is longer than its packet.
    IndexOutOfBounds,
    /// The tag of an HMAC is not the packet's.
    PacketAuth,
    /// The tag of Galois counter mode is not the packet's.
    DecryptionError,
    /// An earlier packet was refused.
    Disconnect,
}

impl fmt::Display for OpenError {
    ghost use Rattle.std.specs.Prelude.{Some};
    ghost use Rattle.ssh_wire.specs.ErrorTexts.{error_message};
    ghost use Rattle.ssh_packet.specs.Errors.{error_of};

    ghost output = { λ e. Some (error_message (error_of e)) };

    fn fmt<W: fmt::Write>(&self, f: &mut fmt::Formatter<W>) -> fmt::Result {
        match self {
            OpenError::PacketSize(n) => write!(f, "Bad packet size: {n}"),
            OpenError::IndexOutOfBounds => f.write_str("Index out of bounds"),
            OpenError::PacketAuth => f.write_str("Wrong packet authentication code"),
            OpenError::DecryptionError => f.write_str("Failed to decrypt a packet"),
            OpenError::Disconnect => f.write_str("Disconnected"),
        }
    }
}

impl From<OpenError> for Error {
    ghost use Rattle.std.specs.Prelude.{◌≡◌};
    ghost use Rattle.ssh_packet.specs.Errors.{error_of};

    ghost from_gives = { λ error e. e ≡ error_of error };

    fn from(error: OpenError) -> Error {
        match error {
            OpenError::PacketSize(n) => Error::PacketSize(n),
            OpenError::IndexOutOfBounds => Error::IndexOutOfBounds,
            OpenError::PacketAuth => Error::PacketAuth,
            OpenError::DecryptionError => Error::DecryptionError,
            OpenError::Disconnect => Error::Disconnect,
        }
    }
}
