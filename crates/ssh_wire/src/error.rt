//! Every refusal of the transport.

ghost use Rattle.std.specs.Prelude.{◌≡◌};
ghost use Rattle.ssh_wire.specs.declared.error.Error.TheVariants.{Memory, SshEncoding};

use crate::name_list::NameList;
use std::alloc::{AllocError, AllocFailed};
use std::fmt;
use thiserror::Error;

/// How a field of a message breaks its form (RFC 4251 section 5).
#[derive(Clone, Copy, Debug, PartialEq, Eq, Hash)]
pub enum EncodingFault {
    /// A field is cut short or too long.
    Length,
    /// A text isn't UTF-8, or a name is empty or isn't ASCII.
    CharacterEncoding,
    /// A number is negative or has an unneeded leading byte.
    MpintEncoding,
    /// Bytes follow the last field.
    TrailingData,
}

/// What a configuration may not have.
#[derive(Clone, Copy, Debug, PartialEq, Eq, Hash)]
pub enum ConfigFault {
    /// The version line isn't one line of RFC 4253 section 4.2.
    Id,
    /// A byte limit is outside 1 to 2^30.
    Limit,
    /// The sizes of a group exchange fall.
    GroupSizes,
    /// The key exchange `none` is offered.
    KexNone,
    /// An advertised list is too long.
    NameList,
    /// A host key or certificate is too long.
    HostBlob,
}

/// The kinds of algorithm that are negotiated (RFC 4253 section 7.1).
#[derive(Clone, Copy, Debug, PartialEq, Eq, Hash)]
pub enum AlgorithmKind {
    Kex,
    Key,
    Cipher,
    Compression,
    Mac,
}

/// Why a call was refused.
#[derive(Debug, PartialEq, Eq, Drop, Error)]
pub enum Error {
    /// A message doesn't fit the state of the key exchange.
    KexInit,
    /// The chosen key exchange isn't offered.
    UnknownAlgo,
    /// The two lists have no name in common.
    NoCommonAlgo {
        kind: AlgorithmKind,
        ours: NameList,
        theirs: NameList,
    },
    /// The peer's version line isn't one of RFC 4253 section 4.2.
    Version,
    /// A part of the key exchange refused.
    Kex,
    /// The message authentication code of a packet differs.
    PacketAuth,
    /// A message is out of place.
    Inconsistent,
    /// A padding is longer than its packet.
    IndexOutOfBounds,
    /// The host key isn't trusted.
    UnknownKey,
    /// The signature of the exchange hash isn't accepted.
    WrongServerSig,
    /// A packet length that is read, or a payload to be sent, of so many bytes.
    PacketSize(usize),
    /// The connection has ended or has failed.
    Disconnect,
    /// The tag of a packet under an AEAD cipher differs.
    DecryptionError,
    /// A source or a sink failed.
    IO,
    /// A message breaks the order of the strict key exchange.
    StrictKeyExchangeViolation {
        message_type: u8,
        sequence_number: usize,
    },
    /// The host key couldn't sign.
    Signature,
    /// A field of a message breaks its form.
    SshEncoding(EncodingFault),
    /// The configuration may not be used.
    InvalidConfig(ConfigFault),
    /// Memory ran out.
    Memory,
}

/// Why no version line was read. It owns no memory, so that it can stand beside a text that is lent.
#[derive(Clone, Copy, Debug, PartialEq, Eq, Hash, Error)]
pub enum IdError {
    /// No line of the peer's is a version line of RFC 4253 section 4.2 in its place.
    Version,
    /// The source ended first.
    Disconnect,
    /// The source failed, and has counted it.
    IO,
}

impl fmt::Display for Error {
    ghost use Rattle.std.specs.Prelude.{Some};
    ghost use Rattle.ssh_wire.specs.ErrorTexts.{error_message};

    ghost output = { λ e. Some (error_message e) };

    fn fmt<W: fmt::Write>(&self, f: &mut fmt::Formatter<W>) -> fmt::Result {
        match self {
            Error::KexInit => f.write_str("Key exchange init failed"),
            Error::UnknownAlgo => f.write_str("Unknown algorithm"),
            Error::NoCommonAlgo { .. } => f.write_str("No common algorithm"),
            Error::Version => f.write_str("invalid SSH version string"),
            Error::Kex => f.write_str("Key exchange failed"),
            Error::PacketAuth => f.write_str("Wrong packet authentication code"),
            Error::Inconsistent => f.write_str("Inconsistent state of the protocol"),
            Error::IndexOutOfBounds => f.write_str("Index out of bounds"),
            Error::UnknownKey => f.write_str("Unknown server key"),
            Error::WrongServerSig => f.write_str("Wrong server signature"),
            Error::PacketSize(n) => write!(f, "Bad packet size: {n}"),
            Error::Disconnect => f.write_str("Disconnected"),
            Error::DecryptionError => f.write_str("Failed to decrypt a packet"),
            Error::IO => f.write_str("IO"),
            Error::StrictKeyExchangeViolation {
                message_type,
                sequence_number,
            } => write!(
                f,
                "Violation detected during strict key exchange, message {message_type} at seq no {sequence_number}"
            ),
            Error::Signature => f.write_str("Signature"),
            Error::SshEncoding(_) => f.write_str("SshEncoding"),
            Error::InvalidConfig(_) => f.write_str("Invalid config"),
            Error::Memory => f.write_str("Want of memory"),
        }
    }
}

impl fmt::Display for IdError {
    ghost use Rattle.std.specs.Prelude.{Some};
    ghost use Rattle.ssh_wire.specs.ErrorTexts.{error_message};
    ghost use Rattle.ssh_wire.specs.IdErrors.{error_of_id};

    ghost output = { λ e. Some (error_message (error_of_id e)) };

    fn fmt<W: fmt::Write>(&self, f: &mut fmt::Formatter<W>) -> fmt::Result {
        match self {
            IdError::Version => f.write_str("invalid SSH version string"),
            IdError::Disconnect => f.write_str("Disconnected"),
            IdError::IO => f.write_str("IO"),
        }
    }
}

impl From<IdError> for Error {
    ghost use Rattle.ssh_wire.specs.IdErrors.{error_of_id};

    ghost from_gives = { λ error e. e ≡ error_of_id error };

    fn from(error: IdError) -> Error {
        match error {
            IdError::Version => Error::Version,
            IdError::Disconnect => Error::Disconnect,
            IdError::IO => Error::IO,
        }
    }
}

impl From<EncodingFault> for Error {
    ghost from_gives = { λ fault e. e ≡ SshEncoding fault };

    fn from(fault: EncodingFault) -> Error {
        Error::SshEncoding(fault)
    }
}

impl From<AllocError> for Error {
    ghost from_gives = { λ _ e. e ≡ Memory };

    fn from(_value: AllocError) -> Error {
        Error::Memory
    }
}

impl<T: Drop> From<AllocFailed<T>> for Error {
    ghost from_gives = { λ _ e. e ≡ Memory };

    fn from(_value: AllocFailed<T>) -> Error {
        Error::Memory
    }
}
