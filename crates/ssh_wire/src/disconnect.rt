//! Why a connection is ended (RFC 4253 section 11.1).

use crate::error::Error;

/// The reason codes of a disconnection, 1 to 15 in this order.
#[derive(Clone, Copy, Debug, PartialEq, Eq, Hash)]
pub enum Disconnect {
    HostNotAllowedToConnect = 1,
    ProtocolError = 2,
    KeyExchangeFailed = 3,
    Reserved = 4,
    MACError = 5,
    CompressionError = 6,
    ServiceNotAvailable = 7,
    ProtocolVersionNotSupported = 8,
    HostKeyNotVerifiable = 9,
    ConnectionLost = 10,
    ByApplication = 11,
    TooManyConnections = 12,
    AuthCancelledByUser = 13,
    NoMoreAuthMethodsAvailable = 14,
    IllegalUserName = 15,
}

impl Disconnect {
    ghost use Rattle.std.specs.Prelude.{◌≡◌};
    ghost use Rattle.ssh_wire.specs.Reasons.{reason_code};

    /// The reason code.
    pub fn code(self) -> u32
        ensures { result ≡ reason_code self }
    {
        self as u32
    }
}

impl TryFrom<u32> for Disconnect {
    type Error = Error;

    ghost use Rattle.ssh_wire.specs.Reasons.{IsReasonOf};

    /// Inconsistent for a number that is no reason.
    ghost try_from_gives = { λ value result. IsReasonOf value result };

    fn try_from(value: u32) -> Result<Disconnect, Error> {
        let reason = match value {
            1 => Disconnect::HostNotAllowedToConnect,
            2 => Disconnect::ProtocolError,
            3 => Disconnect::KeyExchangeFailed,
            4 => Disconnect::Reserved,
            5 => Disconnect::MACError,
            6 => Disconnect::CompressionError,
            7 => Disconnect::ServiceNotAvailable,
            8 => Disconnect::ProtocolVersionNotSupported,
            9 => Disconnect::HostKeyNotVerifiable,
            10 => Disconnect::ConnectionLost,
            11 => Disconnect::ByApplication,
            12 => Disconnect::TooManyConnections,
            13 => Disconnect::AuthCancelledByUser,
            14 => Disconnect::NoMoreAuthMethodsAvailable,
            15 => Disconnect::IllegalUserName,
            _ => return Err(Error::Inconsistent),
        };
        Ok(reason)
    }
}
