//! What is answered to a message.

use ssh_wire::{Blob, Disconnect, Error};

/// The answer to a payload that was delivered.
#[derive(Debug, Drop)]
pub enum ServiceAnswer {
    /// The service is granted, by this message, which is to be submitted.
    Accepted(Blob),
    /// The service isn't granted. The reason is one to disconnect for (RFC 4253 section 10).
    Refused(Disconnect),
    /// The peer's extensions, which are told once.
    Extensions,
    /// A message of authentication, of channels or of a later protocol, which is for another layer.
    Other,
    /// No message that may come here, with its fault.
    Bad(Error),
}
