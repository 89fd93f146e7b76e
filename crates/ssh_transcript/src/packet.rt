//! What is kept of a packet.

/// A packet of a wire.
#[derive(Clone, Copy, Drop, PartialEq, Eq)]
pub struct Packet {
    /// The type of its message.
    pub message_type: u8,
    /// The length of its payload in bytes.
    pub length: u64,
    /// Where it ends on the wire, in bytes from the wire's front.
    pub end: u64,
}
