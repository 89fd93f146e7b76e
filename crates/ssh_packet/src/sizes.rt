//! The sizes of packets, in bytes. Each goes by its definition in `specs/Sealing.antt`.

/// What stands before a payload: the packet length, and the padding length's byte (`head_length`).
pub(crate) const HEAD: usize = 5;

/// The longest packet length that is read (`longest_packet`).
pub(crate) const LONGEST_PACKET: usize = 262177;

/// The longest payload that is sent (`longest_payload`).
pub(crate) const LONGEST_PAYLOAD: usize = 262157;

/// The longest padding that is written (`longest_padding`).
pub(crate) const LONGEST_PADDING: usize = 19;

/// What a packet has at most beside payload and tag, rounded up (`room_beside`).
pub(crate) const ROOM_BESIDE: usize = 37;

/// What a reader's window holds: a packet length, the longest packet, the longest tag (`window_length`).
pub(crate) const WINDOW: usize = 262245;
