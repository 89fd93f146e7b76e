//! The types of messages (RFC 4250 section 4.1.2).

ghost use Rattle.std.specs.Prelude.{◌≡◌, ◌&&◌, nat_le};
ghost use Rattle.ssh_packet.specs.Stream.{message_type};
ghost use Rattle.ssh_rules.specs.MessageTypes.{is_payload_type};

/// The longest payload that is sent, in bytes.
pub(crate) const LONGEST_PAYLOAD: usize = 262157;

/// How much is kept of the input at most, in bytes: the longest packet with its tag.
pub(crate) const LONGEST_INPUT: usize = 262245;

/// The type of a message, its first byte.
pub(crate) fn type_of(payload: &[u8]) -> u8
    ensures { result ≡ message_type payload.now }
{
    match payload.first() {
        Some(first) => *first,
        None => 0,
    }
}

/// Whether a message is handed up and may be submitted: 5 to 7, or 50 and above.
pub(crate) fn is_payload(message_type: u8) -> bool
    ensures { result ≡ is_payload_type message_type }
{
    (5 <= message_type && message_type <= 7) || 50 <= message_type
}

/// Whether a message is let pass: IGNORE, UNIMPLEMENTED, DEBUG (RFC 4253 section 11).
pub(crate) fn is_idle(message_type: u8) -> bool
    ensures { result ≡ (nat_le 2 message_type && nat_le message_type 4) }
{
    2 <= message_type && message_type <= 4
}
