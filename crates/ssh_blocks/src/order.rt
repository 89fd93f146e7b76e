//! The types of a side's messages in one exchange, and how many of them are due.

ghost use Rattle.std.specs.Prelude.{◌≡◌, ◌≢◌, ◌<◌, ◌+◌, false, length, slice_get, IsTrue, Some};
ghost use Rattle.ssh_packet.specs.Stream.{message_type as message_type_of};
ghost use Rattle.ssh_rules.specs.Marks.{due};
ghost use Rattle.ssh_rules.specs.MessageTypes as message_types;

use ssh_wire::{Side, msg};

const CLIENT_PLAIN: &[u8] = &[msg::KEXINIT, msg::KEX_ECDH_INIT, msg::NEWKEYS];

const CLIENT_GROUP: &[u8] = &[
    msg::KEXINIT,
    msg::KEX_DH_GEX_REQUEST,
    msg::KEX_DH_GEX_INIT,
    msg::NEWKEYS,
];

const SERVER_PLAIN: &[u8] = &[msg::KEXINIT, msg::KEX_ECDH_REPLY, msg::NEWKEYS];

const SERVER_GROUP: &[u8] = &[
    msg::KEXINIT,
    msg::KEX_DH_GEX_GROUP,
    msg::KEX_DH_GEX_REPLY,
    msg::NEWKEYS,
];

/// The types of a side's messages in one exchange, in their order; `kind` says whether it is a group exchange
/// (RFC 4253 sections 7 and 8, RFC 4419 section 3).
pub fn order_of(side: Side, kind: bool) -> &'static [u8]
    ensures { result.now ≡ message_types.order side kind }
{
    match (side, kind) {
        (Side::Client, false) => CLIENT_PLAIN,
        (Side::Client, true) => CLIENT_GROUP,
        (Side::Server, false) => SERVER_PLAIN,
        (Side::Server, true) => SERVER_GROUP,
    }
}

/// Whether messages of the type are handed up: 5 to 7, and from 50 on.
pub fn is_payload_type(message_type: u8) -> bool
    ensures { result ≡ message_types.is_payload_type message_type }
{
    (5 <= message_type && message_type <= 7) || 50 <= message_type
}

/// How many messages a side has to have written in an exchange, when so many of the other's were read.
pub fn messages_due(side: Side, kind: bool, read: usize) -> usize
    ensures { result ≡ due side kind read }
{
    match (side, kind, read) {
        (_, _, 0) => 1,
        (Side::Client, _, 1) => 2,
        (Side::Client, _, 2) => 3,
        (Side::Client, false, _) => 3,
        (Side::Client, true, _) => 4,
        (Side::Server, _, 1) => 1,
        (Side::Server, false, _) => 3,
        (Side::Server, true, 2) => 2,
        (Side::Server, true, _) => 4,
    }
}

/// The type of a message: its first byte, 0 where it has none.
pub(crate) fn type_of(payload: &[u8]) -> u8
    ensures { result ≡ message_type_of payload.now }
{
    match payload.first() {
        Some(first) => *first,
        None => 0,
    }
}

/// Whether an order has the type at a place.
pub(crate) fn is_due(order: &[u8], place: usize, message_type: u8) -> bool
    ensures due { IsTrue result → slice_get order.now place ≡ Some message_type }
    ensures other { result ≡ false → slice_get order.now place ≢ Some message_type }
{
    match order.get(place) {
        Some(due) => *due == message_type,
        None => false,
    }
}
