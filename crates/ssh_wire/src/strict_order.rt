//! The messages of a key exchange, and their order in the first one under the strict key exchange.

ghost use Rattle.std.specs.Prelude.{◌≡◌};
ghost use Rattle.ssh_wire.specs.Orders.{is_kex, client_orders, server_orders, violates, order_answer};

use crate::error::Error;
use crate::msg::{
    KEX_DH_GEX_INIT, KEX_DH_GEX_REPLY, KEX_DH_GEX_REQUEST, KEX_ECDH_INIT, KEX_ECDH_REPLY, KEXINIT,
    NEWKEYS,
};

/// Whether a message belongs to a key exchange (RFC 4250 section 4.1.1).
pub fn is_kex_msg(msg: u8) -> bool
    ensures { result ≡ is_kex msg }
{
    matches!(
        msg,
        KEXINIT
            | NEWKEYS
            | KEX_ECDH_INIT
            | KEX_ECDH_REPLY
            | KEX_DH_GEX_INIT
            | KEX_DH_GEX_REPLY
            | KEX_DH_GEX_REQUEST
    )
}

/// A client's message in its place, counted from 0. StrictKeyExchangeViolation with both where some order
/// reaches the place and none has the message there.
pub fn validate_client_msg_strict_kex(msg_type: u8, seqno: usize) -> Result<(), Error>
    ensures { result ≡ order_answer client_orders msg_type seqno }
{
    if breaks_client_order(msg_type, seqno) {
        return Err(violation(msg_type, seqno));
    }
    Ok(())
}

/// A server's message in its place, counted from 0. StrictKeyExchangeViolation with both where some order
/// reaches the place and none has the message there.
pub fn validate_server_msg_strict_kex(msg_type: u8, seqno: usize) -> Result<(), Error>
    ensures { result ≡ order_answer server_orders msg_type seqno }
{
    if breaks_server_order(msg_type, seqno) {
        return Err(violation(msg_type, seqno));
    }
    Ok(())
}

fn breaks_client_order(msg_type: u8, seqno: usize) -> bool
    ensures { result ≡ violates client_orders msg_type seqno }
{
    match seqno {
        0 => msg_type != KEXINIT,
        1 => msg_type != KEX_ECDH_INIT && msg_type != KEX_DH_GEX_REQUEST,
        2 => msg_type != NEWKEYS && msg_type != KEX_DH_GEX_INIT,
        3 => msg_type != NEWKEYS,
        _ => false,
    }
}

fn breaks_server_order(msg_type: u8, seqno: usize) -> bool
    ensures { result ≡ violates server_orders msg_type seqno }
{
    match seqno {
        0 => msg_type != KEXINIT,
        1 => msg_type != KEX_ECDH_REPLY,
        2 => msg_type != NEWKEYS && msg_type != KEX_DH_GEX_REPLY,
        3 => msg_type != NEWKEYS,
        _ => false,
    }
}

fn violation(message_type: u8, sequence_number: usize) -> Error
    ensures { result ≡ Error.StrictKeyExchangeViolation message_type sequence_number }
{
    Error::StrictKeyExchangeViolation {
        message_type,
        sequence_number,
    }
}
