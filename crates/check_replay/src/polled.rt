//! A transport that keeps the other side's bytes in pieces, and lends its payloads.

use crate::talk::Packet;
use machine_rows::{poll_payload, rekey, submit, take_input};
use rand_core::Rng;
use ssh_kex::{Agreement, GroupLookup, HostKeys, Parts};
use ssh_transport::Transport;
use ssh_wire::Error;
use vector_rows::{Fault, Found};

/// What is still to come, and how many bytes come at once.
#[derive(Clone, Copy)]
struct Pieces<'w> {
    wire: &'w [u8],
    size: usize,
}

impl<'w> Pieces<'w> {
    /// The next piece, until none is left.
    fn next_piece(&mut self) -> Option<&'w [u8]> {
        if self.wire.is_empty() {
            return None;
        }
        let (piece, rest) = self.wire.split_at(self.size.max(1).min(self.wire.len()));
        self.wire = rest;
        Some(piece)
    }
}

/// Lets a transport send its side's payloads, and begin its exchanges, each where it stands. It keeps the peer's bytes
/// in pieces: those that it needs to the end of an exchange where one runs, and all that are left at last. The payloads
/// that it lends are appended to those that it lent; a refusal to what was found.
pub(crate) fn polled<A: Agreement, H: HostKeys, G: GroupLookup, R: Rng>(
    transport: &mut Transport<'_>,
    parts: &mut Parts<A, H, G, R>,
    packets: &[Packet],
    wire: &[u8],
    size: usize,
    lent: &mut Vec<Vec<u8>>,
    found: &Found,
) {
    let mut pieces = Pieces { wire, size };
    for packet in packets {
        if packet.is_payload() || packet.message_type() == 20 && transport.finished() > 0 {
            poll_pieces(transport, parts, false, &mut pieces, lent, found);
            if let Err(error) = send(transport, parts, packet) {
                return found.say_shown(&error);
            }
        }
    }
    poll_pieces(transport, parts, true, &mut pieces, lent, found);
}

/// Submits a packet's payload, or begins the exchange that it begins.
fn send<A: Agreement, H: HostKeys, G: GroupLookup, R: Rng>(
    transport: &mut Transport<'_>,
    parts: &mut Parts<A, H, G, R>,
    packet: &Packet,
) -> Result<(), Error> {
    if packet.is_payload() {
        submit(transport, parts, packet.payload.as_slice())
    } else {
        rekey(transport, parts)
    }
}

/// Polls, and keeps piece after piece, until the transport is outside an exchange, or to the end of all.
fn poll_pieces<A: Agreement, H: HostKeys, G: GroupLookup, R: Rng>(
    transport: &mut Transport<'_>,
    parts: &mut Parts<A, H, G, R>,
    is_last: bool,
    pieces: &mut Pieces<'_>,
    lent: &mut Vec<Vec<u8>>,
    found: &Found,
) {
    for _ in 0..=pieces.wire.len() {
        poll_kept(transport, parts, is_last, lent, found);
        if transport.failed() || !is_last && !transport.inside() {
            return;
        }
        match pieces.next_piece() {
            Some(piece) => keep_piece(transport, piece, found),
            None => return,
        }
    }
}

/// Lets a transport keep a whole piece.
fn keep_piece(transport: &mut Transport<'_>, piece: &[u8], found: &Found) {
    match take_input(transport, piece) {
        Ok(count) if count == piece.len() => {}
        _ => found.fail(Fault::Refused),
    }
}

/// Polls until nothing is lent, or until the transport is outside an exchange.
fn poll_kept<A: Agreement, H: HostKeys, G: GroupLookup, R: Rng>(
    transport: &mut Transport<'_>,
    parts: &mut Parts<A, H, G, R>,
    is_last: bool,
    lent: &mut Vec<Vec<u8>>,
    found: &Found,
) {
    for _ in 0..=transport.unfinished() {
        if !is_last && !transport.inside() || !is_lent(transport, parts, lent, found) {
            return;
        }
    }
}

/// Polls once. False where nothing is lent.
fn is_lent<A: Agreement, H: HostKeys, G: GroupLookup, R: Rng>(
    transport: &mut Transport<'_>,
    parts: &mut Parts<A, H, G, R>,
    lent: &mut Vec<Vec<u8>>,
    found: &Found,
) -> bool {
    match poll_payload(transport, parts, found) {
        Ok(Some(payload)) => {
            if lent.push(payload).is_err() {
                found.fail(Fault::Memory);
            }
            true
        }
        Ok(None) => false,
        Err(fault) => {
            found.fail(fault);
            false
        }
    }
}
