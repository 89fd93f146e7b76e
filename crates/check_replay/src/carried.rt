//! Rows of recorded connections: a transport of one side, fed the other side's bytes, or polled over them.

use crate::given::{Given, give_all, parts_drawing};
use crate::polled::polled;
use crate::replay::{cookie_of, set_up};
use crate::talk::{Packet, Talk};
use machine_rows::{feed, rekey, side_of, submit};
use rand_core::Rng;
use ssh_kex::{Agreement, Config, GroupLookup, HostKeys, Parts};
use ssh_transport::Transport;
use ssh_wire::{Error, Side};
use std::alloc::Global;
use vector_rows::{Fault, Found, Row, words_of};

/// `carried SIDE`: the connection whose packets stand before, by a transport of the side whose KEXINIT was written from
/// its own preferences. It is fed the peer's bytes one by one, and submits the side's payloads in their places: the
/// hash of each exchange, how many payloads were delivered, and how many bytes were written. In their place stands a
/// refusal, or what was otherwise than recorded: `exchanges`, `delivered` or `wrote`. The side's own DISCONNECT isn't
/// sent; `disconnected` stands behind where the peer's came.
pub(crate) fn answer_carried(talk: &Talk, row: &Row<'_>, found: &Found) -> Result<(), Fault> {
    say_connection(talk, side_of(row), None, found)
}

/// `polled SIDE SIZE`: the same, where the transport keeps the peer's bytes in pieces of this size, and lends each
/// payload; `queued` stands behind the number of bytes where any is delivered too.
pub(crate) fn answer_polled(talk: &Talk, row: &Row<'_>, found: &Found) -> Result<(), Fault> {
    let side = side_of(row);
    say_connection(talk, side, Some(row.count()), found)
}

/// Appends what a transport of a side makes of the connection, which polls where pieces have a size.
fn say_connection(
    talk: &Talk,
    side: Side,
    size: Option<usize>,
    found: &Found,
) -> Result<(), Fault> {
    let (own, _) = talk.sides(side);
    let words = drawn_by(found.alloc(), own.packets.as_slice())?;
    say_connection_drawing(talk, side, size, words.as_slice(), found)
}

/// The same where the side draws these words.
fn say_connection_drawing(
    talk: &Talk,
    side: Side,
    size: Option<usize>,
    words: &[u32],
    found: &Found,
) -> Result<(), Fault> {
    let mut parts = parts_drawing(found.alloc(), words);
    found.note(give_all(&mut parts, side, talk.agreed.as_slice()));
    say_connection_by(talk, side, size, &mut parts, found)
}

/// The same with these parts.
fn say_connection_by(
    talk: &Talk,
    side: Side,
    size: Option<usize>,
    parts: &mut Given<'_>,
    found: &Found,
) -> Result<(), Fault> {
    let config = connection_set_up(found.alloc(), talk, side)?;
    say_connection_under(talk, side, size, &config, parts, found)
}

/// How a side was set up for the whole connection.
pub(crate) fn connection_set_up(alloc: Global, talk: &Talk, side: Side) -> Result<Config, Fault> {
    let (own, _) = talk.sides(side);
    match talk.agreed.first() {
        Some(agreed) => set_up(
            alloc,
            side,
            own,
            own.packets.as_slice(),
            agreed.host.as_slice(),
        ),
        None => Err(Fault::Malformed),
    }
}

/// The same under this configuration.
fn say_connection_under(
    talk: &Talk,
    side: Side,
    size: Option<usize>,
    config: &Config,
    parts: &mut Given<'_>,
    found: &Found,
) -> Result<(), Fault> {
    match transport_of(found.alloc(), side, config) {
        Ok(mut transport) => {
            say_outcome(talk, side, size, &mut transport, parts, found);
            Ok(())
        }
        Err(error) => Err(Fault::from(error)),
    }
}

/// A transport of a side.
pub(crate) fn transport_of<'c>(
    alloc: Global,
    side: Side,
    config: &'c Config,
) -> Result<Transport<'c>, Error> {
    match side {
        Side::Client => Transport::client(alloc, config),
        Side::Server => Transport::server(alloc, config),
    }
}

/// Appends what a new transport makes of the connection.
fn say_outcome(
    talk: &Talk,
    side: Side,
    size: Option<usize>,
    transport: &mut Transport<'_>,
    parts: &mut Given<'_>,
    found: &Found,
) {
    let mut payloads = Vec::new(found.alloc());
    let refusal = Found::new(found.alloc());
    carry(talk, side, size, transport, parts, &mut payloads, &refusal);
    if let Some(fault) = refusal.fault() {
        found.fail(fault);
    }
    match refusal.into_text().as_str() {
        "" => say_carried(talk, side, transport, payloads.as_slice(), found),
        "Disconnect" => {
            say_carried(talk, side, transport, payloads.as_slice(), found);
            found.say("disconnected");
        }
        other => found.say(other),
    }
}

/// Appends the payloads that a new transport delivers or lends, and its refusal where there is one.
fn carry(
    talk: &Talk,
    side: Side,
    size: Option<usize>,
    transport: &mut Transport<'_>,
    parts: &mut Given<'_>,
    payloads: &mut Vec<Vec<u8>>,
    refusal: &Found,
) {
    let (own, peer) = talk.sides(side);
    let packets = own.packets.as_slice();
    let mut wire = peer.wire.as_slice();
    match size {
        Some(size) => polled(transport, parts, packets, wire, size, payloads, refusal),
        None => {
            if let Err(error) = carried(transport, parts, packets, &mut wire) {
                refusal.say_shown(&error);
            }
            refusal.note(take_delivered(transport, payloads));
        }
    }
}

/// Appends the payloads that a transport delivered.
pub(crate) fn take_delivered(
    transport: &mut Transport<'_>,
    payloads: &mut Vec<Vec<u8>>,
) -> Result<(), Fault> {
    for payload in transport.take_delivered().as_slice() {
        payloads.push(Vec::from_slice(*payloads.allocator(), payload.as_slice())?)?;
    }
    Ok(())
}

/// The words that a side draws: the cookie of each KEXINIT, and the padding of each packet.
pub(crate) fn drawn_by(alloc: Global, packets: &[Packet]) -> Result<Vec<u32>, Fault> {
    let mut words = Vec::new(alloc);
    for (i, packet) in packets.iter().enumerate() {
        if packet.message_type() == 20 {
            draw(&mut words, cookie_of(&packets[i..])?)?;
        }
        draw(&mut words, packet.padding.as_slice())?;
    }
    Ok(words)
}

/// Appends the words that give these bytes.
fn draw(words: &mut Vec<u32>, bytes: &[u8]) -> Result<(), Fault> {
    words.extend_from_slice(words_of(*words.allocator(), bytes)?.as_slice())?;
    Ok(())
}

/// Lets a transport send its side's payloads, and begin its exchanges, each where it stands, and feeds it the peer's
/// bytes: those up to the end of an exchange where one runs, and all that are left at last.
pub(crate) fn carried<A: Agreement, H: HostKeys, G: GroupLookup, R: Rng>(
    transport: &mut Transport<'_>,
    parts: &mut Parts<A, H, G, R>,
    packets: &[Packet],
    wire: &mut &[u8],
) -> Result<(), Error> {
    for packet in packets {
        if packet.is_payload() {
            feed_exchange(transport, parts, wire)?;
            submit(transport, parts, packet.payload.as_slice())?;
        } else if packet.message_type() == 20 && transport.finished() > 0 {
            feed_exchange(transport, parts, wire)?;
            rekey(transport, parts)?;
        }
    }
    feed(transport, parts, *wire)
}

/// Feeds a transport byte by byte until it is outside an exchange, or no byte is left.
fn feed_exchange<A: Agreement, H: HostKeys, G: GroupLookup, R: Rng>(
    transport: &mut Transport<'_>,
    parts: &mut Parts<A, H, G, R>,
    wire: &mut &[u8],
) -> Result<(), Error> {
    for _ in 0..wire.len() {
        if !transport.inside() {
            return Ok(());
        }
        let Some((byte, rest)) = wire.split_at_checked(1) else {
            return Ok(());
        };
        feed(transport, parts, byte)?;
        *wire = rest;
    }
    Ok(())
}

/// Appends what was carried, with these payloads, or what was otherwise.
fn say_carried(
    talk: &Talk,
    side: Side,
    transport: &mut Transport<'_>,
    payloads: &[Vec<u8>],
    found: &Found,
) {
    let (own, peer) = talk.sides(side);
    say_exchanges(talk, transport, found);
    if !are_sent(payloads, peer.packets.as_slice()) {
        found.say("delivered");
    }
    found.say_number(payloads.len() as u64);
    if !own.wire.as_slice().starts_with(transport.output()) {
        found.say("wrote");
    }
    found.say_number(transport.output().len() as u64);
    if !transport.take_delivered().as_slice().is_empty() {
        found.say("queued");
    }
}

/// Appends the hash of each exchange, or what was otherwise.
fn say_exchanges(talk: &Talk, transport: &Transport<'_>, found: &Found) {
    if transport.finished() != talk.agreed.len() {
        found.say("exchanges");
    }
    for (i, agreed) in talk.agreed.iter().enumerate() {
        if i < transport.finished() {
            let exchange = transport.exchange(i + 1);
            found.say_bytes(exchange.hash.as_bytes());
            if exchange.hash != agreed.hash {
                found.say("exchanges");
            }
        }
    }
}

/// Whether these are the payloads among the packets.
pub(crate) fn are_sent(payloads: &[Vec<u8>], packets: &[Packet]) -> bool {
    let mut sent = packets.iter().filter(|packet| packet.is_payload());
    for payload in payloads {
        if !sent
            .next()
            .is_some_and(|packet| packet.payload.as_slice() == payload.as_slice())
        {
            return false;
        }
    }
    sent.next().is_none()
}
