//! Rows of connections that were damaged on the way: a transport of one side, fed the other side's bytes with a packet
//! changed, left out, doubled, or swapped with the next.

use crate::carried::{
    are_sent, carried, connection_set_up, drawn_by, take_delivered, transport_of,
};
use crate::given::{Given, give_all, parts_drawing};
use crate::place::Place;
use crate::talk::{Packet, Talk};
use machine_rows::side_of;
use ssh_kex::Config;
use ssh_transport::Transport;
use ssh_wire::Side;
use std::alloc::Global;
use vector_rows::{Fault, Found, Row};

/// What is done to a packet: one bit is flipped in its packet length, its padding length, the middle of its payload,
/// its padding, or its tag; or it doesn't come, comes twice, or comes behind the next.
#[derive(Clone, Copy, PartialEq, Eq)]
enum Damage {
    Length,
    PaddingLength,
    Payload,
    Padding,
    Tag,
    LeftOut,
    Doubled,
    Swapped,
}

const DAMAGES: [(Damage, &str); 8] = [
    (Damage::Length, "length"),
    (Damage::PaddingLength, "padding_length"),
    (Damage::Payload, "payload"),
    (Damage::Padding, "padding"),
    (Damage::Tag, "tag"),
    (Damage::LeftOut, "left_out"),
    (Damage::Doubled, "doubled"),
    (Damage::Swapped, "swapped"),
];

/// What became of trials: how many there were, and in how many the whole connection was delivered nevertheless, or
/// something else than the payloads before the damage.
#[derive(Clone, Copy)]
struct Tally {
    trials: u64,
    unnoticed: u64,
    otherwise: u64,
}

impl Tally {
    /// Counts a trial by the payloads that it delivered, where these packets stand before the damage, and all.
    fn count(&mut self, payloads: &[Vec<u8>], before: &[Packet], all: &[Packet]) {
        self.trials = self.trials.saturating_add(1);
        if are_sent(payloads, before) {
            return;
        }
        if are_sent(payloads, all) {
            self.unnoticed = self.unnoticed.saturating_add(1);
        } else {
            self.otherwise = self.otherwise.saturating_add(1);
        }
    }
}

/// `damaged SIDE`: the connection whose packets stand before, by transports of the side, each fed the peer's bytes with
/// one of its packets damaged. For each damage: how many trials there were, and in how many nobody noticed it and the
/// payloads were delivered as they were sent. In all others exactly those were delivered that stand before the damage;
/// where it was otherwise, `otherwise` and in how many trials stand behind.
pub(crate) fn answer_damaged(talk: &Talk, row: &Row<'_>, found: &Found) -> Result<(), Fault> {
    let side = side_of(row);
    let (own, _) = talk.sides(side);
    let words = drawn_by(row.alloc(), own.packets.as_slice())?;
    say_damages(talk, side, words.as_slice(), found)
}

/// Appends what became of the trials of each damage, where the side draws these words.
fn say_damages(talk: &Talk, side: Side, words: &[u32], found: &Found) -> Result<(), Fault> {
    let config = connection_set_up(found.alloc(), talk, side)?;
    say_damages_under(talk, side, &config, words, found);
    Ok(())
}

/// The same under this configuration.
fn say_damages_under(talk: &Talk, side: Side, config: &Config, words: &[u32], found: &Found) {
    for (damage, name) in DAMAGES {
        let mut tally = Tally {
            trials: 0,
            unnoticed: 0,
            otherwise: 0,
        };
        found.note(try_all(talk, side, config, words, damage, &mut tally));
        found.say(name);
        say_tally(tally, found);
    }
}

/// Appends what became of trials.
fn say_tally(tally: Tally, found: &Found) {
    found.say_number(tally.trials);
    found.say_number(tally.unnoticed);
    if tally.otherwise > 0 {
        found.say("otherwise");
        found.say_number(tally.otherwise);
    }
}

/// Counts what becomes of the trials of a damage: one for each packet of the peer that can have it.
fn try_all(
    talk: &Talk,
    side: Side,
    config: &Config,
    words: &[u32],
    damage: Damage,
    tally: &mut Tally,
) -> Result<(), Fault> {
    let alloc = *talk.agreed.allocator();
    let (_, peer) = talk.sides(side);
    let packets = peer.packets.as_slice();
    for i in 0..packets.len() {
        if let Some(wire) = damaged(alloc, peer.wire.as_slice(), packets, i, damage)? {
            let payloads = delivered(talk, side, config, words, wire.as_slice())?;
            tally.count(payloads.as_slice(), before(packets, i, damage), packets);
        }
    }
    Ok(())
}

/// The packets that stand before the damage of the one with this index: of a doubled one the first does.
fn before(packets: &[Packet], i: usize, damage: Damage) -> &[Packet] {
    let whole = match damage {
        Damage::Doubled => i.saturating_add(1),
        _ => i,
    };
    match packets.split_at_checked(whole) {
        Some((front, _)) => front,
        None => packets,
    }
}

/// The payloads that a transport of the side delivers, fed these bytes in the peer's place.
fn delivered(
    talk: &Talk,
    side: Side,
    config: &Config,
    words: &[u32],
    wire: &[u8],
) -> Result<Vec<Vec<u8>>, Fault> {
    let mut parts = parts_drawing(*talk.agreed.allocator(), words);
    give_all(&mut parts, side, talk.agreed.as_slice())?;
    delivered_by(talk, side, config, &mut parts, wire)
}

/// The payloads that it delivers with these parts.
fn delivered_by(
    talk: &Talk,
    side: Side,
    config: &Config,
    parts: &mut Given<'_>,
    wire: &[u8],
) -> Result<Vec<Vec<u8>>, Fault> {
    match transport_of(*talk.agreed.allocator(), side, config) {
        Ok(mut transport) => delivered_through(talk, side, &mut transport, parts, wire),
        Err(error) => Err(Fault::from(error)),
    }
}

/// The payloads that a new transport delivers until it refuses, or to the end of these bytes.
fn delivered_through(
    talk: &Talk,
    side: Side,
    transport: &mut Transport<'_>,
    parts: &mut Given<'_>,
    wire: &[u8],
) -> Result<Vec<Vec<u8>>, Fault> {
    let (own, _) = talk.sides(side);
    let mut rest = wire;
    let ended = carried(transport, parts, own.packets.as_slice(), &mut rest);
    if ended.is_ok() == transport.failed() {
        return Err(Fault::Refused);
    }
    let mut payloads = Vec::new(*talk.agreed.allocator());
    take_delivered(transport, &mut payloads)?;
    Ok(payloads)
}

/// The wire with a packet damaged. None where that can't be: a packet in clear has no tag, and the last one no next.
fn damaged(
    alloc: Global,
    wire: &[u8],
    packets: &[Packet],
    i: usize,
    damage: Damage,
) -> Result<Option<Vec<u8>>, Fault> {
    let place = place_of(packets, i)?;
    match damage {
        Damage::LeftOut | Damage::Doubled | Damage::Swapped => {
            moved(alloc, wire, packets, i, damage)
        }
        Damage::Tag if place.tag >= place.end => Ok(None),
        _ => flipped(alloc, wire, i, flipped_at(place, i, damage)),
    }
}

/// The wire without the packet of this index, with it twice, or with it behind the next.
fn moved(
    alloc: Global,
    wire: &[u8],
    packets: &[Packet],
    i: usize,
    damage: Damage,
) -> Result<Option<Vec<u8>>, Fault> {
    let place = place_of(packets, i)?;
    let (front, rest) = cut(wire, place.start)?;
    let (packet, behind) = cut(rest, place.size())?;
    match damage {
        Damage::LeftOut => joined(alloc, [front, behind, b"", b""]),
        Damage::Doubled => joined(alloc, [front, packet, packet, behind]),
        _ => match packets.get(i.saturating_add(1)) {
            Some(next) => {
                let (second, last) = cut(behind, next.place.size())?;
                joined(alloc, [front, second, packet, last])
            }
            None => Ok(None),
        },
    }
}

/// The wire with a bit of this byte flipped: the index of the packet says which.
fn flipped(alloc: Global, wire: &[u8], i: usize, at: usize) -> Result<Option<Vec<u8>>, Fault> {
    let mut bytes = Vec::from_slice(alloc, wire)?;
    if let Some(byte) = bytes.get_mut(at) {
        *byte ^= 1 << (i % 8) as u32;
    }
    Ok(Some(bytes))
}

/// At which byte a bit is flipped of the packet of this index, which also says which bit it is.
fn flipped_at(place: Place, i: usize, damage: Damage) -> usize {
    match damage {
        Damage::Length => place.start.saturating_add(i % 4),
        Damage::PaddingLength => place.start.saturating_add(4),
        Damage::Padding => place.padding,
        Damage::Tag => {
            let length = place.end.saturating_sub(place.tag).max(1);
            place.tag.saturating_add(i % length)
        }
        _ => {
            let payload = place.start.saturating_add(5);
            payload.saturating_add(place.padding.saturating_sub(payload) / 2)
        }
    }
}

/// Where a packet stands.
fn place_of(packets: &[Packet], i: usize) -> Result<Place, Fault> {
    match packets.get(i) {
        Some(packet) => Ok(packet.place),
        None => Err(Fault::Malformed),
    }
}

/// The first so many bytes, and the rest.
fn cut(bytes: &[u8], at: usize) -> Result<(&[u8], &[u8]), Fault> {
    match bytes.split_at_checked(at) {
        Some(parts) => Ok(parts),
        None => Err(Fault::Malformed),
    }
}

/// Four pieces, one behind the other.
fn joined(alloc: Global, pieces: [&[u8]; 4]) -> Result<Option<Vec<u8>>, Fault> {
    let mut bytes = Vec::new(alloc);
    for piece in pieces {
        bytes.extend_from_slice(piece)?;
    }
    Ok(Some(bytes))
}
