//! Rows of recorded connections. Each direction is opened whole and byte by byte, and sealed again.

use crate::keys::Material;
use crate::lines::hear;
use crate::shared::{is_first_of, say_other};
use ssh_packet::{OpenKey, PacketReader, PacketWriter, clear};
use ssh_wire::{Error, IdProgress, ReadSshIdBuffer};
use std::alloc::{AllocError, Global};
use vector_rows::{Fault, Found, Row, Words, words_of};

/// A direction of a connection.
#[derive(Drop)]
struct Direction {
    wire: Vec<u8>,
    /// How many bytes were opened.
    place: usize,
    whole: PacketReader,
    whole_key: OpenKey,
    cut: PacketReader,
    cut_key: OpenKey,
    writer: PacketWriter,
}

impl Direction {
    fn new(alloc: Global) -> Direction {
        Direction {
            wire: Vec::new(alloc),
            place: 0,
            whole: PacketReader::new(alloc),
            whole_key: OpenKey::Clear(clear::Key),
            cut: PacketReader::new(alloc),
            cut_key: OpenKey::Clear(clear::Key),
            writer: PacketWriter::clear(alloc),
        }
    }
}

/// A connection that rows before this one began.
#[derive(Drop)]
pub(crate) struct Connection {
    client_to_server: Direction,
    server_to_client: Direction,
    is_strict: bool,
}

impl Connection {
    /// A connection of which nothing is known.
    pub(crate) fn new(alloc: Global) -> Connection {
        Connection {
            client_to_server: Direction::new(alloc),
            server_to_client: Direction::new(alloc),
            is_strict: false,
        }
    }
}

/// Answers a row of one of these kinds. False where the kind is another.
pub(crate) fn answer(
    kind: &str,
    connection: &mut Connection,
    row: &Row<'_>,
    found: &Found,
) -> bool {
    match kind {
        "connection" => begin(connection, row, found),
        "wire" | "keys" | "packet" | "padded" | "left" => {
            answer_of_direction(kind, connection, row, found);
        }
        _ => return false,
    }
    true
}

/// The same of the kinds that are of a direction: its name is the first word, `c2s` or `s2c`.
fn answer_of_direction(kind: &str, connection: &mut Connection, row: &Row<'_>, found: &Found) {
    let is_strict = connection.is_strict;
    let direction = if is_first_of(row, "c2s", "s2c") {
        &mut connection.client_to_server
    } else {
        &mut connection.server_to_client
    };
    let outcome = match kind {
        "wire" => wire(direction, row, found),
        "packet" => packet(direction, true, row, found),
        "padded" => packet(direction, false, row, found),
        "keys" => return keys(direction, is_strict, row, found),
        _ => return left(direction, found),
    };
    found.note(outcome);
}

/// `connection ORDER`: what follows is of another connection, with `strict` key exchange or a `plain` one.
fn begin(connection: &mut Connection, row: &Row<'_>, found: &Found) {
    *connection = Connection::new(row.alloc());
    connection.is_strict = is_first_of(row, "strict", "plain");
    found.say("begun");
}

/// `wire DIRECTION BYTES`: all bytes of a direction. How many the version line has, and its text; `cut` with the same
/// byte by byte where that is another.
fn wire(direction: &mut Direction, row: &Row<'_>, found: &Found) -> Result<(), Fault> {
    let bytes = row.bytes();
    hear(bytes, true, found);
    if let Ok(IdProgress::Id { used }) = ReadSshIdBuffer::new().feed(bytes, true) {
        direction.whole.push(bytes.get(used..).unwrap_or(b""))?;
        direction.place = used;
    }
    direction.wire = Vec::from_slice(row.alloc(), bytes)?;
    Ok(())
}

/// `keys DIRECTION CIPHER MAC KEY NONCE MACKEY`: the keys of what follows.
fn keys(direction: &mut Direction, is_strict: bool, row: &Row<'_>, found: &Found) {
    let material = Material::of(row);
    direction.whole_key = material.opening();
    direction.cut_key = material.opening();
    direction.writer.set_cipher(material.sealing());
    direction.whole.reset_bytes();
    direction.cut.reset_bytes();
    if is_strict {
        direction.whole.reset_seqn();
        direction.cut.reset_seqn();
        direction.writer.reset_seqn();
    }
    found.say("set");
}

/// `packet DIRECTION PADDING`: the next packet's number plus one and its payload, or why there is none. `cut` where
/// it is found otherwise byte by byte, `sealed` with the packet that the payload and this padding seal to where that
/// is another, and `counts` where the ends count another number of bytes. `padded` is a packet in clear whose
/// padding its sender drew, and which a writer seals with zeros.
fn packet(
    direction: &mut Direction,
    is_sealed_again: bool,
    row: &Row<'_>,
    found: &Found,
) -> Result<(), Fault> {
    let words = words_of(row.alloc(), row.bytes())?;
    let waiting = direction.whole.waiting();
    let Some(payload) = next_payload(direction, found)? else {
        return Ok(());
    };
    let opened = waiting.saturating_sub(direction.whole.waiting());
    let sealed = next_on_wire(direction, opened, row.alloc())?;
    if !is_found_cut(direction, sealed.as_slice(), payload.as_slice())? {
        found.say("cut");
    }
    seal_again(direction, words.as_slice(), payload.as_slice())?;
    if is_sealed_again {
        say_other(
            found,
            "sealed",
            direction.writer.output(),
            sealed.as_slice(),
        );
    }
    say_counts(direction, found);
    Ok(())
}

/// The next packet's payload. Appends its number plus one and its payload, or why there is none.
fn next_payload(direction: &mut Direction, found: &Found) -> Result<Option<Vec<u8>>, Fault> {
    match direction.whole.next(&mut direction.whole_key) {
        Ok(Some(incoming)) => {
            found.say_number(u64::from(incoming.seqn));
            found.say_bytes(incoming.payload);
            return Ok(Some(Vec::from_slice(found.alloc(), incoming.payload)?));
        }
        Ok(None) => found.say("more"),
        Err(error) => found.say_shown(&error),
    }
    Ok(None)
}

/// The next so many bytes of the wire, which are opened.
fn next_on_wire(
    direction: &mut Direction,
    opened: usize,
    alloc: Global,
) -> Result<Vec<u8>, AllocError> {
    let place = direction.place;
    direction.place = place.saturating_add(opened);
    let bytes = direction.wire.get(place..direction.place).unwrap_or(b"");
    Vec::from_slice(alloc, bytes)
}

/// Whether the payload comes behind the last byte of its packet, and none before.
fn is_found_cut(direction: &mut Direction, sealed: &[u8], payload: &[u8]) -> Result<bool, Fault> {
    let mut left = sealed.len();
    for piece in sealed.chunks(1) {
        left = left.saturating_sub(1);
        direction.cut.push(piece)?;
        match direction.cut.next(&mut direction.cut_key) {
            Ok(Some(incoming)) => return Ok(left == 0 && incoming.payload == payload),
            Ok(None) => {}
            Err(_) => return Ok(false),
        }
    }
    Ok(false)
}

/// Seals a payload in place of what was sealed before.
fn seal_again(direction: &mut Direction, words: &[u32], payload: &[u8]) -> Result<(), Error> {
    let sent = direction.writer.output().len();
    direction.writer.consume_output(sent);
    direction.writer.packet_raw(&mut Words::of(words), payload)
}

fn say_counts(direction: &Direction, found: &Found) {
    let sent = direction.writer.bytes_written();
    if direction.whole.bytes() != sent || direction.cut.bytes() != sent {
        found.say("counts");
    }
}

/// `left DIRECTION`: how many bytes wait behind the last packet.
fn left(direction: &Direction, found: &Found) {
    found.say_number(direction.whole.waiting() as u64);
}
