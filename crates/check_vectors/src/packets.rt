//! Rows of packets (RFC 4253 section 6), their keys, and the names of these.

use crate::keys::Material;
use crate::shared::{letters, say_other, say_otherwise};
use ssh_mac::mac;
use ssh_packet::compression::{self, Compress};
use ssh_packet::{
    CipherPair, OpenKey, OpeningKey, PacketBytesWriter, PacketReader, PacketWriter, SSHBuffer,
    SealKey, SealingKey, cipher, clear,
};
use ssh_wire::{Error, SshId, Text};
use std::alloc::Global;
use vector_rows::{Fault, Found, Row, Words, words_of};

/// A clear packet of the payload 02.
const OTHER_PACKET: &[u8] = b"\0\0\0\x0c\x0a\x02\0\0\0\0\0\0\0\0\0\0";

/// Answers a row of one of these kinds. False where the kind is another.
pub(crate) fn answer(kind: &str, row: &Row<'_>, found: &Found) -> bool {
    match kind {
        "cipher_name" => cipher_name(row, found),
        "mac_name" => mac_name(row, found),
        "compression_name" => compression_name(row, found),
        "keys_like" => keys_like(row, found),
        "open" => open(row, found),
        "forged" => forged(row, found),
        _ => return answer_written(kind, row, found),
    }
    true
}

/// The same of the kinds that write or seal.
fn answer_written(kind: &str, row: &Row<'_>, found: &Found) -> bool {
    let outcome = match kind {
        "seal" => seal(row, found),
        "shows_length" => shows_length(row, found),
        "longest" => longest(row, found),
        "count" => count(row, found),
        "given_up" => given_up(row, found),
        "room" => room(row, found),
        "sent_id" => sent_id(row, found),
        _ => return false,
    };
    found.note(outcome);
    true
}

/// `cipher_name TEXT`: the place of the name in the table, its text, whether it wants a MAC, and the lengths of key
/// and nonce; or `none`.
fn cipher_name(row: &Row<'_>, found: &Found) {
    let Some(name) = cipher::Name::from_str(row.text()) else {
        return found.say("none");
    };
    found.say_shown(&cipher::ALL_CIPHERS.iter().position(|other| *other == name));
    found.say(name.as_str());
    found.say_shown(&name.needs_mac());
    found.say_number(name.key_len() as u64);
    found.say_number(name.nonce_len() as u64);
}

/// `mac_name TEXT`: the place of the name in the table, its text, and the length of its key; or `none`.
fn mac_name(row: &Row<'_>, found: &Found) {
    let Some(name) = mac::Name::from_str(row.text()) else {
        return found.say("none");
    };
    found.say_shown(
        &mac::ALL_MAC_ALGORITHMS
            .iter()
            .position(|other| *other == name),
    );
    found.say(name.as_str());
    found.say_number(name.key_len() as u64);
}

/// `compression_name TEXT`: its text, or `none at all`.
fn compression_name(row: &Row<'_>, found: &Found) {
    match compression::Name::from_str(row.text()) {
        Some(name) => found.say(name.as_str()),
        None => found.say("none at all"),
    }
}

/// `keys_like CIPHER MAC KEY NONCE MACKEY PAYLOAD`: the tag's length of both keys, the padding's behind the payload,
/// how many bytes show a packet length, how many a packet has at least, and what `Debug` shows.
fn keys_like(row: &Row<'_>, found: &Found) {
    say_keys(&Material::of(row).pair(), row, found);
}

fn say_keys(keys: &CipherPair, row: &Row<'_>, found: &Found) {
    let (sealing, opening) = (&keys.local_to_remote, &keys.remote_to_local);
    let payload = row.bytes();
    if payload.len() > 1000 {
        return row.reject();
    }
    found.say_number(sealing.tag_len() as u64);
    found.say_number(opening.tag_len() as u64);
    found.say_number(sealing.padding_length(payload) as u64);
    found.say_number(opening.packet_length_to_read_for_block_length() as u64);
    found.say_number(opening.shortest_packet() as u64);
    found.say_shown(keys);
}

/// Writes a payload by one of the four calls. Inconsistent where the call answers another payload.
fn write_by(
    call: usize,
    writer: &mut PacketWriter,
    rng: &mut Words<'_>,
    payload: &[u8],
) -> Result<(), Error> {
    let answered = match call {
        0 => return writer.packet_raw(rng, payload),
        1 => return writer.write_packet(rng, |out| Ok(out.extend_from_slice(payload)?)),
        2 => writer.packet(rng, |out| Ok(out.extend_from_slice(payload)?)),
        _ => writer.packet_bytes(rng, |out| fill(out, payload)),
    };
    if answered?.as_slice() == payload {
        Ok(())
    } else {
        Err(Error::Inconsistent)
    }
}

/// Writes the first byte of a payload and then the others. Inconsistent where the counts are others.
fn fill(out: &mut PacketBytesWriter, payload: &[u8]) -> Result<(), Error> {
    if !out.is_empty() {
        return Err(Error::Inconsistent);
    }
    if let Some((first, others)) = payload.split_first() {
        out.push(*first)?;
        out.extend_from_slice(others)?;
    }
    if out.len() == payload.len() {
        Ok(())
    } else {
        Err(Error::Inconsistent)
    }
}

/// `seal CIPHER MAC KEY NONCE MACKEY NUMBER PADDING PAYLOAD`: the packet of this number and this drawn padding, and
/// how many words of padding weren't drawn. `by` with what another of the four calls wrote where that is another,
/// and what `open_again` says.
fn seal(row: &Row<'_>, found: &Found) -> Result<(), Fault> {
    seal_with(&Material::of(row), row, found)
}

fn seal_with(material: &Material<'_>, row: &Row<'_>, found: &Found) -> Result<(), Fault> {
    let number = row.number32();
    let words = words_of(row.alloc(), row.bytes())?;
    let payload = row.bytes();
    let mut sealed = Vec::new(row.alloc());
    for call in 0..4 {
        let outcome = say_sealed(
            call,
            &mut writer_at(row.alloc(), material, number),
            &mut Words::of(words.as_slice()),
            payload,
            &mut sealed,
            found,
        );
        found.note(outcome);
    }
    open_again(
        &mut material.opening(),
        number,
        sealed.as_mut_slice(),
        payload,
        found,
    );
    Ok(())
}

/// A writer whose next packet has the number.
fn writer_at(alloc: Global, material: &Material<'_>, number: u32) -> PacketWriter {
    let mut writer = PacketWriter::new(alloc, material.sealing(), Compress::None);
    writer.buffer().seqn = number;
    writer
}

/// Writes a payload by one of the four calls. Appends the packet of the first, and how many words weren't drawn; of
/// another what it wrote, where that is other than the first.
fn say_sealed(
    call: usize,
    writer: &mut PacketWriter,
    rng: &mut Words<'_>,
    payload: &[u8],
    sealed: &mut Vec<u8>,
    found: &Found,
) -> Result<(), Fault> {
    write_by(call, writer, rng, payload)?;
    if call == 0 {
        sealed.extend_from_slice(writer.output())?;
        found.say_bytes(sealed.as_slice());
        found.say_number(rng.left() as u64);
    }
    say_other(found, "by", writer.output(), sealed.as_slice());
    Ok(())
}

/// `opens` with what a key opens a packet to, where the payload stands elsewhere than behind its length, or the
/// refusal; `shows` with the packet length that its first bytes show, where that is another.
fn open_again<K: OpeningKey>(
    key: &mut K,
    number: u32,
    sealed: &mut [u8],
    payload: &[u8],
    found: &Found,
) {
    let tag_len = key.tag_len();
    let probe = key.packet_length_to_read_for_block_length();
    if sealed.is_empty() {
        return;
    }
    if sealed.len() > 1 << 24 || sealed.len() < probe || sealed.len() < 4 + tag_len {
        return found.fail(Fault::Refused);
    }
    let shown = key.decrypt_packet_length(number, &sealed[..probe]);
    let length = (sealed.len() - tag_len - 4) as u32;
    say_other(found, "shows", &shown, &length.to_be_bytes());
    match key.open(number, sealed) {
        Ok(body) => {
            let opened = body.get(1..).and_then(|rest| rest.get(..payload.len()));
            say_other(found, "opens", opened.unwrap_or(b""), payload);
        }
        Err(error) => found.say_shown(&error),
    }
}

/// `open CIPHER MAC KEY NONCE MACKEY NUMBER BYTES`: the packets that a reader finds in bytes behind so many clear
/// packets, each by its number plus one and its payload, and then `more` with how many bytes wait, or the refusal
/// and the next one. `cut` with what it finds byte by byte where that is another.
fn open(row: &Row<'_>, found: &Found) {
    let material = Material::of(row);
    let number = row.count();
    let bytes = row.bytes();
    let cut = Found::new(row.alloc());
    read(&material, number, bytes, bytes.len(), found);
    read(&material, number, bytes, 1, &cut);
    say_otherwise(found, "cut", cut);
}

/// `forged CIPHER MAC KEY NONCE MACKEY NUMBER BYTES`: what a key answers to a packet of a wrong tag, and the bytes as
/// they stand then.
fn forged(row: &Row<'_>, found: &Found) {
    let mut key = Material::of(row).opening();
    let number = row.number32();
    let mut bytes = row.owned_bytes();
    say_forged(&mut key, number, bytes.as_mut_slice(), found);
}

fn say_forged(key: &mut OpenKey, number: u32, bytes: &mut [u8], found: &Found) {
    if bytes.len() > 1 << 24 || bytes.len() < 4 + key.tag_len() {
        return found.fail(Fault::Refused);
    }
    match key.open(number, bytes) {
        Ok(_) => found.say("opened"),
        Err(error) => found.say_shown(&error),
    }
    found.say_bytes(bytes);
}

/// What a reader behind so many clear packets finds in bytes that come in pieces of a size.
fn read(material: &Material<'_>, number: usize, bytes: &[u8], size: usize, found: &Found) {
    let mut reader = PacketReader::new(found.alloc());
    let outcome = pass_others(&mut reader, number);
    found.note(outcome);
    let outcome = read_pieces(&mut reader, &mut material.opening(), bytes, size, found);
    found.note(outcome);
}

fn read_pieces(
    reader: &mut PacketReader,
    key: &mut OpenKey,
    bytes: &[u8],
    size: usize,
    found: &Found,
) -> Result<(), Fault> {
    for piece in bytes.chunks(size.max(1)) {
        reader.push(piece)?;
        if read_packets(reader, key, found) {
            read_one(reader, key, found);
            return Ok(());
        }
    }
    found.say("more");
    found.say_number(reader.waiting() as u64);
    Ok(())
}

/// Lets a reader read so many clear packets.
fn pass_others(reader: &mut PacketReader, number: usize) -> Result<(), Fault> {
    for _ in 0..number {
        reader.push(OTHER_PACKET)?;
        if reader.next(&mut OpenKey::Clear(clear::Key)).is_err() {
            return Err(Fault::Refused);
        }
    }
    Ok(())
}

/// What a reader did.
#[derive(Clone, Copy, Debug, PartialEq, Eq)]
pub(crate) enum ReadStep {
    Packet,
    Waits,
    Refused,
}

/// Appends the packets that wait. Whether a refusal came behind them.
fn read_packets(reader: &mut PacketReader, key: &mut OpenKey, found: &Found) -> bool {
    for _ in 0..=reader.waiting() {
        match read_one(reader, key, found) {
            ReadStep::Packet => {}
            ReadStep::Waits => return false,
            ReadStep::Refused => return true,
        }
    }
    false
}

/// Appends the next packet, or the refusal.
pub(crate) fn read_one(reader: &mut PacketReader, key: &mut OpenKey, found: &Found) -> ReadStep {
    match reader.next(key) {
        Ok(Some(incoming)) => {
            found.say_number(u64::from(incoming.seqn));
            found.say_bytes(incoming.payload);
            ReadStep::Packet
        }
        Ok(None) => ReadStep::Waits,
        Err(error) => {
            found.say_shown(&error);
            ReadStep::Refused
        }
    }
}

/// `shows_length CIPHER MAC KEY NONCE MACKEY LENGTH`: what a reader answers to a first block that shows a packet
/// length: `more`, or the refusal.
fn shows_length(row: &Row<'_>, found: &Found) -> Result<(), Fault> {
    let material = Material::of(row);
    let block = first_block(&mut material.sealing(), row.number32());
    read_block(&mut material.opening(), &block, found)
}

/// A sealed first block that shows a packet length.
fn first_block(key: &mut SealKey, length: u32) -> [u8; 16] {
    let mut block = [0; 16];
    block[..4].copy_from_slice(&length.to_be_bytes());
    let mut tag = [0; 64];
    let tag_len = key.tag_len();
    key.seal(0, &mut block, &mut tag[..tag_len]);
    block
}

fn read_block(key: &mut OpenKey, block: &[u8], found: &Found) -> Result<(), Fault> {
    let mut reader = PacketReader::new(found.alloc());
    reader.push(block)?;
    if read_one(&mut reader, key, found) == ReadStep::Waits {
        found.say("more");
    }
    Ok(())
}

/// `longest CALL CIPHER MAC KEY NONCE MACKEY LENGTH`: of a payload of so many bytes, written by this of the four calls,
/// the first four bytes of its packet, the packet's length, and that of the payload that it opens to; or the refusal
/// and the length of the output.
fn longest(row: &Row<'_>, found: &Found) -> Result<(), Fault> {
    let call = row.count();
    let material = Material::of(row);
    let payload = letters(row.alloc(), row.count())?;
    let mut writer = PacketWriter::new(row.alloc(), material.sealing(), Compress::None);
    match write_by(call, &mut writer, &mut Words::of(&[]), payload.as_slice()) {
        Ok(()) => say_longest(&mut material.opening(), writer.output(), found),
        Err(error) => {
            found.say_shown(&error);
            found.say_number(writer.output().len() as u64);
            Ok(())
        }
    }
}

/// Appends a packet's first bytes and its length, and that of its payload, or the refusal of it.
fn say_longest(opening: &mut OpenKey, packet: &[u8], found: &Found) -> Result<(), Fault> {
    found.say_bytes(packet.get(..4).unwrap_or(b""));
    found.say_number(packet.len() as u64);
    let mut reader = PacketReader::new(found.alloc());
    reader.push(packet)?;
    match reader.next(opening) {
        Ok(incoming) => {
            let length = incoming.map(|incoming| incoming.payload.len()).unwrap_or(0);
            found.say_number(length as u64);
        }
        Err(error) => found.say_shown(&error),
    }
    Ok(())
}

/// `count NUMBER BYTES PAYLOAD..`: number and count of a clear writer behind these payloads, from a number and a
/// count on, and the length of its output.
fn count(row: &Row<'_>, found: &Found) -> Result<(), Fault> {
    let mut writer = PacketWriter::clear(row.alloc());
    writer.buffer().seqn = row.number32();
    writer.buffer().bytes = row.number() as usize;
    write_each(&mut writer, row)?;
    say_state(&mut writer, found);
    Ok(())
}

fn write_each(writer: &mut PacketWriter, row: &Row<'_>) -> Result<(), Error> {
    for _ in 0..row.left() {
        write_clear(writer, row.bytes())?;
    }
    Ok(())
}

/// Writes a payload to a writer that draws nothing.
fn write_clear(writer: &mut PacketWriter, payload: &[u8]) -> Result<(), Error> {
    writer.packet_raw(&mut Words::of(&[]), payload)
}

fn say_state(writer: &mut PacketWriter, found: &Found) {
    let (number, bytes) = (writer.buffer().seqn, writer.buffer().bytes);
    found.say_number(u64::from(number));
    found.say_number(bytes as u64);
    found.say_number(writer.output().len() as u64);
}

/// `given_up PAYLOAD BYTES`: behind a clear packet of the payload, what each of the three calls answers to a closure
/// that appends the bytes and gives up; and number, count and the length of the output.
fn given_up(row: &Row<'_>, found: &Found) -> Result<(), Fault> {
    let payload = row.bytes();
    let bytes = row.bytes();
    let mut writer = PacketWriter::clear(row.alloc());
    write_clear(&mut writer, payload)?;
    for call in 0..3 {
        found.say_shown(&fault_given_up(call, &mut writer, bytes));
    }
    say_state(&mut writer, found);
    Ok(())
}

/// What one of three calls answers to a closure that appends bytes and gives up, where it answers a fault.
fn fault_given_up(call: usize, writer: &mut PacketWriter, given: &[u8]) -> Option<Error> {
    let rng = &mut Words::of(&[]);
    match call {
        0 => writer
            .write_packet(rng, |out| {
                out.extend_from_slice(given)?;
                Err(Error::Kex)
            })
            .err(),
        1 => writer
            .packet(rng, |out| {
                out.extend_from_slice(given)?;
                Err(Error::Kex)
            })
            .err(),
        _ => writer
            .packet_bytes(rng, |out| {
                out.extend_from_slice(given)?;
                Err(Error::Kex)
            })
            .err(),
    }
}

/// `room LENGTH COUNT`: whether a clear writer with room for so many payloads of a length takes no memory for them,
/// and the length of its output.
fn room(row: &Row<'_>, found: &Found) -> Result<(), Fault> {
    let length = row.count();
    let turns = row.count();
    if length > 1 << 20 || turns > 1 << 10 {
        return Err(Fault::Malformed);
    }
    let mut writer = PacketWriter::clear(row.alloc());
    writer.reserve_output(length * turns, turns)?;
    fill_room(&mut writer, length, turns, found)
}

fn fill_room(
    writer: &mut PacketWriter,
    length: usize,
    turns: usize,
    found: &Found,
) -> Result<(), Fault> {
    let payload = letters(found.alloc(), length)?;
    let capacity = writer.buffer().buffer.capacity();
    for _ in 0..turns {
        write_clear(writer, payload.as_slice())?;
    }
    found.say_shown(&(writer.buffer().buffer.capacity() == capacity));
    found.say_number(writer.output().len() as u64);
    Ok(())
}

/// `sent_id TEXT`: what a buffer holds behind a version line of this text, number and count.
fn sent_id(row: &Row<'_>, found: &Found) -> Result<(), Fault> {
    let text = String::from_str(row.alloc(), row.word())?;
    let mut buffer = SSHBuffer::new(row.alloc());
    buffer.send_ssh_id(&SshId::Standard(Text::new(text)))?;
    found.say_bytes(buffer.buffer.as_slice());
    found.say_number(u64::from(buffer.seqn));
    found.say_number(buffer.bytes as u64);
    Ok(())
}
