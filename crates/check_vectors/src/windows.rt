//! Rows of a reader's window: what it takes, and what is left, lent and dropped between its packets.

use crate::packets::{ReadStep, read_one};
use crate::shared::{is_first_of, letters};
use ssh_packet::{OpenKey, PacketReader, clear};
use ssh_wire::Error;
use vector_rows::{Fault, Found, Row};

/// Answers a row of one of these kinds. False where the kind is another.
pub(crate) fn answer(kind: &str, row: &Row<'_>, found: &Found) -> bool {
    let outcome = match kind {
        "window" => window(row, found),
        "reads" => reads(row, found),
        _ => return false,
    };
    found.note(outcome);
    true
}

/// The next word as an empty reader: `with` a window, or `without`.
fn reader_by(row: &Row<'_>) -> Result<PacketReader, Error> {
    if is_first_of(row, "with", "without") {
        PacketReader::with_window(row.alloc())
    } else {
        Ok(PacketReader::new(row.alloc()))
    }
}

/// `window HOW LENGTH..`: of a reader with a window or without, how long that is; how many bytes it takes of pieces of
/// these lengths, one after the other; and how many wait then.
fn window(row: &Row<'_>, found: &Found) -> Result<(), Fault> {
    take_each(&mut reader_by(row)?, row, found)
}

fn take_each(reader: &mut PacketReader, row: &Row<'_>, found: &Found) -> Result<(), Fault> {
    found.say_number(reader.window() as u64);
    for _ in 0..row.left() {
        let piece = letters(row.alloc(), row.count())?;
        found.say_number(reader.take(piece.as_slice()) as u64);
    }
    found.say_number(reader.waiting() as u64);
    Ok(())
}

/// `reads HOW CALL..`: what a reader of clear packets, with a window or without, answers to `push:BYTES`, `take:BYTES`,
/// `skip:NUMBER`, `next`, `handed`, `unread`, `reset_seqn` and `reset_bytes`, one after the other.
fn reads(row: &Row<'_>, found: &Found) -> Result<(), Fault> {
    call_each(&mut reader_by(row)?, row, found);
    Ok(())
}

fn call_each(reader: &mut PacketReader, row: &Row<'_>, found: &Found) {
    for _ in 0..row.left() {
        let call = row.word();
        match call.split_once(':') {
            Some((name, given)) => say_given(reader, name, given, row, found),
            None => say_call(reader, call, row, found),
        }
    }
}

/// Appends what a call answers that is given nothing.
fn say_call(reader: &mut PacketReader, call: &str, row: &Row<'_>, found: &Found) {
    match call {
        "next" => return say_next(reader, found),
        "handed" => return found.say_bytes(reader.handed()),
        "unread" => return found.say_bytes(reader.unread()),
        "reset_seqn" => reader.reset_seqn(),
        "reset_bytes" => reader.reset_bytes(),
        _ => row.reject(),
    }
    found.say("ok");
}

fn say_next(reader: &mut PacketReader, found: &Found) {
    if read_one(reader, &mut OpenKey::Clear(clear::Key), found) == ReadStep::Waits {
        found.say("none");
    }
}

/// Appends what a call answers that is given bytes or a number.
fn say_given(reader: &mut PacketReader, call: &str, given: &str, row: &Row<'_>, found: &Found) {
    let outcome = match Row::of(row.alloc(), given) {
        Ok(word) => say_word(reader, call, &word, found),
        Err(fault) => Err(fault),
    };
    found.note(outcome);
}

/// The same, where bytes or number are the only word of a row of their own.
fn say_word(
    reader: &mut PacketReader,
    call: &str,
    given: &Row<'_>,
    found: &Found,
) -> Result<(), Fault> {
    match call {
        "take" => found.say_number(reader.take(given.bytes()) as u64),
        "push" => {
            reader.push(given.bytes())?;
            found.say("ok");
        }
        "skip" => skip(reader, given, found),
        _ => given.reject(),
    }
    if given.is_malformed() {
        return Err(Fault::Malformed);
    }
    Ok(())
}

/// Drops as many of the bytes that wait as the next word says.
fn skip(reader: &mut PacketReader, given: &Row<'_>, found: &Found) {
    let count = given.count();
    if count > reader.waiting() {
        return given.reject();
    }
    reader.skip(count);
    found.say("ok");
}
