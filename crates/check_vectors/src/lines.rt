//! Rows of version lines (RFC 4253 section 4.2).

ghost use Rattle.std.specs.Prelude.{List, ℕ, Option, Some};

use crate::shared::{is_first_of, say_otherwise};
use ssh_wire::{Failed, IdProgress, ReadSshIdBuffer, Source, SshRead};
use vector_rows::{Found, Row};

/// Bytes that are handed out a few at a time. The first call fails where it is to.
#[derive(Debug, Drop)]
struct Bytes<'a> {
    bytes: &'a [u8],
    step: usize,
    is_broken: bool,
    faults: u64,
}

impl Source for Bytes<'_> {
    ghost faults = { λ s. s.faults };

    ghost left = { λ s. Some s.bytes.now };

    fn read(&mut self, out: &mut [u8]) -> Result<usize, Failed> {
        if self.is_broken {
            self.is_broken = false;
            self.faults = self.faults.saturating_add(1);
            return Err(Failed::Failed);
        }
        let size = self.step.max(1).min(self.bytes.len()).min(out.len());
        let (front, rest) = self.bytes.split_at(size);
        out[..size].copy_from_slice(front);
        self.bytes = rest;
        Ok(size)
    }
}

/// Answers a row of one of these kinds. False where the kind is another.
pub(crate) fn answer(kind: &str, row: &Row<'_>, found: &Found) -> bool {
    match kind {
        "line" => line(row, found),
        "pieces" => pieces(row, found),
        "source" => source(row, found),
        "broken" => broken(row, found),
        _ => return false,
    }
    true
}

/// Whether other lines may come before an id line, by a word: `others` or `alone`.
fn allows_others(row: &Row<'_>) -> bool {
    is_first_of(row, "others", "alone")
}

/// `line WHETHER BYTES`: what becomes of the bytes, and the id, as `hear`.
fn line(row: &Row<'_>, found: &Found) {
    let allows = allows_others(row);
    let bytes = row.bytes();
    hear(bytes, allows, found);
}

/// What becomes of bytes whole and byte by byte, as `hear_cut`: `cut` with the second answer where it is another.
pub(crate) fn hear(bytes: &[u8], allows: bool, found: &Found) {
    let cut = Found::new(found.alloc());
    hear_cut(bytes, bytes.len(), allows, found);
    hear_cut(bytes, 1, allows, &cut);
    say_otherwise(found, "cut", cut);
}

/// What becomes of bytes in pieces of a size: how many bytes an id line takes and its text, `more`, or the
/// refusal.
fn hear_cut(bytes: &[u8], size: usize, allows: bool, found: &Found) {
    let mut reader = ReadSshIdBuffer::new();
    let mut fed = 0usize;
    for piece in bytes.chunks(size.max(1)) {
        match reader.feed(piece, allows) {
            Ok(IdProgress::NotYet) => fed = fed.saturating_add(piece.len()),
            Ok(IdProgress::Id { used }) => {
                found.say_number(fed.saturating_add(used) as u64);
                return found.say_bytes(reader.id());
            }
            Err(error) => return found.say_shown(&error),
        }
    }
    found.say("more");
}

/// `pieces WHETHER BYTES ..`: what becomes of each piece, then the answer at the end, how many bytes wait, and
/// the id.
fn pieces(row: &Row<'_>, found: &Found) {
    let mut reader = ReadSshIdBuffer::new();
    for _ in 0..row.left() / 2 {
        piece(&mut reader, row, found);
    }
    match reader.finish() {
        Ok(()) => found.say("finished"),
        Err(error) => found.say_shown(&error),
    }
    found.say_number(reader.waiting() as u64);
    found.say_bytes(reader.id());
}

fn piece(reader: &mut ReadSshIdBuffer, row: &Row<'_>, found: &Found) {
    let allows = allows_others(row);
    let bytes = row.bytes();
    match reader.feed(bytes, allows) {
        Ok(IdProgress::NotYet) => found.say("more"),
        Ok(IdProgress::Id { used }) => found.say_number(used as u64),
        Err(error) => found.say_shown(&error),
    }
}

/// `source PEER STEP BYTES`: the id of a `server` or a `client` from a source that hands out so many bytes a
/// call, asked for twice, and what was read behind its line.
fn source(row: &Row<'_>, found: &Found) {
    let is_server = is_first_of(row, "server", "client");
    let step = row.count();
    let bytes = row.bytes();
    let mut reader = SshRead::new(Bytes {
        bytes: bytes,
        step,
        is_broken: false,
        faults: 0,
    });
    let again = Found::new(row.alloc());
    read_id(&mut reader, is_server, found);
    read_id(&mut reader, is_server, &again);
    say_otherwise(found, "again", again);
}

fn read_id(reader: &mut SshRead<Bytes<'_>>, is_server: bool, found: &Found) {
    let answer = if is_server {
        reader.read_ssh_id()
    } else {
        reader.read_client_ssh_id()
    };
    match answer {
        Ok(id) => found.say_bytes(id),
        Err(error) => found.say_shown(&error),
    }
}

/// `broken BYTES`: what a source answers whose first call fails, how many faults it counted, the id that comes
/// after, and what was read behind its line.
fn broken(row: &Row<'_>, found: &Found) {
    let bytes = row.bytes();
    let mut reader = SshRead::new(Bytes {
        bytes: bytes,
        step: 4096,
        is_broken: true,
        faults: 0,
    });
    read_id(&mut reader, true, found);
    found.say_number(reader.r.faults);
    read_id(&mut reader, true, found);
    found.say_bytes(reader.rest());
}
