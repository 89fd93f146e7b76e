//! Rows of callers: what a writer flushes into a sink that fails or is slow, and what a proved caller carries.

ghost use Rattle.std.specs.Prelude.{Some};

use ssh_packet::PacketWriter;
use ssh_vectors::MemorySink;
use ssh_wire::{Failed, Sink};
use uses::carry_three;
use vector_rows::{Fault, Found, Row, Words, words_of};

/// A sink that takes at most so many bytes a call.
#[derive(Drop)]
struct SlowSink {
    sink: MemorySink,
    step: usize,
}

impl Sink for SlowSink {
    ghost faults = { λ s. s.sink.faults };

    ghost held = { λ s. Some s.sink.held };

    fn write(&mut self, bytes: &[u8]) -> Result<usize, Failed> {
        let n = bytes.len().min(self.step.max(1));
        self.sink.write(&bytes[..n])
    }
}

/// Answers a row of one of these kinds. False where the kind is another.
pub(crate) fn answer(kind: &str, row: &Row<'_>, found: &Found) -> bool {
    let outcome = match kind {
        "flush" => flush(row, found),
        "carry" => carry(row, found),
        _ => return false,
    };
    found.note(outcome);
    true
}

/// `flush STEP FAIL ROOM PAYLOAD..`: what a clear writer of these payloads answers when it is flushed into a sink that
/// takes so many bytes a call, whose call of this number fails, with room for so many bytes; its answer to a second
/// flush; what the sink holds, how often it failed, and what the writer still has.
fn flush(row: &Row<'_>, found: &Found) -> Result<(), Fault> {
    let step = row.count();
    let mut fails = Vec::new(row.alloc());
    fails.push(row.number())?;
    let mut sink = SlowSink {
        sink: MemorySink::new(row.alloc(), fails, row.count())?,
        step,
    };
    say_flushed(row, &mut sink, found)
}

/// Appends what comes of flushing the payloads that are left into a sink.
fn say_flushed(row: &Row<'_>, sink: &mut SlowSink, found: &Found) -> Result<(), Fault> {
    let mut writer = PacketWriter::clear(row.alloc());
    for _ in 0..row.left() {
        let payload = row.bytes();
        writer.packet_raw(&mut Words::of(&[]), payload)?;
    }
    found.say_shown(&writer.flush_into(sink));
    found.say_shown(&writer.flush_into(sink));
    found.say_bytes(sink.sink.held());
    found.say_number(sink.sink.faults());
    found.say_bytes(writer.output());
    Ok(())
}

/// `carry KEY NONCE A B C`: three payloads sealed under `aes256-gcm@openssh.com`, and opened.
fn carry(row: &Row<'_>, found: &Found) -> Result<(), Fault> {
    let key = row.array::<32>();
    let nonce = row.array::<12>();
    let words = words_of(row.alloc(), key.as_slice())?;
    let mut rng = Words::of(words.as_slice());
    let (a, b, c) = (row.bytes(), row.bytes(), row.bytes());
    if a.is_empty() || b.is_empty() || c.is_empty() {
        row.reject();
        return Ok(());
    }
    match carry_three(row.alloc(), &mut rng, &key, &nonce, a, b, c) {
        Ok(carried) => {
            found.say_bytes(carried.0.as_slice());
            found.say_bytes(carried.1.as_slice());
            found.say_bytes(carried.2.as_slice());
            Ok(())
        }
        Err(error) => Err(Fault::from(error)),
    }
}
