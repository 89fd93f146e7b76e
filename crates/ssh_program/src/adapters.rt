//! A source over a reader, and a sink over a writer. Nothing is told of their bytes.

ghost use Rattle.std.specs.Prelude.{◌≡◌, ◌≤◌, length, take, None, IfOk, IfSome, OnErr, IfNone, OnOk};
ghost use Rattle.std.specs.Io.KnownBytes.{ReadConsumes, Appends};
ghost use Rattle.ssh_wire.specs.Outside.{IsPartOf, next_count};
ghost use Rattle.ssh_program.specs.Adapters.{GrowsByFront};

use ssh_wire::{Failed, Sink, Source};
use std::io::{Read, Write};
use std::marker::Model;

/// A source that reads from a reader. Each error of the reader is counted.
#[derive(Drop)]
pub struct StdSource<R> {
    reader: R,
    faults: u64,
}

impl<R> Model for StdSource<R> {
    ghost use Rattle.ssh_program.specs.Adapters.{WithFaults};

    ghost Value = { WithFaults R };

    ghost view = { λ s. record { inner = s.reader; faults = s.faults } };
}

impl<R: Read> StdSource<R> {
    /// A source over this reader that has seen no error.
    pub fn new(reader: R) -> StdSource<R>
        ensures { result ≡ record { inner = reader; faults = 0 } }
    {
        StdSource { reader, faults: 0 }
    }
}

impl<R: Read> Source for StdSource<R> {
    ghost faults = { λ s. s.faults };

    ghost left = { λ _. None };

    /// Reads once. On `Failed` the reader took nothing, where it tells its bytes.
    fn read(&mut self, out: &mut [u8]) -> Result<usize, Failed>
        ensures within { IfOk result (λ n. n ≤ length out.old) }
        ensures bytes { ReadConsumes (R.remaining self.old.inner) (R.remaining self.new.inner) result out.new }
        ensures fault { OnErr result (self.new.faults ≡ next_count self.old.faults) }
        ensures none { OnOk result (self.new.faults ≡ self.old.faults) }
    {
        match self.reader.read(out) {
            Ok(n) => Ok(n),
            Err(_) => {
                self.faults = self.faults.saturating_add(1);
                Err(Failed::Failed)
            }
        }
    }
}

/// A sink that writes to a writer, and flushes what it wrote. Each error of the writer is counted.
#[derive(Drop)]
pub struct StdSink<W> {
    writer: W,
    faults: u64,
}

impl<W> Model for StdSink<W> {
    ghost use Rattle.ssh_program.specs.Adapters.{WithFaults};

    ghost Value = { WithFaults W };

    ghost view = { λ s. record { inner = s.writer; faults = s.faults } };
}

impl<W: Write> StdSink<W> {
    /// A sink over this writer that has seen no error.
    pub fn new(writer: W) -> StdSink<W>
        ensures { result ≡ record { inner = writer; faults = 0 } }
    {
        StdSink { writer, faults: 0 }
    }
}

impl<W: Write> Sink for StdSink<W> {
    ghost faults = { λ s. s.faults };

    ghost held = { λ _. None };

    /// Writes once, and flushes. A write of nothing of a piece that isn't empty is a fault too. On `Failed` a
    /// front of the piece may have been written.
    fn write(&mut self, bytes: &[u8]) -> Result<usize, Failed>
        ensures part { IfOk result (λ n. IsPartOf (length bytes.now) n) }
        ensures bytes { IfOk result (λ n. Appends (W.contents self.old.inner) (W.contents self.new.inner)
            (take n bytes.now)) }
        ensures front { OnErr result (GrowsByFront bytes.now (W.contents self.old.inner) (W.contents self.new.inner)) }
        ensures fault { OnErr result (self.new.faults ≡ next_count self.old.faults) }
        ensures none { OnOk result (self.new.faults ≡ self.old.faults) }
    {
        match write_through(&mut self.writer, bytes) {
            Some(n) => Ok(n),
            None => {
                self.faults = self.faults.saturating_add(1);
                Err(Failed::Failed)
            }
        }
    }
}

/// Writes once, and flushes.
fn write_through<W: Write>(writer: &mut W, bytes: &[u8]) -> Option<usize>
    ensures part { IfSome result (λ n. IsPartOf (length bytes.now) n) }
    ensures bytes { IfSome result (λ n. Appends (W.contents writer.old) (W.contents writer.new) (take n bytes.now)) }
    ensures front { IfNone result (GrowsByFront bytes.now (W.contents writer.old) (W.contents writer.new)) }
{
    let n = writer.write(bytes).ok()?;
    if n == 0 && !bytes.is_empty() {
        return None;
    }
    writer.flush().ok()?;
    Some(n)
}
