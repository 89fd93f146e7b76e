//! A source and a sink in memory. No read and no write takes memory.

ghost use Rattle.std.specs.Prelude.{◌≡◌, [], take, length, IfOk, IfErr, Some};
ghost use Rattle.ssh_wire.specs.declared.error.Error.TheVariants.{Memory};
ghost use Rattle.ssh_vectors.specs.Memory.{is_listed};

use ssh_wire::{Error, Failed, Sink, Source};
use std::alloc::Global;
use std::marker::Model;

/// A source that gives the bytes of a vector.
#[derive(Debug, Drop)]
pub struct MemorySource {
    bytes: Vec<u8>,
    at: usize,
    fails: Vec<u64>,
    calls: u64,
    faults: u64,
}

impl Model for MemorySource {
    ghost use Rattle.ssh_vectors.specs.Memory.{MemoryLeft};

    ghost Value = { MemoryLeft };

    ghost use Rattle.ssh_vectors.specs.Held.{memory_left_of, IsSource};

    ghost view = { memory_left_of };

    ghost invariant = { IsSource };
}

impl MemorySource {
    ghost use Rattle.ssh_vectors.specs.Memory.{read_answer, after_read};

    /// A source of these bytes. The calls with these numbers, counted from 1, fail.
    pub fn new(bytes: Vec<u8>, fails: Vec<u64>) -> MemorySource
        ensures { result ≡ record { left = bytes.items; fails = fails.items; calls = 0; faults = 0 } }
    {
        MemorySource {
            bytes,
            at: 0,
            fails,
            calls: 0,
            faults: 0,
        }
    }

    /// How many calls failed; the count stops at its end.
    pub fn faults(&self) -> u64
        ensures { result ≡ self.now.faults }
    {
        self.faults
    }

    /// The bytes that are left.
    pub fn left(&self) -> &[u8]
        ensures { result.now ≡ self.now.left }
    {
        &self.bytes[self.at..]
    }

    /// Reads as many bytes as `out` has room for and are left.
    pub fn read_next(&mut self, out: &mut [u8]) -> Result<usize, Failed>
        ensures answer { result ≡ read_answer self.old (length out.old) }
        ensures bytes { IfOk result (λ n. take n out.new ≡ take n self.old.left) }
        ensures after { self.new ≡ after_read self.old (length out.old) }
    {
        self.calls = self.calls.saturating_add(1);
        if is_among(self.fails.as_slice(), self.calls) {
            self.faults = self.faults.saturating_add(1);
            return Err(Failed::Failed);
        }
        let n = out.len().min(self.bytes.len() - self.at);
        out[..n].copy_from_slice(&self.bytes[self.at..self.at + n]);
        self.at += n;
        Ok(n)
    }
}

impl Source for MemorySource {
    ghost faults = { λ s. s.faults };

    ghost left = { λ s. Some s.left };

    fn read(&mut self, out: &mut [u8]) -> Result<usize, Failed> {
        self.read_next(out)
    }
}

/// A sink that holds its bytes in memory of a fixed length.
#[derive(Debug, Drop)]
pub struct MemorySink {
    memory: Vec<u8>,
    len: usize,
    fails: Vec<u64>,
    calls: u64,
    faults: u64,
}

impl Model for MemorySink {
    ghost use Rattle.ssh_vectors.specs.Memory.{MemoryHeld};

    ghost Value = { MemoryHeld };

    ghost use Rattle.ssh_vectors.specs.Held.{held_of, IsSink};

    ghost view = { held_of };

    ghost invariant = { IsSink };
}

impl MemorySink {
    ghost use Rattle.ssh_vectors.specs.Memory.{write_answer, after_write};

    /// A sink with room for so many bytes, whose memory is taken now. The calls with these numbers,
    /// counted from 1, fail. Memory where there is none.
    pub fn new(alloc: Global, fails: Vec<u64>, room: usize) -> Result<MemorySink, Error>
        ensures made { IfOk result (λ sink. sink ≡ record {
          held = [];
          room = room;
          fails = fails.items;
          calls = 0;
          faults = 0;
        }) }
        ensures err { IfErr result (λ e. e ≡ Memory) }
    {
        let memory = vec![in alloc; 0; room]?;
        Ok(MemorySink {
            memory,
            len: 0,
            fails,
            calls: 0,
            faults: 0,
        })
    }

    /// How many calls failed; the count stops at its end.
    pub fn faults(&self) -> u64
        ensures { result ≡ self.now.faults }
    {
        self.faults
    }

    /// The bytes that were written.
    pub fn held(&self) -> &[u8]
        ensures { result.now ≡ self.now.held }
    {
        &self.memory[..self.len]
    }

    /// Takes as many bytes as there is room for. Where none is left, a piece that isn't empty fails.
    pub fn write_next(&mut self, bytes: &[u8]) -> Result<usize, Failed>
        ensures answer { result ≡ write_answer self.old (length bytes.now) }
        ensures after { self.new ≡ after_write self.old bytes.now }
    {
        self.calls = self.calls.saturating_add(1);
        let n = bytes.len().min(self.memory.len() - self.len);
        if is_among(self.fails.as_slice(), self.calls) || (n == 0 && !bytes.is_empty()) {
            self.faults = self.faults.saturating_add(1);
            return Err(Failed::Failed);
        }
        self.memory[self.len..self.len + n].copy_from_slice(&bytes[..n]);
        self.len += n;
        Ok(n)
    }
}

impl Sink for MemorySink {
    ghost faults = { λ s. s.faults };

    ghost held = { λ s. Some s.held };

    fn write(&mut self, bytes: &[u8]) -> Result<usize, Failed> {
        self.write_next(bytes)
    }
}

fn is_among(numbers: &[u64], call: u64) -> bool
    ensures { result ≡ is_listed numbers.now call }
{
    numbers.contains(&call)
}
