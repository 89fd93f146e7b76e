//! What a case can't show: faults of the source and the sink, and what the adapters ask of standard input and output.

use ssh_link::{StdSink, StdSource, Word, link_main};
use ssh_vectors::{MemorySink, MemorySource};
use ssh_wire::{Error, Failed, Sink, Source};
use std::alloc::{AllocError, Global};
use std::io;
use std::io::{Cursor, Write};
use std::test::Fail;

/// The words, the calls at which source and sink fail, the sink's room, the status, and what is written.
type Fault<'a> = (&'a str, &'a [u64], &'a [u64], usize, u8, &'a str);

const FAULTS: &[Fault<'static>] = &[
    ("attacks", &[1], &[], 64, 2, "usage\n"),
    ("hop", &[], &[1], 64, 5, ""),
    ("hop", &[], &[], 4, 5, "usag"),
    ("hop", &[], &[], 0, 5, ""),
    ("run", &[1], &[], 64, 4, ""),
    ("run", &[], &[1], 64, 5, ""),
    ("run", &[], &[], 20, 5, "client wire 5353482d"),
    (
        "run",
        &[],
        &[],
        4096,
        0,
        "client wire 5353482d322e302d7373686c696e6b5f636c69656e740d0a\n\
         client taken 1\n\
         client finished 0\n\
         server wire 5353482d322e302d7373686c696e6b5f7365727665720d0a\n\
         server taken 0\n\
         server finished 0\n",
    ),
    (
        "gen 1 0",
        &[1],
        &[],
        128,
        0,
        "steps 1\nclient sent 856 finished 1 delivered 0 bytes 0\nserver sent 840 finished 1 delivered 0 bytes 0\n",
    ),
    ("gen 1 0", &[], &[1], 64, 5, ""),
    ("clear", &[1], &[], 64, 4, ""),
    ("clear", &[2], &[], 64, 4, ""),
    ("clear", &[], &[1], 64, 5, ""),
    ("clear", &[], &[], 20, 5, "client wire 5353482d"),
    (
        "clear",
        &[],
        &[],
        4096,
        0,
        "client wire 5353482d322e302d7373686c696e6b5f636c69656e740d0a\n\
         client taken 1\n\
         server wire 5353482d322e302d7373686c696e6b5f7365727665720d0a\n\
         server taken 0\n",
    ),
];

/// The words of a text, between single spaces.
fn words_in(alloc: Global, text: &str) -> Result<Vec<Word>, AllocError> {
    let mut words = Vec::new(alloc);
    for word in text.split(' ') {
        words.push(Word::new(String::from_str(alloc, word)?))?;
    }
    Ok(words)
}

#[test]
fn faults_answered(rt: HostRuntime) -> Result<(), Fail> {
    for fault in FAULTS {
        assert!(rt; ends_so(rt.alloc(), fault)?, "{}, {}", fault.0, fault.4);
    }
    Ok(())
}

/// Whether a call of the program, with a script of one line, ends as a row tells.
fn ends_so(alloc: Global, fault: &Fault<'_>) -> Result<bool, Error> {
    let (call, source_fails, sink_fails, room, status, text) = *fault;
    let words = words_in(alloc, call)?;
    let script = Vec::from_slice(alloc, b"deliver client 1\n")?;
    let mut source = MemorySource::new(script, Vec::from_slice(alloc, source_fails)?);
    let mut sink = MemorySink::new(alloc, Vec::from_slice(alloc, sink_fails)?, room)?;
    let end = link_main(alloc, words.as_slice(), &mut source, &mut sink);
    Ok(end.status == status && sink.held() == text.as_bytes())
}

/// A writer that takes two bytes at a time and counts its calls. The write and the flush with these numbers fail.
#[derive(Drop)]
struct Flushing {
    held: usize,
    writes: u32,
    flushes: u32,
    failing_write: u32,
    failing_flush: u32,
}

impl Write for Flushing {
    fn write(&mut self, buf: &[u8]) -> io::Result<usize> {
        self.writes = self.writes.saturating_add(1);
        if self.writes == self.failing_write {
            return Err(io::Error::from(io::ErrorKind::BrokenPipe));
        }
        let size = buf.len().min(2);
        self.held = self.held.saturating_add(size);
        Ok(size)
    }

    fn flush(&mut self) -> io::Result<()> {
        self.flushes = self.flushes.saturating_add(1);
        if self.flushes == self.failing_flush {
            return Err(io::Error::from(io::ErrorKind::BrokenPipe));
        }
        Ok(())
    }
}

/// Pieces are read as they come, up to the end.
#[test]
fn standard_input(rt: HostRuntime) {
    let mut source = StdSource::new(Cursor::new(b"abc".as_slice()));
    let mut piece = [0; 2];
    assert_eq!(rt; source.read(&mut piece), Ok(2));
    assert_eq!(rt; &piece, b"ab");
    assert_eq!(rt; source.read(&mut piece), Ok(1));
    assert_eq!(rt; source.read(&mut piece), Ok(0));
}

/// Each write is flushed, and asked for once; a fault of either is a fault.
#[test]
fn standard_output(rt: HostRuntime) {
    let mut writer = Flushing {
        held: 0,
        writes: 0,
        flushes: 0,
        failing_write: 3,
        failing_flush: 2,
    };
    let mut sink = StdSink::new(&mut writer);
    assert_eq!(rt; sink.write(b"xyz"), Ok(2));
    assert_eq!(rt; sink.write(b"z"), Err(Failed::Failed));
    assert_eq!(rt; sink.write(b"z"), Err(Failed::Failed));
    assert_eq!(rt; sink.write(b"z"), Ok(1));
    drop(sink);
    assert!(rt; (writer.writes, writer.flushes, writer.held) == (4, 3, 4));
}
