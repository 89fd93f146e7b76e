//! What a case can't show: faults of the source and the sink.

use ssh_service::{Word, service_main};
use ssh_vectors::{MemorySink, MemorySource};
use ssh_wire::Error;
use std::alloc::{AllocError, Global};
use std::test::Fail;

/// The words, the calls at which source and sink fail, the sink's room, the status, the number of answers, and what is
/// written.
type Fault<'a> = (&'a str, &'a [u64], &'a [u64], usize, u8, usize, &'a str);

const FAULTS: &[Fault<'static>] = &[
    ("serve", &[1], &[], 64, 2, 0, "usage\n"),
    ("service service", &[1], &[], 64, 2, 0, "usage\n"),
    ("serve", &[], &[1], 64, 5, 0, ""),
    ("service", &[1], &[], 64, 4, 0, ""),
    ("service", &[2], &[], 64, 4, 0, ""),
    ("service", &[], &[1], 64, 5, 2, ""),
    ("service", &[], &[], 4, 5, 2, "acce"),
    (
        "service",
        &[],
        &[],
        64,
        0,
        2,
        "accepted 060000000178\nother\n",
    ),
];

/// The words of a text, between single spaces.
fn words_in(alloc: Global, text: &str) -> Result<Vec<Word>, AllocError> {
    let mut words = Vec::new(alloc);
    for word in text.split(' ') {
        words.push(Word::new(String::from_str(alloc, word)?))?;
    }
    Ok(words)
}

#[test]
fn faults_answered(rt: HostRuntime) -> Result<(), Fail> {
    for fault in FAULTS {
        assert!(rt; ends_so(rt.alloc(), fault)?, "{}, {}", fault.0, fault.4);
    }
    Ok(())
}

/// Whether a call of the program, with a script of three lines, ends as a row tells.
fn ends_so(alloc: Global, fault: &Fault<'_>) -> Result<bool, Error> {
    let (call, source_fails, sink_fails, room, status, answered, text) = *fault;
    let words = words_in(alloc, call)?;
    let script = b"offer x\nmessage 050000000178\nmessage 32\n";
    let script = Vec::from_slice(alloc, script)?;
    let mut source = MemorySource::new(script, Vec::from_slice(alloc, source_fails)?);
    let mut sink = MemorySink::new(alloc, Vec::from_slice(alloc, sink_fails)?, room)?;
    let end = service_main(alloc, words.as_slice(), &mut source, &mut sink);
    Ok(end.status == status && end.answers.len() == answered && sink.held() == text.as_bytes())
}
