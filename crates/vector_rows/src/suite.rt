//! The loop over the rows of the standard input.

use crate::row::{Fault, Found, Row};
use std::alloc::Global;
use std::io;
use std::io::{BufRead, BufReader};

/// What answers rows.
pub trait Answers {
    /// Whether a row is for other readers, and is passed over. What it says may be learned, for rows behind it. Its
    /// kind was taken of its words.
    fn passes_over(&mut self, kind: &str, row: &Row<'_>, wanted: &str) -> Result<bool, Fault>;

    /// Appends what is found by a row's words, of which its kind was taken. False where the kind is none of its own.
    fn answer(&mut self, kind: &str, row: &Row<'_>, found: &Found) -> Result<bool, Fault>;
}

/// What became of a line.
#[derive(Drop)]
enum Outcome {
    Skipped,
    Passed,
    /// What was found in place of what is wanted.
    Found(String),
    /// Why nothing was found.
    Fault(Fault),
}

/// The outcome of a line. A row stands on a line: a kind, the words that it gives, `=`, and the answer that is wanted.
/// `#` begins a comment.
fn outcome_of<A: Answers>(alloc: Global, answers: &mut A, line: &str) -> Result<Outcome, Fault> {
    if line.is_empty() || line.starts_with("#") {
        return Ok(Outcome::Skipped);
    }
    let Some((asked, wanted)) = line.split_once(" = ") else {
        return Err(Fault::Malformed);
    };
    outcome_by(answers, &Row::of(alloc, asked)?, wanted)
}

/// The outcome of a row.
fn outcome_by<A: Answers>(answers: &mut A, row: &Row<'_>, wanted: &str) -> Result<Outcome, Fault> {
    let kind = row.word();
    if answers.passes_over(kind, row, wanted)? {
        return Ok(Outcome::Skipped);
    }
    let found = Found::new(row.alloc());
    let is_of_a_kind = answers.answer(kind, row, &found)?;
    if !is_of_a_kind || row.is_malformed() || row.left() > 0 {
        return Err(Fault::Malformed);
    }
    match found.fault() {
        Some(fault) => Err(fault),
        None if found.is(wanted) => Ok(Outcome::Passed),
        None => Ok(Outcome::Found(found.into_text())),
    }
}

/// The outcome of a line, where a fault is one, too.
fn judged<A: Answers>(alloc: Global, answers: &mut A, line: &str) -> Outcome {
    match outcome_of(alloc, answers, line) {
        Ok(outcome) => outcome,
        Err(fault) => Outcome::Fault(fault),
    }
}

/// How many lines were read, and how many rows passed and failed.
#[derive(Clone, Copy)]
struct Tally {
    lines: u64,
    passed: u64,
    failed: u64,
}

impl Tally {
    /// Counts a line by its outcome. Writes of a row whose answer is another its line number, and what was found or why
    /// nothing was.
    fn count(&mut self, rt: &HostRuntime, outcome: &Outcome) -> io::Result<()> {
        self.lines = self.lines.saturating_add(1);
        let at = self.lines;
        match outcome {
            Outcome::Skipped => Ok(()),
            Outcome::Passed => {
                self.passed = self.passed.saturating_add(1);
                Ok(())
            }
            Outcome::Found(found) => {
                self.failed = self.failed.saturating_add(1);
                println!(rt; "line {at}: {}", found.as_str())
            }
            Outcome::Fault(fault) => {
                self.failed = self.failed.saturating_add(1);
                println!(rt; "line {at}: {fault:?}")
            }
        }
    }
}

/// Whether each row of the standard input passed, and at least one. Writes each row whose answer is another with its
/// line number and what was found, and last how many passed and failed.
pub fn check<A: Answers>(rt: &HostRuntime, answers: &mut A) -> io::Result<bool> {
    let mut tally = Tally {
        lines: 0,
        passed: 0,
        failed: 0,
    };
    for line in BufReader::new(rt.alloc(), rt.reader())?.lines(rt.alloc()) {
        let line = line?;
        tally.count(rt, &judged(rt.alloc(), answers, line.as_str()))?;
    }
    let Tally { passed, failed, .. } = tally;
    println!(rt; "{passed} passed, {failed} failed")?;
    Ok(failed == 0 && passed > 0)
}
