//! Compares rows of values with what an exchange's public calls, the tests' parts, proved callers and links answer.
//! The calls are of sizes, groups, secrets, canonical signatures and lengths of keys. The sides of a link hold secrets
//! that may differ. The status is 0 where none failed and at least one passed.
#![tactic(auto)]

mod callers;
mod forms;
mod handed;
mod joined;
mod small_parts;
mod zeroed;

use std::process::ExitCode;
use vector_rows::{Answers, Fault, Found, Row, check};

/// Answers the rows of all kinds.
#[derive(Drop)]
struct Exchanges;

impl Answers for Exchanges {
    fn passes_over(&mut self, _kind: &str, _row: &Row<'_>, _wanted: &str) -> Result<bool, Fault> {
        Ok(false)
    }

    fn answer(&mut self, kind: &str, row: &Row<'_>, found: &Found) -> Result<bool, Fault> {
        Ok(
            forms::answer(kind, row, found)
                || handed::answer(kind, row, found)
                || handed::answer_refusing(kind, row, found)
                || small_parts::answer(kind, row, found)
                || callers::answer(kind, row, found)
                || joined::answer(kind, row, found),
        )
    }
}

fn main(rt: HostRuntime) -> ExitCode {
    match check(&rt, &mut Exchanges) {
        Ok(true) => ExitCode::SUCCESS,
        _ => ExitCode::FAILURE,
    }
}
