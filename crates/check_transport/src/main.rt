//! Compares rows of values with what a transport of one side answers to calls.
//! The status is 0 where none failed and at least one passed.
#![tactic(auto)]

mod calls;

use std::process::ExitCode;
use vector_rows::{Answers, Fault, Found, Row, check};

/// Answers the rows, each by itself.
#[derive(Drop)]
struct CallRows;

impl Answers for CallRows {
    /// None.
    fn passes_over(&mut self, _kind: &str, _row: &Row<'_>, _wanted: &str) -> Result<bool, Fault> {
        Ok(false)
    }

    fn answer(&mut self, kind: &str, row: &Row<'_>, found: &Found) -> Result<bool, Fault> {
        calls::answer(kind, row, found)
    }
}

fn main(rt: HostRuntime) -> ExitCode {
    match check(&rt, &mut CallRows) {
        Ok(true) => ExitCode::SUCCESS,
        _ => ExitCode::FAILURE,
    }
}
