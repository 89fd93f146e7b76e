//! Compares rows of values with what the public calls on services and extension info answer. It compares too what a
//! server over a transport grants. The status is 0 where none failed and at least one passed.
#![tactic(auto)]

mod messages;
mod served;

use std::process::ExitCode;
use vector_rows::{Answers, Fault, Found, Row, check};

/// Answers the rows, each by itself.
#[derive(Drop)]
struct ServiceRows;

impl Answers for ServiceRows {
    /// None.
    fn passes_over(&mut self, _kind: &str, _row: &Row<'_>, _wanted: &str) -> Result<bool, Fault> {
        Ok(false)
    }

    fn answer(&mut self, kind: &str, row: &Row<'_>, found: &Found) -> Result<bool, Fault> {
        Ok(messages::answer(kind, row, found)? || served::answer(kind, row, found)?)
    }
}

fn main(rt: HostRuntime) -> ExitCode {
    match check(&rt, &mut ServiceRows) {
        Ok(true) => ExitCode::SUCCESS,
        _ => ExitCode::FAILURE,
    }
}
