//! Compares rows of values with what the machines of both sides of an exchange take, write and refuse. Each is given
//! the other's packets. The status is 0 where none failed and at least one passed.
#![tactic(auto)]

mod play;
mod without;

use std::process::ExitCode;
use vector_rows::{Answers, Fault, Found, Row, check};

/// Answers the rows, each by itself.
#[derive(Drop)]
struct PlayRows;

impl Answers for PlayRows {
    /// None.
    fn passes_over(&mut self, _kind: &str, _row: &Row<'_>, _wanted: &str) -> Result<bool, Fault> {
        Ok(false)
    }

    fn answer(&mut self, kind: &str, row: &Row<'_>, found: &Found) -> Result<bool, Fault> {
        if kind != "play" {
            return Ok(false);
        }
        play::answer(row, found)?;
        Ok(true)
    }
}

fn main(rt: HostRuntime) -> ExitCode {
    match check(&rt, &mut PlayRows) {
        Ok(true) => ExitCode::SUCCESS,
        _ => ExitCode::FAILURE,
    }
}
