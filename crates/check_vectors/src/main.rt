//! Compares rows of values with what the public calls of the crates below the exchange answer. The status is 0 where
//! none failed and at least one passed.
#![tactic(auto)]

mod ciphers;
mod forms;
mod keys;
mod lines;
mod negotiation;
mod packets;
mod recorded;
mod shared;
mod tables;
mod windows;

use crate::recorded::Connection;
use std::process::ExitCode;
use vector_rows::{Answers, Fault, Found, Row, check};

/// Answers the rows of all kinds.
#[derive(Drop)]
struct Below {
    connection: Connection,
}

impl Answers for Below {
    /// What was agreed, and what a transport carries, is for the check of the machines.
    fn passes_over(&mut self, kind: &str, _row: &Row<'_>, _wanted: &str) -> Result<bool, Fault> {
        Ok(matches!(kind, "agreed" | "carried" | "polled" | "damaged"))
    }

    fn answer(&mut self, kind: &str, row: &Row<'_>, found: &Found) -> Result<bool, Fault> {
        Ok(
            forms::answer(kind, row, found)
                || lines::answer(kind, row, found)
                || tables::answer(kind, row, found)
                || ciphers::answer(kind, row, found)
                || packets::answer(kind, row, found)
                || windows::answer(kind, row, found)
                || negotiation::answer(kind, row, found)
                || recorded::answer(kind, &mut self.connection, row, found),
        )
    }
}

fn main(rt: HostRuntime) -> ExitCode {
    let mut below = Below {
        connection: Connection::new(rt.alloc()),
    };
    match check(&rt, &mut below) {
        Ok(true) => ExitCode::SUCCESS,
        _ => ExitCode::FAILURE,
    }
}
