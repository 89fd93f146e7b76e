//! Compares recorded connections with what one side makes of what the other side sent: its machine in each exchange,
//! and a transport in the whole connection. The status is 0 where none failed and at least one passed.
#![tactic(auto)]

mod carried;
mod damaged;
mod given;
mod place;
mod polled;
mod replay;
mod talk;

use crate::carried::{answer_carried, answer_polled};
use crate::damaged::answer_damaged;
use crate::replay::answer_agreed;
use crate::talk::Talk;
use std::process::ExitCode;
use vector_rows::{Answers, Fault, Found, Row, check};

/// Answers the rows, over what those before told of a connection.
#[derive(Drop)]
struct Connections {
    talk: Talk,
}

impl Answers for Connections {
    /// What stands on the wire is learned; what is left over is for the check of packets.
    fn passes_over(&mut self, kind: &str, row: &Row<'_>, wanted: &str) -> Result<bool, Fault> {
        if kind == "left" {
            return Ok(true);
        }
        self.talk.learn(kind, row, wanted)
    }

    fn answer(&mut self, kind: &str, row: &Row<'_>, found: &Found) -> Result<bool, Fault> {
        let outcome = match kind {
            "agreed" => answer_agreed(&mut self.talk, row, found),
            "carried" => answer_carried(&self.talk, row, found),
            "polled" => answer_polled(&self.talk, row, found),
            "damaged" => answer_damaged(&self.talk, row, found),
            _ => return Ok(false),
        };
        found.note(outcome);
        Ok(true)
    }
}

fn main(rt: HostRuntime) -> ExitCode {
    let mut connections = Connections {
        talk: Talk::new(rt.alloc()),
    };
    match check(&rt, &mut connections) {
        Ok(true) => ExitCode::SUCCESS,
        _ => ExitCode::FAILURE,
    }
}
