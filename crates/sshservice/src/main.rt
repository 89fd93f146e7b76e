//! The answers to messages on services and extension info: `sshservice service` reads a script of them from standard
//! input, and writes a line for each to standard output.
#![tactic(auto)]

#[cfg(test)]
mod tests;

use ssh_service::{StdSink, StdSource, exit_code};
use std::env;
use std::process::ExitCode;

fn main(rt: HostRuntime) -> ExitCode {
    let mut source = StdSource::new(rt.stdin());
    let mut sink = StdSink::new(rt.stdout());
    exit_code(rt.alloc(), env::args(&rt), &mut source, &mut sink)
}
