//! The auditor of recorded links: `sshaudit audit` reads a script with a record from standard input, and writes what it
//! found to standard output.
#![tactic(auto)]

use ssh_audit::{StdSink, StdSource, exit_code};
use std::env;
use std::process::ExitCode;

fn main(rt: HostRuntime) -> ExitCode {
    let mut source = StdSource::new(rt.stdin());
    let mut sink = StdSink::new(rt.stdout());
    exit_code(rt.alloc(), env::args(&rt), &mut source, &mut sink)
}
