//! The program: `sshlink clear`, `sshlink run` and `sshlink attack` read a script from standard input, `sshlink gen`
//! makes its steps of a seed, and each writes what is answered to standard output.
#![tactic(auto)]

#[cfg(test)]
mod tests;

use ssh_link::{StdSink, StdSource, exit_code};
use std::env;
use std::process::ExitCode;

fn main(rt: HostRuntime) -> ExitCode {
    let mut source = StdSource::new(rt.stdin());
    let mut sink = StdSink::new(rt.stdout());
    exit_code(rt.alloc(), env::args(&rt), &mut source, &mut sink)
}
