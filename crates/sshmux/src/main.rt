//! Channels with windows over a link: `sshmux channels` reads a script of calls on both sides from standard input, runs
//! it, and writes what came on each channel to standard output.
#![tactic(auto)]

use ssh_mux::{StdSink, StdSource, exit_code};
use std::env;
use std::process::ExitCode;

fn main(rt: HostRuntime) -> ExitCode {
    let mut source = StdSource::new(rt.stdin());
    let mut sink = StdSink::new(rt.stdout());
    exit_code(rt.alloc(), env::args(&rt), &mut source, &mut sink)
}
