//! One side of a connection over standard input and standard output: `sshpipe server KEYFILE` as the proxy command of
//! OpenSSH's `ssh`, and `sshpipe client HOSTKEY.pub` before `sshd -i`. Nobody can log in to it.
#![tactic(auto)]

use ssh_pipe::{StdSink, StdSource, exit_code};
use std::env;
use std::process::ExitCode;

fn main(rt: HostRuntime) -> ExitCode {
    let mut source = StdSource::new(rt.stdin());
    let mut sink = StdSink::new(rt.stdout());
    let mut notes = StdSink::new(rt.stderr());
    exit_code(
        &rt,
        rt.alloc(),
        env::args(&rt),
        &mut source,
        &mut sink,
        &mut notes,
    )
}
