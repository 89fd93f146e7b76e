//! Carries payloads from a client to a server, for measuring: `speed_link CIPHER MAC LENGTH COUNT PIECE REKEY` with
//! names of RFC 4253: COUNT payloads of LENGTH bytes, carried in pieces of PIECE bytes, under new keys behind each
//! REKEY bytes of payload. Writes how many bytes were delivered, and how long both wires are.
#![tactic(auto)]

use ssh_link::{Script, Word, parse_script, run_script};
use ssh_program::words_of;
use ssh_rules::link::{LinkReport, Step};
use ssh_wire::{Blob, Error, Side};
use std::alloc::Global;
use std::{env, io};

/// What is carried, and how.
#[derive(Clone, Copy, Drop)]
struct Load {
    length: usize,
    count: u32,
    piece: u64,
    rekey: u64,
}

/// How many pieces each way an exchange's messages take at least.
const EXCHANGE_PIECES: u64 = 4;

/// Appends the steps: the first exchange; each payload, and the pieces that carry it; new keys behind each `rekey`
/// bytes.
fn push_steps(alloc: Global, steps: &mut Vec<Step>, load: Load) -> Result<(), Error> {
    steps.push(Step::Settle)?;
    let (mut waits, mut since) = (0u64, 0u64);
    for _ in 0..load.count {
        let mut payload = Vec::new(alloc);
        payload.resize(load.length, 97)?;
        steps.push(Step::Submit(Side::Client, Blob::new(payload)))?;
        waits = waits.saturating_add(load.length as u64);
        since = since.saturating_add(load.length as u64);
        for _ in 0..waits / load.piece.max(1) {
            steps.push(Step::Deliver(Side::Server, load.piece))?;
        }
        waits %= load.piece.max(1);
        if since >= load.rekey {
            since = 0;
            push_rekey(steps, load.piece)?;
        }
    }
    steps.push(Step::Settle)?;
    Ok(())
}

/// Appends an exchange.
fn push_rekey(steps: &mut Vec<Step>, piece: u64) -> Result<(), Error> {
    steps.push(Step::Rekey(Side::Client))?;
    for _ in 0..EXCHANGE_PIECES {
        steps.push(Step::Deliver(Side::Server, piece))?;
        steps.push(Step::Deliver(Side::Client, piece))?;
    }
    Ok(())
}

/// The link's configuration.
fn script_of(alloc: Global, cipher: &str, mac: &str) -> io::Result<Option<Script>> {
    let text = format!(in alloc;
        "set client cipher {cipher}\nset server cipher {cipher}\nset client mac {mac}\nset server mac {mac}\n"
    )?;
    match parse_script(alloc, false, text.as_bytes()) {
        Ok(script) => Ok(Some(script)),
        Err(_) => Ok(None),
    }
}

/// The report of the script with these steps behind its own.
fn run(alloc: Global, script: &mut Script, load: Load) -> Result<LinkReport, Error> {
    push_steps(alloc, &mut script.steps, load)?;
    run_script(alloc, script)
}

/// How many bytes were delivered.
fn delivered(report: &LinkReport) -> u64 {
    let mut bytes = 0u64;
    for payload in report.server.delivered.as_slice() {
        bytes = bytes.saturating_add(payload.as_slice().len() as u64);
    }
    bytes
}

/// What the words ask to be carried.
fn load_of(length: &Word, count: &Word, piece: &Word, rekey: &Word) -> Load {
    Load {
        length: length.as_str().parse::<usize>().unwrap_or(0),
        count: count.as_str().parse::<u32>().unwrap_or(0),
        piece: piece.as_str().parse::<u64>().unwrap_or(0),
        rekey: rekey.as_str().parse::<u64>().unwrap_or(0),
    }
}

/// How many bytes were delivered, and how long both wires are.
fn carried(alloc: Global, script: &mut Script, load: Load) -> Result<(u64, usize), Error> {
    let report = run(alloc, script, load)?;
    let wires = report.client.wire.as_slice().len() + report.server.wire.as_slice().len();
    Ok((delivered(&report), wires))
}

fn main(rt: HostRuntime) -> io::Result<()> {
    let Ok(words) = words_of(rt.alloc(), env::args(&rt)) else {
        return Ok(());
    };
    let [cipher, mac, length, count, piece, rekey] = words.as_slice() else {
        return Ok(());
    };
    let load = load_of(length, count, piece, rekey);
    let Some(mut script) = script_of(rt.alloc(), cipher.as_str(), mac.as_str())? else {
        return Ok(());
    };
    match carried(rt.alloc(), &mut script, load) {
        Ok((bytes, wires)) => println!(rt; "{bytes} {wires}")?,
        Err(error) => println!(rt; "{error}")?,
    }
    Ok(())
}
