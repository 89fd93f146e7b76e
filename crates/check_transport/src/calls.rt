//! Rows of one side's transport: its configuration, and calls one after the other.

use machine_rows::{
    config_of, feed, key_of, keys_of, poll_payload, rekey, side_of, submit, take_input, times,
    trusted_by,
};
use rand_core::Rng;
use ssh_kex::{Agreement, Config, GexParams, GroupLookup, HostKeys, Parts};
use ssh_mac::mac;
use ssh_negotiate::ServerKeys;
use ssh_transport::Transport;
use ssh_vectors::{TestAgreement, TestGroups, TestHosts};
use ssh_wire::{Blob, Error, Side, SshId, Text};
use std::alloc::Global;
use vector_rows::preferences::{preferred, settings};
use vector_rows::{Fault, Found, Row, Words, lent_ok};

/// `calls SIDE PREFERENCES SETTINGS CALL..`: what a transport of the side answers to `feed:BYTES`, `submit:BYTES`,
/// `rekey`, `take:BYTES`, `poll` and `pieces:SIZE:BYTES`, one after the other; whether it has failed or is inside an
/// exchange; and how many bytes of input are unfinished, how many exchanges are finished, how many payloads are
/// delivered, and how many bytes are written. A configuration that is refused stands in their place. A client trusts
/// the host key of its own configuration.
pub(crate) fn answer(kind: &str, row: &Row<'_>, found: &Found) -> Result<bool, Fault> {
    if kind != "calls" {
        return Ok(false);
    }
    let side = side_of(row);
    let outcome = match &mut config_by(row) {
        Ok(config) => answer_set(side, config, row, found),
        Err(fault) => Err(*fault),
    };
    outcome?;
    Ok(true)
}

/// The next word as PREFERENCES of a side's configuration.
fn config_by(row: &Row<'_>) -> Result<Config, Fault> {
    let host = own_keys(row.alloc())?;
    let preferred = preferred(row)?;
    let gex = GexParams {
        min_group_size: 2048,
        preferred_group_size: 3072,
        max_group_size: 8192,
    };
    config_of(row.alloc(), "SSH-2.0-own", preferred, gex, host)
}

fn own_keys(alloc: Global) -> Result<ServerKeys, Fault> {
    let blob = Blob::copy_of(alloc, b"sshlink-test-key")?;
    Ok(ServerKeys {
        keys: key_of(alloc, blob)?,
        certificates: Vec::new(alloc),
    })
}

/// Answers by the words that are left, of which the first are SETTINGS of this configuration.
fn answer_set(side: Side, config: &mut Config, row: &Row<'_>, found: &Found) -> Result<(), Fault> {
    set_all(config, row)?;
    say_calls(side, config, row, found)
}

/// Sets what the next word gives as SETTINGS: `default`, or the version line as `id` or as `rawid`, the limits `write`
/// and `read`, the sizes `least`, `wanted` and `most`, `macs` as so many MACs `none`, and `blob` as one host key whose
/// blob has so many bytes.
fn set_all(config: &mut Config, row: &Row<'_>) -> Result<(), Fault> {
    for (name, value) in settings(row)? {
        match name {
            "id" => config.id = id_of(row.alloc(), value)?,
            "rawid" => config.id = raw_id_of(row.alloc(), value)?,
            _ => set_number(config, row, name, value)?,
        }
    }
    Ok(())
}

fn id_of(alloc: Global, text: &str) -> Result<SshId, Fault> {
    Ok(SshId::Standard(Text::new(String::from_str(alloc, text)?)))
}

/// The version line of these bytes.
fn raw_id_of(alloc: Global, digits: &str) -> Result<SshId, Fault> {
    let words = Row::of(alloc, digits)?;
    match String::from_utf8(words.owned_bytes()) {
        Ok(text) if !words.is_malformed() => Ok(SshId::Raw(Text::new(text))),
        _ => Err(Fault::Malformed),
    }
}

fn set_number(config: &mut Config, row: &Row<'_>, name: &str, value: &str) -> Result<(), Fault> {
    let number = row.expect(value.parse::<u32>().ok(), 0);
    match name {
        "write" => config.limits.rekey_write_limit = number as usize,
        "read" => config.limits.rekey_read_limit = number as usize,
        "least" => config.gex.min_group_size = number,
        "wanted" => config.gex.preferred_group_size = number,
        "most" => config.gex.max_group_size = number,
        "macs" => config.preferred.mac = times(row.alloc(), mac::NONE, number)?,
        "blob" => config.host.keys = keys_of(row.alloc(), number)?,
        _ => row.reject(),
    }
    Ok(())
}

/// Appends what a transport of a side under a configuration answers, or why there is none.
fn say_calls(side: Side, config: &Config, row: &Row<'_>, found: &Found) -> Result<(), Fault> {
    let made = transport_of(row.alloc(), side, config);
    match lent_ok(made, |transport| called(transport, config, row, found)) {
        Ok(outcome) => outcome,
        Err(error) => {
            found.say_shown(&error);
            Ok(())
        }
    }
}

fn transport_of(alloc: Global, side: Side, config: &Config) -> Result<Transport<'_>, Error> {
    match side {
        Side::Client => Transport::client(alloc, config),
        Side::Server => Transport::server(alloc, config),
    }
}

/// Calls a transport by the words that are left.
fn called(
    transport: &mut Transport<'_>,
    config: &Config,
    row: &Row<'_>,
    found: &Found,
) -> Result<(), Fault> {
    let mut parts = Parts {
        agreement: TestAgreement::new(),
        hosts: TestHosts::new(trusted_by(row.alloc(), &config.host)?),
        groups: TestGroups { bits: 0 },
        rng: Words::of(&[]),
    };
    say_answers(transport, &mut parts, row, found);
    Ok(())
}

/// Appends what the calls answer, whatever the parts are, and how the transport stands then.
fn say_answers<A: Agreement, H: HostKeys, G: GroupLookup, R: Rng>(
    transport: &mut Transport<'_>,
    parts: &mut Parts<A, H, G, R>,
    row: &Row<'_>,
    found: &Found,
) {
    for _ in 0..row.left() {
        say_answer(transport, parts, row, found);
    }
    say_state(transport, found);
}

/// Appends what the call of the next word answers.
fn say_answer<A: Agreement, H: HostKeys, G: GroupLookup, R: Rng>(
    transport: &mut Transport<'_>,
    parts: &mut Parts<A, H, G, R>,
    row: &Row<'_>,
    found: &Found,
) {
    let call = row.word();
    match call {
        "rekey" => say_done(rekey(transport, parts), found),
        "poll" => say_poll(transport, parts, found),
        _ => say_given(transport, parts, call, row, found),
    }
}

fn say_done(answer: Result<(), Error>, found: &Found) {
    match answer {
        Ok(()) => found.say("ok"),
        Err(error) => found.say_shown(&error),
    }
}

/// Appends how a transport stands.
fn say_state(transport: &mut Transport<'_>, found: &Found) {
    if transport.failed() {
        found.say("failed");
    } else if transport.inside() {
        found.say("inside");
    }
    found.say_number(transport.unfinished() as u64);
    found.say_number(transport.finished() as u64);
    found.say_number(transport.take_delivered().as_slice().len() as u64);
    found.say_number(transport.output().len() as u64);
}

/// Appends what a call answers that is given bytes, and maybe a size.
fn say_given<A: Agreement, H: HostKeys, G: GroupLookup, R: Rng>(
    transport: &mut Transport<'_>,
    parts: &mut Parts<A, H, G, R>,
    call: &str,
    row: &Row<'_>,
    found: &Found,
) {
    let (name, given) = call.split_once(':').unwrap_or((call, ""));
    let (size, digits) = given.split_once(':').unwrap_or(("0", given));
    let size = row.count_of(size);
    let bytes = row.bytes_of(digits);
    match name {
        "feed" => say_done(feed(transport, parts, bytes.as_slice()), found),
        "submit" => say_done(submit(transport, parts, bytes.as_slice()), found),
        "take" => say_taken(take_input(transport, bytes.as_slice()), found),
        "pieces" => say_pieces(transport, parts, size, bytes.as_slice(), found),
        _ => row.reject(),
    }
}

fn say_taken(answer: Result<usize, Error>, found: &Found) {
    match answer {
        Ok(count) => found.say_number(count as u64),
        Err(error) => found.say_shown(&error),
    }
}

/// Appends the payload that is lent next, `none`, or the refusal.
fn say_poll<A: Agreement, H: HostKeys, G: GroupLookup, R: Rng>(
    transport: &mut Transport<'_>,
    parts: &mut Parts<A, H, G, R>,
    found: &Found,
) {
    if !say_lent(transport, parts, found) && !transport.failed() {
        found.say("none");
    }
}

/// Appends the payload that is lent next, or the refusal. Whether one is lent.
fn say_lent<A: Agreement, H: HostKeys, G: GroupLookup, R: Rng>(
    transport: &mut Transport<'_>,
    parts: &mut Parts<A, H, G, R>,
    found: &Found,
) -> bool {
    match poll_payload(transport, parts, found) {
        Ok(Some(payload)) => {
            found.say_bytes(payload.as_slice());
            true
        }
        Ok(None) => false,
        Err(fault) => {
            found.fail(fault);
            false
        }
    }
}

/// Takes the bytes in pieces of a size, and polls behind each until none is lent. Appends each payload, and `none` at
/// last or the refusal; or how much of a piece there is room for, where that isn't all of it.
fn say_pieces<A: Agreement, H: HostKeys, G: GroupLookup, R: Rng>(
    transport: &mut Transport<'_>,
    parts: &mut Parts<A, H, G, R>,
    size: usize,
    bytes: &[u8],
    found: &Found,
) {
    for piece in bytes.chunks(size.max(1)) {
        match take_input(transport, piece) {
            Ok(count) if count == piece.len() => {}
            taken => return say_taken(taken, found),
        }
        say_all_lent(transport, parts, found);
        if transport.failed() {
            return;
        }
    }
    found.say("none");
}

/// Appends the payloads that are lent until none is, or until the refusal.
fn say_all_lent<A: Agreement, H: HostKeys, G: GroupLookup, R: Rng>(
    transport: &mut Transport<'_>,
    parts: &mut Parts<A, H, G, R>,
    found: &Found,
) {
    for _ in 0..=transport.unfinished() {
        if !say_lent(transport, parts, found) {
            return;
        }
    }
}
