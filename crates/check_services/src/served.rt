//! Rows on a server that grants services over a transport.

use crate::messages::{note, say_answers, services_in};
use machine_rows::{config_of, feed, key_of, submit, trusted_by};
use rand_core::Rng;
use ssh_kex::{Agreement, Config, GexParams, GroupLookup, HostKeys, Parts};
use ssh_negotiate::ServerKeys;
use ssh_service::{Services, serve};
use ssh_transport::Transport;
use ssh_vectors::{TestAgreement, TestGroups, TestHosts};
use ssh_wire::Blob;
use std::alloc::Global;
use vector_rows::preferences::preferred;
use vector_rows::{Fault, Found, Row, Words, lent_ok};

/// How many turns a first exchange takes at most.
const TURNS: u32 = 8;

/// `served PREFERENCES OFFERED PAYLOAD ..`: both sides come out of their first exchange, and the client submits the
/// payloads. What a server answers that offers these services, with commas between them; `to` and what is delivered to
/// the client; and what the server answers once its transport has failed.
pub(crate) fn answer(kind: &str, row: &Row<'_>, found: &Found) -> Result<bool, Fault> {
    if kind != "served" {
        return Ok(false);
    }
    let outcome = match &config_by(row) {
        Ok(config) => served(config, row, found),
        Err(fault) => Err(*fault),
    };
    outcome?;
    Ok(true)
}

/// Both sides' configuration, by the next word.
fn config_by(row: &Row<'_>) -> Result<Config, Fault> {
    let host = own_keys(row.alloc())?;
    let preferred = preferred(row)?;
    let gex = GexParams {
        min_group_size: 2048,
        preferred_group_size: 3072,
        max_group_size: 8192,
    };
    config_of(row.alloc(), "SSH-2.0-own", preferred, gex, host)
}

fn own_keys(alloc: Global) -> Result<ServerKeys, Fault> {
    let blob = Blob::copy_of(alloc, b"sshlink-test-key")?;
    Ok(ServerKeys {
        keys: key_of(alloc, blob)?,
        certificates: Vec::new(alloc),
    })
}

/// Answers by the words that are left, where both sides have this configuration.
fn served(config: &Config, row: &Row<'_>, found: &Found) -> Result<(), Fault> {
    let mut services = services_in(row)?;
    let mut parts = parts_of(row.alloc(), config)?;
    with_client(config, &mut parts, &mut services, row, found)
}

/// Parts of which both sides use the same ones.
fn parts_of(
    alloc: Global,
    config: &Config,
) -> Result<Parts<TestAgreement, TestHosts, TestGroups, Words<'static>>, Fault> {
    Ok(Parts {
        agreement: TestAgreement::new(),
        hosts: TestHosts::new(trusted_by(alloc, &config.host)?),
        groups: TestGroups { bits: 0 },
        rng: Words::of(&[]),
    })
}

/// Answers where the client is one of this configuration.
fn with_client<A: Agreement, H: HostKeys, G: GroupLookup, R: Rng>(
    config: &Config,
    parts: &mut Parts<A, H, G, R>,
    services: &mut Services,
    row: &Row<'_>,
    found: &Found,
) -> Result<(), Fault> {
    let made = Transport::client(row.alloc(), config);
    lent_ok(
        made,
        |client| with_server(config, client, parts, services, row, found),
    )?
}

/// Answers where the server is one of this configuration, too.
fn with_server<A: Agreement, H: HostKeys, G: GroupLookup, R: Rng>(
    config: &Config,
    client: &mut Transport<'_>,
    parts: &mut Parts<A, H, G, R>,
    services: &mut Services,
    row: &Row<'_>,
    found: &Found,
) -> Result<(), Fault> {
    let made = Transport::server(row.alloc(), config);
    Ok(lent_ok(
        made,
        |server| say_talk(client, server, parts, services, row, found),
    )?)
}

/// Appends what the server answers to the payloads that are left, and what comes of it.
fn say_talk<A: Agreement, H: HostKeys, G: GroupLookup, R: Rng>(
    client: &mut Transport<'_>,
    server: &mut Transport<'_>,
    parts: &mut Parts<A, H, G, R>,
    services: &mut Services,
    row: &Row<'_>,
    found: &Found,
) {
    greet(client, server, parts, found);
    submit_all(client, parts, row, found);
    carry(client, server, parts, found);
    say_served(server, parts, services, found);
    carry(server, client, parts, found);
    say_delivered(client, found);
    say_failed(server, parts, services, found);
}

/// Carries what both sides send until neither is inside an exchange.
fn greet<A: Agreement, H: HostKeys, G: GroupLookup, R: Rng>(
    client: &mut Transport<'_>,
    server: &mut Transport<'_>,
    parts: &mut Parts<A, H, G, R>,
    found: &Found,
) {
    for _ in 0..TURNS {
        carry(client, server, parts, found);
        carry(server, client, parts, found);
        if !client.inside() && !server.inside() {
            return;
        }
    }
    found.fail(Fault::Refused);
}

/// Carries all that one side has to send to the other.
fn carry<A: Agreement, H: HostKeys, G: GroupLookup, R: Rng>(
    from: &mut Transport<'_>,
    to: &mut Transport<'_>,
    parts: &mut Parts<A, H, G, R>,
    found: &Found,
) {
    note(feed(to, parts, from.output()), found);
    let sent = from.output().len();
    from.consume_output(sent);
}

/// Submits the payloads that are left.
fn submit_all<A: Agreement, H: HostKeys, G: GroupLookup, R: Rng>(
    transport: &mut Transport<'_>,
    parts: &mut Parts<A, H, G, R>,
    row: &Row<'_>,
    found: &Found,
) {
    for _ in 0..row.left() {
        let payload = row.bytes();
        note(submit(transport, parts, payload), found);
    }
}

/// Appends what is answered to the payloads that were delivered.
fn say_served<A: Agreement, H: HostKeys, G: GroupLookup, R: Rng>(
    transport: &mut Transport<'_>,
    parts: &mut Parts<A, H, G, R>,
    services: &mut Services,
    found: &Found,
) {
    match serve(found.alloc(), transport, parts, services) {
        Ok(answers) => say_answers(answers.as_slice(), found),
        Err(error) => found.fail(Fault::from(error)),
    }
}

/// Appends what was delivered.
fn say_delivered(transport: &mut Transport<'_>, found: &Found) {
    found.say("to");
    for payload in transport.take_delivered().as_slice() {
        found.say_bytes(payload.as_slice());
    }
}

/// Appends what is answered once a packet that nobody sealed has come.
fn say_failed<A: Agreement, H: HostKeys, G: GroupLookup, R: Rng>(
    transport: &mut Transport<'_>,
    parts: &mut Parts<A, H, G, R>,
    services: &mut Services,
    found: &Found,
) {
    if feed(transport, parts, &[0; 64]).is_ok() {
        found.fail(Fault::Refused);
    }
    match serve(found.alloc(), transport, parts, services) {
        Ok(_) => found.say("served"),
        Err(error) => found.say_shown(&error),
    }
}
