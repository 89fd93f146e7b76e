//! Rows of links whose sides hold secrets that may differ, and of a service that is asked for over a link. Each side
//! accepts every signature, and trusts every host.

use crate::zeroed::ZeroAgreement;
use ssh_kex::{Agreement, Parts};
use ssh_run::run_link;
use ssh_script::{Script, parse_script};
use ssh_service::{ExtInfo, ServiceAnswer, ServiceName};
use ssh_vectors::{TestAgreement, TestGroups};
use ssh_wire::PayloadList;
use std::alloc::Global;
use std::str;
use uses::{GivenAgreement, GivenHosts, Granted, ask_for_service};
use vector_rows::{Fault, Found, Row, Words};

type With<A> = Parts<A, GivenHosts, TestGroups, Words<'static>>;

/// Answers a row of one of these kinds. False where the kind is another.
///
/// Of a link of a script of `run` by its configurations and steps: the payloads that were delivered to the server, or
/// the refusal.
pub(crate) fn answer(kind: &str, row: &Row<'_>, found: &Found) -> bool {
    let outcome = match kind {
        "joined" => joined(row, found),
        "zeroed" => zeroed(row, found),
        "granted" => granted(row, found),
        _ => return false,
    };
    found.note(outcome);
    true
}

/// `joined CLIENT SERVER SCRIPT`: the link where client and server each hold this secret.
fn joined(row: &Row<'_>, found: &Found) -> Result<(), Fault> {
    let client = given(row)?;
    let server = given(row)?;
    say_between(row, client, server, found);
    Ok(())
}

/// `zeroed SCRIPT`: the link where both sides make the tests' values, and a client's secret is zeros.
fn zeroed(row: &Row<'_>, found: &Found) -> Result<(), Fault> {
    say_between(row, ZeroAgreement::new(), ZeroAgreement::new(), found);
    Ok(())
}

/// `granted SCRIPT NAME TOLD VALUE`: the client of the script's configurations asks for the service NAME, and the
/// server tells the extension TOLD of this value. The message of each grant of the server, and the messages that its
/// client reads, or the refusal.
fn granted(row: &Row<'_>, found: &Found) -> Result<(), Fault> {
    let text = row.bytes();
    let name = row.bytes();
    let extensions = told(row)?;
    match str::from_utf8(name) {
        Ok(name) => say_granted(text, name, extensions, found),
        Err(_) => row.reject(),
    }
    Ok(())
}

/// The row's next extension, alone.
fn told(row: &Row<'_>) -> Result<ExtInfo, Fault> {
    let name = row.bytes();
    let value = row.bytes();
    let Ok(name) = str::from_utf8(name) else {
        return Err(Fault::Malformed);
    };
    let name = ServiceName::new(row.alloc(), name)?;
    let mut extensions = ExtInfo::new(row.alloc());
    extensions.push(name, value)?;
    Ok(extensions)
}

/// Appends what comes of asking for the service on a link of the script of this text.
fn say_granted(text: &[u8], name: &str, extensions: ExtInfo, found: &Found) {
    match parse_script(found.alloc(), false, text) {
        Ok(script) => say_asked(&script, name, extensions, found),
        Err(_) => found.fail(Fault::Malformed),
    }
}

/// Appends what comes of asking for the service on a link of the script's configurations.
fn say_asked(script: &Script, name: &str, extensions: ExtInfo, found: &Found) {
    let alloc = found.alloc();
    let mut parts = (
        parts_of(alloc, TestAgreement::new()),
        parts_of(alloc, TestAgreement::new()),
    );
    let_sign(&mut parts.0.hosts, found);
    let_sign(&mut parts.1.hosts, found);
    say_asked_by(script, &mut parts, name, extensions, found);
}

/// The same by sides with these parts.
fn say_asked_by<A: Agreement>(
    script: &Script,
    parts: &mut (With<A>, With<A>),
    name: &str,
    extensions: ExtInfo,
    found: &Found,
) {
    match ask_for_service(
        found.alloc(),
        &script.client.config,
        &script.server.config,
        parts,
        name,
        extensions,
    ) {
        Ok(granted) => say_messages(&granted, found),
        Err(error) => found.say_shown(&error),
    }
}

/// Appends the messages of the grants, and then those that were told.
fn say_messages(granted: &Granted, found: &Found) {
    for answer in granted.answers.as_slice() {
        match answer {
            ServiceAnswer::Accepted(reply) => found.say_bytes(reply.as_slice()),
            _ => found.say_shown(answer),
        }
    }
    for message in granted.told.as_slice() {
        let mut payload = Vec::new(found.alloc());
        match message.encode(&mut payload) {
            Ok(()) => found.say_bytes(payload.as_slice()),
            Err(error) => found.fail(Fault::from(error)),
        }
    }
}

/// Appends what comes of the row's script between sides with these agreements.
fn say_between<A: Agreement + Drop>(row: &Row<'_>, client: A, server: A, found: &Found) {
    let text = row.bytes();
    let mut client = parts_of(row.alloc(), client);
    let mut server = parts_of(row.alloc(), server);
    let_sign(&mut client.hosts, found);
    let_sign(&mut server.hosts, found);
    say_link(text, &mut client, &mut server, found);
}

/// Appends what comes of the script of this text with these parts.
fn say_link<A: Agreement>(text: &[u8], client: &mut With<A>, server: &mut With<A>, found: &Found) {
    match parse_script(found.alloc(), false, text) {
        Ok(script) => say_run(&script, client, server, found),
        Err(_) => found.fail(Fault::Malformed),
    }
}

/// Appends what comes of a script with these parts.
fn say_run<A: Agreement>(
    script: &Script,
    client: &mut With<A>,
    server: &mut With<A>,
    found: &Found,
) {
    match run_link(
        found.alloc(),
        &script.client.config,
        &script.server.config,
        client,
        server,
        script.steps.as_slice(),
    ) {
        Ok(report) => say_payloads(&report.server.delivered, found),
        Err(error) => found.say_shown(&error),
    }
}

/// Appends payloads.
fn say_payloads(payloads: &PayloadList, found: &Found) {
    for payload in payloads.as_slice() {
        found.say_bytes(payload.as_slice());
    }
}

/// An agreement on the row's next secret.
fn given(row: &Row<'_>) -> Result<GivenAgreement, Fault> {
    let public = Vec::from_slice(row.alloc(), &[1; 32])?;
    Ok(GivenAgreement::of(row.alloc(), public, row.owned_bytes())?)
}

/// Parts of a side with this agreement, which draw zeros.
fn parts_of<A: Agreement + Drop>(alloc: Global, agreement: A) -> With<A> {
    Parts {
        agreement,
        hosts: GivenHosts::new(alloc),
        groups: TestGroups { bits: 0 },
        rng: Words::of(&[]),
    }
}

/// Lets host keys sign once, with no bytes.
fn let_sign(hosts: &mut GivenHosts, found: &Found) {
    if hosts.push(Vec::new(found.alloc())).is_err() {
        found.fail(Fault::Memory);
    }
}
