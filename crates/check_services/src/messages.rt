//! Rows on names, on messages, on extension info, and on the answers to payloads.

use ssh_service::{
    ExtInfo, Extension, ServiceAnswer, ServiceMessage, ServiceName, Services, server_sig_algs,
};
use ssh_wire::{Error, NameList};
use std::alloc::Global;
use std::str;
use vector_rows::{Fault, Found, Row};

/// Answers a row of one of these kinds. False where the kind is another.
pub(crate) fn answer(kind: &str, row: &Row<'_>, found: &Found) -> Result<bool, Fault> {
    match kind {
        "name" => name(row, found),
        "message" => message(row, found),
        _ => return answer_fallible(kind, row, found),
    }
    Ok(true)
}

/// Answers a row of one of the kinds whose words can be such that a call fails that is to succeed. False where the kind
/// is another.
fn answer_fallible(kind: &str, row: &Row<'_>, found: &Found) -> Result<bool, Fault> {
    let outcome = match kind {
        "info" => info(row, found),
        "algorithms" => algorithms(row, found),
        "answers" => answers(row, found),
        _ => return Ok(false),
    };
    outcome?;
    Ok(true)
}

/// `name BYTES`: the name of this text, or what is wrong with it.
fn name(row: &Row<'_>, found: &Found) {
    let bytes = row.bytes();
    match str::from_utf8(bytes) {
        Ok(text) => say_name(text, found),
        Err(_) => row.reject(),
    }
}

fn say_name(text: &str, found: &Found) {
    match ServiceName::new(found.alloc(), text) {
        Ok(name) => found.say(name.as_str()),
        Err(error) => found.say_shown(&error),
    }
}

/// `message PAYLOAD`: the message that is read, and `same` where it is written as the same bytes; or why none is read.
fn message(row: &Row<'_>, found: &Found) {
    let payload = row.bytes();
    match ServiceMessage::decode(row.alloc(), payload) {
        Ok(message) => say_message(&message, payload, found),
        Err(error) => found.say_shown(&error),
    }
}

/// Appends a message, and what it is written as, or `same` where that is this payload.
fn say_message(message: &ServiceMessage, payload: &[u8], found: &Found) {
    say_fields(message, found);
    let out = written(message, found);
    if out.as_slice() == payload {
        found.say("same");
    } else {
        found.say_bytes(out.as_slice());
    }
}

fn say_fields(message: &ServiceMessage, found: &Found) {
    match message {
        ServiceMessage::Request(name) => {
            found.say("request");
            found.say(name.as_str());
        }
        ServiceMessage::Accept(name) => {
            found.say("accept");
            found.say(name.as_str());
        }
        ServiceMessage::Info(info) => {
            found.say("info");
            say_extensions(info.as_slice(), found);
        }
    }
}

fn say_extensions(extensions: &[Extension], found: &Found) {
    for extension in extensions {
        found.say(extension.name.as_str());
        found.say_bytes(extension.value.as_slice());
    }
}

/// What a message is written as.
fn written(message: &ServiceMessage, found: &Found) -> Vec<u8> {
    let mut out = Vec::new(found.alloc());
    note(message.encode(&mut out), found);
    out
}

/// Keeps why a call failed that was to succeed.
pub(crate) fn note(outcome: Result<(), Error>, found: &Found) {
    if let Err(error) = outcome {
        found.fail(Fault::from(error));
    }
}

/// `info NAME VALUE ..`: the extensions that are added one after the other, a value as bytes or as `zeros:COUNT`: each
/// refusal, and then the message that is written.
fn info(row: &Row<'_>, found: &Found) -> Result<(), Fault> {
    let mut info = ExtInfo::new(row.alloc());
    for _ in 0..row.left() / 2 {
        add_extension(&mut info, row, found)?;
    }
    let out = written(&ServiceMessage::Info(info), found);
    found.say_bytes(out.as_slice());
    Ok(())
}

/// Adds the extension of the next two words, or appends the refusal.
fn add_extension(info: &mut ExtInfo, row: &Row<'_>, found: &Found) -> Result<(), Fault> {
    let name = ServiceName::new(row.alloc(), row.word())?;
    let value = value_of(row)?;
    if let Err(error) = info.push(name, value.as_slice()) {
        found.say_shown(&error);
    }
    Ok(())
}

/// The next word as a value.
fn value_of(row: &Row<'_>) -> Result<Vec<u8>, Fault> {
    let word = row.word();
    match word.strip_prefix("zeros:") {
        Some(count) => zeros(row, count),
        None => Ok(row.bytes_of(word)),
    }
}

/// As many zeros as a text tells.
fn zeros(row: &Row<'_>, count: &str) -> Result<Vec<u8>, Fault> {
    let count = row.expect(count.parse::<u16>().ok(), 0);
    let mut value = Vec::new(row.alloc());
    value.resize(usize::from(count), 0)?;
    Ok(value)
}

/// `algorithms PAYLOAD`: the signature algorithms that extension info tells, `none` where it tells none, or why they
/// can't be read.
fn algorithms(row: &Row<'_>, found: &Found) -> Result<(), Fault> {
    let payload = row.bytes();
    match ServiceMessage::decode(row.alloc(), payload)? {
        ServiceMessage::Info(info) => say_algorithms(&info, found),
        _ => row.reject(),
    }
    Ok(())
}

fn say_algorithms(info: &ExtInfo, found: &Found) {
    match server_sig_algs(found.alloc(), info) {
        Ok(Some(names)) => say_names(&names, found),
        Ok(None) => found.say("none"),
        Err(error) => found.say_shown(&error),
    }
}

fn say_names(names: &NameList, found: &Found) {
    found.say("names");
    for name in names.0.as_slice() {
        found.say(name.as_str());
    }
}

/// `answers OFFERED PAYLOAD ..`: what is answered to payloads that come one after the other, where these services are
/// offered, with commas between them.
fn answers(row: &Row<'_>, found: &Found) -> Result<(), Fault> {
    let mut services = services_in(row)?;
    for _ in 0..row.left() {
        let payload = row.bytes();
        say_received(&mut services, payload, found);
    }
    Ok(())
}

/// Appends what is answered to a payload.
fn say_received(services: &mut Services, payload: &[u8], found: &Found) {
    match services.receive(payload) {
        Ok(answer) => say_answer(&answer, found),
        Err(error) => found.fail(Fault::from(error)),
    }
}

/// The next word as services that are offered.
pub(crate) fn services_in(row: &Row<'_>) -> Result<Services, Fault> {
    let names = offered(row.alloc(), row.text())?;
    Ok(Services::new(names))
}

/// The names of a text that is cut at its commas; none of the empty text.
fn offered(alloc: Global, text: &str) -> Result<Vec<ServiceName>, Fault> {
    let mut names = Vec::new(alloc);
    if text.is_empty() {
        return Ok(names);
    }
    for name in text.split(',') {
        names.push(ServiceName::new(alloc, name)?)?;
    }
    Ok(names)
}

pub(crate) fn say_answers(answers: &[ServiceAnswer], found: &Found) {
    for answer in answers {
        say_answer(answer, found);
    }
}

fn say_answer(answer: &ServiceAnswer, found: &Found) {
    match answer {
        ServiceAnswer::Accepted(reply) => {
            found.say("accepted");
            found.say_bytes(reply.as_slice());
        }
        ServiceAnswer::Refused(reason) => {
            found.say("refused");
            found.say_number(u64::from(reason.code()));
        }
        ServiceAnswer::Extensions => found.say("extensions"),
        ServiceAnswer::Other => found.say("other"),
        ServiceAnswer::Bad(error) => {
            found.say("bad");
            found.say_shown(error);
        }
    }
}
