//! Compares rows of values with what the public calls on parts for a transport answer. The status is 0 where none
//! failed and at least one passed.
#![tactic(auto)]

use ssh_kex::{Agreement, DhGroup, GexParams, GroupLookup, HostKeys, Refusal, ServerHost};
use ssh_mac::HashValue;
use ssh_modp::{FieldAgreement, ModpGroups, RsaHosts, RsaKey};
use ssh_negotiate::{HostKey, kex};
use ssh_wire::{Algorithm, Blob};
use std::process::ExitCode;
use vector_rows::{Answers, Fault, Found, Row, Words, check, words_of};

/// Answers the rows, each by itself.
#[derive(Drop)]
struct PartRows;

impl Answers for PartRows {
    /// None.
    fn passes_over(&mut self, _kind: &str, _row: &Row<'_>, _wanted: &str) -> Result<bool, Fault> {
        Ok(false)
    }

    fn answer(&mut self, kind: &str, row: &Row<'_>, found: &Found) -> Result<bool, Fault> {
        match kind {
            "offers" => offers(row, found),
            "group" => grouped(row, found),
            "secret" => finished(row, found),
            "verify" => verified(row, found),
            _ => return answer_fallible(kind, row, found),
        }
        Ok(true)
    }
}

/// Answers a row of one of the kinds whose words are copied first, which can fail. False where the kind is another.
fn answer_fallible(kind: &str, row: &Row<'_>, found: &Found) -> Result<bool, Fault> {
    let outcome = match kind {
        "start" => started(row, found),
        "answer" => answered(row, found),
        "sign" => signed(row, found),
        "trust" => trusted(row, found),
        _ => return Ok(false),
    };
    outcome?;
    Ok(true)
}

/// The name of a key exchange.
fn kex_name(row: &Row<'_>) -> kex::Name {
    let name = kex::Name::from_str(row.word());
    row.expect(name, kex::NONE)
}

/// `PRIME GENERATOR`, or `own own` where no group is handed over.
fn group_in(row: &Row<'_>) -> Option<DhGroup> {
    let prime = row.word();
    let generator = row.word();
    if prime == "own" {
        return None;
    }
    Some(DhGroup {
        prime: Blob::new(row.bytes_of(prime)),
        generator: Blob::new(row.bytes_of(generator)),
    })
}

/// The next word as the words of a generator that draws its bytes.
fn drawn_in(row: &Row<'_>) -> Result<Vec<u32>, Fault> {
    let bytes = row.bytes();
    words_of(row.alloc(), bytes)
}

fn say_refusal(refusal: Refusal, found: &Found) {
    match refusal {
        Refusal::Refused => found.say("Refused"),
        Refusal::Memory => found.fail(Fault::Memory),
    }
}

/// `offers NAME`
fn offers(row: &Row<'_>, found: &Found) {
    let name = kex_name(row);
    let offers = FieldAgreement::new().offers(name);
    found.say(if offers { "yes" } else { "no" });
}

/// `start NAME PRIME GENERATOR DRAWN`: a client's public value, and what it keeps.
fn started(row: &Row<'_>, found: &Found) -> Result<(), Fault> {
    let name = kex_name(row);
    let group = group_in(row);
    say_started(name, group.as_ref(), row, found)
}

fn say_started(
    name: kex::Name,
    group: Option<&DhGroup>,
    row: &Row<'_>,
    found: &Found,
) -> Result<(), Fault> {
    let drawn = drawn_in(row)?;
    let mut rng = Words::of(drawn.as_slice());
    match FieldAgreement::new().client_start(row.alloc(), name, group, &mut rng) {
        Ok(started) => {
            found.say_bytes(started.public.as_slice());
            found.say_bytes(started.local.as_slice());
        }
        Err(refusal) => say_refusal(refusal, found),
    }
    Ok(())
}

/// `answer NAME PRIME GENERATOR CLIENT DRAWN`: a server's public value, and the secret.
fn answered(row: &Row<'_>, found: &Found) -> Result<(), Fault> {
    let name = kex_name(row);
    let group = group_in(row);
    say_answered(name, group.as_ref(), row, found)
}

fn say_answered(
    name: kex::Name,
    group: Option<&DhGroup>,
    row: &Row<'_>,
    found: &Found,
) -> Result<(), Fault> {
    let client = row.bytes();
    let drawn = drawn_in(row)?;
    let mut rng = Words::of(drawn.as_slice());
    let mut agreement = FieldAgreement::new();
    match agreement.server_agree(row.alloc(), name, group, client, &mut rng) {
        Ok(agreed) => {
            found.say_bytes(agreed.public.as_slice());
            found.say_bytes(agreed.secret.as_slice());
        }
        Err(refusal) => say_refusal(refusal, found),
    }
    Ok(())
}

/// `secret NAME PRIME GENERATOR LOCAL SERVER`: the secret of a client.
fn finished(row: &Row<'_>, found: &Found) {
    let name = kex_name(row);
    let group = group_in(row);
    say_finished(name, group.as_ref(), row, found);
}

fn say_finished(name: kex::Name, group: Option<&DhGroup>, row: &Row<'_>, found: &Found) {
    let local = row.bytes();
    let server = row.bytes();
    let mut agreement = FieldAgreement::new();
    match agreement.client_agree(row.alloc(), name, group, local, server) {
        Ok(secret) => found.say_bytes(secret.as_slice()),
        Err(refusal) => say_refusal(refusal, found),
    }
}

/// `group LEAST PREFERRED MOST`: the prime and the generator that are found.
fn grouped(row: &Row<'_>, found: &Found) {
    let sizes = GexParams {
        min_group_size: row.number32(),
        preferred_group_size: row.number32(),
        max_group_size: row.number32(),
    };
    match ModpGroups.lookup_dh_gex_group(row.alloc(), &sizes) {
        Ok(group) => {
            found.say_bytes(group.prime.as_slice());
            found.say_bytes(group.generator.as_slice());
        }
        Err(refusal) => say_refusal(refusal, found),
    }
}

fn algorithm(row: &Row<'_>) -> Algorithm {
    let algorithm = Algorithm::from_str(row.word());
    row.expect(algorithm, Algorithm::Ed25519)
}

/// `sign ALGORITHM BLOB PRIVATE HASH`: the blob of the signature.
fn signed(row: &Row<'_>, found: &Found) -> Result<(), Fault> {
    let algorithm = algorithm(row);
    let key = HostKey {
        algorithm: Algorithm::Rsa(None),
        blob: Blob::new(row.owned_bytes()),
    };
    let private = private_in(row, key.blob.as_slice())?;
    let mut hosts = RsaHosts::new(Some(private), Vec::new(row.alloc()));
    say_signature(&mut hosts, &key, algorithm, row, found);
    Ok(())
}

/// The next word as the private part of a key of this blob.
fn private_in(row: &Row<'_>, blob: &[u8]) -> Result<RsaKey, Fault> {
    Ok(RsaKey {
        blob: Blob::copy_of(row.alloc(), blob)?,
        private: Blob::new(row.owned_bytes()),
    })
}

fn say_signature(
    hosts: &mut RsaHosts,
    key: &HostKey,
    algorithm: Algorithm,
    row: &Row<'_>,
    found: &Found,
) {
    let hash = hash_in(row);
    match hosts.sign(row.alloc(), key, algorithm, &hash) {
        Ok(signature) => found.say_bytes(signature.as_slice()),
        Err(refusal) => say_refusal(refusal, found),
    }
}

/// A hash, of at most 64 bytes.
fn hash_in(row: &Row<'_>) -> HashValue {
    let bytes = row.bytes();
    if bytes.len() > 64 {
        row.reject();
        return HashValue::of(&[]);
    }
    HashValue::of(bytes)
}

fn host_in(row: &Row<'_>) -> ServerHost {
    ServerHost {
        algorithm: algorithm(row),
        is_certificate: false,
        blob: Blob::new(row.owned_bytes()),
    }
}

/// `verify ALGORITHM BLOB HASH SIGNATURE`
fn verified(row: &Row<'_>, found: &Found) {
    let host = host_in(row);
    let hash = hash_in(row);
    say_verified(&host, &hash, row, found);
}

fn say_verified(host: &ServerHost, hash: &HashValue, row: &Row<'_>, found: &Found) {
    let signature = row.bytes();
    let mut hosts = RsaHosts::new(None, Vec::new(row.alloc()));
    say_agreed(hosts.verify(row.alloc(), host, hash, signature), found);
}

/// `trust BLOB KNOWN..`: whether a host of the first blob is trusted, where the others are known.
fn trusted(row: &Row<'_>, found: &Found) -> Result<(), Fault> {
    let host = ServerHost {
        algorithm: Algorithm::Rsa(None),
        is_certificate: false,
        blob: Blob::new(row.owned_bytes()),
    };
    let mut hosts = RsaHosts::new(None, known_in(row)?);
    say_agreed(hosts.check(row.alloc(), &host), found);
    Ok(())
}

/// The blobs that the words left have.
fn known_in(row: &Row<'_>) -> Result<Vec<Blob>, Fault> {
    let mut known = Vec::new(row.alloc());
    for _ in 0..row.left() {
        known.push(Blob::new(row.owned_bytes()))?;
    }
    Ok(known)
}

/// Appends whether a host was found good.
fn say_agreed(answer: Result<(), Refusal>, found: &Found) {
    match answer {
        Ok(()) => found.say("Ok"),
        Err(refusal) => say_refusal(refusal, found),
    }
}

fn main(rt: HostRuntime) -> ExitCode {
    match check(&rt, &mut PartRows) {
        Ok(true) => ExitCode::SUCCESS,
        _ => ExitCode::FAILURE,
    }
}
