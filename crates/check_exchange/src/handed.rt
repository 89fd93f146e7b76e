//! Rows of the test parts: what they agree on, sign, accept and look up, and which call a part refuses.

use crate::forms::kex_of;
use rand_core::Rng;
use ssh_kex::{Agreement, DhGroup, GexParams, GroupLookup, HostKeys, Parts, Refusal, ServerHost};
use ssh_mac::HashValue;
use ssh_negotiate::{HostKey, kex};
use ssh_vectors::{Refusing, TestAgreement, TestGroups, TestHosts, TrustedHost};
use ssh_wire::{Algorithm, Blob};
use std::alloc::Global;
use uses::{OneGroup, agree_in_group};
use vector_rows::{Fault, Found, Row, Words, words_of};

/// Answers a row of one of these kinds. False where the kind is another.
pub(crate) fn answer(kind: &str, row: &Row<'_>, found: &Found) -> bool {
    match kind {
        "test_offers" => offers(row, found),
        "test_agreement" => agreement(row, found),
        "test_secret" => secret(row, found),
        "test_signature" => signature(row, found),
        "test_host" => host(row, found),
        "test_group" => group(row, found),
        "one_group" => one_group(row, found),
        "agree" => agree(row, found),
        _ => return false,
    }
    true
}

/// Answers a row on a part that refuses a call. False where the kind is another.
pub(crate) fn answer_refusing(kind: &str, row: &Row<'_>, found: &Found) -> bool {
    match kind {
        "refusing_agreement" => refusing_agreement(row, found),
        "refusing_hosts" => refusing_hosts(row, found),
        "refusing_groups" => refusing_groups(row, found),
        _ => return false,
    }
    true
}

/// The next words as PRIME GENERATOR, or as `none` for no group.
pub(crate) fn group_of(row: &Row<'_>) -> Option<DhGroup> {
    let word = row.word();
    if word == "none" {
        return None;
    }
    Some(DhGroup {
        prime: Blob::new(row.bytes_of(word)),
        generator: Blob::new(row.owned_bytes()),
    })
}

/// The next word as a hash.
pub(crate) fn hash_of(row: &Row<'_>) -> HashValue {
    let bytes = row.bytes();
    if bytes.len() > 64 {
        row.reject();
        return HashValue::empty();
    }
    HashValue::of(bytes)
}

/// The next word as an algorithm.
fn algorithm_of(row: &Row<'_>) -> Algorithm {
    let algorithm = Algorithm::from_str(row.word());
    row.expect(algorithm, Algorithm::Ed25519)
}

/// The next word as trusted hosts: BLOB:KEYBLOB with commas between them, or `-` for none.
fn trusted_of(row: &Row<'_>) -> Result<Vec<TrustedHost>, Fault> {
    let mut trusted = Vec::new(row.alloc());
    let word = row.text();
    for pair in word.split(',').filter(|pair| !pair.is_empty()) {
        let (blob, key_blob) = row.expect(pair.split_once(':'), ("", ""));
        trusted.push(TrustedHost {
            blob: Blob::new(row.bytes_of(blob)),
            key_blob: Blob::new(row.bytes_of(key_blob)),
        })?;
    }
    Ok(trusted)
}

/// One trusted host, of this blob, which is its key's, too.
fn trusted_alone(alloc: Global, blob: &[u8]) -> Result<Vec<TrustedHost>, Fault> {
    let mut trusted = Vec::new(alloc);
    trusted.push(TrustedHost {
        blob: Blob::copy_of(alloc, blob)?,
        key_blob: Blob::copy_of(alloc, blob)?,
    })?;
    Ok(trusted)
}

/// Appends `ok`, or why there was no answer.
pub(crate) fn say_answer<T>(found: &Found, answer: &Result<T, Refusal>) {
    match answer {
        Ok(_) => found.say("ok"),
        Err(refusal) => found.say_shown(refusal),
    }
}

/// Appends bytes, or why there are none.
pub(crate) fn say_blob(found: &Found, answer: &Result<Blob, Refusal>) {
    match answer {
        Ok(blob) => found.say_bytes(blob.as_slice()),
        Err(refusal) => found.say_shown(refusal),
    }
}

/// `test_offers NAME`: whether the test agreement has the key exchange.
fn offers(row: &Row<'_>, found: &Found) {
    found.say_shown(&TestAgreement::new().offers(kex_of(row)));
}

/// `test_agreement NAME GROUP CLIENT SERVER`: the server's value that is drawn from these bytes and its secret, how
/// many calls and refusals there were, and how many words were left undrawn.
fn agreement(row: &Row<'_>, found: &Found) {
    let name = kex_of(row);
    let group = group_of(row);
    let (client, server) = (row.bytes(), row.bytes());
    match words_of(row.alloc(), server) {
        Ok(words) => say_agreement(name, group.as_ref(), client, words.as_slice(), found),
        Err(fault) => found.fail(fault),
    }
}

/// Appends what the test agreement answers a client of this value, drawing these words.
fn say_agreement(
    name: kex::Name,
    group: Option<&DhGroup>,
    client: &[u8],
    words: &[u32],
    found: &Found,
) {
    let mut rng = Words::of(words);
    let mut parts = TestAgreement::new();
    match parts.server_agree(found.alloc(), name, group, client, &mut rng) {
        Ok(agreed) => {
            found.say_bytes(agreed.public.as_slice());
            found.say_bytes(agreed.secret.as_slice());
        }
        Err(refusal) => found.say_shown(&refusal),
    }
    found.say_number(parts.calls());
    found.say_number(parts.refusals());
    found.say_number(rng.left() as u64);
}

/// `test_secret NAME GROUP LOCAL SERVER`: a client's secret, and how many refusals there were.
fn secret(row: &Row<'_>, found: &Found) {
    let name = kex_of(row);
    let group = group_of(row);
    let (local, server) = (row.bytes(), row.bytes());
    let mut parts = TestAgreement::new();
    let answer = parts.client_agree(row.alloc(), name, group.as_ref(), local, server);
    say_blob(found, &answer);
    found.say_number(parts.refusals());
}

/// `test_signature ALGORITHM KEYBLOB HASH`: the signature.
fn signature(row: &Row<'_>, found: &Found) {
    let algorithm = algorithm_of(row);
    let key = HostKey {
        algorithm,
        blob: Blob::new(row.owned_bytes()),
    };
    let hash = hash_of(row);
    let mut parts = TestHosts::new(Vec::new(row.alloc()));
    say_blob(found, &parts.sign(row.alloc(), &key, algorithm, &hash));
}

/// `test_host TRUSTED ALGORITHM BLOB HASH SIGNATURE`: whether the host is trusted, whether its signature is right, and
/// how many calls, signatures refused and hosts refused there were.
fn host(row: &Row<'_>, found: &Found) {
    match trusted_of(row) {
        Ok(trusted) => say_host(row, &mut TestHosts::new(trusted), found),
        Err(fault) => found.fail(fault),
    }
}

/// Appends what host keys answer on the host and the signature of the next words.
fn say_host(row: &Row<'_>, parts: &mut TestHosts, found: &Found) {
    let host = ServerHost {
        algorithm: algorithm_of(row),
        is_certificate: false,
        blob: Blob::new(row.owned_bytes()),
    };
    let hash = hash_of(row);
    let signature = row.bytes();
    say_answer(found, &parts.check(row.alloc(), &host));
    let answer = parts.verify(row.alloc(), &host, &hash, signature);
    say_answer(found, &answer);
    found.say_number(parts.calls());
    found.say_number(parts.refused_verify());
    found.say_number(parts.refused_check());
}

/// The next words as sizes: LEAST PREFERRED MOST.
pub(crate) fn sizes_of(row: &Row<'_>) -> GexParams {
    GexParams {
        min_group_size: row.number32(),
        preferred_group_size: row.number32(),
        max_group_size: row.number32(),
    }
}

/// `test_group BITS LEAST PREFERRED MOST`: how many bytes the prime has, the prime, the generator.
fn group(row: &Row<'_>, found: &Found) {
    let mut parts = TestGroups {
        bits: row.number32(),
    };
    let sizes = sizes_of(row);
    say_group(found, &parts.lookup_dh_gex_group(row.alloc(), &sizes));
}

/// Appends a group, or why there is none.
pub(crate) fn say_group(found: &Found, answer: &Result<DhGroup, Refusal>) {
    match answer {
        Ok(group) => {
            found.say_number(group.prime.as_slice().len() as u64);
            found.say_bytes(group.prime.as_slice());
            found.say_bytes(group.generator.as_slice());
        }
        Err(refusal) => found.say_shown(refusal),
    }
}

/// `one_group LEAST PREFERRED MOST`: the same of a lookup that knows one group, and how often it was asked.
fn one_group(row: &Row<'_>, found: &Found) {
    let mut part = OneGroup { calls: 0 };
    let sizes = sizes_of(row);
    say_group(found, &part.lookup_dh_gex_group(row.alloc(), &sizes));
    found.say_number(part.calls);
}

/// `agree NAME BITS CLIENT SERVER`: the client's and the server's secret, in a group of so many bits and by values
/// that are drawn from these bytes.
fn agree(row: &Row<'_>, found: &Found) {
    let name = kex_of(row);
    let bits = row.number32();
    let (client, server) = (row.bytes(), row.bytes());
    let outcome = agree_drawing(name, bits, client, server, found);
    found.note(outcome);
}

/// Appends the secrets of two sides that draw these bytes.
fn agree_drawing(
    name: kex::Name,
    bits: u32,
    client: &[u8],
    server: &[u8],
    found: &Found,
) -> Result<(), Fault> {
    let client = words_of(found.alloc(), client)?;
    let server = words_of(found.alloc(), server)?;
    say_agreed(name, bits, client.as_slice(), server.as_slice(), found)
}

/// Appends the secrets of two sides that draw these words, and trust the host.
fn say_agreed(
    name: kex::Name,
    bits: u32,
    client_words: &[u32],
    server_words: &[u32],
    found: &Found,
) -> Result<(), Fault> {
    let alloc = found.alloc();
    let blob = Blob::copy_of(alloc, b"host")?;
    let trusted_by_client = trusted_alone(alloc, b"host")?;
    let trusted_by_server = trusted_alone(alloc, b"host")?;
    let host = ServerHost {
        algorithm: Algorithm::Ed25519,
        is_certificate: false,
        blob,
    };
    let mut client = parts_with(bits, trusted_by_client, client_words);
    let mut server = parts_with(bits, trusted_by_server, server_words);
    say_secrets(name, bits, &host, &mut client, &mut server, found);
    Ok(())
}

/// The parts of a side that trusts these hosts, and draws these words.
fn parts_with<'a>(
    bits: u32,
    trusted: Vec<TrustedHost>,
    words: &'a [u32],
) -> Parts<TestAgreement, TestHosts, TestGroups, Words<'a>> {
    Parts {
        agreement: TestAgreement::new(),
        hosts: TestHosts::new(trusted),
        groups: TestGroups { bits },
        rng: Words::of(words),
    }
}

/// Appends both secrets of sides with these parts, or the refusal.
fn say_secrets<A: Agreement, H: HostKeys, G: GroupLookup, R: Rng>(
    name: kex::Name,
    bits: u32,
    host: &ServerHost,
    client: &mut Parts<A, H, G, R>,
    server: &mut Parts<A, H, G, R>,
    found: &Found,
) {
    let sizes = GexParams {
        min_group_size: bits,
        preferred_group_size: bits,
        max_group_size: bits,
    };
    match agree_in_group(found.alloc(), client, server, name, &sizes, host) {
        Ok((_group, secrets)) => {
            found.say_bytes(secrets.client.as_slice());
            found.say_bytes(secrets.server.as_slice());
        }
        Err(refusal) => found.say_shown(&refusal),
    }
}

/// A part that refuses the call with the next word's number.
fn refusing<T: Drop>(row: &Row<'_>, inner: T) -> Refusing<T> {
    Refusing {
        inner,
        refuse_at: row.number(),
        calls: 0,
        refusals: [0; 3],
    }
}

/// Appends the counts of calls and of refusals.
fn say_counts<T>(found: &Found, part: &Refusing<T>) {
    found.say_number(part.calls);
    found.say_shown(&part.refusals);
}

/// `refusing_agreement NUMBER CALL..`: what each of the calls `offers`, `start`, `server` and `client` of a test
/// agreement answers that refuses the call with this number, and the counts.
fn refusing_agreement(row: &Row<'_>, found: &Found) {
    let mut part = refusing(row, TestAgreement::new());
    let mut rng = Words::of(&[]);
    for _ in 0..row.left() {
        ask_agreement(row, found, &mut part, &mut rng);
    }
    say_counts(found, &part);
}

/// Appends what an agreement answers the next word's call.
fn ask_agreement<A: Agreement, R: Rng>(row: &Row<'_>, found: &Found, part: &mut A, rng: &mut R) {
    let name = kex::CURVE25519;
    let value = [0; 32];
    match row.word() {
        "offers" => found.say_shown(&part.offers(name)),
        "start" => say_answer(found, &part.client_start(row.alloc(), name, None, rng)),
        "server" => say_answer(
            found,
            &part.server_agree(row.alloc(), name, None, &value, rng),
        ),
        "client" => say_answer(
            found,
            &part.client_agree(row.alloc(), name, None, &value, &value),
        ),
        _ => row.reject(),
    }
}

/// `refusing_hosts NUMBER CALL..`: the same of `sign`, `verify` and `check` of test host keys, which trust a host of no
/// bytes, and whose signatures are given no bytes to judge.
fn refusing_hosts(row: &Row<'_>, found: &Found) {
    match trusted_alone(row.alloc(), &[]) {
        Ok(trusted) => {
            let mut part = refusing(row, TestHosts::new(trusted));
            for _ in 0..row.left() {
                ask_hosts(row, found, &mut part);
            }
            say_counts(found, &part);
        }
        Err(fault) => found.fail(fault),
    }
}

/// Appends what host keys answer the next word's call.
fn ask_hosts<H: HostKeys>(row: &Row<'_>, found: &Found, part: &mut H) {
    let alloc = row.alloc();
    let algorithm = Algorithm::Ed25519;
    let hash = HashValue::empty();
    let host = ServerHost {
        algorithm,
        is_certificate: false,
        blob: Blob::new(Vec::new(alloc)),
    };
    let key = HostKey {
        algorithm,
        blob: Blob::new(Vec::new(alloc)),
    };
    match row.word() {
        "sign" => say_answer(found, &part.sign(alloc, &key, algorithm, &hash)),
        "verify" => say_answer(found, &part.verify(alloc, &host, &hash, &[])),
        "check" => say_answer(found, &part.check(alloc, &host)),
        _ => row.reject(),
    }
}

/// `refusing_groups NUMBER TIMES`: the same of a lookup of 9 bits that is asked so many times.
fn refusing_groups(row: &Row<'_>, found: &Found) {
    let mut part = refusing(row, TestGroups { bits: 9 });
    let sizes = GexParams {
        min_group_size: 0,
        preferred_group_size: 0,
        max_group_size: 0,
    };
    for _ in 0..row.count() {
        say_answer(found, &part.lookup_dh_gex_group(row.alloc(), &sizes));
    }
    say_counts(found, &part);
}
