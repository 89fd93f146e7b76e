//! Rows on the exchange's forms: sizes, groups, secrets, canonical signatures, lengths of keys, and calls out of turn.

use ssh_kex::{
    Agreement, DhGroup, GexParams, KexAlgorithm, Keys, SharedSecret, canonicalize_ecdsa_signature,
    compute_keys,
};
use ssh_mac::{HashValue, mac};
use ssh_negotiate::{Names, kex};
use ssh_packet::cipher;
use ssh_packet::compression::Compression;
use ssh_wire::{Algorithm, Blob, Error, Reader};
use uses::GivenAgreement;
use vector_rows::{Fault, Found, Row, Words};

/// Answers a row of one of these kinds. False where the kind is another.
pub(crate) fn answer(kind: &str, row: &Row<'_>, found: &Found) -> bool {
    match kind {
        "sizes" => sizes(row, found),
        "sizes_read" => sizes_read(row, found),
        "bits" => bits(row, found),
        "secret" => secret(row, found),
        "canonical" => canonical(row, found),
        "key_lengths" => key_lengths(row, found),
        "request" => request(row, found),
        "unstarted" => unstarted(row, found),
        "used" => used(row, found),
        _ => return false,
    }
    true
}

/// The next word as the name of a key exchange.
pub(crate) fn kex_of(row: &Row<'_>) -> kex::Name {
    let name = kex::Name::from_str(row.word());
    row.expect(name, kex::NONE)
}

/// The next word as the name of a cipher.
fn cipher_of(row: &Row<'_>) -> cipher::Name {
    let name = cipher::Name::from_str(row.word());
    row.expect(name, cipher::NONE)
}

/// The next word as the name of a MAC.
fn mac_of(row: &Row<'_>) -> mac::Name {
    let name = mac::Name::from_str(row.word());
    row.expect(name, mac::NONE)
}

/// The next words, KEX CIPHER MAC MAC, as names that were agreed on.
fn names_of(row: &Row<'_>) -> Names {
    Names {
        kex: kex_of(row),
        key: Algorithm::Ed25519,
        cipher: cipher_of(row),
        client_mac: mac_of(row),
        server_mac: mac_of(row),
        server_compression: Compression::None,
        client_compression: Compression::None,
        ignore_guessed: false,
        guessed_ignored: false,
        host_key_is_certificate: false,
        strict_kex: false,
    }
}

/// The next words as three sizes.
fn three_sizes(row: &Row<'_>) -> Result<GexParams, Error> {
    let least = row.number32();
    let preferred = row.number32();
    let most = row.number32();
    GexParams::new(least, preferred, most)
}

/// `sizes A B C`: three sizes as they are written, or why they are none.
fn sizes(row: &Row<'_>, found: &Found) {
    match three_sizes(row) {
        Ok(params) => {
            let mut out = Vec::new(row.alloc());
            match params.encode(&mut out) {
                Ok(()) => found.say_bytes(out.as_slice()),
                Err(error) => found.fail(Fault::from(error)),
            }
        }
        Err(error) => found.say_shown(&error),
    }
}

/// `sizes_read BYTES`: three sizes as they are read, or why they can't be, and how many bytes are left.
fn sizes_read(row: &Row<'_>, found: &Found) {
    let bytes = row.bytes();
    let mut reader = Reader::new(bytes);
    match GexParams::decode(&mut reader) {
        Ok(params) => {
            found.say_number(u64::from(params.min_group_size));
            found.say_number(u64::from(params.preferred_group_size));
            found.say_number(u64::from(params.max_group_size));
        }
        Err(error) => found.say_shown(&error),
    }
    found.say("left");
    found.say_number(reader.remaining_len() as u64);
}

/// `bits BYTES`: how many binary digits a prime of these bytes has.
fn bits(row: &Row<'_>, found: &Found) {
    let group = DhGroup {
        prime: Blob::new(row.owned_bytes()),
        generator: Blob::new(Vec::new(row.alloc())),
    };
    found.say_number(group.bit_size());
}

/// `secret FORM BYTES`: the bytes of a secret that is an `mpint` or a `string`.
fn secret(row: &Row<'_>, found: &Found) {
    let form = row.word();
    let bytes = row.bytes();
    if bytes.len() >= 1 << 24 {
        return row.reject();
    }
    let secret = match form {
        "mpint" => SharedSecret::from_mpint(row.alloc(), bytes),
        "string" => SharedSecret::from_string(row.alloc(), bytes),
        _ => return row.reject(),
    };
    match secret {
        Ok(secret) => found.say_bytes(secret.as_bytes()),
        Err(error) => found.fail(Fault::from(error)),
    }
}

/// `canonical BLOB`: the canonical form of a signature, or `none`.
fn canonical(row: &Row<'_>, found: &Found) {
    let blob = row.bytes();
    if blob.len() >= 1 << 24 {
        return row.reject();
    }
    match canonicalize_ecdsa_signature(row.alloc(), blob) {
        Ok(Some(form)) => found.say_bytes(form.as_slice()),
        Ok(None) => found.say("none"),
        Err(error) => found.fail(Fault::from(error)),
    }
}

/// `key_lengths KEX CIPHER MAC MAC`: the lengths of the six keys.
fn key_lengths(row: &Row<'_>, found: &Found) {
    let names = names_of(row);
    let hash = HashValue::empty();
    let keys = compute_keys(names.kex.shape().digest, None, &hash, &hash, &names, false).keys;
    say_lengths(&keys, found);
}

/// Appends the lengths of keys.
fn say_lengths(keys: &Keys, found: &Found) {
    found.say_number(keys.iv_c2s.as_bytes().len() as u64);
    found.say_number(keys.iv_s2c.as_bytes().len() as u64);
    found.say_number(keys.key_c2s.as_bytes().len() as u64);
    found.say_number(keys.key_s2c.as_bytes().len() as u64);
    found.say_number(keys.mac_c2s.as_bytes().len() as u64);
    found.say_number(keys.mac_s2c.as_bytes().len() as u64);
}

/// `request KEX A B C`: the message that asks for a group, or why there is none, and whether a group is kept.
fn request(row: &Row<'_>, found: &Found) {
    let mut algorithm = KexAlgorithm::new(row.alloc(), kex_of(row));
    match three_sizes(row) {
        Ok(params) => say_request(row, &mut algorithm, &params, found),
        Err(error) => found.fail(Fault::from(error)),
    }
}

/// Appends the message that asks for a group of these sizes, or why there is none, and whether a group is kept.
fn say_request(row: &Row<'_>, algorithm: &mut KexAlgorithm, params: &GexParams, found: &Found) {
    let mut out = Vec::new(row.alloc());
    match algorithm.client_dh_gex_init(params, &mut out) {
        Ok(()) => found.say_bytes(out.as_slice()),
        Err(error) => found.say_shown(&error),
    }
    let group = DhGroup {
        prime: Blob::new(Vec::new(row.alloc())),
        generator: Blob::new(Vec::new(row.alloc())),
    };
    found.say_shown(&algorithm.dh_gex_set_group(group));
}

/// `unstarted KEX`: what `compute_shared_secret` answers before `client_dh`.
fn unstarted(row: &Row<'_>, found: &Found) {
    let mut algorithm = KexAlgorithm::new(row.alloc(), kex_of(row));
    let mut given = GivenAgreement::new(row.alloc());
    found.say_shown(&algorithm.compute_shared_secret(&mut given, b""));
}

/// `used KEX PUBLIC SECRET`: what `client_dh` writes, and what `compute_shared_secret` answers twice behind it.
fn used(row: &Row<'_>, found: &Found) {
    let mut algorithm = KexAlgorithm::new(row.alloc(), kex_of(row));
    match GivenAgreement::of(row.alloc(), row.owned_bytes(), row.owned_bytes()) {
        Ok(mut given) => say_used(row, &mut algorithm, &mut given, found),
        Err(error) => found.fail(Fault::from(error)),
    }
}

/// Appends what `client_dh` writes by an agreement, and what `compute_shared_secret` answers twice behind it.
fn say_used<A: Agreement>(
    row: &Row<'_>,
    algorithm: &mut KexAlgorithm,
    given: &mut A,
    found: &Found,
) {
    let mut own = Blob::new(Vec::new(row.alloc()));
    let mut out = Vec::new(row.alloc());
    match algorithm.client_dh(given, &mut Words::of(&[]), &mut own, &mut out) {
        Ok(()) => found.say_bytes(out.as_slice()),
        Err(error) => found.fail(Fault::from(error)),
    }
    found.say_shown(&algorithm.compute_shared_secret(given, b""));
    found.say_shown(&algorithm.compute_shared_secret(given, b""));
}
