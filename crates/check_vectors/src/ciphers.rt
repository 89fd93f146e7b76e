//! Rows of AES (FIPS 197), its modes (SP 800-38A, SP 800-38D), digests (FIPS 180-4), HMAC (RFC 2104) and the tags
//! of packets (RFC 4253 section 6.4).

ghost use Rattle.std.specs.Prelude.{◌≡◌, ◌⊎◌, IsTrue, length};
ghost use Rattle.ssh_aes.specs.Keys.{IsKeyLength};

use crate::shared::say_other;
use ssh_aes::{Aes, CbcWrapper, CtrWrapper, Gcm, PacketLengthProbe};
use ssh_mac::mac::{self, Mac, MacKey};
use ssh_mac::{DigestKind, HashValue, Hasher, hmac_of};
use vector_rows::{Fault, Found, Row};

/// Answers a row of one of these kinds. False where the kind is another.
pub(crate) fn answer(kind: &str, row: &Row<'_>, found: &Found) -> bool {
    match kind {
        "aes" => aes(row, found),
        "digest" => digest(row, found),
        "digest_of_many" => digest_of_many(row, found),
        "hmac" => hmac(row, found),
        "tag" => tag(row, found),
        "hash_values" => hash_values(row, found),
        _ => return answer_in_modes(kind, row, found),
    }
    true
}

/// The same of the kinds that are of a mode.
fn answer_in_modes(kind: &str, row: &Row<'_>, found: &Found) -> bool {
    let outcome = match kind {
        "ctr" => counter_mode(row, found),
        "cbc" => chaining_mode(row, found),
        "gcm" => galois_counter_mode(row, found),
        _ => return false,
    };
    found.note(outcome);
    true
}

fn is_key(key: &[u8]) -> bool
    ensures { IsTrue result → IsKeyLength (length key.now) }
{
    key.len() == 16 || key.len() == 24 || key.len() == 32
}

fn is_gcm_key(key: &[u8]) -> bool
    ensures { IsTrue result → (length key.now ≡ 16) ⊎ (length key.now ≡ 32) }
{
    key.len() == 16 || key.len() == 32
}

/// `aes KEY BLOCK`: the encrypted block, and `back` with what it decrypts to where that is another.
fn aes(row: &Row<'_>, found: &Found) {
    let key = row.bytes();
    let plain = row.array::<16>();
    if !is_key(key) {
        return row.reject();
    }
    let aes = Aes::new(key);
    let mut block = plain;
    aes.encrypt_block(&mut block);
    found.say_bytes(&block);
    aes.decrypt_block(&mut block);
    say_other(found, "back", &block, &plain);
}

/// `ctr KEY COUNTER CUT TEXT`: see `run`.
fn counter_mode(row: &Row<'_>, found: &Found) -> Result<(), Fault> {
    let key = row.bytes();
    let first = row.array::<16>();
    if !is_key(key) {
        return Err(Fault::Malformed);
    }
    let mut sealing = CtrWrapper::new(key, &first);
    let mut opening = CtrWrapper::new(key, &first);
    run(&mut sealing, &mut opening, row, found)
}

/// `cbc KEY BLOCK CUT TEXT`: see `run`.
fn chaining_mode(row: &Row<'_>, found: &Found) -> Result<(), Fault> {
    let key = row.bytes();
    let first = row.array::<16>();
    if !is_key(key) {
        return Err(Fault::Malformed);
    }
    let mut sealing = CbcWrapper::new(key, &first);
    let mut opening = CbcWrapper::new(key, &first);
    run(&mut sealing, &mut opening, row, found)
}

/// A text encrypted in two pieces. `probe` with the first block where the probe of a packet length gives
/// another, and `back` with what the whole decrypts to where that is another.
fn run<C: PacketLengthProbe>(
    sealing: &mut C,
    opening: &mut C,
    row: &Row<'_>,
    found: &Found,
) -> Result<(), Fault> {
    let cut = row.count();
    let text = row.bytes();
    let mut bytes = Vec::from_slice(row.alloc(), text)?;
    let cut = cut.min(bytes.len());
    let (front, rest) = bytes.as_mut_slice().split_at_mut(cut);
    sealing.encrypt_data(front);
    sealing.encrypt_data(rest);
    found.say_bytes(bytes.as_slice());
    if let (Some(sealed), Some(plain)) = (bytes.get(..16), text.get(..16)) {
        let mut block = [0; 16];
        block.copy_from_slice(sealed);
        opening.decrypt_packet_length_block(&mut block);
        say_other(found, "probe", &block, plain);
    }
    opening.decrypt_data(bytes.as_mut_slice());
    say_other(found, "back", bytes.as_slice(), text);
    Ok(())
}

/// `gcm KEY NONCE AAD TEXT`: see `run_gcm`.
fn galois_counter_mode(row: &Row<'_>, found: &Found) -> Result<(), Fault> {
    let key = row.bytes();
    let nonce = row.array::<12>();
    let aad = row.bytes();
    let text = row.bytes();
    if !is_gcm_key(key) {
        return Err(Fault::Malformed);
    }
    run_gcm(&mut Gcm::new(key), &nonce, aad, text, found)
}

/// The encrypted text and the tag. `prepared` where a key that is prepared for long texts makes another of these. The
/// rest is by such a key: `taken` where a changed tag is accepted, `changed` where the text isn't then as it
/// came, `refused` where the tag isn't accepted, and `back` with what the text decrypts to where that is another.
fn run_gcm(
    gcm: &mut Gcm,
    nonce: &[u8; 12],
    aad: &[u8],
    text: &[u8],
    found: &Found,
) -> Result<(), Fault> {
    if aad.len() >= 1 << 24 || text.len() >= 1 << 24 {
        return Err(Fault::Malformed);
    }
    let mut bytes = Vec::from_slice(found.alloc(), text)?;
    let mut tag = [0; 16];
    gcm.seal(nonce, aad, bytes.as_mut_slice(), &mut tag);
    let sealed = Vec::from_slice(found.alloc(), bytes.as_slice())?;
    found.say_bytes(sealed.as_slice());
    found.say_bytes(&tag);
    let mut again = Vec::from_slice(found.alloc(), text)?;
    let mut same = [0; 16];
    gcm.prepare();
    gcm.seal(nonce, aad, again.as_mut_slice(), &mut same);
    say_other(found, "prepared", again.as_slice(), sealed.as_slice());
    say_other(found, "prepared", &same, &tag);
    tag[15] ^= 1;
    if gcm.open(nonce, aad, bytes.as_mut_slice(), &tag) {
        found.say("taken");
    }
    say_other(found, "changed", bytes.as_slice(), sealed.as_slice());
    tag[15] ^= 1;
    if !gcm.open(nonce, aad, bytes.as_mut_slice(), &tag) {
        found.say("refused");
    }
    say_other(found, "back", bytes.as_slice(), text);
    Ok(())
}

fn digest_kind(row: &Row<'_>) -> DigestKind {
    let kind = match row.word() {
        "sha1" => Some(DigestKind::Sha1),
        "sha256" => Some(DigestKind::Sha256),
        "sha384" => Some(DigestKind::Sha384),
        "sha512" => Some(DigestKind::Sha512),
        _ => None,
    };
    row.expect(kind, DigestKind::Sha1)
}

/// `digest KIND TEXT`: the digest and its length, and `halves` with that of two pieces where it is another.
fn digest(row: &Row<'_>, found: &Found) {
    let kind = digest_kind(row);
    let text = row.bytes();
    let whole = digest_of_two(kind, text, &[]);
    let (front, rest) = text.split_at(text.len() / 2);
    let halves = digest_of_two(kind, front, rest);
    found.say_bytes(whole.as_bytes());
    found.say_number(kind.digest_len() as u64);
    say_other(found, "halves", halves.as_bytes(), whole.as_bytes());
}

fn digest_of_two(kind: DigestKind, front: &[u8], rest: &[u8]) -> HashValue {
    let mut hasher = Hasher::new(kind);
    hasher.update(front);
    hasher.update(rest);
    hasher.finalize()
}

/// `digest_of_many KIND TEXT COUNT`: the digest of a text that stands there so many times.
fn digest_of_many(row: &Row<'_>, found: &Found) {
    let kind = digest_kind(row);
    let text = row.bytes();
    let count = row.count();
    let mut hasher = Hasher::new(kind);
    for _ in 0..count {
        hasher.update(text);
    }
    found.say_bytes(hasher.finalize().as_bytes());
}

/// `hmac KIND KEY TEXT`: the HMAC, and `halves` with that of two pieces where it is another.
fn hmac(row: &Row<'_>, found: &Found) {
    let kind = digest_kind(row);
    let key = row.bytes();
    let text = row.bytes();
    let (front, rest) = text.split_at(text.len() / 2);
    let whole = hmac_of(kind, key, text, &[]);
    let halves = hmac_of(kind, key, front, rest);
    found.say_bytes(whole.as_bytes());
    say_other(found, "halves", halves.as_bytes(), whole.as_bytes());
}

/// `tag NAME KEY NUMBER TEXT`: see `say_tag`.
fn tag(row: &Row<'_>, found: &Found) {
    let name = row.word();
    let name = row.expect(mac::Name::from_str(name), mac::NONE);
    let key = row.bytes();
    let number = row.number32();
    let text = row.bytes();
    if key.len() != name.key_len() {
        return row.reject();
    }
    say_tag(&name.make_mac(key), number, text, found);
}

/// Whether a MAC is over the encrypted packet, its tag, and whether it accepts that, that for another number, that for
/// another text, half of it, and none.
fn say_tag(mac: &MacKey, number: u32, text: &[u8], found: &Found) {
    let mut room = [0; 64];
    let tag = &mut room[..mac.mac_len()];
    mac.compute(number, text, tag);
    let (half, _) = tag.split_at(tag.len() / 2);
    found.say_shown(&mac.is_etm());
    found.say_bytes(tag);
    let taken = [
        mac.verify(number, text, tag),
        mac.verify(number ^ 1, text, tag),
        mac.verify(number, text.get(1..).unwrap_or(b"x"), tag),
        mac.verify(number, text, half),
        mac.verify(number, text, b""),
    ];
    found.say_shown(&taken);
}

/// `hash_values BYTES BYTES`: the bytes of both as hash values, and whether these are equal.
fn hash_values(row: &Row<'_>, found: &Found) {
    let (first, second) = (row.bytes(), row.bytes());
    if first.len() > 64 || second.len() > 64 {
        return row.reject();
    }
    let first = HashValue::of(first);
    let second = HashValue::of(second);
    found.say_bytes(first.as_bytes());
    found.say_bytes(second.as_bytes());
    found.say_shown(&(first == second));
    found.say_shown(&(first == HashValue::empty()));
}
