//! The keys that an exchange makes of its secret (RFC 4253 section 7.2). No memory is taken.

ghost use Rattle.std.specs.Prelude.{◌≡◌, ◌++◌, ◌∷◌, ◌+◌, ◌≤◌, List, ℕ, length, take};
ghost use Rattle.std.specs.Option.{option_copied};
ghost use Rattle.ssh_mac.specs.Digests.{digest_of};
ghost use Rattle.ssh_packet.specs.Keys.{opening_of, sealing_of};
ghost use Rattle.ssh_wire.specs.Sides.{other_side};
ghost use Rattle.ssh_kex.specs.Exchange.{HaveLengths, IsShortSecret, key_by, keys_of, one_more, sealing_after, secret_text, side_if};

use crate::exchange::{Keys, NewCiphers, SharedSecret};
use crate::hashing::take_secret;
use ssh_mac::{DigestKind, HashValue, Hasher};
use ssh_negotiate::Names;
use ssh_packet::CipherPair;

/// The length of the longest key, in bytes.
const LONGEST_KEY: usize = 64;

/// The six keys of a secret, and what one side seals and opens with under them. A server seals from server to client.
pub fn compute_keys(
    digest: DigestKind,
    shared_secret: Option<&SharedSecret>,
    session_id: &HashValue,
    exchange_hash: &HashValue,
    names: &Names,
    is_server: bool,
) -> NewCiphers
    requires { IsShortSecret (option_copied shared_secret) }
    ensures keys { result.keys ≡ keys_of digest (secret_text (option_copied shared_secret.entry)) exchange_hash.now
        session_id.now names.now }
    ensures seals { sealing_of result.cipher.local_to_remote ≡ sealing_after (side_if is_server) names.now result.keys }
    ensures opens { opening_of result.cipher.remote_to_local ≡ sealing_after (other_side (side_if is_server)) names.now
        result.keys }
{
    let keys = keys_with(digest, shared_secret, exchange_hash, session_id, names);
    let cipher = ciphers_of(&keys, names, is_server);
    NewCiphers { keys, cipher }
}

/// The six keys.
fn keys_with(
    digest: DigestKind,
    secret: Option<&SharedSecret>,
    hash: &HashValue,
    session_id: &HashValue,
    names: &Names,
) -> Keys
    requires { IsShortSecret (option_copied secret) }
    ensures value { result ≡ keys_of digest (secret_text (option_copied secret.entry)) hash.now session_id.now
        names.now }
    ensures sizes { HaveLengths names.now result }
{
    let nonce = names.cipher.nonce_len();
    let key = names.cipher.key_len();
    let client_mac = names.client_mac.key_len();
    let server_mac = names.server_mac.key_len();
    Keys {
        iv_c2s: key_of(digest, secret, hash, session_id, b'A', nonce),
        iv_s2c: key_of(digest, secret, hash, session_id, b'B', nonce),
        key_c2s: key_of(digest, secret, hash, session_id, b'C', key),
        key_s2c: key_of(digest, secret, hash, session_id, b'D', key),
        mac_c2s: key_of(digest, secret, hash, session_id, b'E', client_mac),
        mac_s2c: key_of(digest, secret, hash, session_id, b'F', server_mac),
    }
}

/// What one side seals and opens with under the keys.
#[tactic(auto, unfolding(crate::specs::Exchange::sealing_after))]
fn ciphers_of(keys: &Keys, names: &Names, is_server: bool) -> CipherPair
    requires { HaveLengths names.now keys.now }
    ensures seals { sealing_of result.local_to_remote ≡ sealing_after (side_if is_server) names.now keys.now }
    ensures opens { opening_of result.remote_to_local ≡ sealing_after (other_side (side_if is_server)) names.now
        keys.now }
{
    let (key_c2s, iv_c2s) = (keys.key_c2s.as_bytes(), keys.iv_c2s.as_bytes());
    let (key_s2c, iv_s2c) = (keys.key_s2c.as_bytes(), keys.iv_s2c.as_bytes());
    let (mac_c2s, mac_s2c) = (keys.mac_c2s.as_bytes(), keys.mac_s2c.as_bytes());
    let (client_mac, server_mac) = (names.client_mac, names.server_mac);
    let cipher = names.cipher;
    if is_server {
        CipherPair {
            local_to_remote: cipher.make_sealing_key(key_s2c, iv_s2c, mac_s2c, server_mac),
            remote_to_local: cipher.make_opening_key(key_c2s, iv_c2s, mac_c2s, client_mac),
        }
    } else {
        CipherPair {
            local_to_remote: cipher.make_sealing_key(key_c2s, iv_c2s, mac_c2s, client_mac),
            remote_to_local: cipher.make_opening_key(key_s2c, iv_s2c, mac_s2c, server_mac),
        }
    }
}

/// The key of a letter, of so many bytes. Four blocks are enough: the longest key has 64 bytes, the shortest digest 20.
fn key_of(
    digest: DigestKind,
    secret: Option<&SharedSecret>,
    hash: &HashValue,
    session_id: &HashValue,
    letter: u8,
    need: usize,
) -> HashValue
    requires secret { IsShortSecret (option_copied secret) }
    requires need { need ≤ 64 }
    ensures value { result ≡ key_by digest (secret_text (option_copied secret.entry)) hash.now session_id.now letter
        need }
    ensures size { length result ≡ need }
{
    let first = first_block(digest, secret, hash, session_id, letter);
    let one = appended(&HashValue::empty(), &first, need);
    let two = stretched(digest, secret, hash, &one, need);
    let three = stretched(digest, secret, hash, &two, need);
    stretched(digest, secret, hash, &three, need)
}

/// The first block of the key of a letter.
fn first_block(
    digest: DigestKind,
    secret: Option<&SharedSecret>,
    hash: &HashValue,
    session_id: &HashValue,
    letter: u8,
) -> HashValue
    requires { IsShortSecret (option_copied secret) }
    ensures { result ≡ digest_of digest (secret_text (option_copied secret.entry)
        ++ (hash.now ++ letter ∷ session_id.now)) }
{
    let mut text = Hasher::new(digest);
    take_secret(&mut text, secret);
    text.update(hash.as_bytes());
    text.update(&[letter]);
    text.update(session_id.as_bytes());
    text.finalize()
}

/// A key that lacks bytes with one block more, cut to what is needed.
fn stretched(
    digest: DigestKind,
    secret: Option<&SharedSecret>,
    hash: &HashValue,
    key: &HashValue,
    need: usize,
) -> HashValue
    requires secret { IsShortSecret (option_copied secret) }
    requires need { need ≤ 64 }
    requires within { length key.now ≤ need }
    ensures stretched { (blocks : List ℕ) → key.now ≡ take need blocks
        → result ≡ take need (one_more digest (secret_text (option_copied secret.entry) ++ hash.now) blocks) }
    ensures within { length result ≤ need }
{
    if key.as_bytes().len() == need {
        return *key;
    }
    let mut text = Hasher::new(digest);
    take_secret(&mut text, secret);
    text.update(hash.as_bytes());
    text.update(key.as_bytes());
    appended(key, &text.finalize(), need)
}

/// A key with a block behind it, cut to what is needed.
fn appended(key: &HashValue, block: &HashValue, need: usize) -> HashValue
    requires need { need ≤ 64 }
    requires within { length key.now ≤ need }
    ensures value { result ≡ take need (key.now ++ block.now) }
    ensures within { length result ≤ need }
{
    let front = key.as_bytes();
    let behind = block.as_bytes();
    let missing = (need - front.len()).min(behind.len());
    let mut bytes = [0; LONGEST_KEY];
    put_at(&mut bytes, 0, front);
    put_at(&mut bytes, front.len(), &behind[..missing]);
    HashValue::of(&bytes[..front.len() + missing])
}

/// Writes the bytes behind the first so many.
fn put_at(bytes: &mut [u8; LONGEST_KEY], at: usize, piece: &[u8])
    requires { at + length piece.now ≤ 64 }
    ensures { take (at + length piece.now) bytes.new ≡ take at bytes.old ++ piece.now }
{
    bytes[at..at + piece.len()].copy_from_slice(piece);
}
