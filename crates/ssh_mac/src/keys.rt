//! The keys of MACs: HMAC over packets in clear and over encrypted ones, and none.

ghost use Rattle.std.specs.Prelude.{◌≡◌, length};
ghost use Rattle.std.specs.Str.{bytes_eq};
ghost use Rattle.ssh_mac.specs.Tags.{tag_of};

use crate::digest::DigestKind;
use crate::hash_value::HashValue;
use crate::hmac::KeyStates;
use crate::mac::Mac;
use std::marker::Model;

/// The length of the longest key, in bytes.
const LONGEST_KEY: usize = 64;

// Whether two texts are equal. Every byte of texts of one length is looked at, whatever the bytes are.
fn is_same(tag: &[u8], given: &[u8]) -> bool
    ensures { result ≡ bytes_eq tag.now given.now }
{
    if tag.len() != given.len() {
        return false;
    }
    let mut difference = 0;
    for i in 0..tag.len() {
        difference |= tag[i] ^ given[i];
    }
    difference == 0
}

/// HMAC over the packet in clear, under a key as long as the digest.
#[derive(Drop)]
pub struct CryptoMac {
    kind: DigestKind,
    // The key, with bytes behind it that are never read. The tags are made of the states.
    key: [u8; LONGEST_KEY],
    states: KeyStates,
}

impl Model for CryptoMac {
    ghost use Rattle.std.specs.Prelude.{take};
    ghost use Rattle.ssh_mac.specs.Digests.{digest_length};
    ghost use Rattle.ssh_mac.specs.Hashing.{AreKeyed};
    ghost use Rattle.ssh_mac.specs.Tags.{Keyed};

    ghost Value = { Keyed };

    ghost view = { λ m. record { digest = m.kind; key = take (digest_length m.kind) m.key } };

    ghost invariant = { λ m. AreKeyed m.states.inner m.states.outer m.kind (take (digest_length m.kind) m.key) };
}

impl CryptoMac {
    ghost use Rattle.ssh_mac.specs.Digests.{digest_length};
    ghost use Rattle.ssh_mac.specs.Tags.{Plain};

    pub(crate) fn new(kind: DigestKind, key: &[u8]) -> CryptoMac
        requires { length key.now ≡ digest_length kind }
        ensures { result ≡ record { digest = kind; key = key.now } }
    {
        let mut whole = [0; LONGEST_KEY];
        whole[..key.len()].copy_from_slice(key);
        let states = KeyStates::new(kind, key);
        CryptoMac {
            kind,
            key: whole,
            states,
        }
    }

    // The tag of the packet number and the text.
    fn tag_for(&self, sequence_number: u32, payload: &[u8]) -> HashValue
        ensures value { result ≡ tag_of (Plain self.now.digest self.now.key) sequence_number payload.now }
        ensures size { length result ≡ digest_length self.now.digest }
    {
        self.states.tag(&sequence_number.to_be_bytes(), payload)
    }
}

impl Mac for CryptoMac {
    ghost use Rattle.ssh_mac.specs.Tags.{Plain};

    ghost meaning = { λ m. Plain m.digest m.key };

    fn mac_len(&self) -> usize {
        self.kind.digest_len()
    }

    fn is_etm(&self) -> bool {
        false
    }

    fn compute(&self, sequence_number: u32, payload: &[u8], output: &mut [u8]) {
        let computed = self.tag_for(sequence_number, payload);
        output.copy_from_slice(computed.as_bytes());
    }

    fn verify(&self, sequence_number: u32, payload: &[u8], mac: &[u8]) -> bool {
        let computed = self.tag_for(sequence_number, payload);
        is_same(computed.as_bytes(), mac)
    }
}

/// HMAC over the encrypted packet, under a key as long as the digest.
#[derive(Drop)]
pub struct CryptoEtmMac {
    mac: CryptoMac,
}

impl Model for CryptoEtmMac {
    ghost use Rattle.ssh_mac.specs.Tags.{Keyed};

    ghost Value = { Keyed };

    ghost view = { λ m. m.mac };
}

impl CryptoEtmMac {
    ghost use Rattle.ssh_mac.specs.Digests.{digest_length};

    pub(crate) fn new(kind: DigestKind, key: &[u8]) -> CryptoEtmMac
        requires { length key.now ≡ digest_length kind }
        ensures { result ≡ record { digest = kind; key = key.now } }
    {
        CryptoEtmMac {
            mac: CryptoMac::new(kind, key),
        }
    }
}

impl Mac for CryptoEtmMac {
    ghost use Rattle.ssh_mac.specs.Tags.{Etm};

    ghost meaning = { λ m. Etm m.digest m.key };

    fn mac_len(&self) -> usize {
        self.mac.mac_len()
    }

    fn is_etm(&self) -> bool {
        true
    }

    fn compute(&self, sequence_number: u32, payload: &[u8], output: &mut [u8]) {
        self.mac.compute(sequence_number, payload, output);
    }

    fn verify(&self, sequence_number: u32, payload: &[u8], mac: &[u8]) -> bool {
        self.mac.verify(sequence_number, payload, mac)
    }
}

/// No MAC: a tag of no bytes, and whatever stands for it is accepted.
#[derive(Drop)]
pub struct NoMac;

impl Mac for NoMac {
    ghost use Rattle.ssh_mac.specs.Tags as Tags;

    ghost meaning = { λ _. Tags.NoMac };

    fn mac_len(&self) -> usize {
        0
    }

    fn is_etm(&self) -> bool {
        false
    }

    fn compute(&self, _sequence_number: u32, _payload: &[u8], _output: &mut [u8]) {}

    fn verify(&self, _sequence_number: u32, _payload: &[u8], _mac: &[u8]) -> bool {
        true
    }
}

/// The MAC of one direction.
#[derive(Drop)]
pub enum MacKey {
    /// The tag is over the packet in clear.
    Plain(CryptoMac),
    /// The tag is over the encrypted packet.
    Etm(CryptoEtmMac),
    /// There is no tag.
    Without(NoMac),
}

impl Mac for MacKey {
    ghost use Rattle.ssh_mac.specs.Keys.{mac_of};

    ghost meaning = { mac_of };

    fn mac_len(&self) -> usize {
        match self {
            MacKey::Plain(mac) => mac.mac_len(),
            MacKey::Etm(mac) => mac.mac_len(),
            MacKey::Without(mac) => mac.mac_len(),
        }
    }

    fn is_etm(&self) -> bool {
        match self {
            MacKey::Plain(mac) => mac.is_etm(),
            MacKey::Etm(mac) => mac.is_etm(),
            MacKey::Without(mac) => mac.is_etm(),
        }
    }

    fn compute(&self, sequence_number: u32, payload: &[u8], output: &mut [u8]) {
        match self {
            MacKey::Plain(mac) => mac.compute(sequence_number, payload, output),
            MacKey::Etm(mac) => mac.compute(sequence_number, payload, output),
            MacKey::Without(mac) => mac.compute(sequence_number, payload, output),
        }
    }

    fn verify(&self, sequence_number: u32, payload: &[u8], mac: &[u8]) -> bool {
        match self {
            MacKey::Plain(key) => key.verify(sequence_number, payload, mac),
            MacKey::Etm(key) => key.verify(sequence_number, payload, mac),
            MacKey::Without(key) => key.verify(sequence_number, payload, mac),
        }
    }
}
