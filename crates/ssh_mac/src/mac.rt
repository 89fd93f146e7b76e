//! What authenticates packets: the trait of MACs, and their names (RFC 4253 section 6.4, RFC 6668 section 2).

ghost use Rattle.std.specs.Prelude.{◌≡◌, ◌↔◌, ◌≤◌, ◌∷◌, [], length};
ghost use Rattle.ssh_mac.specs.Tags.{MacOf, tag_length, is_encrypt_then_mac, tag_of, takes_tag};

use crate::digest::DigestKind;
pub use crate::keys::{CryptoEtmMac, CryptoMac, MacKey, NoMac};

/// A message authentication code under its key.
pub trait Mac {
    // What packets are authenticated under.
    ghost meaning: { Self → MacOf };

    /// The length of a tag in bytes, at most 64.
    fn mac_len(&self) -> usize
        ensures value { result ≡ tag_length (meaning self.now) }
        ensures short { result ≤ 64 };

    /// Whether the tag is over the encrypted packet, its length in clear; else it is over the packet in clear.
    fn is_etm(&self) -> bool
        ensures { result ≡ is_encrypt_then_mac (meaning self.now) };

    /// Writes the tag over the packet number, four bytes high byte first, and the text.
    fn compute(&self, sequence_number: u32, payload: &[u8], output: &mut [u8])
        requires { length output.old ≡ tag_length (meaning self.now) }
        ensures { output.new ≡ tag_of (meaning self.now) sequence_number payload.now };

    /// Whether `mac` is the tag of the packet number and the text; always where there is no MAC.
    fn verify(&self, sequence_number: u32, payload: &[u8], mac: &[u8]) -> bool
        ensures { result ≡ takes_tag (meaning self.now) sequence_number payload.now mac.now };
}

/// The name of a MAC.
#[derive(Clone, Copy, Debug, PartialEq, Eq, Hash)]
pub enum Name {
    NoMac,
    HmacSha1,
    HmacSha256,
    HmacSha512,
    HmacSha1Etm,
    HmacSha256Etm,
    HmacSha512Etm,
}

pub const NONE: Name = Name::NoMac;

pub const HMAC_SHA1: Name = Name::HmacSha1;

pub const HMAC_SHA256: Name = Name::HmacSha256;

pub const HMAC_SHA512: Name = Name::HmacSha512;

pub const HMAC_SHA1_ETM: Name = Name::HmacSha1Etm;

pub const HMAC_SHA256_ETM: Name = Name::HmacSha256Etm;

pub const HMAC_SHA512_ETM: Name = Name::HmacSha512Etm;

/// Each name once.
pub const ALL_MAC_ALGORITHMS: [Name; 7] = [
    Name::NoMac,
    Name::HmacSha1,
    Name::HmacSha256,
    Name::HmacSha512,
    Name::HmacSha1Etm,
    Name::HmacSha256Etm,
    Name::HmacSha512Etm,
];

/// What each constant is, for proofs above to cite.
pub fn mac_names()
    ensures none { NONE ≡ Name.NoMac }
    ensures plain { (HMAC_SHA1 ≡ Name.HmacSha1) × (HMAC_SHA256 ≡ Name.HmacSha256) × (HMAC_SHA512 ≡ Name.HmacSha512) }
    ensures etm { (HMAC_SHA1_ETM ≡ Name.HmacSha1Etm) × (HMAC_SHA256_ETM ≡ Name.HmacSha256Etm)
        × (HMAC_SHA512_ETM ≡ Name.HmacSha512Etm) }
    ensures all { ALL_MAC_ALGORITHMS ≡ Name.NoMac ∷ Name.HmacSha1 ∷ Name.HmacSha256 ∷ Name.HmacSha512 ∷ Name.HmacSha1Etm
        ∷ Name.HmacSha256Etm ∷ Name.HmacSha512Etm ∷ [] }
{}

impl Name {
    ghost use Rattle.ssh_mac.specs.Keys.{mac_of};
    ghost use Rattle.ssh_mac.specs.Names.{mac_name, mac_key_length, mac_named};
    ghost use Rattle.ssh_mac.specs.declared.mac.Name.{Name};

    /// The text of the name, as it stands in a name list.
    pub fn as_str(self) -> &'static str
        ensures { result.now ≡ mac_name self }
    {
        match self {
            Name::NoMac => "none",
            Name::HmacSha1 => "hmac-sha1",
            Name::HmacSha256 => "hmac-sha2-256",
            Name::HmacSha512 => "hmac-sha2-512",
            Name::HmacSha1Etm => "hmac-sha1-etm@openssh.com",
            Name::HmacSha256Etm => "hmac-sha2-256-etm@openssh.com",
            Name::HmacSha512Etm => "hmac-sha2-512-etm@openssh.com",
        }
    }

    /// The name of a text, where it has one.
    pub fn from_str(s: &str) -> Option<Name>
        ensures { (name : Name) → (result ≡ Some name) ↔ (s.now ≡ mac_name name) }
    {
        match s {
            "none" => Some(Name::NoMac),
            "hmac-sha1" => Some(Name::HmacSha1),
            "hmac-sha2-256" => Some(Name::HmacSha256),
            "hmac-sha2-512" => Some(Name::HmacSha512),
            "hmac-sha1-etm@openssh.com" => Some(Name::HmacSha1Etm),
            "hmac-sha2-256-etm@openssh.com" => Some(Name::HmacSha256Etm),
            "hmac-sha2-512-etm@openssh.com" => Some(Name::HmacSha512Etm),
            _ => None,
        }
    }

    /// The length of the key in bytes, which is that of a tag: 0, 20, 32 or 64.
    pub fn key_len(self) -> usize
        ensures { result ≡ mac_key_length self }
    {
        match self {
            Name::NoMac => 0,
            Name::HmacSha1 | Name::HmacSha1Etm => 20,
            Name::HmacSha256 | Name::HmacSha256Etm => 32,
            Name::HmacSha512 | Name::HmacSha512Etm => 64,
        }
    }

    /// The MAC of this name under a key of `key_len` bytes.
    pub fn make_mac(self, key: &[u8]) -> MacKey
        requires { length key.now ≡ mac_key_length self }
        ensures { mac_of result ≡ mac_named self key.now }
    {
        match self {
            Name::NoMac => MacKey::Without(NoMac),
            Name::HmacSha1 => MacKey::Plain(CryptoMac::new(DigestKind::Sha1, key)),
            Name::HmacSha256 => MacKey::Plain(CryptoMac::new(DigestKind::Sha256, key)),
            Name::HmacSha512 => MacKey::Plain(CryptoMac::new(DigestKind::Sha512, key)),
            Name::HmacSha1Etm => MacKey::Etm(CryptoEtmMac::new(DigestKind::Sha1, key)),
            Name::HmacSha256Etm => MacKey::Etm(CryptoEtmMac::new(DigestKind::Sha256, key)),
            Name::HmacSha512Etm => MacKey::Etm(CryptoEtmMac::new(DigestKind::Sha512, key)),
        }
    }
}
