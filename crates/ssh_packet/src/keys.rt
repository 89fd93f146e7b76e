//! The keys of a direction, by kind.

ghost use Rattle.std.specs.Prelude.{◌≡◌, length, Some};
ghost use Rattle.ssh_mac.specs.Names.{mac_key_length, mac_named};
ghost use Rattle.ssh_packet.specs.Keys.{opening_of, sealing_of};
ghost use Rattle.ssh_packet.specs.Names.{cipher_key_length, nonce_length, sealing_named};
ghost use Rattle.ssh_packet.specs.Shown.{open_kind, seal_kind};

use crate::cipher::{Name, OpeningKey, SealingKey};
use crate::error::OpenError;
use crate::{block, clear, gcm};
use rand_core::Rng;
use ssh_aes::{CbcWrapper, CtrWrapper};
use ssh_mac::mac;
use ssh_mac::mac::MacKey;
use std::fmt;

/// What a writer seals under.
#[derive(Drop)]
pub enum SealKey {
    Clear(clear::Key),
    Ctr(block::SealingKey<CtrWrapper, MacKey>),
    Cbc(block::SealingKey<CbcWrapper, MacKey>),
    Gcm(gcm::SealingKey),
}

/// What a reader opens with.
#[derive(Drop)]
pub enum OpenKey {
    Clear(clear::Key),
    Ctr(block::OpeningKey<CtrWrapper, MacKey>),
    Cbc(block::OpeningKey<CbcWrapper, MacKey>),
    Gcm(gcm::OpeningKey),
}

/// The keys of one end: what it seals under and what it opens with.
#[derive(Debug, Drop)]
pub struct CipherPair {
    pub local_to_remote: SealKey,
    pub remote_to_local: OpenKey,
}

/// Shows the kind alone, and no byte of a key.
impl fmt::Debug for SealKey {
    ghost debug_output = { λ k. Some (seal_kind k) };

    fn fmt<W: fmt::Write>(&self, f: &mut fmt::Formatter<W>) -> fmt::Result {
        f.write_str(match self {
            SealKey::Clear(_) => "Clear",
            SealKey::Ctr(_) => "Ctr",
            SealKey::Cbc(_) => "Cbc",
            SealKey::Gcm(_) => "Gcm",
        })
    }
}

/// Shows the kind alone, and no byte of a key.
impl fmt::Debug for OpenKey {
    ghost debug_output = { λ k. Some (open_kind k) };

    fn fmt<W: fmt::Write>(&self, f: &mut fmt::Formatter<W>) -> fmt::Result {
        f.write_str(match self {
            OpenKey::Clear(_) => "Clear",
            OpenKey::Ctr(_) => "Ctr",
            OpenKey::Cbc(_) => "Cbc",
            OpenKey::Gcm(_) => "Gcm",
        })
    }
}

impl SealingKey for SealKey {
    ghost sealing = { sealing_of };

    fn padding_length(&self, payload: &[u8]) -> usize {
        match self {
            SealKey::Clear(key) => key.padding_length(payload),
            SealKey::Ctr(key) => key.padding_length(payload),
            SealKey::Cbc(key) => key.padding_length(payload),
            SealKey::Gcm(key) => key.padding_length(payload),
        }
    }

    fn fill_padding<R: Rng>(&self, rng: &mut R, padding_out: &mut [u8]) {
        match self {
            SealKey::Clear(key) => key.fill_padding(rng, padding_out),
            SealKey::Ctr(key) => key.fill_padding(rng, padding_out),
            SealKey::Cbc(key) => key.fill_padding(rng, padding_out),
            SealKey::Gcm(key) => key.fill_padding(rng, padding_out),
        }
    }

    fn tag_len(&self) -> usize {
        match self {
            SealKey::Clear(key) => SealingKey::tag_len(key),
            SealKey::Ctr(key) => SealingKey::tag_len(key),
            SealKey::Cbc(key) => SealingKey::tag_len(key),
            SealKey::Gcm(key) => SealingKey::tag_len(key),
        }
    }

    fn seal(&mut self, seqn: u32, plaintext_in_ciphertext_out: &mut [u8], tag_out: &mut [u8]) {
        match self {
            SealKey::Clear(key) => key.seal(seqn, plaintext_in_ciphertext_out, tag_out),
            SealKey::Ctr(key) => key.seal(seqn, plaintext_in_ciphertext_out, tag_out),
            SealKey::Cbc(key) => key.seal(seqn, plaintext_in_ciphertext_out, tag_out),
            SealKey::Gcm(key) => key.seal(seqn, plaintext_in_ciphertext_out, tag_out),
        }
    }
}

impl OpeningKey for OpenKey {
    ghost opening = { opening_of };

    fn packet_length_to_read_for_block_length(&self) -> usize {
        match self {
            OpenKey::Clear(key) => key.packet_length_to_read_for_block_length(),
            OpenKey::Ctr(key) => key.packet_length_to_read_for_block_length(),
            OpenKey::Cbc(key) => key.packet_length_to_read_for_block_length(),
            OpenKey::Gcm(key) => key.packet_length_to_read_for_block_length(),
        }
    }

    fn decrypt_packet_length(&self, seqn: u32, encrypted_packet_length: &[u8]) -> [u8; 4] {
        match self {
            OpenKey::Clear(key) => key.decrypt_packet_length(seqn, encrypted_packet_length),
            OpenKey::Ctr(key) => key.decrypt_packet_length(seqn, encrypted_packet_length),
            OpenKey::Cbc(key) => key.decrypt_packet_length(seqn, encrypted_packet_length),
            OpenKey::Gcm(key) => key.decrypt_packet_length(seqn, encrypted_packet_length),
        }
    }

    fn shortest_packet(&self) -> usize {
        match self {
            OpenKey::Clear(key) => key.shortest_packet(),
            OpenKey::Ctr(key) => key.shortest_packet(),
            OpenKey::Cbc(key) => key.shortest_packet(),
            OpenKey::Gcm(key) => key.shortest_packet(),
        }
    }

    fn tag_len(&self) -> usize {
        match self {
            OpenKey::Clear(key) => OpeningKey::tag_len(key),
            OpenKey::Ctr(key) => OpeningKey::tag_len(key),
            OpenKey::Cbc(key) => OpeningKey::tag_len(key),
            OpenKey::Gcm(key) => OpeningKey::tag_len(key),
        }
    }

    fn open_in_place(&mut self, seqn: u32, packet: &mut [u8], tag: &[u8]) -> Result<(), OpenError> {
        match self {
            OpenKey::Clear(key) => key.open_in_place(seqn, packet, tag),
            OpenKey::Ctr(key) => key.open_in_place(seqn, packet, tag),
            OpenKey::Cbc(key) => key.open_in_place(seqn, packet, tag),
            OpenKey::Gcm(key) => key.open_in_place(seqn, packet, tag),
        }
    }
}

impl Name {
    /// A key to seal under, of this cipher and a MAC, each with its own key: `key_len` bytes, `nonce_len` bytes
    /// of first counter block, chaining block or nonce, and as many bytes as the MAC's key has. Galois
    /// counter mode and the clear key have no use for the MAC. A cipher that needs one (`needs_mac`) is made with
    /// the MAC `none` where it is asked for: its packets are encrypted, and none is authenticated. No call of this
    /// crate refuses that: who negotiates does, as where there is no common MAC.
    pub fn make_sealing_key(
        self,
        key: &[u8],
        nonce: &[u8],
        mac_key: &[u8],
        mac: mac::Name,
    ) -> SealKey
        requires key { length key.now ≡ cipher_key_length self }
        requires nonce { length nonce.now ≡ nonce_length self }
        requires mac_key { length mac_key.now ≡ mac_key_length mac }
        ensures { sealing_of result ≡ sealing_named self key.now nonce.now (mac_named mac mac_key.now) }
    {
        match self {
            Name::Clear | Name::NoCipher => SealKey::Clear(clear::Key),
            Name::Aes128Ctr | Name::Aes192Ctr | Name::Aes256Ctr => {
                let cipher = CtrWrapper::new(key, &array_of(nonce));
                SealKey::Ctr(block::SealingKey::new(cipher, mac.make_mac(mac_key)))
            }
            Name::Aes128Cbc | Name::Aes192Cbc | Name::Aes256Cbc => {
                let cipher = CbcWrapper::new(key, &array_of(nonce));
                SealKey::Cbc(block::SealingKey::new(cipher, mac.make_mac(mac_key)))
            }
            Name::Aes128Gcm | Name::Aes256Gcm => {
                SealKey::Gcm(gcm::SealingKey::new(key, &array_of(nonce)))
            }
        }
    }

    /// A key that opens what `make_sealing_key` of the same values seals. With the MAC `none`, a cipher that needs
    /// one opens whatever it is given: no packet is authenticated. Who negotiates refuses that, and no call here.
    pub fn make_opening_key(
        self,
        key: &[u8],
        nonce: &[u8],
        mac_key: &[u8],
        mac: mac::Name,
    ) -> OpenKey
        requires key { length key.now ≡ cipher_key_length self }
        requires nonce { length nonce.now ≡ nonce_length self }
        requires mac_key { length mac_key.now ≡ mac_key_length mac }
        ensures { opening_of result ≡ sealing_named self key.now nonce.now (mac_named mac mac_key.now) }
    {
        match self {
            Name::Clear | Name::NoCipher => OpenKey::Clear(clear::Key),
            Name::Aes128Ctr | Name::Aes192Ctr | Name::Aes256Ctr => {
                let cipher = CtrWrapper::new(key, &array_of(nonce));
                OpenKey::Ctr(block::OpeningKey::new(cipher, mac.make_mac(mac_key)))
            }
            Name::Aes128Cbc | Name::Aes192Cbc | Name::Aes256Cbc => {
                let cipher = CbcWrapper::new(key, &array_of(nonce));
                OpenKey::Cbc(block::OpeningKey::new(cipher, mac.make_mac(mac_key)))
            }
            Name::Aes128Gcm | Name::Aes256Gcm => {
                OpenKey::Gcm(gcm::OpeningKey::new(key, &array_of(nonce)))
            }
        }
    }
}

/// The bytes as an array of their length.
fn array_of<const N: usize>(bytes: &[u8]) -> [u8; N]
    requires { length bytes.now ≡ N }
    ensures { result ≡ bytes.now }
{
    let mut array = [0; N];
    array.copy_from_slice(bytes);
    array
}
