//! Keys of a block cipher that runs on from packet to packet, with a MAC (RFC 4253 sections 6.3 and 6.4).

ghost use Rattle.std.specs.Prelude.{◌≡◌, ◌≤◌, length};
ghost use Rattle.ssh_packet.specs.Sealing.{Block, block_padding, longest_padding};

use crate::cipher;
use crate::error::OpenError;
use crate::sizes::HEAD;
use rand_core::Rng;
use ssh_aes::{BlockStreamCipher, PacketLengthProbe};
use ssh_mac::mac::Mac;

/// So much padding that what is encrypted is a multiple of 16 bytes, and at least four bytes. Only where
/// the packet length stays in clear is it not encrypted.
pub(crate) fn block_padding(is_length_clear: bool, payload: &[u8]) -> usize
    ensures value { result ≡ block_padding is_length_clear (length payload.now) }
    ensures short { result ≤ longest_padding }
{
    let head = if is_length_clear { 1 } else { HEAD };
    let size = 16 - (head + payload.len()) % 16;
    if size < 4 { size + 16 } else { size }
}

/// Seals: the tag is over the packet in clear, which is then encrypted; or the packet is encrypted but for
/// its length, and the tag is over the outcome (encrypt-then-MAC).
#[derive(Drop)]
pub struct SealingKey<C, M> {
    cipher: C,
    mac: M,
}

impl<C: BlockStreamCipher, M: Mac> SealingKey<C, M> {
    pub(crate) fn new(cipher: C, mac: M) -> SealingKey<C, M>
        ensures { result ≡ record { cipher = cipher; mac = mac } }
    {
        SealingKey { cipher, mac }
    }
}

impl<C: BlockStreamCipher, M: Mac> cipher::SealingKey for SealingKey<C, M> {
    ghost sealing = { λ k. Block (C.running k.cipher) (M.meaning k.mac) };

    fn padding_length(&self, payload: &[u8]) -> usize {
        block_padding(self.mac.is_etm(), payload)
    }

    fn fill_padding<R: Rng>(&self, rng: &mut R, padding_out: &mut [u8]) {
        rng.fill_bytes(padding_out);
    }

    fn tag_len(&self) -> usize {
        self.mac.mac_len()
    }

    fn seal(&mut self, seqn: u32, plaintext_in_ciphertext_out: &mut [u8], tag_out: &mut [u8]) {
        if self.mac.is_etm() {
            self.cipher
                .encrypt_data(&mut plaintext_in_ciphertext_out[4..]);
            self.mac.compute(seqn, plaintext_in_ciphertext_out, tag_out);
        } else {
            self.mac.compute(seqn, plaintext_in_ciphertext_out, tag_out);
            self.cipher.encrypt_data(plaintext_in_ciphertext_out);
        }
    }
}

/// Opens what such a key sealed.
#[derive(Drop)]
pub struct OpeningKey<C, M> {
    cipher: C,
    mac: M,
}

impl<C: PacketLengthProbe, M: Mac> OpeningKey<C, M> {
    pub(crate) fn new(cipher: C, mac: M) -> OpeningKey<C, M>
        ensures { result ≡ record { cipher = cipher; mac = mac } }
    {
        OpeningKey { cipher, mac }
    }
}

impl<C: PacketLengthProbe, M: Mac> cipher::OpeningKey for OpeningKey<C, M> {
    ghost opening = { λ k. Block (C.running k.cipher) (M.meaning k.mac) };

    fn packet_length_to_read_for_block_length(&self) -> usize {
        16
    }

    fn decrypt_packet_length(&self, _seqn: u32, encrypted_packet_length: &[u8]) -> [u8; 4] {
        let mut first = [0; 16];
        first.copy_from_slice(encrypted_packet_length);
        if !self.mac.is_etm() {
            self.cipher.decrypt_packet_length_block(&mut first);
        }
        [first[0], first[1], first[2], first[3]]
    }

    fn tag_len(&self) -> usize {
        self.mac.mac_len()
    }

    fn shortest_packet(&self) -> usize {
        if self.mac.is_etm() {
            4
        } else {
            self.cipher.shortest_text_len()
        }
    }

    #[tactic(auto, using(ssh_mac::proofs::Lemmas::taken_is_tag, ssh_mac::proofs::Lemmas::own_tag_taken))]
    fn open_in_place(&mut self, seqn: u32, packet: &mut [u8], tag: &[u8]) -> Result<(), OpenError> {
        if self.mac.is_etm() {
            if !self.mac.verify(seqn, packet, tag) {
                return Err(OpenError::PacketAuth);
            }
            self.cipher.decrypt_data(&mut packet[4..]);
            Ok(())
        } else {
            self.cipher.decrypt_data(packet);
            if self.mac.verify(seqn, packet, tag) {
                Ok(())
            } else {
                Err(OpenError::PacketAuth)
            }
        }
    }
}
