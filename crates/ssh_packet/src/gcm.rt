//! Keys of Galois counter mode (RFC 5647). From packet to packet the nonce counts over all its 12 bytes, where
//! RFC 5647 section 7.1 keeps the first 4 and counts the last 8.

ghost use Rattle.std.specs.Prelude.{◌≡◌, ◌⊎◌, length};
ghost use Rattle.ssh_packet.specs.Sealing.{Gcm, next_nonce};

use crate::block::block_padding;
use crate::cipher;
use crate::cipher::first_four;
use crate::error::OpenError;
use rand_core::Rng;
use ssh_aes::Gcm;

/// The nonce of the next packet: one more over all its 12 bytes, the highest first.
fn step(nonce: &mut [u8; 12])
    ensures { nonce.new ≡ next_nonce nonce.old }
{
    let mut wide = [0; 16];
    wide[4..].copy_from_slice(nonce);
    let next = u128::from_be_bytes(wide).wrapping_add(1) % (1 << 96);
    nonce.copy_from_slice(&next.to_be_bytes()[4..]);
}

/// The shortest text that a key is prepared for. A preparation takes about as many instructions as it saves in 240
/// bytes, so one text makes up for it.
const LONG_TEXT: usize = 256;

/// Prepares a key before its first long text.
fn prepare_for(cipher: &mut Gcm, text: &[u8])
    ensures same { cipher.new ≡ cipher.old }
{
    if text.len() >= LONG_TEXT {
        cipher.prepare();
    }
}

/// Seals under the packet length as additional text.
#[derive(Drop)]
pub struct SealingKey {
    cipher: Gcm,
    nonce: [u8; 12],
}

impl SealingKey {
    pub(crate) fn new(key: &[u8], nonce: &[u8; 12]) -> SealingKey
        requires { (length key.now ≡ 16) ⊎ (length key.now ≡ 32) }
        ensures key { result.cipher ≡ key.now }
        ensures nonce { result.nonce ≡ nonce.now }
    {
        SealingKey {
            cipher: Gcm::new(key),
            nonce: *nonce,
        }
    }
}

impl cipher::SealingKey for SealingKey {
    ghost sealing = { λ k. Gcm k.cipher k.nonce };

    fn padding_length(&self, payload: &[u8]) -> usize {
        block_padding(true, payload)
    }

    fn fill_padding<R: Rng>(&self, rng: &mut R, padding_out: &mut [u8]) {
        rng.fill_bytes(padding_out);
    }

    fn tag_len(&self) -> usize {
        16
    }

    fn seal(&mut self, _seqn: u32, plaintext_in_ciphertext_out: &mut [u8], tag_out: &mut [u8]) {
        let (head, body) = plaintext_in_ciphertext_out.split_at_mut(4);
        let mut tag = [0; 16];
        prepare_for(&mut self.cipher, body);
        self.cipher.seal(&self.nonce, head, body, &mut tag);
        tag_out.copy_from_slice(&tag);
        step(&mut self.nonce);
    }
}

/// Opens what such a key sealed.
#[derive(Drop)]
pub struct OpeningKey {
    cipher: Gcm,
    nonce: [u8; 12],
}

impl OpeningKey {
    pub(crate) fn new(key: &[u8], nonce: &[u8; 12]) -> OpeningKey
        requires { (length key.now ≡ 16) ⊎ (length key.now ≡ 32) }
        ensures key { result.cipher ≡ key.now }
        ensures nonce { result.nonce ≡ nonce.now }
    {
        OpeningKey {
            cipher: Gcm::new(key),
            nonce: *nonce,
        }
    }
}

impl cipher::OpeningKey for OpeningKey {
    ghost opening = { λ k. Gcm k.cipher k.nonce };

    fn packet_length_to_read_for_block_length(&self) -> usize {
        4
    }

    fn decrypt_packet_length(&self, _seqn: u32, encrypted_packet_length: &[u8]) -> [u8; 4] {
        first_four(encrypted_packet_length)
    }

    fn tag_len(&self) -> usize {
        16
    }

    fn shortest_packet(&self) -> usize {
        4
    }

    fn open_in_place(
        &mut self,
        _seqn: u32,
        packet: &mut [u8],
        tag: &[u8],
    ) -> Result<(), OpenError> {
        let mut given = [0; 16];
        given.copy_from_slice(tag);
        let (head, body) = packet.split_at_mut(4);
        prepare_for(&mut self.cipher, body);
        if !self.cipher.open(&self.nonce, head, body, &given) {
            return Err(OpenError::DecryptionError);
        }
        step(&mut self.nonce);
        Ok(())
    }
}
