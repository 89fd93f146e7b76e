//! The key of a direction before any exchange: packets stand in clear.

ghost use Rattle.ssh_packet.specs.Sealing.{Clear};

use crate::cipher::{OpeningKey, SealingKey, first_four};
use crate::error::OpenError;
use crate::sizes::HEAD;
use rand_core::Rng;

/// The clear key.
#[derive(Clone, Copy, Debug, PartialEq, Eq)]
pub struct Key;

impl SealingKey for Key {
    ghost sealing = { λ _. Clear };

    fn padding_length(&self, payload: &[u8]) -> usize {
        let size = 8 - (HEAD + payload.len()) % 8;
        if size < 4 { size + 8 } else { size }
    }

    fn fill_padding<R: Rng>(&self, _rng: &mut R, padding_out: &mut [u8]) {
        padding_out.fill(0);
    }

    fn tag_len(&self) -> usize {
        0
    }

    fn seal(&mut self, _seqn: u32, _plaintext_in_ciphertext_out: &mut [u8], _tag_out: &mut [u8]) {}
}

impl OpeningKey for Key {
    ghost opening = { λ _. Clear };

    fn packet_length_to_read_for_block_length(&self) -> usize {
        4
    }

    fn decrypt_packet_length(&self, _seqn: u32, encrypted_packet_length: &[u8]) -> [u8; 4] {
        first_four(encrypted_packet_length)
    }

    fn tag_len(&self) -> usize {
        0
    }

    fn shortest_packet(&self) -> usize {
        4
    }

    fn open_in_place(
        &mut self,
        _seqn: u32,
        _packet: &mut [u8],
        _tag: &[u8],
    ) -> Result<(), OpenError> {
        Ok(())
    }
}
