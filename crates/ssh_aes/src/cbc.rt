//! Chaining mode (SP 800-38A section 6.2).

ghost use Rattle.std.specs.Prelude.{◌≡◌, ◌/◌, length};
ghost use Rattle.ssh_aes.specs.Keys.{IsKeyLength};
ghost use Rattle.ssh_aes.specs.Modes.{chained_text, unchained_text, last_block};
ghost use Rattle.ssh_aes.specs.States.{cbc_running};

use crate::aes::Aes;
use crate::blocks::{add_block, block_at, put_block};
use crate::runs::{BlockStreamCipher, PacketLengthProbe};
use std::marker::Model;

/// AES in chaining mode. It handles whole blocks alone and leaves a shorter rest as it came.
#[derive(Clone, Drop)]
pub struct CbcWrapper {
    aes: Aes,
    last: [u8; 16],
}

impl Model for CbcWrapper {
    ghost use Rattle.ssh_aes.specs.States.{CbcState};

    ghost Value = { CbcState };

    ghost view = { λ c. record { key = c.aes; last = c.last } };
}

impl CbcWrapper {
    /// Takes a key of 16, 24 or 32 bytes and the block before the first.
    pub fn new(key: &[u8], iv: &[u8; 16]) -> CbcWrapper
        requires { IsKeyLength (length key.now) }
        ensures key { result.key ≡ key.now }
        ensures last { result.last ≡ iv.now }
    {
        CbcWrapper {
            aes: Aes::new(key),
            last: *iv,
        }
    }
}

/// Encrypts each whole block, chained to the one before.
fn chain(aes: &Aes, last: &mut [u8; 16], bytes: &mut [u8])
    ensures text { bytes.new ≡ chained_text aes.now last.old (length bytes.old / 16) bytes.old }
    ensures last { last.new ≡ last_block last.old (length bytes.new / 16) bytes.new }
{
    for k in 0..bytes.len() / 16 {
        let mut block = block_at(bytes, 16 * k);
        add_block(&mut block, last);
        aes.encrypt_block(&mut block);
        put_block(bytes, 16 * k, &block);
        *last = block;
    }
}

/// Decrypts each whole block, chained to the one before.
fn unchain(aes: &Aes, last: &mut [u8; 16], bytes: &mut [u8])
    ensures text { bytes.new ≡ unchained_text aes.now last.old (length bytes.old / 16) bytes.old }
    ensures last { last.new ≡ last_block last.old (length bytes.old / 16) bytes.old }
{
    for k in 0..bytes.len() / 16 {
        let cipher_block = block_at(bytes, 16 * k);
        let mut block = cipher_block;
        aes.decrypt_block(&mut block);
        add_block(&mut block, last);
        put_block(bytes, 16 * k, &block);
        *last = cipher_block;
    }
}

impl BlockStreamCipher for CbcWrapper {
    ghost running = { cbc_running };

    fn encrypt_data(&mut self, bytes: &mut [u8]) {
        chain(&self.aes, &mut self.last, bytes);
    }

    fn decrypt_data(&mut self, bytes: &mut [u8]) {
        unchain(&self.aes, &mut self.last, bytes);
    }
}

impl PacketLengthProbe for CbcWrapper {
    fn decrypt_packet_length_block(&self, first_block: &mut [u8; 16]) {
        let mut last = self.last;
        unchain(&self.aes, &mut last, first_block);
    }

    fn shortest_text_len(&self) -> usize {
        16
    }
}
