//! Counter mode (SP 800-38A section 6.5).

ghost use Rattle.std.specs.Prelude.{◌≡◌, ◌+◌, ◌%◌, ◌^◌, length};
ghost use Rattle.ssh_aes.specs.Keys.{IsKeyLength};
ghost use Rattle.ssh_aes.specs.Modes.{counter_text};
ghost use Rattle.ssh_aes.specs.States.{ctr_running};

use crate::encryption::Encryption;
use crate::runs::{BlockStreamCipher, PacketLengthProbe};
use crate::stream::mask_from;
use std::marker::Model;

/// AES in counter mode, which runs on byte by byte. The place counts bytes, modulo 2^64 on purpose.
#[derive(Clone, Drop)]
pub struct CtrWrapper {
    aes: Encryption,
    iv: [u8; 16],
    place: u64,
}

impl Model for CtrWrapper {
    ghost use Rattle.ssh_aes.specs.States.{CtrState};

    ghost Value = { CtrState };

    ghost view = { λ c. record { key = c.aes; iv = c.iv; place = c.place } };
}

impl CtrWrapper {
    /// Takes a key of 16, 24 or 32 bytes and the first counter block.
    pub fn new(key: &[u8], iv: &[u8; 16]) -> CtrWrapper
        requires { IsKeyLength (length key.now) }
        ensures key { result.key ≡ key.now }
        ensures iv { result.iv ≡ iv.now }
        ensures place { result.place ≡ 0 }
    {
        CtrWrapper {
            aes: Encryption::new(key),
            iv: *iv,
            place: 0,
        }
    }

    /// Combines bytes with the key stream from the place on.
    fn mask(&self, bytes: &mut [u8])
        ensures { bytes.new ≡ counter_text self.now.key self.now.iv self.now.place bytes.old }
    {
        mask_from(&self.aes, &self.iv, self.place, bytes);
    }

    /// Moves the place on.
    fn pass(&mut self, count: usize)
        ensures key { self.new.key ≡ self.old.key }
        ensures iv { self.new.iv ≡ self.old.iv }
        ensures place { self.new.place ≡ (self.old.place + count) % 2 ^ 64 }
    {
        self.place = self.place.wrapping_add(count as u64);
    }
}

impl BlockStreamCipher for CtrWrapper {
    ghost running = { ctr_running };

    fn encrypt_data(&mut self, bytes: &mut [u8]) {
        self.mask(bytes);
        self.pass(bytes.len());
    }

    fn decrypt_data(&mut self, bytes: &mut [u8]) {
        self.mask(bytes);
        self.pass(bytes.len());
    }
}

impl PacketLengthProbe for CtrWrapper {
    fn decrypt_packet_length_block(&self, first_block: &mut [u8; 16]) {
        self.mask(first_block);
    }

    fn shortest_text_len(&self) -> usize {
        4
    }
}
