//! AES with a key of 16, 24 or 32 bytes.

ghost use Rattle.std.specs.Prelude.{◌≡◌, length};
ghost use Rattle.ssh_aes.specs.Aes.{aes, inverse_aes};
ghost use Rattle.ssh_aes.specs.Keys.{IsKeyLength};

use crate::encryption::encrypt;
use crate::keys::{held, inverse_keys_of, schedule_of};
use crate::rounds::{inverse_round_of, last_inverse_round_of, with_last_key};
use std::marker::Model;

/// The block cipher under one key, which is expanded once. A contract sees the key.
#[derive(Clone, Drop)]
pub struct Aes {
    keys: [u8; 240],
    inverse_keys: [u8; 240],
    words: usize,
}

impl Model for Aes {
    ghost use Rattle.std.specs.Prelude.{ℕ, List};
    ghost use Rattle.ssh_aes.specs.Keys.{key_in, IsPrepared};
    ghost use Rattle.ssh_aes.specs.Held.{keys_left, inverse_keys_left};

    ghost Value = { List ℕ };

    ghost view = { λ a. key_in a.words (keys_left a.keys) };

    ghost invariant = { λ a. IsPrepared a.words (keys_left a.keys) (inverse_keys_left a.inverse_keys) };
}

impl Aes {
    /// Takes a key of 16, 24 or 32 bytes.
    pub fn new(key: &[u8]) -> Aes
        requires { IsKeyLength (length key.now) }
        ensures { result ≡ key.now }
    {
        let keys = held(&schedule_of(key));
        Aes {
            keys,
            inverse_keys: inverse_keys_of(&keys),
            words: key.len() / 4,
        }
    }

    /// Encrypts a block in place (FIPS 197 section 5.1).
    pub fn encrypt_block(&self, block: &mut [u8; 16])
        ensures { block.new ≡ aes self.now block.old }
    {
        encrypt(&self.keys, self.words, block);
    }

    /// Decrypts a block in place (FIPS 197 section 5.3).
    pub fn decrypt_block(&self, block: &mut [u8; 16])
        ensures { block.new ≡ inverse_aes self.now block.old }
    {
        let mut state = *block;
        with_last_key(&mut state, &self.keys, self.words + 6);
        for done in 0..self.words + 5 {
            inverse_round_of(&mut state, &self.inverse_keys, self.words + 5 - done);
        }
        last_inverse_round_of(&mut state, &self.keys, 0);
        *block = state;
    }
}
