//! AES in the one direction that counter mode and Galois counter mode have: no keys of decryption are made.

ghost use Rattle.std.specs.Prelude.{◌≡◌, length};
ghost use Rattle.ssh_aes.specs.Aes.{aes};
ghost use Rattle.ssh_aes.specs.Held.{keys_left};
ghost use Rattle.ssh_aes.specs.Keys.{IsExpanded, IsKeyLength, key_in};

use crate::keys::{held, schedule_of};
use crate::rounds::{last_round_of, round_of, with_key};
use std::marker::Model;

/// The block cipher under one key, for encryption alone. A contract sees the key.
#[derive(Clone, Drop)]
pub(crate) struct Encryption {
    keys: [u8; 240],
    words: usize,
}

impl Model for Encryption {
    ghost use Rattle.std.specs.Prelude.{ℕ, List};
    ghost use Rattle.ssh_aes.specs.Keys.{key_in, IsExpanded};
    ghost use Rattle.ssh_aes.specs.Held.{keys_left};

    ghost Value = { List ℕ };

    ghost view = { λ a. key_in a.words (keys_left a.keys) };

    ghost invariant = { λ a. IsExpanded a.words (keys_left a.keys) };
}

impl Encryption {
    /// Takes a key of 16, 24 or 32 bytes.
    pub(crate) fn new(key: &[u8]) -> Encryption
        requires { IsKeyLength (length key.now) }
        ensures { result ≡ key.now }
    {
        Encryption {
            keys: held(&schedule_of(key)),
            words: key.len() / 4,
        }
    }

    /// Encrypts a block in place.
    pub(crate) fn encrypt_block(&self, block: &mut [u8; 16])
        ensures { block.new ≡ aes self.now block.old }
    {
        encrypt(&self.keys, self.words, block);
    }

    /// Encrypts two blocks in place, in less time than one after the other.
    pub(crate) fn encrypt_two(&self, first: &mut [u8; 16], second: &mut [u8; 16])
        ensures first { first.new ≡ aes self.now first.old }
        ensures second { second.new ≡ aes self.now second.old }
    {
        let mut one = *first;
        let mut two = *second;
        with_key(&mut one, &self.keys, 0);
        with_key(&mut two, &self.keys, 0);
        for round in 1..self.words + 6 {
            round_of(&mut one, &self.keys, round);
            round_of(&mut two, &self.keys, round);
        }
        last_round_of(&mut one, &self.keys, self.words + 6);
        last_round_of(&mut two, &self.keys, self.words + 6);
        *first = one;
        *second = two;
    }
}

/// Encrypts a block in place (FIPS 197 section 5.1), by the schedule of a key of a number of words.
pub(crate) fn encrypt(keys: &[u8; 240], words: usize, block: &mut [u8; 16])
    requires { IsExpanded words (keys_left keys.now) }
    ensures { block.new ≡ aes (key_in words (keys_left keys.now)) block.old }
{
    let mut state = *block;
    with_key(&mut state, keys, 0);
    for round in 1..words + 6 {
        round_of(&mut state, keys, round);
    }
    last_round_of(&mut state, keys, words + 6);
    *block = state;
}
