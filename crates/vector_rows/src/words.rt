//! A generator that hands out given bytes.

ghost use Rattle.std.specs.Prelude.{ℕ, List, drop, slice_index};
ghost use Rattle.rand_core.specs.Steps.{stream_of, steps_u32};

use crate::row::Fault;
use rand_core::utils::NextWord;
use rand_core::{Rng, utils};
use std::alloc::Global;
use std::marker::Model;

/// A generator that gives words, and then zeros.
#[derive(Drop)]
pub struct Words<'a>(&'a [u32]);

impl<'a> Words<'a> {
    /// One that gives these words.
    pub fn of(words: &'a [u32]) -> Words<'a> {
        Words(words)
    }

    /// How many words are left.
    pub fn left(&self) -> usize {
        self.0.len()
    }
}

impl<'a> Model for Words<'a> {
    ghost Value = { List ℕ };

    ghost view = { λ w. w.0.now };
}

impl<'a> NextWord<u32> for Words<'a> {
    ghost step = { λ words. (slice_index words 0, drop 1 words) };

    fn next_word(&mut self) -> u32 {
        match self.0.split_first() {
            Some((word, rest)) => {
                self.0 = rest;
                *word
            }
            None => 0,
        }
    }
}

impl<'a> Rng for Words<'a> {
    ghost stream = { stream_of (steps_u32 (λ words. (slice_index words 0, drop 1 words))) };

    fn next_u32(&mut self) -> u32 {
        self.next_word()
    }

    fn next_u64(&mut self) -> u64 {
        utils::next_u64_via_u32(self)
    }

    fn fill_bytes(&mut self, dst: &mut [u8]) {
        utils::fill_bytes_via_u32(self, dst)
    }
}

/// The words that give these bytes when they are drawn, lowest byte first.
pub fn words_of(alloc: Global, bytes: &[u8]) -> Result<Vec<u32>, Fault> {
    let mut words = Vec::new(alloc);
    for piece in bytes.chunks(4) {
        let mut word = [0; 4];
        for (i, byte) in piece.iter().enumerate() {
            if i < 4 {
                word[i] = *byte;
            }
        }
        words.push(u32::from_le_bytes(word))?;
    }
    Ok(words)
}
