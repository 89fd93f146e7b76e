//! Galois counter mode (SP 800-38D), with a nonce of 12 bytes and a tag of 16.

ghost use Rattle.std.specs.Prelude.{◌≡◌, ◌≢◌, ◌↔◌, ◌<◌, ◌^◌, ◌+◌, ◌/◌, ◌%◌, ◌⊎◌, IsTrue, MatchBool, length};
ghost use Rattle.ssh_aes.specs.Gcm.{nonce_block, nonce_stream, gcm_counter_text, gcm_text, gcm_plain, gcm_tag, cipher_tag};

use crate::blocks::{add_block, is_same};
use crate::encryption::Encryption;
use crate::hash::{HashKey, from_block, hash_after, lengths, to_block};
use crate::stream::mask_from;
use std::marker::Model;

/// AES in Galois counter mode under one key. A contract sees the key.
#[derive(Clone, Drop)]
pub struct Gcm {
    aes: Encryption,
    subkey: HashKey,
}

impl Model for Gcm {
    ghost use Rattle.std.specs.Prelude.{◌≡◌, ℕ, List};
    ghost use Rattle.ssh_aes.specs.Gcm.{hash_key};

    ghost Value = { List ℕ };

    ghost view = { λ g. g.aes };

    ghost invariant = { λ g. g.subkey ≡ hash_key g.aes };
}

impl Gcm {
    /// Takes a key of 16 or 32 bytes.
    pub fn new(key: &[u8]) -> Gcm
        requires { (length key.now ≡ 16) ⊎ (length key.now ≡ 32) }
        ensures { result ≡ key.now }
    {
        let aes = Encryption::new(key);
        let mut zeros = [0; 16];
        aes.encrypt_block(&mut zeros);
        let subkey = HashKey::new(from_block(zeros));
        Gcm { aes, subkey }
    }

    /// Makes the square of the hash key, once: by it two blocks of a text are hashed at once. It takes about as many
    /// instructions as it saves in 240 bytes of text. What the key encrypts, opens and answers stays the same.
    pub fn prepare(&mut self)
        ensures same { self.new ≡ self.old }
    {
        self.subkey.prepare();
    }

    /// Encrypts in place, and writes the tag of the text and the additional text.
    pub fn seal(&self, nonce: &[u8; 12], aad: &[u8], bytes: &mut [u8], tag_out: &mut [u8; 16])
        requires aad { length aad.now < 2 ^ 32 }
        requires bytes { length bytes.old < 2 ^ 32 }
        ensures text { bytes.new ≡ gcm_text self.now nonce.now aad.now bytes.old }
        ensures tag { tag_out.new ≡ gcm_tag self.now nonce.now aad.now bytes.old }
    {
        self.mask(nonce, bytes);
        *tag_out = self.tag_of(nonce, aad, bytes);
    }

    /// Whether the tag is right, with the text then decrypted. Otherwise it stays as it is.
    pub fn open(&self, nonce: &[u8; 12], aad: &[u8], bytes: &mut [u8], tag: &[u8; 16]) -> bool
        requires aad { length aad.now < 2 ^ 32 }
        requires bytes { length bytes.old < 2 ^ 32 }
        ensures right { IsTrue result ↔ tag.now ≡ cipher_tag self.now nonce.now aad.now bytes.old }
        ensures text { MatchBool
            result
            (bytes.new ≡ gcm_plain self.now nonce.now aad.now bytes.old)
            (bytes.new ≡ bytes.old) }
    {
        if !is_same(&self.tag_of(nonce, aad, bytes), tag) {
            return false;
        }
        self.mask(nonce, bytes);
        true
    }

    /// The encryption of a counter block.
    fn stream(&self, nonce: &[u8; 12], number: u32) -> [u8; 16]
        ensures { result ≡ nonce_stream self.now nonce.now number }
    {
        let mut counter = counter_block(nonce, number);
        self.aes.encrypt_block(&mut counter);
        counter
    }

    /// Combines a text with the key stream, of which counter blocks 0 and 1 stay unused.
    fn mask(&self, nonce: &[u8; 12], bytes: &mut [u8])
        requires { length bytes.old < 2 ^ 32 }
        ensures { bytes.new ≡ gcm_counter_text self.now nonce.now bytes.old }
    {
        mask_from(&self.aes, &counter_block(nonce, 0), 32, bytes);
    }

    /// The tag of a cipher text.
    fn tag_of(&self, nonce: &[u8; 12], aad: &[u8], bytes: &[u8]) -> [u8; 16]
        requires aad { length aad.now < 2 ^ 32 }
        requires bytes { length bytes.now < 2 ^ 32 }
        ensures { result ≡ cipher_tag self.now nonce.now aad.now bytes.now }
    {
        let front = hash_after(&self.subkey, hash_after(&self.subkey, 0, aad), bytes);
        let last = from_block(lengths(aad.len(), bytes.len()));
        let mut tag = to_block(self.subkey.product(front ^ last));
        add_block(&mut tag, &self.stream(nonce, 1));
        tag
    }
}

/// The counter block of a number: the nonce and 32 bits.
fn counter_block(nonce: &[u8; 12], number: u32) -> [u8; 16]
    ensures { result ≡ nonce_block nonce.now number }
{
    let n = number.to_be_bytes();
    [
        nonce[0], nonce[1], nonce[2], nonce[3], nonce[4], nonce[5], nonce[6], nonce[7], nonce[8],
        nonce[9], nonce[10], nonce[11], n[0], n[1], n[2], n[3],
    ]
}
