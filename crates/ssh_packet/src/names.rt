//! What each constant of `cipher` and of `compression` is, for proofs above to cite.

ghost use Rattle.std.specs.Prelude.{◌≡◌, ◌∷◌, []};
ghost use Rattle.ssh_packet.specs.declared.cipher.Name.TheVariants.{Clear, NoCipher, Aes128Ctr, Aes192Ctr, Aes256Ctr};
ghost use Rattle.ssh_packet.specs.declared.cipher.Name.TheVariants.{Aes128Gcm, Aes256Gcm, Aes128Cbc, Aes192Cbc, Aes256Cbc};
ghost use Rattle.ssh_packet.specs.declared.compression.Name.TheVariants.{None};

use crate::cipher::{
    AES_128_CBC, AES_128_CTR, AES_128_GCM, AES_192_CBC, AES_192_CTR, AES_256_CBC, AES_256_CTR,
    AES_256_GCM, ALL_CIPHERS, CLEAR, NONE,
};
use crate::compression::NONE as NO_COMPRESSION;

/// The names of ciphers, and all of them.
pub fn cipher_names()
    ensures clear { (CLEAR ≡ Clear) × (NONE ≡ NoCipher) }
    ensures ctr { (AES_128_CTR ≡ Aes128Ctr) × (AES_192_CTR ≡ Aes192Ctr) × (AES_256_CTR ≡ Aes256Ctr) }
    ensures gcm { (AES_128_GCM ≡ Aes128Gcm) × (AES_256_GCM ≡ Aes256Gcm) }
    ensures cbc { (AES_128_CBC ≡ Aes128Cbc) × (AES_192_CBC ≡ Aes192Cbc) × (AES_256_CBC ≡ Aes256Cbc) }
    ensures all { ALL_CIPHERS
        ≡ Clear ∷ NoCipher ∷ Aes128Ctr ∷ Aes192Ctr ∷ Aes256Ctr ∷ Aes128Gcm ∷ Aes256Gcm ∷ Aes128Cbc ∷ Aes192Cbc
        ∷ Aes256Cbc ∷ [] }
{}

/// The names of compressions.
pub fn compression_names()
    ensures { NO_COMPRESSION ≡ None }
{}
