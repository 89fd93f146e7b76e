//! The seed of a generator, made of a number.

ghost use Rattle.std.specs.Prelude.{◌≡◌};
ghost use Rattle.ssh_vectors.specs.Seeds.{seed_of};

/// The number's 8 bytes, the least significant first, and 24 zero bytes.
pub fn seed_bytes(seed: u64) -> [u8; 32]
    ensures { result ≡ seed_of seed }
{
    let mut bytes = [0; 32];
    bytes[..8].copy_from_slice(&seed.to_le_bytes());
    bytes
}
