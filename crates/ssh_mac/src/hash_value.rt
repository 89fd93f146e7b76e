//! A hash by value.

ghost use Rattle.std.specs.Prelude.{◌≡◌, ◌≤◌, [], length};

use std::marker::Model;

/// The length of the longest hash, in bytes.
const LONGEST: usize = 64;

/// A hash: 0 to 64 bytes by value, which contracts see as their list.
#[derive(Clone, Copy, Debug, PartialEq, Eq)]
pub struct HashValue {
    // The hash, and zeros behind it.
    bytes: [u8; LONGEST],
    len: usize,
}

impl Model for HashValue {
    ghost use Rattle.std.specs.Prelude.{◌≡◌, ◌≤◌, ◌-◌, ◌++◌, List, ℕ, length, take, drop};
    ghost use Rattle.std.proofs.Common.{arith, length-take-le};
    ghost use Rattle.ssh_mac.specs.Zeros.{zeros, refilled};

    ghost Value = { List ℕ };

    ghost view = { λ h. take h.len h.bytes };

    ghost invariant = { λ h. (h.len ≤ 64) × (length h.bytes ≡ 64) × (drop h.len h.bytes ≡ zeros (64 - h.len)) };

    ghost inverse = { λ b. record { bytes = b ++ zeros (64 - length b); len = length b } };

    ghost inverse_ok = { λ h k i. record {
      bytes = refilled h.len h.bytes k.0 k.1 k.2 i;
      len = length-take-le h.len h.bytes (omega (arith, k.0, k.1)) i;
    } };
}

impl HashValue {
    /// The hash of no bytes, which stands where there is none yet.
    pub fn empty() -> HashValue
        ensures { result ≡ [] }
    {
        HashValue {
            bytes: [0; LONGEST],
            len: 0,
        }
    }

    /// The hash of these bytes, at most 64.
    pub fn of(hash: &[u8]) -> HashValue
        requires { length hash.now ≤ 64 }
        ensures { result ≡ hash.now }
    {
        let mut bytes = [0; LONGEST];
        bytes[..hash.len()].copy_from_slice(hash);
        HashValue {
            bytes,
            len: hash.len(),
        }
    }

    /// The bytes.
    pub fn as_bytes(&self) -> &[u8]
        ensures value { result.now ≡ self.now }
        ensures short { length self.now ≤ 64 }
    {
        &self.bytes[..self.len]
    }
}
