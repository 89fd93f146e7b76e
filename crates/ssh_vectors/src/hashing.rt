//! Strings that are hashed (RFC 4251 section 5).

ghost use Rattle.std.specs.Prelude.{◌≡◌, ◌++◌, ℕ, List, length};
ghost use Rattle.ssh_mac.specs.Hashing.{IsHashing};
ghost use Rattle.ssh_mac.specs.declared.digest.DigestKind.{DigestKind};
ghost use Rattle.ssh_wire.specs.Forms.{string, u32be};

use ssh_mac::Hasher;

/// The length of bytes as a `uint32`, of which a longer length loses the front.
fn length_bytes(bytes: &[u8]) -> [u8; 4]
    ensures { result ≡ u32be (length bytes.now) }
{
    ((bytes.len() % (1 << 32)) as u32).to_be_bytes()
}

/// Takes in a string: its length, then its bytes.
pub fn take_string(hasher: &mut Hasher, bytes: &[u8])
    ensures { (kind : DigestKind) (text : List ℕ) → IsHashing hasher.old kind text
        → IsHashing hasher.new kind (text ++ string bytes.now) }
{
    hasher.update(&length_bytes(bytes));
    hasher.update(bytes);
}
