//! The keys of a direction as a row gives them.

ghost use Rattle.std.specs.Prelude.{◌≡◌, IsTrue, length};
ghost use Rattle.ssh_mac.specs.Names.{mac_key_length};
ghost use Rattle.ssh_packet.specs.Names.{cipher_key_length, nonce_length};

use ssh_mac::mac;
use ssh_packet::{CipherPair, OpenKey, SealKey, cipher, clear};
use vector_rows::Row;

/// Two names, and a key for each.
#[derive(Clone, Copy)]
pub(crate) struct Material<'r> {
    cipher: cipher::Name,
    mac: mac::Name,
    key: &'r [u8],
    nonce: &'r [u8],
    mac_key: &'r [u8],
}

impl<'r> Material<'r> {
    /// The next words as CIPHER MAC KEY NONCE MACKEY.
    pub(crate) fn of(row: &'r Row<'_>) -> Material<'r> {
        let (cipher, mac) = (row.word(), row.word());
        let material = Material {
            cipher: row.expect(cipher::Name::from_str(cipher), cipher::NONE),
            mac: row.expect(mac::Name::from_str(mac), mac::NONE),
            key: row.bytes(),
            nonce: row.bytes(),
            mac_key: row.bytes(),
        };
        if !material.has_lengths() {
            row.reject();
        }
        material
    }

    /// Keys to seal and to open with.
    pub(crate) fn pair(&self) -> CipherPair {
        CipherPair {
            local_to_remote: self.sealing(),
            remote_to_local: self.opening(),
        }
    }

    /// A key to seal with. Where a key hasn't the length of its name, and the row is malformed, one that leaves all in
    /// clear.
    pub(crate) fn sealing(&self) -> SealKey {
        if self.has_lengths() {
            self.cipher
                .make_sealing_key(self.key, self.nonce, self.mac_key, self.mac)
        } else {
            SealKey::Clear(clear::Key)
        }
    }

    /// A key to open with, as `sealing`.
    pub(crate) fn opening(&self) -> OpenKey {
        if self.has_lengths() {
            self.cipher
                .make_opening_key(self.key, self.nonce, self.mac_key, self.mac)
        } else {
            OpenKey::Clear(clear::Key)
        }
    }

    /// Whether each key has the length of its name.
    fn has_lengths(&self) -> bool
        ensures { IsTrue result → (length self.now.key.now ≡ cipher_key_length self.now.cipher)
            × (length self.now.nonce.now ≡ nonce_length self.now.cipher)
            × (length self.now.mac_key.now ≡ mac_key_length self.now.mac) }
    {
        self.key.len() == self.cipher.key_len()
            && self.nonce.len() == self.cipher.nonce_len()
            && self.mac_key.len() == self.mac.key_len()
    }
}
