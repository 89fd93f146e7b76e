//! What a caller knows of every cipher and every MAC, by their traits.

ghost use Rattle.std.specs.Prelude.{◌≡◌, IsTrue, length};
ghost use Rattle.ssh_aes.specs.Laws.{AreOctets};
ghost use Rattle.ssh_aes.specs.Modes.{running_after};
ghost use Rattle.ssh_mac.specs.Tags.{tag_length, tag_of};

use ssh_aes::BlockStreamCipher;
use ssh_mac::mac::Mac;

/// Encrypts a text, and decrypts it by an equal cipher. It is whole again, and both ciphers, which have run on over it,
/// are equal again.
pub fn there_and_back<C: BlockStreamCipher>(sealing: &mut C, opening: &mut C, bytes: &mut [u8])
    requires bytes { AreOctets bytes.old }
    requires equal { C.running sealing.old ≡ C.running opening.old }
    ensures same { bytes.new ≡ bytes.old }
    ensures equal { C.running sealing.new ≡ C.running opening.new }
    ensures runs { C.running sealing.new ≡ running_after (C.running sealing.old) bytes.old }
{
    sealing.encrypt_data(bytes);
    opening.decrypt_data(bytes);
}

/// Computes a tag into `room`. Whether the MAC accepts it, which it does.
pub fn own_tag_accepted<M: Mac>(mac: &M, number: u32, text: &[u8], room: &mut [u8]) -> bool
    requires { length room.old ≡ tag_length (M.meaning mac.now) }
    ensures accepted { IsTrue result }
    ensures tag { room.new ≡ tag_of (M.meaning mac.now) number text.now }
{
    mac.compute(number, text, room);
    mac.verify(number, text, room)
}
