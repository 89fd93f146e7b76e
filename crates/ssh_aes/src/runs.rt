//! What a sealing key asks of a cipher that runs on from packet to packet.

ghost use Rattle.std.specs.Prelude.{◌≡◌, ◌≤◌};
ghost use Rattle.ssh_aes.specs.Modes.{Running, masked_text, unmasked_text, running_after, running_past, shortest_text};

/// A cipher that encrypts or decrypts a text of any length in place, and runs on behind it. How it
/// runs on is a `Running`, of which `runs_well`, `opens_well` and `streams_undone` state the laws.
pub trait BlockStreamCipher {
    // how the cipher runs on
    ghost running: { Self → Running };

    /// Encrypts the next bytes. Chaining mode leaves a rest of less than a block as it is.
    fn encrypt_data(&mut self, bytes: &mut [u8])
        ensures text { bytes.new ≡ masked_text (running self.old) bytes.old }
        ensures state { running self.new ≡ running_after (running self.old) bytes.old };

    /// Decrypts the next bytes.
    fn decrypt_data(&mut self, bytes: &mut [u8])
        ensures text { bytes.new ≡ unmasked_text (running self.old) bytes.old }
        ensures state { running self.new ≡ running_past (running self.old) bytes.old };
}

/// A cipher of which a packet's length can be read before the packet is whole.
pub trait PacketLengthProbe: BlockStreamCipher {
    /// Decrypts the first block as `decrypt_data` would, and stays where it is.
    fn decrypt_packet_length_block(&self, first_block: &mut [u8; 16])
        ensures { first_block.new ≡ unmasked_text (Self.running self.now) first_block.old };

    /// How many bytes of a text have to be there for its packet length to be read: 4, or a whole block of 16.
    fn shortest_text_len(&self) -> usize
        ensures value { result ≡ shortest_text (Self.running self.now) }
        ensures short { result ≤ 16 };
}
