//! What opens a side's packets, and how they are padded.

ghost use Rattle.std.specs.Prelude.{◌≡◌, ◌+◌, ◌≤◌, ◌↔◌, ℕ, length, IsTrue};
ghost use Rattle.std.specs.List.{list_all};
ghost use Rattle.ssh_packet.specs.Keys.{opening_of, sealing_of};
ghost use Rattle.ssh_packet.specs.Sealing.{Clear, Item, IsPadded, Sealing, padding_length, sealed_packet};
ghost use Rattle.ssh_transcript.specs.Alike.{AreAlike, HasSize, HasZeros, is_zero};

use ssh_kex::NewCiphers;
use ssh_packet::{OpenKey, SealKey, SealingKey, clear};

/// The keys of one direction: what its packets are opened with, and what they were sealed under.
#[derive(Drop)]
pub struct Direction {
    pub opening: OpenKey,
    pub sealing: SealKey,
}

/// Those of what the client sends, and of what the server sends.
#[derive(Drop)]
pub struct Directions {
    pub client: Direction,
    pub server: Direction,
}

impl Directions {
    /// Those of the keys that both sides take up.
    pub fn of(client: NewCiphers, server: NewCiphers) -> Directions
        ensures { result ≡ record {
          client = record { opening = server.cipher.remote_to_local; sealing = client.cipher.local_to_remote };
          server = record { opening = client.cipher.remote_to_local; sealing = server.cipher.local_to_remote };
        } }
    {
        let (client, server) = (client.cipher, server.cipher);
        Directions {
            client: Direction {
                opening: server.remote_to_local,
                sealing: client.local_to_remote,
            },
            server: Direction {
                opening: client.remote_to_local,
                sealing: server.local_to_remote,
            },
        }
    }
}

/// How many bytes stand in a packet before its payload: the packet length and the padding length.
const HEAD: usize = 5;

impl Direction {
    /// Packets in clear, as before any exchange.
    pub fn clear() -> Direction
        ensures opening { opening_of result.opening ≡ Clear }
        ensures sealing { sealing_of result.sealing ≡ Clear }
    {
        Direction {
            opening: OpenKey::Clear(clear::Key),
            sealing: SealKey::Clear(clear::Key),
        }
    }

    /// Whether a packet of these bytes is padded as a writer pads this payload: by the least multiple, and in clear
    /// with zeros (RFC 4253 section 6).
    pub fn is_padded(&self, packet: &[u8], payload: &[u8]) -> bool
        ensures { (s : Sealing) (number : ℕ) (i : Item) → AreAlike s (sealing_of self.now.sealing)
            → i.payload ≡ payload.now → packet.now ≡ sealed_packet s number i → IsTrue result ↔ IsPadded s i }
    {
        let has_size = self.has_size(packet, payload);
        let is_plain = self.has_plain_padding(packet, payload.len());
        has_size && is_plain
    }

    /// Whether a packet is as long as a writer makes that of the payload.
    fn has_size(&self, packet: &[u8], payload: &[u8]) -> bool
        ensures { IsTrue result ↔ HasSize (sealing_of self.now.sealing) packet.now payload.now }
    {
        let behind = HEAD + self.sealing.padding_length(payload) + self.sealing.tag_len();
        packet.len().checked_sub(payload.len()) == Some(behind)
    }

    /// Whether what stands behind the payload of a packet in clear is zeros. Of a packet that was sealed nothing is
    /// asked.
    fn has_plain_padding(&self, packet: &[u8], payload: usize) -> bool
        ensures { 5 + payload ≤ length packet.now → IsTrue result ↔ HasZeros (sealing_of self.now.sealing)
            (5 + payload) packet.now }
    {
        match self.sealing {
            SealKey::Clear(_) => match packet.get(HEAD.saturating_add(payload)..) {
                Some(padding) => are_zeros(padding),
                None => false,
            },
            SealKey::Ctr(_) | SealKey::Cbc(_) | SealKey::Gcm(_) => true,
        }
    }
}

/// Whether all bytes are zeros.
fn are_zeros(bytes: &[u8]) -> bool
    ensures { result ≡ list_all is_zero bytes.now }
{
    bytes.iter().all(|b| *b == 0)
}
