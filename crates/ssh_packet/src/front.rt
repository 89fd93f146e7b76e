//! What stands at the front of the bytes that wait.

ghost use Rattle.std.specs.Prelude.{◌≡◌, ◌+◌, ◌<◌, ◌≤◌, ◌^◌, length, drop, slice_index, vec_capacity, vec_len};
ghost use Rattle.ssh_packet.specs.Finding.{Measures, Parts, OpensChecked, Opens};
ghost use Rattle.ssh_packet.specs.Front.{is_bad_length};
ghost use Rattle.ssh_wire.specs.Forms.{AreBytes};
ghost use Rattle.ssh_packet.specs.Sealing.{longest_packet, tag_size};

use crate::cipher::OpeningKey;
use crate::error::OpenError;
use crate::sizes::LONGEST_PACKET;

/// A packet that was opened where it stands.
#[derive(Clone, Copy)]
pub(crate) struct Part {
    /// How many bytes of payload stand behind the first five.
    pub payload: usize,
    /// Where the packet ends, its tag too.
    pub end: usize,
}

/// Whether a packet length isn't read.
fn is_bad_length<K: OpeningKey>(key: &K, size: usize) -> bool
    requires { size < 2 ^ 32 }
    ensures { result ≡ is_bad_length (K.opening key.now) size }
{
    size > LONGEST_PACKET
        || size + 4 + key.tag_len() < key.packet_length_to_read_for_block_length()
        || size + 4 < key.shortest_packet()
}

/// The packet length of a packet that stands whole at the front. None below that, PacketSize for a length
/// that isn't read.
fn whole_length<K: OpeningKey>(
    key: &K,
    number: u32,
    bytes: &[u8],
) -> Result<Option<usize>, OpenError>
    ensures measures { Measures (K.opening key.now) number bytes.now result }
    ensures bytes { AreBytes bytes.now }
{
    let probe = key.packet_length_to_read_for_block_length();
    if bytes.len() < probe {
        return Ok(None);
    }
    let size = u32::from_be_bytes(key.decrypt_packet_length(number, &bytes[..probe])) as usize;
    if is_bad_length(key, size) {
        Err(OpenError::PacketSize(size))
    } else if bytes.len() < 4 + size + key.tag_len() {
        Ok(None)
    } else {
        Ok(Some(size))
    }
}

/// The padding length of a framed text of this packet length.
fn padding_at(size: usize, text: &[u8]) -> usize
    requires { length text.now ≡ 4 + size }
    ensures { result ≡ slice_index text.now 4 }
{
    if size == 0 { 0 } else { usize::from(text[4]) }
}

/// How many bytes of payload a framed text of this packet length has, by its padding length.
fn payload_in(size: usize, text: &[u8]) -> Result<usize, OpenError>
    requires { length text.now ≡ 4 + size }
    ensures { Parts size text.now result }
{
    let padding = padding_at(size, text);
    if padding > size {
        Err(OpenError::IndexOutOfBounds)
    } else if size < padding + 2 {
        Err(OpenError::PacketSize(size))
    } else {
        Ok(size - 1 - padding)
    }
}

/// Opens a packet of this length, which stands whole at the front.
fn open_whole<K: OpeningKey>(
    key: &mut K,
    number: u32,
    size: usize,
    bytes: &mut [u8],
) -> Result<Part, OpenError>
    requires short { size ≤ longest_packet }
    requires whole { 4 + size + tag_size (K.opening key.old) ≤ length bytes.old }
    ensures { OpensChecked (K.opening key.old) number size bytes.old bytes.new result (K.opening key.new) }
{
    let tag_len = key.tag_len();
    let (packet, behind) = bytes.split_at_mut(4 + size);
    key.open_in_place(number, packet, &behind[..tag_len])?;
    let payload = payload_in(size, packet)?;
    Ok(Part {
        payload,
        end: 4 + size + tag_len,
    })
}

/// Opens the packet at the front, where it stands. None where less than a packet does.
fn open_front<K: OpeningKey>(
    key: &mut K,
    number: u32,
    bytes: &mut [u8],
) -> Result<Option<Part>, OpenError>
    ensures opens { Opens (K.opening key.old) number bytes.old bytes.new result (K.opening key.new) }
    ensures bytes { AreBytes bytes.old }
{
    match whole_length(key, number, bytes)? {
        None => Ok(None),
        Some(size) => Ok(Some(open_whole(key, number, size, bytes)?)),
    }
}

/// Opens the packet at the front of what stands behind `start`.
pub(crate) fn open_behind<K: OpeningKey>(
    key: &mut K,
    number: u32,
    bytes: &mut Vec<u8>,
    start: usize,
) -> Result<Option<Part>, OpenError>
    requires { start ≤ vec_len bytes.old }
    ensures opens { Opens (K.opening key.old) number (drop start bytes.old.items) (drop start bytes.new.items) result
        (K.opening key.new) }
    ensures size { vec_len bytes.new ≡ vec_len bytes.old }
    ensures capacity { vec_capacity bytes.new ≡ vec_capacity bytes.old }
    ensures bytes { AreBytes (drop start bytes.old.items) }
{
    open_front(key, number, &mut bytes[start..])
}
