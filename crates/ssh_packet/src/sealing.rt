//! Sealing in place, under any key.

ghost use Rattle.std.specs.Prelude.{◌≡◌, ◌+◌, ◌-◌, ◌<◌, ◌≤◌, ◌++◌, length, take, drop};
ghost use Rattle.std.specs.Prelude.{OnOk, OnErr, IfErr, IsOk, vec_len, vec_capacity};
ghost use Rattle.ssh_wire.specs.declared.error.Error.TheVariants.{Memory};
ghost use Rattle.ssh_wire.specs.Forms.{AreBytes};
ghost use Rattle.ssh_packet.specs.Sealing.{IsAdmissible, IsPadded, framed_text, sealed_packet, moved_on, item_of};
ghost use Rattle.ssh_packet.specs.Sealing.{padding_of_payload, padding_drawn, item_padded_by, head_length, longest_packet, longest_padding, longest_payload, tag_size};

use crate::cipher::SealingKey;
use crate::sizes::HEAD;
use rand_core::Rng;
use ssh_wire::Error;

/// Writes the packet length and the padding's length before a payload, and draws the padding behind it.
fn frame<K: SealingKey, R: Rng>(text: &mut [u8], padding: usize, key: &K, rng: &mut R)
    requires room { head_length + padding ≤ length text.old }
    requires short { length text.old ≤ 4 + longest_packet }
    requires byte { padding < 256 }
    ensures text { text.new ≡ framed_text (record {
      payload = take (length text.old - head_length - padding) (drop head_length text.old);
      padding = (padding_drawn (K.sealing key.now) padding (R.stream rng.old)).0;
    }) }
    ensures stream { R.stream rng.new ≡ (padding_drawn (K.sealing key.now) padding (R.stream rng.old)).1 }
    ensures size { length (padding_drawn (K.sealing key.now) padding (R.stream rng.old)).0 ≡ padding }
    ensures bytes { AreBytes (padding_drawn (K.sealing key.now) padding (R.stream rng.old)).0 }
{
    let payload_end = text.len() - padding;
    let length = ((text.len() - 4) as u32).to_be_bytes();
    text[..HEAD].copy_from_slice(&[length[0], length[1], length[2], length[3], padding as u8]);
    key.fill_padding(rng, &mut text[payload_end..]);
}

/// Makes a packet of a payload, which stands behind five bytes of room and before room for padding and tag.
fn seal_in_place<K: SealingKey, R: Rng>(
    packet: &mut [u8],
    padding: usize,
    tag_len: usize,
    seqn: u32,
    key: &mut K,
    rng: &mut R,
)
    requires room { head_length + padding + tag_len ≤ length packet.old }
    requires short { length packet.old ≤ 4 + longest_packet + tag_len }
    requires byte { padding < 256 }
    requires tag { tag_len ≡ tag_size (K.sealing key.old) }
    ensures packet { packet.new ≡ sealed_packet (K.sealing key.old) seqn (item_padded_by (K.sealing key.old) padding
        (take (length packet.old - head_length - padding - tag_len) (drop head_length packet.old)) (R.stream rng.old)) }
    ensures moved { K.sealing key.new ≡ moved_on (K.sealing key.old) (item_padded_by (K.sealing key.old) padding
        (take (length packet.old - head_length - padding - tag_len) (drop head_length packet.old)) (R.stream rng.old)) }
    ensures stream { R.stream rng.new ≡ (padding_drawn (K.sealing key.old) padding (R.stream rng.old)).1 }
    ensures size { length (padding_drawn (K.sealing key.old) padding (R.stream rng.old)).0 ≡ padding }
    ensures bytes { AreBytes (padding_drawn (K.sealing key.old) padding (R.stream rng.old)).0 }
{
    let text_len = packet.len() - tag_len;
    let (text, tag) = packet.split_at_mut(text_len);
    frame(text, padding, key, rng);
    key.seal(seqn, text, tag);
}

/// Makes a packet of what stands behind `start`: five bytes of room, and a payload. Memory leaves all as it was.
pub(crate) fn seal_behind<K: SealingKey, R: Rng>(
    out: &mut Vec<u8>,
    start: usize,
    seqn: u32,
    key: &mut K,
    rng: &mut R,
) -> Result<(), Error>
    requires room { start + head_length ≤ vec_len out.old }
    requires short { vec_len out.old ≤ start + head_length + longest_payload }
    ensures ok { OnOk result (out.new.items ≡ take start out.old.items
        ++ sealed_packet (K.sealing key.old) seqn (item_of (K.sealing key.old)
        (drop (start + head_length) out.old.items) (R.stream rng.old))) }
    ensures moved { OnOk result (K.sealing key.new
        ≡ moved_on (K.sealing key.old) (item_of (K.sealing key.old) (drop (start + head_length) out.old.items)
        (R.stream rng.old))) }
    ensures stream { OnOk result (R.stream rng.new
        ≡ (padding_of_payload (K.sealing key.old) (vec_len out.old - (start + head_length)) (R.stream rng.old)).1) }
    ensures admissible { OnOk result (start + head_length < vec_len out.old
        → IsAdmissible (K.sealing key.old) (item_of (K.sealing key.old) (drop (start + head_length) out.old.items)
        (R.stream rng.old))) }
    ensures padded { OnOk result (start + head_length < vec_len out.old
        → IsPadded (K.sealing key.old) (item_of (K.sealing key.old) (drop (start + head_length) out.old.items)
        (R.stream rng.old))) }
    ensures unchanged { OnErr result (out.new.items ≡ out.old.items) }
    ensures key { OnErr result (key.new ≡ key.old) }
    ensures undrawn { OnErr result (rng.new ≡ rng.old) }
    ensures err { IfErr result (λ e. e ≡ Memory) }
    ensures ready { vec_len out.old + longest_padding + tag_size (K.sealing key.old) ≤ vec_capacity out.old → IsOk
        result }
    ensures capacity { vec_capacity out.old ≤ vec_capacity out.new }
{
    let end = out.len();
    let padding = key.padding_length(&out[start + HEAD..]);
    let tag_len = key.tag_len();
    out.reserve(padding + tag_len)?;
    out.resize(end + padding + tag_len, 0)?;
    seal_in_place(&mut out[start..], padding, tag_len, seqn, key, rng);
    Ok(())
}
