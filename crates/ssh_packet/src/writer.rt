//! Sealing payloads into packets.

ghost use Rattle.std.specs.Prelude.{◌≡◌, ◌⊎◌, ◌+◌, ◌-◌, ◌^◌, ◌<◌, ◌≤◌, ◌++◌, [], ℕ, List, length, take, drop};
ghost use Rattle.std.specs.Prelude.{IsOk, OnOk, IfOk, OnErr, IfErr, Err, vec_len, vec_capacity};
ghost use Rattle.std.specs.Borrow.{sem};
ghost use Rattle.std.specs.Fn.{FnOnceReturnsAtMut};
ghost use Rattle.ssh_wire.specs.Outside.{Rose};
ghost use Rattle.ssh_wire.specs.declared.error.Error.TheVariants.{PacketSize, Memory, IO};
ghost use Rattle.ssh_packet.specs.Sealing.{Clear, IsAdmissible, IsPadded, head_length, item_of, longest_padding, longest_payload, longest_tag};
ghost use Rattle.ssh_packet.specs.Sealing.{stream_after, tag_size};
ghost use Rattle.ssh_packet.specs.Writing.{AppendsPayload, Flushes, IsSizeOrMemory, LeavesPayload, OnlyAppends, SameButRoom};
ghost use Rattle.ssh_packet.specs.Writing.{Seals, SealsInPlace, SealsWith, Sends, head_room, room_for};

use crate::buffer::{PacketBytesWriter, SSHBuffer, make_room, move_to_front};
use crate::cipher::SealingKey;
use crate::clear;
use crate::compression::Compress;
use crate::keys::SealKey;
use crate::sealing::seal_behind;
use crate::sizes::{HEAD, LONGEST_PADDING, LONGEST_PAYLOAD, ROOM_BESIDE};
use bytes::Bytes;
use rand_core::Rng;
use ssh_wire::{Error, Sink, write_all};
use std::alloc::Global;
use std::marker::Model;

/// Seals payloads one after the other, behind what its buffer holds. A writer owns its key, and `set_cipher`
/// resets its count with it. A `PacketReader` is handed its key at each `next`, and its caller resets its count.
#[derive(Debug, Drop)]
pub struct PacketWriter {
    buffer: SSHBuffer,
    /// How many bytes at the front of the buffer were taken: the output is what follows them.
    start: usize,
    cipher: SealKey,
    compress: Compress,
}

impl Model for PacketWriter {
    ghost use Rattle.std.specs.Prelude.{◌+◌, ◌≤◌, length, drop};
    ghost use Rattle.ssh_packet.specs.Keys.{sealing_of};
    ghost use Rattle.ssh_packet.specs.Writing.{Writer};

    ghost Value = { Writer };

    ghost view = { λ w. record {
      output = drop w.start w.buffer.output;
      len = w.buffer.len;
      count = w.buffer.count;
      number = w.buffer.number;
      sealing = sealing_of w.cipher;
      room = w.buffer.room + w.start;
    } };

    ghost invariant = { λ w. w.start ≤ length w.buffer.output };
}

impl PacketWriter {
    ghost use Rattle.ssh_packet.specs.Keys.{sealing_of};
    ghost use Rattle.ssh_packet.specs.Lending.{LendsBuffer, LendsCompress};

    /// A writer under a key, before packet 0.
    pub fn new(alloc: Global, cipher: SealKey, compress: Compress) -> PacketWriter
        ensures { result
            ≡ record { output = []; len = 0; count = 0; number = 0; sealing = sealing_of cipher; room = result.room } }
    {
        PacketWriter {
            buffer: SSHBuffer::new(alloc),
            start: 0,
            cipher,
            compress,
        }
    }

    /// A writer under the clear key, before packet 0.
    pub fn clear(alloc: Global) -> PacketWriter
        ensures { result
            ≡ record { output = []; len = 0; count = 0; number = 0; sealing = Clear; room = result.room } }
    {
        PacketWriter::new(alloc, SealKey::Clear(clear::Key), Compress::None)
    }

    /// Appends one packet of the payload. A payload of no bytes sends nothing. PacketSize where it is
    /// over 262157 bytes; Memory. A refusal leaves the writer as it was. The clear key pads with zeros
    /// and draws nothing from the generator.
    pub fn packet_raw<R: Rng>(&mut self, rng: &mut R, buf: &[u8]) -> Result<(), Error>
        ensures sent { OnOk result (Sends self.old buf.now (R.stream rng.old) self.new) }
        ensures stream { OnOk result (R.stream rng.new ≡ stream_after self.old.sealing buf.now (R.stream rng.old)) }
        ensures admissible { OnOk result (0 < length buf.now
            → IsAdmissible self.old.sealing (item_of self.old.sealing buf.now (R.stream rng.old))) }
        ensures padded { OnOk result (0 < length buf.now
            → IsPadded self.old.sealing (item_of self.old.sealing buf.now (R.stream rng.old))) }
        ensures unchanged { OnErr result (SameButRoom self.old self.new) }
        ensures causes { IfErr result (IsSizeOrMemory (length buf.now)) }
        ensures too_long { longest_payload < length buf.now → result ≡ Err (PacketSize (length buf.now)) }
        ensures undrawn { longest_payload < length buf.now → R.stream rng.new ≡ R.stream rng.old }
        ensures room { length buf.now ≤ longest_payload
            → room_for self.old.sealing (length buf.now) 1 ≤ self.old.room → IsOk result }
        ensures spare { self.old.room + length self.old.output ≤ self.new.room + length self.new.output }
    {
        if buf.is_empty() {
            return Ok(());
        }
        if buf.len() > LONGEST_PAYLOAD {
            return Err(Error::PacketSize(buf.len()));
        }
        self.append_packet(rng, buf)
    }

    /// Appends one packet of the payload. Memory leaves the writer as it was.
    fn append_packet<R: Rng>(&mut self, rng: &mut R, payload: &[u8]) -> Result<(), Error>
        requires some { 0 < length payload.now }
        requires short { length payload.now ≤ longest_payload }
        ensures seals { Seals self.old payload.now (R.stream rng.old) (R.stream rng.new) result self.new }
        ensures room { room_for self.old.sealing (length payload.now) 1 ≤ self.old.room → IsOk result }
        ensures spare { self.old.room + length self.old.output ≤ self.new.room + length self.new.output }
    {
        let start = self.output().len();
        let tag_len = self.cipher.tag_len();
        append_behind_room(&mut self.buffer.buffer, &mut self.start, payload, tag_len)?;
        self.seal_payload(rng, start)
    }

    /// Appends one packet of what the closure appends to the vector that it is handed, the output itself:
    /// nothing is copied, but output that is left moves to the front, if some before it was taken. The closure's own
    /// error, and else as `packet_raw`: Memory too where there is none for five bytes of room before the payload. A
    /// refusal leaves the writer as it was.
    pub fn write_packet<R: Rng, F: FnOnce(&mut Vec<u8>) -> Result<(), Error>>(
        &mut self,
        rng: &mut R,
        f: F,
    ) -> Result<(), Error>
        requires callable { F.IsAlwaysCallable f }
        requires appends { OnlyAppends (FnOnceReturnsAtMut F.FnOnce f) }
        ensures { SealsInPlace (FnOnceReturnsAtMut F.FnOnce f)
            self.old (R.stream rng.old) (R.stream rng.new) result self.new }
    {
        move_to_front(&mut self.buffer.buffer, &mut self.start);
        let start = self.buffer.buffer.len();
        append_with(&mut self.buffer.buffer, f)?;
        let payload = self.buffer.buffer.len() - start - HEAD;
        if payload == 0 {
            self.buffer.buffer.truncate(start);
            return Ok(());
        }
        if payload > LONGEST_PAYLOAD {
            self.buffer.buffer.truncate(start);
            return Err(Error::PacketSize(payload));
        }
        self.seal_payload(rng, start)
    }

    /// Appends one packet of what the closure leaves in the empty vector that it is handed, and answers
    /// the payload. The closure's own error, and else as `packet_raw`. A refusal leaves the writer as it was.
    pub fn packet<R: Rng, F: FnOnce(&mut Vec<u8>) -> Result<(), Error>>(
        &mut self,
        rng: &mut R,
        f: F,
    ) -> Result<Bytes, Error>
        requires { F.IsAlwaysCallable f }
        ensures { SealsWith (LeavesPayload (FnOnceReturnsAtMut F.FnOnce f)) (λ payload. payload)
            self.old (R.stream rng.old) (R.stream rng.new) result self.new }
    {
        let mut payload = Vec::new(*self.buffer.buffer.allocator());
        call_with(&mut payload, f)?;
        self.send(rng, payload)
    }

    /// Appends one packet of what the closure writes, and answers the payload. The closure's own error, and
    /// else as `packet_raw`. A refusal leaves the writer as it was.
    pub fn packet_bytes<R: Rng, F: FnOnce(&mut PacketBytesWriter) -> Result<(), Error>>(
        &mut self,
        rng: &mut R,
        f: F,
    ) -> Result<Bytes, Error>
        requires { F.IsAlwaysCallable f }
        ensures { SealsWith (FnOnceReturnsAtMut F.FnOnce f []) (λ payload. payload)
            self.old (R.stream rng.old) (R.stream rng.new) result self.new }
    {
        let mut payload = PacketBytesWriter::new(*self.buffer.buffer.allocator());
        fill_with(&mut payload, f)?;
        self.send(rng, payload.into_bytes())
    }

    /// Appends one packet of the payload, and answers it.
    fn send<R: Rng>(&mut self, rng: &mut R, payload: Vec<u8>) -> Result<Bytes, Error>
        ensures seals { Seals self.old payload.items (R.stream rng.old) (R.stream rng.new) result self.new }
        ensures answer { IfOk result (λ bytes. bytes ≡ payload.items) }
    {
        if payload.is_empty() {
            return Ok(Bytes::new());
        }
        if payload.len() > LONGEST_PAYLOAD {
            return Err(Error::PacketSize(payload.len()));
        }
        let bytes = Bytes::from_vec(payload)?;
        self.append_packet(rng, bytes.as_slice())?;
        Ok(bytes)
    }

    /// Seals the payload that stands behind `start` bytes of output and five bytes of room. Memory takes all from there
    /// on away.
    fn seal_payload<R: Rng>(&mut self, rng: &mut R, start: usize) -> Result<(), Error>
        requires room { start + head_length < length self.old.output }
        requires short { length self.old.output ≤ start + head_length + longest_payload }
        ensures seals { Seals (record self.old { output = take start self.old.output })
            (drop (start + head_length) self.old.output)
            (R.stream rng.old) (R.stream rng.new) result self.new }
        ensures ready { longest_padding + tag_size self.old.sealing ≤ self.old.room → IsOk result }
        ensures spare { self.old.room + length self.old.output ≤ self.new.room + length self.new.output }
    {
        let tag_len = self.cipher.tag_len();
        let out = &mut self.buffer.buffer;
        if let Err(error) = make_room(out, &mut self.start, LONGEST_PADDING + tag_len) {
            out.truncate(self.start + start);
            return Err(error);
        }
        let start = self.start + start;
        let payload = out.len() - start - HEAD;
        if let Err(error) = seal_behind(out, start, self.buffer.seqn, &mut self.cipher, rng) {
            out.truncate(start);
            return Err(error);
        }
        self.buffer.bytes = self.buffer.bytes.saturating_add(payload);
        self.buffer.seqn = self.buffer.seqn.wrapping_add(1);
        Ok(())
    }

    /// Makes room for the packets of so many payloads, which have so many bytes together. Memory.
    pub fn reserve_output(&mut self, payload_bytes: usize, packet_count: usize) -> Result<(), Error>
        requires { room_for self.old.sealing payload_bytes packet_count < 2 ^ 64 }
        ensures room { OnOk result (room_for self.old.sealing payload_bytes packet_count ≤ self.new.room) }
        ensures unchanged { SameButRoom self.old self.new }
        ensures spare { self.old.room ≤ self.new.room }
        ensures ready { room_for self.old.sealing payload_bytes packet_count ≤ self.old.room → IsOk result }
        ensures err { IfErr result (λ e. e ≡ Memory) }
    {
        let room = payload_bytes + packet_count * (ROOM_BESIDE + self.cipher.tag_len());
        make_room(&mut self.buffer.buffer, &mut self.start, room)
    }

    /// The output, from the front on.
    pub fn output(&self) -> &[u8]
        ensures { result.now ≡ self.now.output }
    {
        &self.buffer.buffer[self.start..]
    }

    /// Drops the first n bytes of the output.
    pub fn consume_output(&mut self, n: usize)
        requires { n ≤ length self.old.output }
        ensures { self.new ≡ record self.old { output = drop n self.old.output; room = self.old.room + n } }
    {
        self.start += n;
        if self.start == self.buffer.buffer.len() {
            self.buffer.buffer.clear();
            self.start = 0;
        }
    }

    /// Writes the output out, at least a byte a turn. IO where the sink failed, and has counted it: what
    /// went out before is dropped, and the rest stays. It takes no memory.
    pub fn flush_into<W: Sink>(&mut self, w: &mut W) -> Result<(), Error>
        ensures flushes { (n : ℕ) × Flushes n self.old (W.held w.old) (W.held w.new) self.new }
        ensures all { OnOk result (self.new.output ≡ []) }
        ensures err { IfErr result (λ e. e ≡ IO) }
        ensures failed { OnErr result (Rose (W.faults w.old) (W.faults w.new)) }
        ensures unfailed { OnOk result (W.faults w.new ≡ W.faults w.old) }
        ensures count { W.faults w.old ≤ W.faults w.new }
    {
        match write_all(w, self.output()) {
            Ok(()) => {
                let sent = self.output().len();
                self.consume_output(sent);
                Ok(())
            }
            Err(n) => {
                self.consume_output(n);
                Err(Error::IO)
            }
        }
    }

    /// How many bytes of payload were written under the key; the count stands still at its end.
    pub fn bytes_written(&self) -> usize
        ensures { result ≡ self.now.count }
    {
        self.buffer.bytes
    }

    /// Goes on under another key: the count begins again, the packet number doesn't.
    pub fn set_cipher(&mut self, cipher: SealKey)
        ensures { self.new ≡ record self.old { sealing = sealing_of cipher; count = 0 } }
    {
        self.cipher = cipher;
        self.buffer.bytes = 0;
    }

    /// The next packet has the number 0, as under strict key exchange.
    pub fn reset_seqn(&mut self)
        ensures { self.new ≡ record self.old { number = 0 } }
    {
        self.buffer.seqn = 0;
    }

    /// What compresses payloads, lent. It has one value, so the writer stays as it is.
    pub fn compress(&mut self) -> &mut Compress
        ensures* after_borrow { sem 𝓛 (LendsCompress self.entry result) }
    {
        &mut self.compress
    }

    /// The buffer, lent. Output that is left moves to the front, if some before it was taken.
    pub fn buffer(&mut self) -> &mut SSHBuffer
        ensures* after_borrow { sem 𝓛 (LendsBuffer self.entry result) }
        ensures output { result.now.output ≡ self.old.output }
        ensures len { result.now.len ≡ self.old.len }
        ensures count { result.now.count ≡ self.old.count }
        ensures number { result.now.number ≡ self.old.number }
        ensures room { result.now.room ≡ self.old.room }
    {
        move_to_front(&mut self.buffer.buffer, &mut self.start);
        &mut self.buffer
    }
}

/// Appends five bytes of room and a payload to what follows the first `start` bytes, and leaves room for padding and
/// tag. Memory leaves what follows them as it was.
fn append_behind_room(
    out: &mut Vec<u8>,
    start: &mut usize,
    payload: &[u8],
    tag_len: usize,
) -> Result<(), Error>
    requires start { start.old ≤ vec_len out.old }
    requires short { length payload.now ≤ longest_payload }
    requires tag { tag_len ≤ longest_tag }
    ensures ok { OnOk result (drop start.new out.new.items
        ≡ (drop start.old out.old.items ++ head_room) ++ payload.now) }
    ensures unchanged { OnErr result (drop start.new out.new.items ≡ drop start.old out.old.items) }
    ensures within { start.new ≤ vec_len out.new }
    ensures err { IfErr result (λ e. e ≡ Memory) }
    ensures ready { vec_len out.old - start.old + head_length + length payload.now + longest_padding + tag_len
        ≤ vec_capacity out.old → IsOk result }
    ensures room { OnOk result (vec_len out.new + longest_padding + tag_len ≤ vec_capacity out.new) }
    ensures capacity { vec_capacity out.old ≤ vec_capacity out.new }
{
    make_room(out, start, HEAD + payload.len() + LONGEST_PADDING + tag_len)?;
    out.extend_from_slice(&[0; HEAD])?;
    out.extend_from_slice(payload)?;
    Ok(())
}

/// Appends five bytes of room and what the closure appends. A refusal leaves `out` as it was.
fn append_with<F: FnOnce(&mut Vec<u8>) -> Result<(), Error>>(
    out: &mut Vec<u8>,
    f: F,
) -> Result<(), Error>
    requires callable { F.IsAlwaysCallable f }
    requires appends { OnlyAppends (FnOnceReturnsAtMut F.FnOnce f) }
    ensures ok { OnOk result ((payload : List ℕ)
        × AppendsPayload (FnOnceReturnsAtMut F.FnOnce f) (out.old.items ++ head_room) result payload
        (vec_capacity out.new - vec_len out.new)
        × (out.new.items ≡ (out.old.items ++ head_room) ++ payload)) }
    ensures unchanged { OnErr result (out.new.items ≡ out.old.items) }
    ensures err { IfErr result (λ e. ((e ≡ Memory) × (vec_capacity out.old < vec_len out.old + head_length))
        ⊎ ((payload : List ℕ) × (room : ℕ)
        × AppendsPayload (FnOnceReturnsAtMut F.FnOnce f) (out.old.items ++ head_room) (Err e) payload room)) }
{
    let start = out.len();
    out.extend_from_slice(&[0; HEAD])?;
    if let Err(error) = call_with(out, f) {
        out.truncate(start);
        return Err(error);
    }
    Ok(())
}

/// Calls the closure on the vector.
fn call_with<F: FnOnce(&mut Vec<u8>) -> Result<(), Error>>(
    out: &mut Vec<u8>,
    f: F,
) -> Result<(), Error>
    requires { F.IsAlwaysCallable f }
    ensures { FnOnceReturnsAtMut F.FnOnce f out.old result out.new }
{
    f(out)
}

/// Calls the closure on the payload.
fn fill_with<F: FnOnce(&mut PacketBytesWriter) -> Result<(), Error>>(
    payload: &mut PacketBytesWriter,
    f: F,
) -> Result<(), Error>
    requires { F.IsAlwaysCallable f }
    ensures { FnOnceReturnsAtMut F.FnOnce f payload.old result payload.new }
{
    f(payload)
}
