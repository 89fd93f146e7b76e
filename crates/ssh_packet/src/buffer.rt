//! The buffer that a writer fills, and what a closure writes a payload into.

ghost use Rattle.std.specs.Prelude.{◌≡◌, ◌==◌, ◌≤◌, ◌+◌, ◌-◌, ◌++◌, ◌∷◌, [], length, drop};
ghost use Rattle.std.specs.Prelude.{vec_len, vec_capacity, IsOk, OnOk, OnErr, IfErr};
ghost use Rattle.ssh_wire.specs.Lines.{id_line};
ghost use Rattle.ssh_wire.specs.declared.error.Error.TheVariants.{Memory};

use ssh_wire::{Error, SshId};
use std::alloc::Global;
use std::marker::Model;

/// Bytes to be sent.
#[derive(Debug, Drop)]
pub struct SSHBuffer {
    /// The bytes, from the front on.
    pub buffer: Vec<u8>,
    /// 0 in a new buffer; no call of the crate reads or changes it.
    pub len: usize,
    /// How many bytes of payload were written; it stands still at its end.
    pub bytes: usize,
    /// The number of the next packet; it wraps.
    pub seqn: u32,
}

impl Model for SSHBuffer {
    ghost use Rattle.std.specs.Prelude.{◌-◌, vec_len, vec_capacity};
    ghost use Rattle.ssh_packet.specs.Writing.{Buffer};

    ghost Value = { Buffer };

    ghost view = { λ b. record {
      output = b.buffer.items;
      len = b.len;
      count = b.bytes;
      number = b.seqn;
      room = vec_capacity b.buffer - vec_len b.buffer;
    } };
}

impl SSHBuffer {
    /// An empty buffer, before packet 0.
    pub fn new(alloc: Global) -> SSHBuffer
        ensures { result ≡ record { output = []; len = 0; count = 0; number = 0; room = result.room } }
    {
        SSHBuffer {
            buffer: Vec::new(alloc),
            len: 0,
            bytes: 0,
            seqn: 0,
        }
    }

    /// Appends the version line with its ending (RFC 4253 section 4.2). Number and count stay. Memory
    /// leaves the buffer as it was.
    pub fn send_ssh_id(&mut self, id: &SshId) -> Result<(), Error>
        ensures ok { OnOk result (self.new
            ≡ record self.old { output = self.old.output ++ id_line id.now; room = self.new.room }) }
        ensures unchanged { OnErr result (self.new ≡ record self.old { room = self.new.room }) }
        ensures err { IfErr result (λ e. e ≡ Memory) }
    {
        id.write(&mut self.buffer)
    }
}

/// Makes room for `count` bytes at the end of `bytes`, whose first `start` bytes were taken. What follows those moves
/// to the front if it is no longer than they are, or if there is no memory. So, while there is memory, no more bytes
/// are moved in all than were taken. Fails with `Memory`, and what follows the first `start` bytes stays.
pub(crate) fn make_room(bytes: &mut Vec<u8>, start: &mut usize, count: usize) -> Result<(), Error>
    requires { start.old ≤ vec_len bytes.old }
    ensures left { drop start.new bytes.new.items ≡ drop start.old bytes.old.items }
    ensures within { start.new ≤ vec_len bytes.new }
    ensures len { vec_len bytes.new - start.new ≡ vec_len bytes.old - start.old }
    ensures room { OnOk result (vec_len bytes.new + count ≤ vec_capacity bytes.new) }
    ensures capacity { vec_capacity bytes.old ≤ vec_capacity bytes.new }
    ensures ready { vec_len bytes.old - start.old + count ≤ vec_capacity bytes.old → IsOk result }
    ensures err { IfErr result (λ e. e ≡ Memory) }
{
    let len = bytes.len();
    if bytes.capacity() - len < count && len - *start <= *start {
        move_to_front(bytes, start);
    }
    if bytes.reserve(count).is_err() {
        move_to_front(bytes, start);
        bytes.reserve(count)?;
    }
    Ok(())
}

/// Moves what follows the first `start` bytes to the front.
pub(crate) fn move_to_front(bytes: &mut Vec<u8>, start: &mut usize)
    requires { start.old ≤ vec_len bytes.old }
    ensures items { bytes.new.items ≡ drop start.old bytes.old.items }
    ensures len { vec_len bytes.new ≡ vec_len bytes.old - start.old }
    ensures capacity { vec_capacity bytes.new ≡ vec_capacity bytes.old }
    ensures start { start.new ≡ 0 }
{
    if *start > 0 {
        drop_front(bytes, *start);
        *start = 0;
    }
}

/// Drops the first n bytes.
pub(crate) fn drop_front(bytes: &mut Vec<u8>, n: usize)
    requires { n ≤ vec_len bytes.old }
    ensures items { bytes.new.items ≡ drop n bytes.old.items }
    ensures len { vec_len bytes.new ≡ vec_len bytes.old - n }
    ensures capacity { vec_capacity bytes.new ≡ vec_capacity bytes.old }
{
    let len = bytes.len();
    bytes.copy_within(n..len, 0);
    bytes.truncate(len - n);
}

/// A payload in the making.
#[derive(Debug, Drop)]
pub struct PacketBytesWriter {
    bytes: Vec<u8>,
}

impl Model for PacketBytesWriter {
    ghost use Rattle.std.specs.Prelude.{ℕ, List};

    ghost Value = { List ℕ };

    ghost view = { λ w. w.bytes.items };
}

impl PacketBytesWriter {
    pub(crate) fn new(alloc: Global) -> PacketBytesWriter
        ensures { result ≡ [] }
    {
        PacketBytesWriter {
            bytes: Vec::new(alloc),
        }
    }

    /// Appends a byte. Memory leaves the payload as it was.
    pub fn push(&mut self, byte: u8) -> Result<(), Error>
        ensures ok { OnOk result (self.new ≡ self.old ++ byte ∷ []) }
        ensures unchanged { OnErr result (self.new ≡ self.old) }
        ensures err { IfErr result (λ e. e ≡ Memory) }
    {
        self.bytes.push(byte)?;
        Ok(())
    }

    /// Appends bytes. Memory leaves the payload as it was.
    pub fn extend_from_slice(&mut self, bytes: &[u8]) -> Result<(), Error>
        ensures ok { OnOk result (self.new ≡ self.old ++ bytes.now) }
        ensures unchanged { OnErr result (self.new ≡ self.old) }
        ensures err { IfErr result (λ e. e ≡ Memory) }
    {
        self.bytes.extend_from_slice(bytes)?;
        Ok(())
    }

    /// How many bytes it has.
    pub fn len(&self) -> usize
        ensures { result ≡ length self.now }
    {
        self.bytes.len()
    }

    /// Whether it has none.
    pub fn is_empty(&self) -> bool
        ensures { result ≡ (length self.now == 0) }
    {
        self.bytes.is_empty()
    }

    /// The bytes.
    pub(crate) fn into_bytes(self) -> Vec<u8>
        ensures { result.items ≡ self }
    {
        self.bytes
    }
}
