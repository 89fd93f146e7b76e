//! Opening the packets of what was received.

ghost use Rattle.std.specs.Prelude.{◌≡◌, ◌+◌, ◌≤◌, ◌++◌, [], false, OnOk, OnErr, IfErr, IfOk, drop, length, take};
ghost use Rattle.std.specs.Prelude.{vec_capacity, vec_len};
ghost use Rattle.std.specs.Borrow.{sem};
ghost use Rattle.ssh_wire.specs.declared.error.Error.TheVariants.{Memory};

use crate::buffer::drop_front;
use crate::error::OpenError;
use crate::front::{Part, open_behind};
use crate::keys::OpenKey;
use crate::sizes::{HEAD, WINDOW};
use ssh_wire::Error;
use std::alloc::Global;
use std::marker::Model;

/// Opens packets one after the other. A reader owns no key: it is handed one at each `next`, and where another
/// key begins its caller resets the count by `reset_bytes`. A `PacketWriter` owns its key, and `set_cipher`
/// resets its count.
#[derive(Debug, Drop)]
pub struct PacketReader {
    bytes: Vec<u8>,
    /// Where the bytes that wait begin.
    start: usize,
    /// Where the payload stands that was handed out last.
    handed_at: usize,
    /// How long it is; 0 once the reader has changed.
    handed_len: usize,
    /// How many bytes may wait of what is taken. Room for twice as many was made.
    window: usize,
    number: u32,
    count: usize,
    failed: bool,
}

impl Model for PacketReader {
    ghost use Rattle.std.specs.Prelude.{drop, take, vec_capacity, vec_len, ◌+◌, ◌≤◌};
    ghost use Rattle.ssh_packet.specs.Reading.{Reader};

    ghost Value = { Reader };

    ghost view = { λ r. record {
      waiting = drop r.start r.bytes.items;
      number = r.number;
      count = r.count;
      failed = r.failed;
      handed = take r.handed_len (drop r.handed_at r.bytes.items);
      window = r.window;
      spent = r.start;
    } };

    ghost invariant = { λ r. (r.start ≤ vec_len r.bytes) × (r.handed_at + r.handed_len ≤ vec_len r.bytes)
        × (r.window + r.window ≤ vec_capacity r.bytes) };
}

/// A packet that was opened.
#[derive(Clone, Copy, Debug, Drop)]
pub struct Incoming<'a> {
    /// The message, its type first. It is never empty.
    pub payload: &'a [u8],
    /// The packet's number plus one; it wraps.
    pub seqn: u32,
}

impl PacketReader {
    ghost use Rattle.ssh_packet.specs.Lending.{LendsNext};
    ghost use Rattle.ssh_packet.specs.Reading.{window_length, room_in};

    /// A reader that has read nothing, before packet 0. It has no window: it is pushed what was received, and takes
    /// nothing.
    pub fn new(alloc: Global) -> PacketReader
        ensures { result ≡ record {
          waiting = [];
          number = 0;
          count = 0;
          failed = false;
          handed = [];
          window = 0;
          spent
              = 0;
        } }
    {
        PacketReader::over(Vec::new(alloc), 0)
    }

    /// A reader that has read nothing, before packet 0, with a window of 262245 bytes: what the longest packet takes
    /// with its packet length of 4 bytes and the longest tag, of 64. Room for twice as many is made. Memory.
    pub fn with_window(alloc: Global) -> Result<PacketReader, Error>
        ensures made { IfOk result (λ r. r ≡ record {
          waiting = [];
          number = 0;
          count = 0;
          failed = false;
          handed = [];
          window = window_length;
          spent = 0;
        }) }
        ensures err { IfErr result (λ e. e ≡ Memory) }
    {
        Ok(PacketReader::over(Vec::with_capacity(alloc, WINDOW + WINDOW)?, WINDOW))
    }

    /// A reader over an empty buffer.
    fn over(bytes: Vec<u8>, window: usize) -> PacketReader
        requires empty { vec_len bytes ≡ 0 }
        requires room { window + window ≤ vec_capacity bytes }
        ensures { result ≡ record {
          waiting = [];
          number = 0;
          count = 0;
          failed = false;
          handed = [];
          window = window;
          spent = 0;
        } }
    {
        PacketReader {
            bytes,
            start: 0,
            handed_at: 0,
            handed_len: 0,
            window,
            number: 0,
            count: 0,
            failed: false,
        }
    }

    /// How many bytes may wait of what is taken: 262245, or 0 for a reader made by `new`.
    pub fn window(&self) -> usize
        ensures { result ≡ self.now.window }
    {
        self.window
    }

    /// Appends a piece of what was received. Memory leaves the reader as it was, but lends no payload any more. Bytes
    /// that were handed out are given back once they are as many as those that wait, so that at most twice what waited
    /// is kept beside the piece.
    pub fn push(&mut self, piece: &[u8]) -> Result<(), Error>
        ensures ok { OnOk result (self.new
            ≡ record self.old { waiting = self.old.waiting ++ piece.now; handed = []; spent = self.new.spent }) }
        ensures unchanged { OnErr result (self.new ≡ record self.old { handed = []; spent = self.new.spent }) }
        ensures spent { self.new.spent ≤ length self.old.waiting }
        ensures err { IfErr result (λ e. e ≡ Memory) }
    {
        self.give_back();
        self.bytes.extend_from_slice(piece)?;
        Ok(())
    }

    /// Appends the first bytes of a piece of what was received, as many as the window has room for: none where as many
    /// as the window wait already. How many they are. It takes no memory.
    pub fn take(&mut self, piece: &[u8]) -> usize
        ensures count { result ≡ room_in self.old (length piece.now) }
        ensures taken { self.new ≡ record self.old {
          waiting = self.old.waiting ++ take result piece.now;
          handed = [];
          spent = self.new.spent;
        } }
        ensures spent { self.new.spent ≤ length self.old.waiting }
    {
        let n = piece.len().min(self.window.saturating_sub(self.waiting()));
        self.give_back();
        self.bytes.extend_from_slice(&piece[..n]).unwrap();
        n
    }

    /// Gives back the bytes that were handed out, once they are as many as those that wait: so no byte is moved but for
    /// one that was handed out. Room for the window is left behind those that wait.
    fn give_back(&mut self)
        ensures same { self.new ≡ record self.old { handed = []; spent = self.new.spent } }
        ensures spent { self.new.spent ≤ length self.old.waiting }
    {
        if self.start >= self.bytes.len() - self.start {
            drop_front(&mut self.bytes, self.start);
            self.start = 0;
        }
        self.handed_at = 0;
        self.handed_len = 0;
    }

    /// The bytes that wait.
    pub fn unread(&self) -> &[u8]
        ensures { result.now ≡ self.now.waiting }
    {
        &self.bytes[self.start..]
    }

    /// Drops the first n of the bytes that wait; n is at most `waiting`. It takes no memory.
    pub fn skip(&mut self, n: usize)
        requires { n ≤ length self.old.waiting }
        ensures { self.new ≡ record self.old {
          waiting = drop n self.old.waiting;
          handed = [];
          spent = self.old.spent
              + n;
        } }
    {
        self.start += n;
        self.handed_len = 0;
    }

    /// The payload that the last `next` gave, where no call has changed the reader since; else no bytes.
    pub fn handed(&self) -> &[u8]
        ensures { result.now ≡ self.now.handed }
    {
        &self.bytes[self.handed_at..self.handed_at + self.handed_len]
    }

    /// How many bytes wait.
    pub fn waiting(&self) -> usize
        ensures { result ≡ length self.now.waiting }
    {
        self.bytes.len() - self.start
    }

    /// How many bytes of payload were handed out since the count began; it stands still at its end.
    pub fn bytes(&self) -> usize
        ensures { result ≡ self.now.count }
    {
        self.count
    }

    /// The count begins again, as it has to where another key begins.
    pub fn reset_bytes(&mut self)
        ensures { self.new ≡ record self.old { count = 0; handed = [] } }
    {
        self.handed_len = 0;
        self.count = 0;
    }

    /// The next packet has the number 0, as under strict key exchange.
    pub fn reset_seqn(&mut self)
        ensures { self.new ≡ record self.old { number = 0; handed = [] } }
    {
        self.handed_len = 0;
        self.number = 0;
    }

    /// The next packet, opened where it stands (RFC 4253 section 6). None where less than a packet waits.
    /// PacketSize where the packet length is over 262177, too short for its cipher, or leaves no payload;
    /// PacketAuth or DecryptionError where the tag is not the packet's; IndexOutOfBounds where the padding is
    /// longer than the packet; Disconnect after a refusal, which is the end of the reader. Padding below four
    /// bytes is accepted. It takes no memory, and moves no byte: what stands before the rest is given back by a later
    /// `push` or `take`. A loop over it ends by the measure `waiting`, which falls with each packet.
    pub fn next(&mut self, key: &mut OpenKey) -> Result<Option<Incoming<'_>>, OpenError>
        ensures* after_borrow { sem 𝓛 (LendsNext self.entry key.old key.new result) }
    {
        self.handed_len = 0;
        if self.failed {
            return Err(OpenError::Disconnect);
        }
        match open_behind(key, self.number, &mut self.bytes, self.start) {
            Ok(None) => Ok(None),
            Ok(Some(Part { payload, end })) => {
                self.handed_at = self.start + HEAD;
                self.handed_len = payload;
                self.start += end;
                self.number = self.number.wrapping_add(1);
                self.count = self.count.saturating_add(payload);
                Ok(Some(Incoming {
                    payload: &self.bytes[self.handed_at..self.handed_at + payload],
                    seqn: self.number,
                }))
            }
            Err(error) => {
                self.failed = true;
                Err(error)
            }
        }
    }
}
