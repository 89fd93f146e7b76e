//! One side's reading of what it takes: the peer's id line, and then clear packets.

ghost use Rattle.std.specs.Prelude.{◌≡◌, ◌++◌, ◌∷◌, ◌⊎◌, ℕ, List, [], true, false, IsTrue, OnOk, IfOk, IfErr, length};
ghost use Rattle.ssh_wire.specs.Reading.{Waiting};
ghost use Rattle.ssh_wire.specs.declared.error.Error.TheVariants.{Memory};
ghost use Rattle.ssh_packet.specs.Sealing.{Item};
ghost use Rattle.ssh_run.specs.Delivering.{DeliversOne, DeliversNone, RefusesFront};

use ssh_packet::{OpenKey, PacketReader, clear};
use ssh_wire::{Error, IdProgress, Payload, ReadSshIdBuffer};
use std::alloc::Global;

/// What a side has read.
#[derive(Debug, Drop)]
pub struct Receiver {
    pub id: ReadSshIdBuffer,
    pub reader: PacketReader,
    pub delivered: Vec<Payload>,
}

impl Receiver {
    ghost use Rattle.ssh_run.specs.Receiving.{TakesPiece, CannotTake, ReadsOn, CannotRead};

    /// A side that has read nothing.
    pub fn new(alloc: Global) -> Receiver
        ensures id { result.id ≡ Waiting [] 0 }
        ensures reader { result.reader ≡ record {
          waiting = [];
          spent = 0;
          number = 0;
          count = 0;
          failed = false;
          handed = [];
          window = 0;
        } }
        ensures delivered { result.delivered.items ≡ [] }
    {
        Receiver {
            id: ReadSshIdBuffer::new(),
            reader: PacketReader::new(alloc),
            delivered: Vec::new(alloc),
        }
    }

    /// Takes the next piece of what the peer sent.
    pub fn take(&mut self, alloc: Global, piece: &[u8]) -> Result<(), Error>
        ensures takes { OnOk result (TakesPiece self.old piece.now self.new) }
        ensures cause { IfErr result (CannotTake self.old piece.now) }
    {
        match self.id.feed(piece, false)? {
            IdProgress::NotYet => Ok(()),
            IdProgress::Id { used } => self.read(alloc, &piece[used..]),
        }
    }

    /// Reads bytes that stand behind the id line.
    fn read(&mut self, alloc: Global, bytes: &[u8]) -> Result<(), Error>
        ensures reads { OnOk result (ReadsOn self.old bytes.now self.new) }
        ensures id { self.new.id ≡ self.old.id }
        ensures cause { IfErr result (λ e. (e ≡ Memory) ⊎ CannotRead self.old bytes.now) }
    {
        self.reader.push(bytes)?;
        while read_packet(&mut self.reader, alloc, &mut self.delivered)? {}
        Ok(())
    }
}

/// Delivers the next packet's payload, where one stands whole.
fn read_packet(
    reader: &mut PacketReader,
    alloc: Global,
    delivered: &mut Vec<Payload>,
) -> Result<bool, Error>
    ensures one { IfOk result (λ found. IsTrue found
        → (item : Item) × DeliversOne reader.old reader.new delivered.old.items delivered.new.items item) }
    ensures none { IfOk result (λ found. found ≡ false
        → DeliversNone reader.old reader.new delivered.old.items delivered.new.items) }
    ensures cause { IfErr result (λ e. (e ≡ Memory) ⊎ RefusesFront reader.old) }
{
    match reader.next(&mut OpenKey::Clear(clear::Key))? {
        Some(incoming) => {
            delivered.push(Payload::new(Vec::from_slice(alloc, incoming.payload)?))?;
            Ok(true)
        }
        None => Ok(false),
    }
}
