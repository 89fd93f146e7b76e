//! One recorded wire on its way: its packets, epoch by epoch, and the first that isn't good.

ghost use Rattle.std.specs.Prelude.{◌≡◌, ◌+◌, ◌-◌, ◌<◌, ◌≤◌, ◌++◌, ◌∷◌, ◌==◌, ℕ, List, [], length, take, drop, IfOk, IfSome, IsTrue, None, Ok, false, true};
ghost use Rattle.ssh_wire.specs.Lines.{id_line};
ghost use Rattle.ssh_packet.specs.Keys.{opening_of};
ghost use Rattle.ssh_packet.specs.Sealing.{Item};
ghost use Rattle.ssh_kex.specs.Messages.{is_gex};
ghost use Rattle.ssh_kex.specs.declared.exchange.FinishedExchange.{FinishedExchange};
ghost use Rattle.ssh_record.specs.Exchanges.{IsWholeBlock, block_messages};
ghost use Rattle.ssh_record.specs.Packets.{IsBadBehind};
ghost use Rattle.ssh_record.specs.Recordings.{JudgedRecord};
ghost use Rattle.ssh_wire.specs.declared.side.Side as sides;
ghost use Rattle.ssh_transcript.specs.Reading.{AreGoodSoFar, AreJudged, AreKeysOf, FromEnded, FromOpen, FromOpened, FromRead, HasEnded, IsFedBehind, IsKeptWire, IsLineOf, IsNotGood, IsOpen, IsOver, IsPartOf, Opens, OpensFront, OpensNone, OpensNothing, StaysGood, TurnsTo, packet_of as kept_packet, turn_behind};
ghost use Rattle.ssh_transcript.specs.declared.wire.Turn.TheVariants.{Packet as packet_turn};
ghost use Rattle.ssh_packet.specs.Stream.{kept_number};

use crate::direction::Direction;
use crate::packet::Packet;
use ssh_blocks::{OpenBlock, PacketJudge, WireRules};
use ssh_packet::{OpenKey, PacketReader};
use ssh_rules::link::Step;
use ssh_wire::{Error, Payload, Side, SshId, msg};
use std::alloc::{AllocError, Global};

/// A side's wire, read from its front.
#[derive(Drop)]
pub struct WireReader<'w> {
    alloc: Global,
    side: Side,
    kind: bool,
    wire: &'w [u8],
    /// How long the version line is; none where the wire doesn't begin with it, and nothing is read then.
    line: Option<usize>,
    reader: PacketReader,
    direction: Direction,
    packets: Vec<Packet>,
    block: OpenBlock,
    judge: PacketJudge<'w>,
    /// How many packets stand before the first that isn't good.
    bad: Option<usize>,
}

/// What a turn of a reading brought.
#[derive(Clone, Copy, Drop)]
enum Turn {
    /// A packet, and another may follow.
    Packet,
    /// The packet that ends an epoch.
    EpochEnd,
    /// No packet: nothing more is whole.
    Nothing,
}

impl<'w> WireReader<'w> {
    /// A wire of which nothing is read yet. Memory.
    pub fn new(
        alloc: Global,
        id: &SshId,
        wire: &'w [u8],
        rules: WireRules<'w>,
        steps: &'w [Step],
    ) -> Result<WireReader<'w>, Error>
        ensures { IfOk result (λ r. (side : sides.Side) (j : JudgedRecord)
            → IsPartOf side j id.now wire.now steps.now rules.entry → IsOpen side j [] r) }
    {
        let line = line_length(alloc, id, wire)?;
        let mut reader = PacketReader::new(alloc);
        reader.push(behind_line(wire, line))?;
        Ok(WireReader {
            alloc,
            side: rules.side,
            kind: rules.kind,
            wire,
            line,
            reader,
            direction: Direction::clear(),
            packets: Vec::new(alloc),
            block: OpenBlock::new(alloc, rules.side, rules.kind, false),
            judge: PacketJudge::new(rules, steps),
            bad: None,
        })
    }

    /// Reads to the end of the epoch. Whether it ended; else nothing more is whole. Memory.
    pub fn read_epoch(&mut self) -> Result<bool, AllocError>
        ensures ended { IfOk result (λ ended. IsTrue ended
            → FromOpen self.old (λ side j xs. HasEnded side j xs self.new)) }
        ensures over { result ≡ Ok false → FromOpen self.old (λ side j xs. IsOver side j xs self.new) }
    {
        for _ in 0..self.wire.len() + 1 {
            match self.read_packet()? {
                Turn::Packet => {}
                Turn::EpochEnd => return Ok(true),
                Turn::Nothing => return Ok(false),
            }
        }
        Ok(false)
    }

    /// Reads the next packet.
    fn read_packet(&mut self) -> Result<Turn, AllocError>
        ensures turn { IfOk result (λ t. FromOpen self.old (λ side j xs. TurnsTo t side j xs self.new)) }
        ensures shorter { result ≡ Ok packet_turn → length self.new.reader.waiting < length self.old.reader.waiting }
        ensures wire { self.new.wire.now ≡ self.old.wire.now }
    {
        let start = self.place();
        if !self.open_next() {
            return Ok(Turn::Nothing);
        }
        self.keep(start)
    }

    /// How much of the wire was read, in bytes from its front.
    fn place(&self) -> usize
        ensures { result ≡ length self.now.wire.now - length self.now.reader.waiting }
    {
        self.wire.len().saturating_sub(self.reader.waiting())
    }

    /// Opens the next packet, where one is whole.
    fn open_next(&mut self) -> bool
        ensures opened { IsTrue result → (i : Item) × Opens self.old self.new i }
        ensures none { result ≡ false → OpensNone self.old self.new }
    {
        open_packet(&mut self.reader, &mut self.direction.opening)
    }

    /// Keeps the packet that was opened, and judges it. It begins at `start`.
    fn keep(&mut self, start: usize) -> Result<Turn, AllocError>
        ensures turn { IfOk result (λ t. FromOpened start self.old (λ side j xs place items item.
            TurnsTo t side j xs self.new)) }
        ensures reader { self.new.reader ≡ self.old.reader }
        ensures wire { self.new.wire.now ≡ self.old.wire.now }
    {
        self.judge_packet(start);
        let place = self.place();
        let packet = packet_of(self.reader.handed(), place);
        self.block.take(self.alloc, self.reader.handed())?;
        self.packets.push(packet)?;
        Ok(turn_behind(packet.message_type))
    }

    /// Judges the packet that was opened, where all before it are good.
    fn judge_packet(&mut self, start: usize)
        ensures same { self.new ≡ record self.old { judge = self.new.judge; bad = self.new.bad } }
        ensures judged { FromOpened start self.old (λ side j xs place items item.
            AreJudged side j xs items self.old.judge self.old.bad
            → AreJudged side j xs (items ++ item ∷ []) self.new.judge self.new.bad) }
    {
        match self.bad {
            Some(_) => {}
            None => self.judge_next(start),
        }
    }

    /// Judges it, where none was bad.
    fn judge_next(&mut self, start: usize)
        ensures same { self.new ≡ record self.old { judge = self.new.judge; bad = self.new.bad } }
        ensures judged { self.old.bad ≡ None → FromOpened start self.old (λ side j xs place items item.
            AreGoodSoFar side j xs items self.old.judge
            → AreJudged side j xs (items ++ item ∷ []) self.new.judge self.new.bad) }
    {
        if self.takes_packet(start) {
            return;
        }
        self.bad = Some(self.packets().len());
    }

    /// Whether the packet that was opened is padded as it has to be, and may come next. Where it may, it has come.
    fn takes_packet(&mut self, start: usize) -> bool
        ensures same { self.new ≡ record self.old { judge = self.new.judge } }
        ensures taken { IsTrue result → StaysGood start self.old self.new.judge }
        ensures refused { result ≡ false → IsNotGood start self.old }
    {
        let packet = self.bytes_from(start);
        if !self.direction.is_padded(packet, self.reader.handed()) {
            return false;
        }
        self.judge.takes(self.reader.handed())
    }

    /// What was read of the wire from this place on.
    fn bytes_from(&self, start: usize) -> &'w [u8]
        ensures { start + length self.now.reader.waiting ≤ length self.now.wire.now
            → result.now ≡ take (length self.now.wire.now - length self.now.reader.waiting - start)
            (drop start self.now.wire.now) }
    {
        match self.wire.get(start..self.place()) {
            Some(bytes) => bytes,
            None => &[],
        }
    }

    /// The messages of the epoch's exchange, where they are whole and stand together.
    pub fn whole_block(&self) -> Option<&[Payload]>
        ensures some { IfSome result (λ messages. FromEnded self.now (λ side j xs items.
            IsWholeBlock side (is_gex j.names.kex) (length xs) items
            × (messages.now ≡ block_messages (length xs) items))) }
        ensures none { result ≡ None → FromEnded self.now (λ side j xs items.
            IsWholeBlock side (is_gex j.names.kex) (length xs) items → ⊥) }
    {
        self.block.whole()
    }

    /// Begins the next epoch, under these keys; its numbers begin again under strict key exchange.
    pub fn take_keys(&mut self, direction: Direction, is_strict: bool)
        ensures { (side : sides.Side) (j : JudgedRecord) (xs : List FinishedExchange) (x : FinishedExchange)
            → HasEnded side j xs self.old → is_strict ≡ x.names.strict_kex → AreKeysOf side x direction
            → IsOpen side j (xs ++ x ∷ []) self.new }
    {
        self.direction = direction;
        begin_again(&mut self.reader, is_strict);
        self.block = OpenBlock::new(self.alloc, self.side, self.kind, true);
    }

    /// How many packets are good, where what follows them isn't one that is; none where the whole wire is good.
    pub fn first_bad(&self) -> Option<u64>
        ensures none { result ≡ None → FromRead self.now (λ side j xs.
            IsKeptWire side j xs self.now.packets.items) }
        ensures some { IfSome result (λ place. FromRead self.now (λ side j xs. IsBadBehind side j xs place)) }
    {
        match self.line {
            None => Some(0),
            Some(_) => self.bad_behind_line(),
        }
    }

    /// The same where the wire begins with the version line.
    fn bad_behind_line(&self) -> Option<u64>
        ensures none { result ≡ None → (self.now.line ≡ None → ⊥) → FromRead self.now (λ side j xs.
            IsKeptWire side j xs self.now.packets.items) }
        ensures some { (self.now.line ≡ None → ⊥) → IfSome result (λ place. FromRead self.now (λ side j xs.
            IsBadBehind side j xs place)) }
    {
        match self.bad {
            Some(place) => Some(place as u64),
            None => self.bad_rest(),
        }
    }

    /// The same where no packet is bad: what is left isn't good.
    fn bad_rest(&self) -> Option<u64>
        ensures none { result ≡ None → (self.now.line ≡ None → ⊥) → self.now.bad ≡ None
            → FromRead self.now (λ side j xs. IsKeptWire side j xs self.now.packets.items) }
        ensures some { (self.now.line ≡ None → ⊥) → self.now.bad ≡ None → IfSome result (λ place.
            FromRead self.now (λ side j xs. IsBadBehind side j xs place)) }
    {
        if self.reader.waiting() == 0 {
            return None;
        }
        Some(self.packets().len() as u64)
    }

    /// All packets that are whole.
    pub fn packets(&self) -> &[Packet]
        ensures { result.now ≡ self.now.packets.items }
    {
        self.packets.as_slice()
    }
}

/// Opens the next packet of a reader, where one is whole.
fn open_packet(reader: &mut PacketReader, key: &mut OpenKey) -> bool
    ensures opened { IsTrue result → (i : Item)
        × OpensFront reader.old (opening_of key.old) i reader.new (opening_of key.new) }
    ensures none { result ≡ false → OpensNothing reader.old (opening_of key.old) reader.new }
{
    match reader.next(key) {
        Ok(Some(_)) => true,
        Ok(None) | Err(_) => false,
    }
}

/// The count of payload bytes begins again, and under strict key exchange that of packets.
fn begin_again(reader: &mut PacketReader, is_strict: bool)
    ensures waiting { reader.new.waiting ≡ reader.old.waiting }
    ensures failed { reader.new.failed ≡ reader.old.failed }
    ensures number { reader.new.number ≡ kept_number is_strict reader.old.number }
{
    reader.reset_bytes();
    if is_strict {
        reader.reset_seqn();
    }
}

/// What is kept of a packet of this payload that ends at this place.
fn packet_of(payload: &[u8], place: usize) -> Packet
    ensures { result ≡ kept_packet payload.now place }
{
    Packet {
        message_type: payload.first().copied().unwrap_or(0),
        length: payload.len() as u64,
        end: place as u64,
    }
}

/// Whether a message of this type ends an epoch.
fn turn_behind(message_type: u8) -> Turn
    ensures { result ≡ turn_behind (message_type == 21) }
{
    if message_type == msg::NEWKEYS {
        Turn::EpochEnd
    } else {
        Turn::Packet
    }
}

/// How long the version line is, where the wire begins with it.
fn line_length(alloc: Global, id: &SshId, wire: &[u8]) -> Result<Option<usize>, Error>
    ensures { IfOk result (IsLineOf (id_line id.now) wire.now) }
{
    let mut line = Vec::new(alloc);
    id.write(&mut line)?;
    Ok(line_end(wire, line.as_slice()))
}

/// Where a text ends, where the wire begins with it.
fn line_end(wire: &[u8], text: &[u8]) -> Option<usize>
    ensures { IsLineOf text.now wire.now result }
{
    if begins_with(wire, text) {
        Some(text.len())
    } else {
        None
    }
}

/// Whether the wire begins with a text.
fn begins_with(wire: &[u8], text: &[u8]) -> bool
    ensures yes { IsTrue result → wire.now ≡ text.now ++ drop (length text.now) wire.now }
    ensures other { result ≡ false → (packets : List ℕ) → wire.now ≡ text.now ++ packets → ⊥ }
{
    wire.starts_with(text)
}

/// The bytes behind the version line; none where there is no line.
fn behind_line(wire: &[u8], line: Option<usize>) -> &[u8]
    ensures { (text : List ℕ) → IsLineOf text wire.now line → IsFedBehind text wire.now line result.now }
{
    match line {
        Some(length) => match wire.get(length..) {
            Some(bytes) => bytes,
            None => &[],
        },
        None => &[],
    }
}
