//! What is counted of the first packets of a wire.

ghost use Rattle.std.specs.Prelude.{◌≡◌, ◌+◌, ◌<◌, ◌^◌, ◌++◌, ◌∷◌, [], length, Bool, List, OnOk};
ghost use Rattle.ssh_packet.specs.Sealing.{Item};
ghost use Rattle.ssh_rules.specs.Marks.{Half};
ghost use Rattle.ssh_judge.specs.Tallies.{Advances, Counts, CountsFront, CountsMessage, CountsPacket, CountsPayload, EndsEpoch, IsKeptHalf, IsSeenAs, MayFollow, counted_in, line_of};

use ssh_blocks::is_payload_type;
use ssh_transcript::Packet;
use ssh_wire::msg;
use std::alloc::{AllocError, Global};

/// Counts of the first packets of a wire whose packets are good.
#[derive(Drop)]
pub(crate) struct Tally {
    /// How many packets there are.
    packets: usize,
    /// Where the last of them ends, or the version line.
    pub(crate) end: u64,
    /// How many payloads are handed up.
    pub(crate) carried: u64,
    /// How many bytes these have in each epoch that ended.
    ended: Vec<u64>,
    /// How many they have in the open epoch.
    carried_bytes: u64,
    /// How many bytes all payloads of the open epoch have.
    pub(crate) epoch_bytes: u64,
    /// How many exchanges are begun.
    pub(crate) kexinits: usize,
    /// How many messages the last of these has.
    pub(crate) messages: usize,
}

impl Tally {
    /// No packet, behind a version line of this length.
    #[tactic(auto, using(crate::proofs::Counted::counts_none))]
    pub(crate) fn new(alloc: Global, line: u64) -> Tally
        ensures counts { Counts [] result }
        ensures none { result.packets ≡ 0 }
        ensures end { result.end ≡ line }
    {
        Tally {
            packets: 0,
            end: line,
            carried: 0,
            ended: Vec::new(alloc),
            carried_bytes: 0,
            epoch_bytes: 0,
            kexinits: 0,
            messages: 0,
        }
    }

    /// Counts on to the last of a wire's packets that lies whole in its first `reach` bytes.
    pub(crate) fn advance(&mut self, packets: &[Packet], reach: u64) -> Result<(), AllocError>
        ensures { OnOk result ((kind : Bool) (h : Half) (items : List Item) → IsKeptHalf kind h items packets.now
            → CountsFront (line_of h) items packets.now self.old
            → Advances (line_of h) items packets.now reach self.old self.new) }
    {
        for packet in packets.get(self.packets..).unwrap_or(&[]) {
            if reach < packet.end {
                return Ok(());
            }
            self.count(packet)?;
        }
        Ok(())
    }

    /// Counts one packet more.
    fn count(&mut self, packet: &Packet) -> Result<(), AllocError>
        ensures packets { OnOk result (self.old.packets + 1 < 2 ^ 64 → self.new.packets ≡ self.old.packets + 1) }
        ensures end { OnOk result (self.new.end ≡ packet.now.end) }
        ensures counts { OnOk result ((items : List Item) (i : Item) → MayFollow items i
            → IsSeenAs self.old.end i packet.now → self.old.packets + 1 < 2 ^ 64
            → Counts items self.old → Counts (items ++ i ∷ []) self.new) }
    {
        let counted = *packet;
        self.count_packet(counted);
        if is_payload_type(counted.message_type) {
            self.count_payload(counted.length);
            return Ok(());
        }
        self.count_message(counted.message_type)
    }

    /// Counts what every packet has.
    fn count_packet(&mut self, packet: Packet)
        ensures counts { CountsPacket packet self.old self.new }
        ensures fits { packet.end < 2 ^ 64 }
    {
        self.packets = self.packets.saturating_add(1);
        self.end = packet.end;
        self.epoch_bytes = self.epoch_bytes.saturating_add(packet.length);
    }

    /// Counts a payload that is handed up.
    fn count_payload(&mut self, length: u64)
        ensures { CountsPayload length self.old self.new }
    {
        self.carried = self.carried.saturating_add(1);
        self.carried_bytes = self.carried_bytes.saturating_add(length);
    }

    /// Counts a message of an exchange.
    fn count_message(&mut self, message_type: u8) -> Result<(), AllocError>
        ensures { OnOk result (CountsMessage message_type self.old self.new) }
    {
        if message_type == msg::KEXINIT {
            self.kexinits = self.kexinits.saturating_add(1);
            self.messages = 1;
            return Ok(());
        }
        if message_type == msg::NEWKEYS {
            return self.end_epoch();
        }
        self.messages = self.messages.saturating_add(1);
        Ok(())
    }

    /// Counts the message that ends an epoch.
    fn end_epoch(&mut self) -> Result<(), AllocError>
        ensures { OnOk result (EndsEpoch self.old self.new) }
    {
        self.messages = self.messages.saturating_add(1);
        self.ended.push(self.carried_bytes)?;
        self.carried_bytes = 0;
        self.epoch_bytes = 0;
        Ok(())
    }

    /// How many exchanges are finished.
    pub(crate) fn finished(&self) -> u64
        ensures { result ≡ length self.now.ended.items }
    {
        self.ended.len() as u64
    }

    /// How many bytes the payloads have that are handed up of an epoch, counted from 0.
    pub(crate) fn bytes_in(&self, epoch: usize) -> u64
        ensures { result ≡ counted_in epoch self.now }
    {
        if epoch == self.ended.len() {
            return self.carried_bytes;
        }
        self.ended.get(epoch).copied().unwrap_or(0)
    }
}
