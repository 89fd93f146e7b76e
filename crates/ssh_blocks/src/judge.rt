//! Which packet may come next on a side's wire.

ghost use Rattle.std.specs.Prelude.{◌≡◌, ◌≢◌, ◌<◌, ◌+◌, ◌^◌, ℕ, List, Option, Bool, Some, [], false, true, length, slice_get, IsTrue};
ghost use Rattle.ssh_packet.specs.Stream.{message_type as message_type_of};
ghost use Rattle.ssh_wire.specs.declared.side.Side as sides;
ghost use Rattle.ssh_kex.specs.declared.config.Config.{Config};
ghost use Rattle.ssh_rules.specs.MessageTypes.{is_payload_type};
ghost use Rattle.ssh_blocks.specs.Judging.{HasTaken, IsPayloadDue, IsRulesOf, MayNotCome, TakesOn};

use crate::order::{is_due, is_payload_type, order_of, type_of};
use crate::rules::WireRules;
use crate::submits::next_submit;
use ssh_rules::link::Step;

/// Where a side's wire stands among its blocks, and what it still has to carry.
#[derive(Drop)]
pub struct PacketJudge<'r> {
    rules: WireRules<'r>,
    order: &'static [u8],
    /// How many messages of the open block came; 0 between two blocks.
    place: usize,
    /// Whether the first block has begun: before it no payload may stand.
    has_begun: bool,
    /// The steps whose submits didn't come yet.
    steps: &'r [Step],
}

impl<'r> PacketJudge<'r> {
    /// Before the first packet of a side of a link with these steps.
    pub fn new(rules: WireRules<'r>, steps: &'r [Step]) -> PacketJudge<'r>
        ensures { (side : sides.Side) (config : Config) (kind : Bool) (host : Option (List ℕ))
            → IsRulesOf side config kind host rules.entry → HasTaken side config kind host steps.now [] result }
    {
        PacketJudge {
            rules,
            order: order_of(rules.side, rules.kind),
            place: 0,
            has_begun: false,
            steps,
        }
    }

    /// Whether the packet of this payload may come next. Where it may, it has come.
    pub fn takes(&mut self, payload: &[u8]) -> bool
        ensures taken { IsTrue result → TakesOn self.old payload.now self.new }
        ensures refused { result ≡ false → length payload.now < 2 ^ 32 → MayNotCome self.old payload.now }
    {
        let message_type = type_of(payload);
        if self.is_payload_due(message_type) {
            return self.takes_submitted(payload);
        }
        if !is_due(self.order, self.place, message_type) {
            return false;
        }
        self.takes_message(payload)
    }

    /// Whether a payload may come next, and the type is that of one.
    fn is_payload_due(&self, message_type: u8) -> bool
        ensures due { IsTrue result → IsPayloadDue self.now message_type }
        ensures other { result ≡ false → IsPayloadDue self.now message_type → ⊥ }
    {
        if self.place != 0 {
            return false;
        }
        if !self.has_begun {
            return false;
        }
        is_payload_type(message_type)
    }

    /// Whether the payload is the next that was submitted.
    fn takes_submitted(&mut self, payload: &[u8]) -> bool
        ensures taken { IsTrue result → IsPayloadDue self.old (message_type_of payload.now)
            → TakesOn self.old payload.now self.new }
        ensures refused { result ≡ false → IsPayloadDue self.old (message_type_of payload.now)
            → MayNotCome self.old payload.now }
    {
        match next_submit(self.steps, self.rules.side) {
            Some((submitted, behind)) => {
                self.steps = behind;
                are_same(submitted, payload)
            }
            None => false,
        }
    }

    /// Whether the message, whose type is due, has the form of its place.
    fn takes_message(&mut self, payload: &[u8]) -> bool
        ensures taken { IsTrue result → slice_get self.old.order.now self.old.place ≡ Some (message_type_of payload.now)
            → TakesOn self.old payload.now self.new }
        ensures refused { result ≡ false
            → slice_get self.old.order.now self.old.place ≡ Some (message_type_of payload.now)
            → length payload.now < 2 ^ 32 → MayNotCome self.old payload.now }
    {
        if !self.rules.has_form(self.place, payload) {
            return false;
        }
        self.has_begun = true;
        self.place = place_behind(self.place, self.order.len());
        true
    }
}

/// Whether two texts are one.
fn are_same(a: &[u8], b: &[u8]) -> bool
    ensures same { IsTrue result → a.now ≡ b.now }
    ensures other { result ≡ false → a.now ≢ b.now }
{
    a == b
}

/// The place behind one of so many: 0 where it is the last.
fn place_behind(place: usize, count: usize) -> usize
    ensures last { place + 1 ≡ count → result ≡ 0 }
    ensures within { place + 1 < count → result ≡ place + 1 }
{
    let next = place.saturating_add(1);
    if next == count { 0 } else { next }
}
