//! The messages of a side's open epoch that belong to its exchange.

ghost use Rattle.std.specs.Prelude.{◌≡◌, ◌<◌, ◌∷◌, ◌++◌, [], List, Bool, None, length, map, IfSome, IsTrue, OnOk, false, true};
ghost use Rattle.ssh_packet.specs.Sealing.{Item};
ghost use Rattle.ssh_packet.specs.Stream.{message_type as message_type_of};
ghost use Rattle.ssh_wire.specs.Orders.{is_kex};
ghost use Rattle.ssh_wire.specs.declared.side.Side as sides;
ghost use Rattle.ssh_rules.specs.MessageTypes.{order, type_of as type_of_item};
ghost use Rattle.ssh_blocks.specs.Blocks.{HasSeen, IsBefore, block_in, payloads_of};

use crate::order::{is_due, order_of, type_of};
use ssh_wire::{Payload, Side, is_kex_msg};
use std::alloc::{AllocError, Global};

/// The messages of an exchange, as far as they came, of one epoch of a side.
#[derive(Drop)]
pub struct OpenBlock {
    order: &'static [u8],
    /// Whether payloads may stand before its first message: in each epoch but the first.
    is_later: bool,
    messages: Vec<Payload>,
    /// Whether another packet came than the order has there.
    is_broken: bool,
}

impl OpenBlock {
    /// No message yet. `kind` says whether the exchange is a group exchange.
    pub fn new(alloc: Global, side: Side, kind: bool, is_later: bool) -> OpenBlock
        ensures { HasSeen side kind is_later [] result }
    {
        OpenBlock {
            order: order_of(side, kind),
            is_later,
            messages: Vec::new(alloc),
            is_broken: false,
        }
    }

    /// Takes the next packet of the epoch. Once one doesn't fit, none is kept any more.
    pub fn take(&mut self, alloc: Global, payload: &[u8]) -> Result<(), AllocError>
        ensures seen { OnOk result ((side : sides.Side) (kind is_later : Bool) (items : List Item) (i : Item)
            → i.payload ≡ payload.now → 0 < length i.payload → HasSeen side kind is_later items self.old
            → HasSeen side kind is_later (items ++ i ∷ []) self.new) }
    {
        if payload.is_empty() {
            return Ok(());
        }
        let message_type = type_of(payload);
        if self.is_broken {
            return Ok(());
        }
        if self.stands_before(message_type) {
            return Ok(());
        }
        if !is_due(self.order, self.messages.len(), message_type) {
            self.is_broken = true;
            return Ok(());
        }
        self.messages
            .push(Payload::new(Vec::from_slice(alloc, payload)?))?;
        Ok(())
    }

    /// Whether a packet of the type stands before the first message of the exchange, and belongs to none.
    fn stands_before(&self, message_type: u8) -> bool
        ensures before { IsTrue result → IsBefore self.now message_type }
        ensures other { result ≡ false → IsBefore self.now message_type → ⊥ }
    {
        if !self.is_later {
            return false;
        }
        if !self.messages.is_empty() {
            return false;
        }
        !is_kex_msg(message_type)
    }

    /// The messages, where they are whole and stand together.
    pub fn whole(&self) -> Option<&[Payload]>
        ensures some { IfSome result (λ messages. (side : sides.Side) (kind is_later : Bool) (items : List Item)
            → HasSeen side kind is_later items self.now
            → (map type_of_item (block_in is_later items) ≡ order side kind)
            × (messages.now ≡ payloads_of (block_in is_later items))) }
        ensures none { result ≡ None → (side : sides.Side) (kind is_later : Bool) (items : List Item)
            → HasSeen side kind is_later items self.now
            → map type_of_item (block_in is_later items) ≡ order side kind → ⊥ }
    {
        if self.is_broken {
            return None;
        }
        if self.messages.len() != self.order.len() {
            return None;
        }
        Some(self.messages.as_slice())
    }
}
