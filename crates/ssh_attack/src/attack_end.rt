//! One side that is fed any bytes.

ghost use Rattle.std.specs.Prelude.{◌≡◌, ◌++◌, [], Err, IfOk, OnOk, length};
ghost use Rattle.ssh_wire.specs.Forms.{AreBytes};

use crate::attacked::{Attacked, Leaving};
use rand_core::Rng;
use ssh_kex::{Agreement, GroupLookup, Handed, HostKeys, Parts};
use ssh_rules::Asked;
use ssh_rules::link::SideReport;
use ssh_transport::Transport;
use ssh_wire::{Blob, Error, Payload, PayloadList};
use std::alloc::{AllocError, Global};

/// One side, and what it did so far. All that it sent is its transport's output.
#[derive(Drop)]
pub(crate) struct AttackEnd<'c> {
    pub(crate) transport: Transport<'c>,
    /// How many bytes it was fed.
    pub(crate) taken: u64,
    pub(crate) delivered: Vec<Payload>,
}

impl<'c> AttackEnd<'c> {
    ghost use Rattle.ssh_rules.specs.Attacking.{FeedsEnd, RekeysBy, SubmitsBy};
    ghost use Rattle.ssh_attack.specs.AttackEnds.{attacked_end};
    ghost use Rattle.ssh_wire.specs.declared.error.Error.TheVariants.{Memory};

    /// A side that has sent its id line.
    pub(crate) fn new(alloc: Global, transport: Transport<'c>) -> AttackEnd<'c>
        ensures transport { result.transport ≡ transport.entry }
        ensures taken { result.taken ≡ 0 }
        ensures delivered { result.delivered.items ≡ [] }
    {
        AttackEnd {
            transport,
            taken: 0,
            delivered: Vec::new(alloc),
        }
    }

    /// Submits a payload.
    pub(crate) fn submit<A: Agreement, H: HostKeys, G: GroupLookup, R: Rng>(
        &mut self,
        parts: &mut Parts<A, H, G, R>,
        payload: &[u8],
    ) -> Result<(), Error>
        ensures submits { (result ≡ Err Memory → ⊥) → SubmitsBy self.old.transport.failed
            (⟦<Parts<A, H, G, R> as Attacked>⟧.tells self.old.transport.config parts.old parts.new)
            (attacked_end self.old (⟦<Parts<A, H, G, R> as Asked>⟧.calls parts.old)) payload.now result
            (attacked_end self.new (⟦<Parts<A, H, G, R> as Asked>⟧.calls parts.new)) }
        ensures keeps { ⟦<Parts<A, H, G, R> as Handed>⟧.keeps parts.old parts.new }
        ensures leaves { (result ≡ Err Memory → ⊥) → ⟦<Parts<A, H, G, R> as Leaving>⟧.leaves self.old.transport
            self.new.transport parts.old parts.new }
    {
        self.transport.submit(parts, payload)
    }

    /// Asks for new keys.
    pub(crate) fn rekey<A: Agreement, H: HostKeys, G: GroupLookup, R: Rng>(
        &mut self,
        parts: &mut Parts<A, H, G, R>,
    ) -> Result<(), Error>
        ensures rekeys { (result ≡ Err Memory → ⊥) → RekeysBy self.old.transport.failed
            (⟦<Parts<A, H, G, R> as Attacked>⟧.tells self.old.transport.config parts.old parts.new)
            (attacked_end self.old (⟦<Parts<A, H, G, R> as Asked>⟧.calls parts.old)) result
            (attacked_end self.new (⟦<Parts<A, H, G, R> as Asked>⟧.calls parts.new)) }
        ensures keeps { ⟦<Parts<A, H, G, R> as Handed>⟧.keeps parts.old parts.new }
        ensures leaves { (result ≡ Err Memory → ⊥) → ⟦<Parts<A, H, G, R> as Leaving>⟧.leaves self.old.transport
            self.new.transport parts.old parts.new }
    {
        self.transport.rekey(parts)
    }

    /// Feeds it bytes. What it delivers is kept, also where it is refused.
    pub(crate) fn feed<A: Agreement, H: HostKeys, G: GroupLookup, R: Rng>(
        &mut self,
        parts: &mut Parts<A, H, G, R>,
        bytes: &[u8],
    ) -> Result<(), Error>
        ensures feeds { (result ≡ Err Memory → ⊥) → FeedsEnd (⟦<Parts<A, H, G, R> as Attacked>⟧.tells
            self.old.transport.config parts.old parts.new) (attacked_end self.old
            (⟦<Parts<A, H, G, R> as Asked>⟧.calls parts.old)) bytes.now result
            (attacked_end self.new (⟦<Parts<A, H, G, R> as Asked>⟧.calls parts.new)) }
        ensures keeps { ⟦<Parts<A, H, G, R> as Handed>⟧.keeps parts.old parts.new }
        ensures leaves { (result ≡ Err Memory → ⊥) → ⟦<Parts<A, H, G, R> as Leaving>⟧.leaves self.old.transport
            self.new.transport parts.old parts.new }
    {
        see_bytes(bytes);
        let Some(taken) = self.taken.checked_add(bytes.len() as u64) else {
            return Err(Error::Memory);
        };
        let failed = self.transport.failed();
        let answer = self.transport.feed(parts, bytes);
        self.taken = taken;
        if !failed {
            let mut delivered = self.transport.take_delivered().into_vec();
            self.delivered.append(&mut delivered)?;
        }
        answer
    }

    /// What it did. Memory.
    pub(crate) fn report(self) -> Result<SideReport, AllocError>
        ensures { IfOk result (λ r. r ≡ record {
          wire = self.entry.transport.output;
          taken = self.entry.taken;
          delivered
              = self.entry.delivered.items;
          exchanges = self.entry.transport.state.records;
        }) }
    {
        let exchanges = self.transport.exchanges()?;
        Ok(SideReport {
            wire: Blob::new(self.transport.into_output()),
            taken: self.taken,
            delivered: PayloadList::new(self.delivered),
            exchanges,
        })
    }
}

/// What the type of the bytes says.
fn see_bytes(bytes: &[u8])
    ensures { AreBytes bytes.now }
{
    let _length = bytes.len();
}
