//! One side of a link over an honest carrier.

ghost use Rattle.std.specs.Prelude.{◌≡◌, ◌≤◌, ◌++◌, ◌-◌, IfErr, IfOk, OnErr, OnOk, drop, false, length, true};

use crate::told::{Leaving, Told};
use rand_core::Rng;
use ssh_kex::{Agreement, GroupLookup, Handed, HostKeys, Parts};
use ssh_rules::Asked;
use ssh_rules::link::{SideMark, SideReport};
use ssh_transport::Transport;
use ssh_wire::{Blob, Error, Payload, PayloadList};
use std::alloc::{AllocError, Global};

/// One side, and what it did so far. All that it sent is its transport's output.
#[derive(Drop)]
pub(crate) struct LinkEnd<'c> {
    pub(crate) transport: Transport<'c>,
    /// How many bytes of the other's output it took.
    pub(crate) taken: usize,
    pub(crate) delivered: Vec<Payload>,
    pub(crate) submitted: u64,
}

impl<'c> LinkEnd<'c> {
    ghost use Rattle.ssh_run.specs.Carrying.{Rests, all_bytes, begun_by, first_carried_end};
    ghost use Rattle.ssh_run.specs.LinkEnds.{end_mark, carried_end};
    ghost use Rattle.ssh_run.specs.RefusedCarrying.{IsRestless, RefusesSubmit};
    ghost use Rattle.ssh_wire.specs.declared.error.Error.TheVariants.{Memory};

    /// A side that has sent its id line.
    pub(crate) fn new(alloc: Global, transport: Transport<'c>) -> LinkEnd<'c>
        ensures { carried_end result ≡ first_carried_end transport.entry }
    {
        LinkEnd {
            transport,
            taken: 0,
            delivered: Vec::new(alloc),
            submitted: 0,
        }
    }

    /// All that the side sent.
    pub(crate) fn output(&self) -> &[u8]
        ensures { result.now ≡ self.now.transport.output }
    {
        self.transport.output()
    }

    /// How many bytes of the other's output it hasn't taken.
    pub(crate) fn waiting(&self, wire: &[u8]) -> usize
        ensures { result ≡ length wire.now - self.now.taken }
    {
        wire.len().saturating_sub(self.taken)
    }

    /// Submits a payload.
    #[tactic(auto, using(ssh_transport::proofs::Lemmas::parts_same, crate::proofs::Asking::counted_same, crate::proofs::Asking::submitted_asks))]
    pub(crate) fn submit<A: Agreement, H: HostKeys, G: GroupLookup, R: Rng>(
        &mut self,
        parts: &mut Parts<A, H, G, R>,
        payload: &[u8],
    ) -> Result<(), Error>
        ensures submits { OnOk result (⟦<Parts<A, H, G, R> as Told>⟧.submits self.old parts.old payload.now self.new) }
        ensures refused { self.old.transport.failed ≡ false → IfErr result (λ e. RefusesSubmit payload.now e) }
        ensures keeps { ⟦<Parts<A, H, G, R> as Handed>⟧.keeps parts.old parts.new }
        ensures leaves { OnOk result (⟦<Parts<A, H, G, R> as Leaving>⟧.leaves self.old self.new parts.old parts.new) }
        ensures calls { ⟦<Parts<A, H, G, R> as Told>⟧.unasked parts.old parts.new }
        ensures side { OnOk result (⟦<Parts<A, H, G, R> as Told>⟧.asks self.old self.new parts.old parts.old) }
    {
        self.transport.submit(parts, payload)?;
        self.submitted = self.submitted.saturating_add(1);
        Ok(())
    }

    /// Asks for new keys.
    #[tactic(auto, using(ssh_transport::proofs::Lemmas::parts_same, crate::proofs::Asking::counted_same, crate::proofs::Asking::rekeyed_asks))]
    pub(crate) fn rekey<A: Agreement, H: HostKeys, G: GroupLookup, R: Rng>(
        &mut self,
        parts: &mut Parts<A, H, G, R>,
    ) -> Result<(), Error>
        ensures asks { OnOk result (⟦<Parts<A, H, G, R> as Told>⟧.rekeys self.old parts.old self.new) }
        ensures refused { self.old.transport.failed ≡ false → IfErr result (λ e. e ≡ Memory) }
        ensures keeps { ⟦<Parts<A, H, G, R> as Handed>⟧.keeps parts.old parts.new }
        ensures leaves { OnOk result (⟦<Parts<A, H, G, R> as Leaving>⟧.leaves self.old self.new parts.old parts.new) }
        ensures calls { ⟦<Parts<A, H, G, R> as Told>⟧.unasked parts.old parts.new }
        ensures side { OnOk result (⟦<Parts<A, H, G, R> as Told>⟧.asks self.old self.new parts.old parts.old) }
    {
        self.transport.rekey(parts)
    }

    /// Takes so many bytes of the other's output, or all that wait where fewer do.
    #[tactic(auto, using(crate::proofs::Asking::fed_asks, crate::proofs::Asking::kept_asks))]
    pub(crate) fn deliver<A: Agreement, H: HostKeys, G: GroupLookup, R: Rng>(
        &mut self,
        parts: &mut Parts<A, H, G, R>,
        wire: &[u8],
        count: u64,
    ) -> Result<(), Error>
        ensures carries { OnOk result (⟦<Parts<A, H, G, R> as Told>⟧.carries self.old parts.old wire.now count
            self.new) }
        ensures all { OnOk result (count ≡ all_bytes → length wire.now ≤ self.new.taken) }
        ensures refused { self.old.transport.failed ≡ false → IfErr result
            (λ e. ⟦<Parts<A, H, G, R> as Told>⟧.refuses self.old parts.old parts.new wire.now count e) }
        ensures keeps { ⟦<Parts<A, H, G, R> as Handed>⟧.keeps parts.old parts.new }
        ensures leaves { OnOk result (⟦<Parts<A, H, G, R> as Leaving>⟧.leaves self.old self.new parts.old parts.new) }
        ensures asks { OnOk result (⟦<Parts<A, H, G, R> as Told>⟧.asks self.old self.new parts.old parts.new) }
        ensures asked { self.old.transport.failed ≡ false → OnErr result
            (⟦<Parts<A, H, G, R> as Told>⟧.asks_for_piece self.old wire.now count parts.old parts.new) }
    {
        let waiting = rest_of(wire, self.taken);
        let count = count.min(waiting.len() as u64) as usize;
        self.transport.feed(parts, &waiting[..count])?;
        self.taken += count;
        let mut delivered = self.transport.take_delivered().into_vec();
        self.delivered.append(&mut delivered)?;
        Ok(())
    }

    /// How many exchanges it has begun, with the first, inside which it is from its start on.
    pub(crate) fn begun(&self) -> u128
        ensures { result ≡ begun_by (carried_end self.now) }
    {
        self.transport.finished() as u128 + u128::from(self.transport.inside())
    }

    /// Whether it is outside an exchange and holds no unfinished input.
    pub(crate) fn rests(&self) -> bool
        ensures rests { result ≡ true → Rests (carried_end self.now) }
        ensures restless { result ≡ false → IsRestless (carried_end self.now) }
    {
        !self.transport.inside() && self.transport.unfinished() == 0
    }

    /// Where it stands.
    pub(crate) fn mark(&self) -> SideMark
        ensures { result ≡ end_mark self.now }
    {
        SideMark {
            sent: self.transport.output().len() as u64,
            taken: self.taken as u64,
            delivered: self.delivered.len() as u64,
            finished: self.transport.finished() as u64,
            inside: self.transport.inside(),
            submitted: self.submitted,
        }
    }

    /// What it did. Memory.
    pub(crate) fn report(self) -> Result<SideReport, AllocError>
        ensures wire { IfOk result (λ r. r.wire ≡ self.entry.transport.output) }
        ensures taken { IfOk result (λ r. r.taken ≡ self.entry.taken) }
        ensures delivered { IfOk result (λ r. r.delivered ≡ self.entry.delivered.items) }
        ensures exchanges { IfOk result (λ r. r.exchanges ≡ self.entry.transport.state.records) }
    {
        let exchanges = self.transport.exchanges()?;
        Ok(SideReport {
            wire: Blob::new(self.transport.into_output()),
            taken: self.taken as u64,
            delivered: PayloadList::new(self.delivered),
            exchanges,
        })
    }
}

/// The bytes behind the first `taken` ones.
fn rest_of(wire: &[u8], taken: usize) -> &[u8]
    ensures { result.now ≡ drop taken wire.now }
{
    if taken < wire.len() {
        &wire[taken..]
    } else {
        &[]
    }
}
