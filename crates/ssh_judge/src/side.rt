//! One side at a mark.

ghost use Rattle.std.specs.Prelude.{◌≡◌, length, OnOk};
ghost use Rattle.ssh_judge.specs.Effects.{asks_side, rekeyed_behind};
ghost use Rattle.ssh_judge.specs.Standing.{AreFactsFor, ComesSide, ComesTo, IsNew};

use crate::effect::{is_same, mark_of, sent_of, submitted_behind, taken_behind};
use crate::tally::Tally;
use ssh_kex::Config;
use ssh_record::SentPair;
use ssh_rules::link::{Mark, SideMark, Step};
use ssh_transcript::Packet;
use ssh_wire::Side;
use std::alloc::{AllocError, Global};

/// What a side's marks are measured by.
#[derive(Clone, Copy, Drop)]
pub(crate) struct SideFacts<'r> {
    pub(crate) side: Side,
    /// All packets of its wire.
    pub(crate) packets: &'r [Packet],
    /// How many bytes its version line has.
    pub(crate) line: u64,
    /// How many bytes its wire has.
    pub(crate) length: u64,
    /// The bytes of payloads at which it begins an exchange: written, and read.
    pub(crate) write_limit: u64,
    pub(crate) read_limit: u64,
}

/// A side at a mark, with the packets that it sent and those of the other side that it took whole.
#[derive(Drop)]
pub(crate) struct SideState<'r> {
    pub(crate) facts: SideFacts<'r>,
    pub(crate) own: Tally,
    pub(crate) theirs: Tally,
    pub(crate) mark: SideMark,
    /// Of each exchange that the side began, whether it had a cause of its own.
    pub(crate) causes: Vec<bool>,
    /// How many exchanges were finished at its last rekey.
    pub(crate) rekeyed: Option<u64>,
}

/// How far a side comes in a step: what it has sent, what it has taken, and what was submitted to it.
#[derive(Clone, Copy, Drop)]
pub(crate) struct Reach {
    pub(crate) sent: u64,
    pub(crate) taken: u64,
    pub(crate) submitted: u64,
}

/// What a side's configuration and wire say.
pub(crate) fn facts_of<'r>(
    side: Side,
    config: &Config,
    wire: &[u8],
    line: usize,
    packets: &'r [Packet],
) -> SideFacts<'r>
    ensures { AreFactsFor side config.now (length wire.now) line packets.now result }
{
    SideFacts {
        side,
        packets,
        line: line as u64,
        length: wire.len() as u64,
        write_limit: config.limits.rekey_write_limit as u64,
        read_limit: config.limits.rekey_read_limit as u64,
    }
}

impl<'r> SideState<'r> {
    /// A side that has sent its version line alone, and taken nothing.
    pub(crate) fn new(alloc: Global, facts: SideFacts<'r>, other_line: u64) -> SideState<'r>
        ensures { IsNew facts.entry other_line result }
    {
        SideState {
            facts,
            own: Tally::new(alloc, facts.line),
            theirs: Tally::new(alloc, other_line),
            mark: SideMark {
                sent: facts.line,
                taken: 0,
                delivered: 0,
                finished: 0,
                inside: true,
                submitted: 0,
            },
            causes: Vec::new(alloc),
            rekeyed: None,
        }
    }

    /// Comes by a step to where so much is sent behind it; `before` are the marks before it.
    pub(crate) fn come(
        &mut self,
        side: Side,
        others: &[Packet],
        step: &Step,
        before: &Mark,
        sent: SentPair,
    ) -> Result<(), AllocError>
        ensures { OnOk result (ComesSide step.now side before.now sent others.now self.old self.new) }
    {
        self.see_rekey(step);
        let reach = Reach {
            sent: sent_of(sent, side),
            taken: taken_behind(step, side, before, sent),
            submitted: submitted_behind(step, side, mark_of(before, side).submitted),
        };
        self.reach(others, reach)
    }

    /// Comes so far, over the other side's packets.
    fn reach(&mut self, others: &[Packet], reach: Reach) -> Result<(), AllocError>
        ensures { OnOk result (ComesTo others.now reach self.old self.new) }
    {
        self.own.advance(self.facts.packets, reach.sent)?;
        self.theirs.advance(others, reach.taken)?;
        let finished = self.theirs.finished();
        self.mark = SideMark {
            sent: reach.sent,
            taken: reach.taken,
            delivered: self.theirs.carried,
            finished,
            inside: finished < (self.own.kexinits as u64).max(1),
            submitted: reach.submitted,
        };
        Ok(())
    }

    /// Keeps how many exchanges were finished, where the step is a rekey of this side.
    fn see_rekey(&mut self, step: &Step)
        ensures { self.new ≡ record self.old {
          rekeyed = rekeyed_behind step.now self.old.facts.side
              self.old.mark.finished self.old.rekeyed;
        } }
    {
        self.rekeyed = rekeyed_behind(step, self.facts.side, self.mark.finished, self.rekeyed);
    }
}

/// How many exchanges were finished at a side's last rekey, behind a step before which so many were.
fn rekeyed_behind(step: &Step, side: Side, finished: u64, before: Option<u64>) -> Option<u64>
    ensures { result ≡ rekeyed_behind step.now side finished before }
{
    if is_rekey_of(step, side) {
        Some(finished)
    } else {
        before
    }
}

/// Whether a step asks the side for an exchange.
pub(crate) fn is_rekey_of(step: &Step, side: Side) -> bool
    ensures { result ≡ asks_side step.now side }
{
    match step {
        Step::Rekey(of) => is_same(*of, side),
        Step::Submit(_, _) | Step::Deliver(_, _) | Step::Settle => false,
    }
}
