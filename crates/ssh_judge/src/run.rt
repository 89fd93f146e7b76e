//! The marks of a record, step by step.

ghost use Rattle.std.specs.Prelude.{◌≡◌, ◌⊎◌, ◌↔◌, suc, length, map, take, Some, None, IsTrue, IfErr, IfOk, IfSome, OnOk};
ghost use Rattle.std.specs.Option.{option_copied};
ghost use Rattle.ssh_record.specs.Answers.{FitsSent};
ghost use Rattle.ssh_record.specs.Runs.{RunsBy, sent_at};
ghost use Rattle.ssh_record.specs.declared.report.AuditEnd.TheVariants.{Fault, Memory};
ghost use Rattle.ssh_record.specs.declared.report.AuditFault.TheVariants.{Mark as MarkFault};
ghost use Rattle.ssh_judge.specs.Effects.{HasChanged};
ghost use Rattle.ssh_judge.specs.Marking.{IsFirst, IsMarkEnd};
ghost use Rattle.ssh_judge.specs.Standing.{AreStanding, BeginsOneMore, ComesBoth, GoesOnTo, HaveBothCauses, KeepsBothCauses, StandBehind, StopsAt, marks_at};
ghost use Rattle.ssh_transcript.specs.Ends.{IsLaterEnd};
ghost use Rattle.ssh_transcript.specs.Reading.{AreGoodWires, IsSetting, judged_under};
ghost use Rattle.ssh_wire.specs.Lines.{id_line};

use crate::cause::{have_causes, see_causes};
use crate::effect::{Change, is_settled, is_step_of_one, keep_sent};
use crate::marked::is_marked;
use crate::side::{SideState, facts_of, is_rekey_of};
use ssh_record::{AuditEnd, AuditFault, SentPair, Transcript};
use ssh_rules::link::{Mark, SideMark, Step};
use ssh_transcript::{ReadWires, Setting};
use ssh_wire::{Side, SshId};
use std::alloc::{AllocError, Global};

/// Both sides at a mark.
#[derive(Drop)]
pub(crate) struct RunState<'r> {
    kind: bool,
    client: SideState<'r>,
    server: SideState<'r>,
}

/// The marks of a record whose wires are good, one before the first step and one behind each. Mark at the first that is
/// not one of a run; Memory.
pub(crate) fn run_marks(
    alloc: Global,
    setting: &Setting<'_>,
    wires: &ReadWires<'_>,
    transcript: &Transcript,
) -> Result<Vec<Mark>, AuditEnd>
    ensures sent { IfOk result (λ marks. map sent_at marks.items
        ≡ take (suc (length transcript.now.steps)) transcript.now.sent) }
    ensures refused { IfErr result IsLaterEnd }
    ensures run { IsSetting setting.now → FitsSent transcript.now
        → AreGoodWires (judged_under setting.now transcript.now) wires.now
        → IfOk result (λ marks. RunsBy (judged_under setting.now transcript.now) wires.now.exchanges.items
        (length transcript.now.steps) marks.items) }
    ensures broken { IsSetting setting.now → FitsSent transcript.now
        → AreGoodWires (judged_under setting.now transcript.now) wires.now
        → IfErr result (IsMarkEnd setting.now wires.now transcript.now) }
{
    let mut run = RunState::new(alloc, setting, wires, transcript)?;
    let mut marks = Vec::new(alloc);
    marks.push(run.first_mark(transcript.sent.first())?)?;
    for (i, step) in transcript.steps.iter().enumerate() {
        let behind = i.saturating_add(1);
        marks.push(run.mark_behind(step, transcript.sent.get(behind), behind)?)?;
    }
    Ok(marks)
}

/// The fault of a mark that is not one of a run.
fn broken(place: u64) -> AuditEnd
    ensures later { IsLaterEnd result }
    ensures told { result ≡ Fault (MarkFault place) }
{
    AuditEnd::Fault(AuditFault::Mark { place })
}

/// How many bytes a version line has. Memory.
fn line_length(alloc: Global, id: &SshId) -> Result<usize, AllocError>
    ensures { IfOk result (λ n. n ≡ length (id_line id.now)) }
{
    let mut line = Vec::new(alloc);
    match id.write(&mut line) {
        Ok(()) => Ok(line.len()),
        Err(_) => Err(AllocError),
    }
}

/// Whether as much was sent at a mark as a record says.
#[tactic(auto, using(crate::proofs::Changing::sent_pair_is))]
fn is_sent(mark: &Mark, sent: &SentPair) -> bool
    ensures { IsTrue result ↔ (sent_at mark.now ≡ sent.now) }
{
    mark.client.sent == sent.client && mark.server.sent == sent.server
}

impl<'r> RunState<'r> {
    /// Before the first step.
    fn new(
        alloc: Global,
        setting: &Setting<'_>,
        wires: &'r ReadWires<'_>,
        transcript: &Transcript,
    ) -> Result<RunState<'r>, AuditEnd>
        ensures first { IfOk result (IsFirst setting.now wires.now transcript.now) }
        ensures refused { IfErr result IsLaterEnd }
        ensures memory { IfErr result (λ e. e ≡ Memory) }
    {
        let client_line = line_length(alloc, &setting.client.id)?;
        let server_line = line_length(alloc, &setting.server.id)?;
        let client = facts_of(
            Side::Client,
            setting.client,
            transcript.client.as_slice(),
            client_line,
            wires.packets(Side::Client),
        );
        let server = facts_of(
            Side::Server,
            setting.server,
            transcript.server.as_slice(),
            server_line,
            wires.packets(Side::Server),
        );
        Ok(RunState {
            kind: setting.kind(),
            client: SideState::new(alloc, client, server.line),
            server: SideState::new(alloc, server, client.line),
        })
    }

    /// The mark that both sides stand at.
    fn mark(&self) -> Mark
        ensures { result ≡ marks_at self.now }
    {
        Mark {
            client: self.client.mark,
            server: self.server.mark,
        }
    }

    /// Whether both sides stand at the mark as sides of a run do.
    fn are_marked(&self) -> bool
        ensures { IsTrue result ↔ AreStanding self.now }
    {
        is_marked(&self.client, &self.server, self.kind)
            && is_marked(&self.server, &self.client, self.kind)
    }

    /// The mark before the first step, where each side had sent its version line alone. Mark where it isn't so.
    fn first_mark(&self, sent: Option<&SentPair>) -> Result<Mark, AuditEnd>
        ensures sent { IfOk result (λ m. option_copied sent.entry ≡ Some (sent_at m)) }
        ensures begins { IfOk result (λ m. (m ≡ marks_at self.now) × AreStanding self.now) }
        ensures stops { IfErr result (λ e. (e ≡ Fault (MarkFault 0))
            × (option_copied sent.entry ≡ Some (sent_at (marks_at self.now)) → AreStanding self.now → ⊥)) }
        ensures refused { IfErr result IsLaterEnd }
    {
        let mark = self.mark();
        match sent {
            Some(sent) => {
                if is_sent(&mark, sent) && self.are_marked() {
                    Ok(mark)
                } else {
                    Err(broken(0))
                }
            }
            None => Err(broken(0)),
        }
    }

    /// The mark behind a step, where it is one of a run. Mark with this place where it isn't; Memory.
    fn mark_behind(
        &mut self,
        step: &Step,
        sent: Option<&SentPair>,
        place: usize,
    ) -> Result<Mark, AuditEnd>
        ensures sent { IfOk result (λ m. option_copied sent.entry ≡ Some (sent_at m)) }
        ensures goes_on { IfOk result (λ m. GoesOnTo step.now self.old m self.new) }
        ensures stops { IfErr result (λ e. (e ≡ Memory) ⊎ ((e ≡ Fault (MarkFault place))
            × ((p : SentPair) → option_copied sent.entry ≡ Some p → StopsAt step.now p self.old))) }
        ensures refused { IfErr result IsLaterEnd }
    {
        let Some(sent) = sent else {
            return Err(broken(place as u64));
        };
        match self.next_mark(step, *sent)? {
            Some(mark) => Ok(mark),
            None => Err(broken(place as u64)),
        }
    }

    /// The mark behind a step, where it is one of a run.
    fn next_mark(&mut self, step: &Step, sent: SentPair) -> Result<Option<Mark>, AllocError>
        ensures sent { IfOk result (λ found. IfSome found (λ m. sent_at m ≡ sent)) }
        ensures goes_on { IfOk result (λ found. IfSome found (λ m. GoesOnTo step.now self.old m self.new)) }
        ensures stops { IfOk result (λ found. found ≡ None → StopsAt step.now sent self.old) }
    {
        let before = self.mark();
        let after = self.come(step, sent)?;
        if !self.stands_behind(step, &before) {
            return Ok(None);
        }
        if self.see_causes(step)? {
            Ok(Some(after))
        } else {
            Ok(None)
        }
    }

    /// Brings both sides to the mark behind a step.
    fn come(&mut self, step: &Step, sent: SentPair) -> Result<Mark, AllocError>
        ensures sent { IfOk result (λ m. sent_at m ≡ sent) }
        ensures mark { IfOk result (λ m. m ≡ marks_at self.new) }
        ensures comes { OnOk result (ComesBoth step.now sent self.old self.new) }
    {
        let before = self.mark();
        let others = self.server.facts.packets;
        self.client.come(Side::Client, others, step, &before, sent)?;
        let others = self.client.facts.packets;
        self.server.come(Side::Server, others, step, &before, sent)?;
        Ok(self.mark())
    }

    /// Whether both sides stand behind a step as sides of a run do; `before` is the mark before it.
    fn stands_behind(&self, step: &Step, before: &Mark) -> bool
        ensures { IsTrue result ↔ StandBehind step.now before.now self.now }
    {
        self.has_effect(step, before) && self.are_marked() && self.begins(step, before)
    }

    /// Whether the step has its effect.
    fn has_effect(&self, step: &Step, before: &Mark) -> bool
        ensures { IsTrue result ↔ HasChanged step.now before.now self.now.client self.now.server }
    {
        let client = Change {
            before: before.client,
            after: self.client.mark,
        };
        let server = Change {
            before: before.server,
            after: self.server.mark,
        };
        match step {
            Step::Submit(side, _) | Step::Deliver(side, _) | Step::Rekey(side) => match side {
                Side::Client => is_step_of_one(step, &client, &server),
                Side::Server => is_step_of_one(step, &server, &client),
            },
            Step::Settle => {
                is_settled(&self.client, &self.server)
                    && is_settled(&self.server, &self.client)
                    && keep_sent(&client, &server)
            }
        }
    }

    /// Whether a rekey outside an exchange began one exchange.
    fn begins(&self, step: &Step, before: &Mark) -> bool
        ensures { IsTrue result ↔ (BeginsOneMore step.now before.now.client self.now.client
            × BeginsOneMore step.now before.now.server self.now.server) }
    {
        begins_one(&self.client, step, &before.client)
            && begins_one(&self.server, step, &before.server)
    }

    /// Keeps the causes of the exchanges that were begun in a step. Whether each has one.
    fn see_causes(&mut self, step: &Step) -> Result<bool, AllocError>
        ensures keeps { OnOk result (KeepsBothCauses step.now self.old self.new) }
        ensures told { IfOk result (λ all. IsTrue all ↔ HaveBothCauses self.old self.new) }
    {
        let client_from = self.client.causes.len();
        let server_from = self.server.causes.len();
        see_causes(&mut self.client, step)?;
        see_causes(&mut self.server, step)?;
        Ok(
            have_causes(&self.client, &self.server, client_from)
                && have_causes(&self.server, &self.client, server_from),
        )
    }
}

/// Whether a side began one exchange, where the step is its rekey and it was outside one.
fn begins_one(half: &SideState<'_>, step: &Step, before: &SideMark) -> bool
    ensures { IsTrue result ↔ BeginsOneMore step.now before.now half.now }
{
    before.inside
        || !is_rekey_of(step, half.facts.side)
        || half.own.kexinits.checked_sub(1) == Some(half.causes.len())
}
