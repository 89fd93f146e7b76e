//! What each step of a run changes.

ghost use Rattle.std.specs.Prelude.{◌≡◌, ◌↔◌, ◌+◌, ◌<◌, ◌^◌, IfSome, IsTrue};
ghost use Rattle.ssh_judge.specs.Effects.{ChangesOne, IsAsked, KeepsSent, Rests, StaysInside, StaysSame, sent_of, submitted_after, taken_after, taken_more};
ghost use Rattle.ssh_rules.specs.Run as run;
ghost use Rattle.ssh_wire.specs.Sides.{same_side};

use crate::side::SideState;
use ssh_record::SentPair;
use ssh_rules::link::{Mark, SideMark, Step};
use ssh_wire::Side;

/// A side before a step and behind it.
#[derive(Clone, Copy, Drop)]
pub(crate) struct Change {
    pub(crate) before: SideMark,
    pub(crate) after: SideMark,
}

impl Change {
    /// Nothing of the side changed.
    fn is_none(&self) -> bool
        ensures { IsTrue result ↔ StaysSame self.now }
    {
        are_same(&self.after, &self.before)
    }

    /// No byte that was sent is gone.
    fn keeps_sent(&self) -> bool
        ensures { IsTrue result ↔ KeepsSent self.now }
    {
        self.before.sent <= self.after.sent
    }

    /// A side that is inside an exchange stays so.
    fn stays_inside(&self) -> bool
        ensures { IsTrue result ↔ StaysInside self.now }
    {
        self.after.inside || !self.before.inside
    }

    /// An exchange was asked for: inside one nothing changes, and outside one is begun.
    fn is_rekey(&self) -> bool
        ensures { IsTrue result ↔ IsAsked self.now }
    {
        if self.before.inside {
            return self.is_none();
        }
        self.before.sent < self.after.sent && self.after.inside
    }
}

/// Whether two marks of a side are one.
#[tactic(auto, using(crate::proofs::Changing::one_mark))]
fn are_same(a: &SideMark, b: &SideMark) -> bool
    ensures { IsTrue result ↔ (a.now ≡ b.now) }
{
    a.sent == b.sent
        && a.taken == b.taken
        && a.delivered == b.delivered
        && a.finished == b.finished
        && a.inside == b.inside
        && a.submitted == b.submitted
}

/// Whether two sides are one.
pub(crate) fn is_same(a: Side, b: Side) -> bool
    ensures { result ≡ same_side a b }
{
    match (a, b) {
        (Side::Client, Side::Client) | (Side::Server, Side::Server) => true,
        (Side::Client, Side::Server) | (Side::Server, Side::Client) => false,
    }
}

/// A side of a mark.
pub(crate) fn mark_of(mark: &Mark, side: Side) -> SideMark
    ensures { result ≡ run.mark_of side mark.now }
{
    match side {
        Side::Client => mark.client,
        Side::Server => mark.server,
    }
}

/// How much a side has sent.
pub(crate) fn sent_of(sent: SentPair, side: Side) -> u64
    ensures { result ≡ sent_of side sent }
{
    match side {
        Side::Client => sent.client,
        Side::Server => sent.server,
    }
}

/// How much a side that took so much takes, where it is given some bytes more of what the other sent.
fn taken_more(taken: u64, sent: u64, count: u64) -> u64
    ensures { result ≡ taken_more taken sent count }
{
    taken.saturating_add(count.min(sent.saturating_sub(taken)))
}

/// How much a side has taken behind a step, by the mark before it and what is sent behind it.
pub(crate) fn taken_behind(step: &Step, side: Side, before: &Mark, sent: SentPair) -> u64
    ensures { result ≡ taken_after step.now side before.now sent }
{
    let own = mark_of(before, side);
    match step {
        Step::Deliver(to, count) => {
            if is_same(*to, side) {
                taken_more(own.taken, mark_of(before, side.other()).sent, *count)
            } else {
                own.taken
            }
        }
        Step::Settle => sent_of(sent, side.other()),
        Step::Submit(_, _) | Step::Rekey(_) => own.taken,
    }
}

/// How many payloads were submitted to a side behind a step.
pub(crate) fn submitted_behind(step: &Step, side: Side, before: u64) -> u64
    ensures { before + 1 < 2 ^ 64 → result ≡ submitted_after step.now side before }
{
    match step {
        Step::Submit(of, _) => {
            if is_same(*of, side) {
                before.saturating_add(1)
            } else {
                before
            }
        }
        Step::Deliver(_, _) | Step::Rekey(_) | Step::Settle => before,
    }
}

/// Whether a step changes the sides so; the first is the one that it names.
pub(crate) fn is_step_of_one(step: &Step, own: &Change, other: &Change) -> bool
    ensures { IsTrue result ↔ ChangesOne step.now own.now other.now }
{
    if !other.is_none() {
        return false;
    }
    match step {
        Step::Submit(_, _) => own.keeps_sent() && own.stays_inside(),
        Step::Deliver(_, _) => own.keeps_sent(),
        Step::Rekey(_) => own.is_rekey(),
        Step::Settle => false,
    }
}

/// Whether a side is at rest behind a settle: it took and delivered all, no exchange is open, and one was finished
/// since its last rekey.
pub(crate) fn is_settled(half: &SideState<'_>, other: &SideState<'_>) -> bool
    ensures { IsTrue result ↔ Rests half.now other.now }
{
    half.mark.taken == other.mark.sent
        && !half.mark.inside
        && half.mark.delivered == other.mark.submitted
        && half.mark.finished == other.mark.finished
        && 1 <= half.mark.finished
        && is_behind_rekey(half)
}

/// Whether an exchange was finished since the side's last rekey.
fn is_behind_rekey(half: &SideState<'_>) -> bool
    ensures { IsTrue result ↔ IfSome half.now.rekeyed (λ n. n < half.now.mark.finished) }
{
    match half.rekeyed {
        Some(finished) => finished < half.mark.finished,
        None => true,
    }
}

/// Whether a settle keeps all that was sent.
pub(crate) fn keep_sent(client: &Change, server: &Change) -> bool
    ensures { IsTrue result ↔ (KeepsSent client.now × KeepsSent server.now) }
{
    client.keeps_sent() && server.keeps_sent()
}
