//! Whether a side's mark says what its packets show.

ghost use Rattle.std.specs.Prelude.{◌↔◌, IsTrue};
ghost use Rattle.ssh_judge.specs.Standing.{AreAtPackets, HasStarted, IsPrompt, IsQuiet, StandsMarked};

use crate::side::SideState;
use ssh_blocks::messages_due;

/// Whether a side stands at its mark as a side of a run does; `kind` says whether exchanges are group exchanges.
pub(crate) fn is_marked(half: &SideState<'_>, other: &SideState<'_>, kind: bool) -> bool
    ensures { IsTrue result ↔ StandsMarked half.now other.now kind }
{
    stands_at_packets(half, other)
        && is_quiet_outside(half)
        && has_started(half, other)
        && is_prompt(half, kind)
}

/// What was sent ends with a packet, or with the version line, and no more was taken than was sent.
fn stands_at_packets(half: &SideState<'_>, other: &SideState<'_>) -> bool
    ensures { IsTrue result ↔ AreAtPackets half.now other.now }
{
    half.own.end == half.mark.sent
        && half.mark.sent <= half.facts.length
        && half.mark.taken <= other.mark.sent
}

/// Outside an exchange all that was submitted is sent, and no limit is reached.
fn is_quiet_outside(half: &SideState<'_>) -> bool
    ensures { IsTrue result ↔ IsQuiet half.now }
{
    half.mark.inside
        || (half.mark.submitted <= half.own.carried
            && half.own.epoch_bytes < half.facts.write_limit
            && half.theirs.epoch_bytes < half.facts.read_limit)
}

/// The first exchange is begun exactly where the other's version line was taken.
fn has_started(half: &SideState<'_>, other: &SideState<'_>) -> bool
    ensures { IsTrue result ↔ HasStarted half.now other.now }
{
    if 0 < half.own.kexinits {
        other.facts.line <= half.mark.taken
    } else {
        half.mark.taken < other.facts.line
    }
}

/// An exchange that the other began is begun too, and each message that is due is written.
fn is_prompt(half: &SideState<'_>, kind: bool) -> bool
    ensures { IsTrue result ↔ IsPrompt half.now kind }
{
    if half.own.kexinits == 0 {
        return half.theirs.kexinits <= 1;
    }
    if half.theirs.kexinits == half.own.kexinits {
        return half.own.messages == messages_due(half.facts.side, kind, half.theirs.messages);
    }
    half.theirs.kexinits < half.own.kexinits
        && half.own.messages == messages_due(half.facts.side, kind, 0)
}
