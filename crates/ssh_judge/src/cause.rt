//! Whether each exchange behind the first had a cause.

ghost use Rattle.std.specs.Prelude.{◌≡◌, ◌↔◌, Some, true, slice_get, IsTrue, OnOk};
ghost use Rattle.ssh_judge.specs.Standing.{HasOwnCause, HaveCausesFrom, KeepsCauses};

use crate::side::{SideState, is_rekey_of};
use ssh_rules::link::Step;
use std::alloc::AllocError;

/// Keeps of each exchange that the side began in this step whether it had a cause of its own.
pub(crate) fn see_causes(half: &mut SideState<'_>, step: &Step) -> Result<(), AllocError>
    ensures { OnOk result (KeepsCauses step.now half.old half.new) }
{
    for k in half.causes.len()..half.own.kexinits {
        let has_cause = has_own_cause(half, step, k);
        half.causes.push(has_cause)?;
    }
    Ok(())
}

/// Whether exchange k, from 0, was asked for in this step, or a limit was reached in the epoch before it. The first
/// needs no cause.
fn has_own_cause(half: &SideState<'_>, step: &Step, k: usize) -> bool
    ensures { IsTrue result ↔ HasOwnCause half.now step.now k }
{
    k == 0
        || is_rekey_of(step, half.facts.side)
        || half.facts.write_limit <= half.own.bytes_in(k)
        || half.facts.read_limit <= half.theirs.bytes_in(k)
}

/// Whether each exchange from this one on had a cause of its own, or follows one of the other side that had.
pub(crate) fn have_causes(half: &SideState<'_>, other: &SideState<'_>, from: usize) -> bool
    ensures { IsTrue result ↔ HaveCausesFrom half.now other.now from }
{
    for k in from..half.own.kexinits {
        if !has_cause(half, k) && !(k < half.theirs.kexinits && has_cause(other, k)) {
            return false;
        }
    }
    true
}

/// Whether the side's exchange k had a cause of its own.
fn has_cause(half: &SideState<'_>, k: usize) -> bool
    ensures { IsTrue result ↔ (slice_get half.now.causes.items k ≡ Some true) }
{
    half.causes.get(k) == Some(&true)
}
