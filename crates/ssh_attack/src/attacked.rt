//! What the parts of a side tell while it is fed any bytes, so that a clause names them once.

ghost use Rattle.ssh_kex.specs.Parts.{Setup};
ghost use Rattle.ssh_kex.specs.declared.config.Config.{Config};
ghost use Rattle.ssh_rules.specs.AttackCauses.{PartsDo, parts_of};
ghost use Rattle.ssh_rules.specs.Attacking.{Tells, tells_by};
ghost use Rattle.ssh_rules.specs.Standing.{Standing};
ghost use Rattle.ssh_attack.specs.AttackEnds.{LeavesEnd};

use rand_core::Rng;
use ssh_kex::{Agreement, GroupLookup, HostKeys, Parts};
use ssh_rules::Asked;

/// What the parts of a side say, refuse and count between two states.
pub trait Attacked {
    // Of one step.
    ghost tells: { Config → Self → Self → Tells };

    // Of a whole run, under both sides' configurations.
    ghost does: { Setup → Self → Self → PartsDo };
}

impl<A: Agreement, H: HostKeys, G: GroupLookup, R> Attacked for Parts<A, H, G, R> {
    ghost tells = { λ config p q. tells_by A.Agreement H.HostKeys G.GroupLookup config p.agreement q.agreement
        p.hosts q.hosts p.groups q.groups };

    ghost does = { λ s p q. parts_of A.Agreement H.HostKeys G.GroupLookup s p.agreement q.agreement
        p.hosts q.hosts p.groups q.groups };
}

/// What a call leaves of a side's parts, so that a clause names it once: from where the first KEXINIT is drawn, and
/// that each part answered.
pub trait Leaving {
    ghost leaves: { Standing → Standing → Self → Self → Type 0 };
}

impl<A: Agreement, H: HostKeys, G: GroupLookup, R: Rng> Leaving for Parts<A, H, G, R> {
    ghost leaves = { λ t t' p q. LeavesEnd t t'
        (record { stream = R.stream p.rng; tests = ⟦<Parts<A, H, G, R> as Asked>⟧.tests p })
        (record { stream = R.stream q.rng; tests = ⟦<Parts<A, H, G, R> as Asked>⟧.tests q }) };
}
