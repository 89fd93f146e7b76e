//! What all parts of a side say together, so that a clause names them once.

ghost use Rattle.std.specs.Prelude.{ℕ};
ghost use Rattle.ssh_kex.specs.Members.{AgreementKept, GroupsKept, HostsKept};
ghost use Rattle.ssh_kex.specs.Parts.{Answers, KeepsParts, PartsAnswer};
ghost use Rattle.ssh_kex.specs.Refusals.{Denies};
ghost use Rattle.ssh_kex.specs.Setting.{Says};
ghost use Rattle.ssh_kex.specs.Stepping.{denies_of, says_of};
ghost use Rattle.ssh_kex.specs.declared.config.Config.{Config};

use crate::parts::{Agreement, GroupLookup, HostKeys, Parts};

/// What the parts of a side say, refuse and keep.
pub trait Handed {
    // What may be supposed of them under a configuration.
    ghost says: { Config → Self → Says };

    // What it means that one refused between two states.
    ghost denies: { Self → Self → Denies };

    // What each call keeps.
    ghost keeps: { Self → Self → Type 0 };

    // Each answered so many calls between two states, and refused none.
    ghost answers: { Self → Self → ℕ → ℕ → ℕ → Type 0 };
}

impl<A: Agreement, H: HostKeys, G: GroupLookup, R> Handed for Parts<A, H, G, R> {
    ghost says = { λ config p. says_of A.Agreement H.HostKeys G.GroupLookup config p.agreement p.hosts p.groups };

    ghost denies = { λ p q. denies_of A.Agreement H.HostKeys G.GroupLookup p.agreement q.agreement p.hosts q.hosts
        p.groups q.groups };

    ghost keeps = { λ p q. KeepsParts (AgreementKept A.Agreement p.agreement q.agreement)
        (HostsKept H.HostKeys p.hosts q.hosts) (GroupsKept G.GroupLookup p.groups q.groups) };

    ghost answers = { λ p q agreement hosts groups. PartsAnswer (Answers A.answered agreement p.agreement q.agreement)
        (Answers H.answered hosts p.hosts q.hosts) (Answers G.answered groups p.groups q.groups) };
}
