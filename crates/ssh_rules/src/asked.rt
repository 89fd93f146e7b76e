//! What the parts of a side are asked, and what of it they refuse, so that a clause names them once.

ghost use Rattle.ssh_kex.specs.Parts.{Setup};
ghost use Rattle.ssh_kex.specs.declared.exchange.ServerHost.{ServerHost};
ghost use Rattle.ssh_rules.specs.Answering.{PartTests, tests_by};
ghost use Rattle.ssh_rules.specs.Asking.{PartCalls, counted_by};
ghost use Rattle.ssh_rules.specs.LinkCauses.{Rises, rises_of, unobliged_of};
ghost use Rattle.ssh_rules.specs.Refusing.{untrusted_of};

use ssh_kex::{Agreement, GroupLookup, HostKeys, Parts};

/// How often the parts of a side were asked, and what they counted.
pub trait Asked {
    // How often each was asked.
    ghost calls: { Self → PartCalls };

    // What each says of itself where it has answered so many calls, and refused none.
    ghost tests: { Self → PartTests };

    // What it means that the host keys don't trust a host.
    ghost distrusts: { Self → Self → ServerHost → Type 0 };

    // Which of their counts of refusals rose.
    ghost rises: { Self → Self → Rises };

    // And which rose of parts that don't oblige between these states, under both configurations, beside the server's.
    ghost unobliged: { Setup → Self → Self → Self → Rises };
}

impl<A: Agreement, H: HostKeys, G: GroupLookup, R> Asked for Parts<A, H, G, R> {
    ghost calls = { λ p. counted_by A.Agreement H.HostKeys G.GroupLookup p.agreement p.hosts p.groups };

    ghost tests = { λ p. tests_by A.Agreement H.HostKeys G.GroupLookup p.agreement p.hosts p.groups };

    ghost distrusts = { λ p q. untrusted_of H.HostKeys p.hosts q.hosts };

    ghost rises = { λ p q. rises_of A.Agreement H.HostKeys G.GroupLookup
        p.agreement q.agreement p.hosts q.hosts p.groups q.groups };

    ghost unobliged = { λ setup server p q. unobliged_of A.Agreement H.HostKeys G.GroupLookup setup server.hosts
        server.groups p.agreement q.agreement p.hosts q.hosts p.groups q.groups };
}
