//! What the parts of a side tell of a call, and what calls on a side and on a link do by that, so that a clause names
//! it once.

ghost use Rattle.std.specs.Prelude.{◌≡◌, ℕ, List};
ghost use Rattle.ssh_kex.specs.declared.config.Config.{Config};
ghost use Rattle.ssh_rules.specs.declared.link.LinkReport.{LinkReport};
ghost use Rattle.ssh_rules.specs.declared.link.Mark.{Mark};
ghost use Rattle.ssh_rules.specs.declared.link.Step.{Step};
ghost use Rattle.ssh_run.specs.Asking.{LinkAsks, PartAsks, PieceAsks, SideAsks, TurnsAsk};
ghost use Rattle.ssh_run.specs.Carrying.{AsksKeys, CarriesTo, RunsOn, SettlesAll, StepsLink, SubmitsOne, TakesTurns};
ghost use Rattle.ssh_run.specs.LinkEnds.{BothAnswered, LeavesBoth, LeavesSide, carried_end, link_of};
ghost use Rattle.ssh_run.specs.RefusedCarrying.{RefusesCarrying, RefusesRun, RefusesSettle, RefusesLinkStep, RefusesTurn, Telling, telling_of};
ghost use Rattle.ssh_run.specs.Stepping.{LinkState, TakesStep};
ghost use Rattle.ssh_run.specs.declared.link.Carrier.{Carrier};
ghost use Rattle.ssh_run.specs.declared.link_end.LinkEnd.{LinkEnd};
ghost use Rattle.ssh_transport.specs.Drawing.{AreDrawn};
ghost use Rattle.ssh_wire.specs.declared.error.Error.{Error};

use rand_core::Rng;
use ssh_kex::{Agreement, GroupLookup, Handed, HostKeys, Parts};
use ssh_rules::Asked;

/// What the parts of a side say and refuse between two states, and what calls on the side do by that.
pub trait Told {
    ghost telling: { Config → Self → Self → Telling };

    // A payload was submitted, an exchange asked for, bytes of the other's output carried, or they were refused.
    ghost submits: { LinkEnd → Self → List ℕ → LinkEnd → Type 0 };

    ghost rekeys: { LinkEnd → Self → LinkEnd → Type 0 };

    ghost carries: { LinkEnd → Self → List ℕ → ℕ → LinkEnd → Type 0 };

    ghost refuses: { LinkEnd → Self → Self → List ℕ → ℕ → Error → Type 0 };

    // No part was asked; none more often than the events between the ends let it be; and how often where a piece broke
    // off.
    ghost unasked: { Self → Self → Type 0 };

    ghost asks: { LinkEnd → LinkEnd → Self → Self → Type 0 };

    ghost asks_for_piece: { LinkEnd → List ℕ → ℕ → Self → Self → Type 0 };
}

impl<A: Agreement, H: HostKeys, G: GroupLookup, R> Told for Parts<A, H, G, R> {
    ghost telling = { λ config p q. telling_of A.Agreement H.HostKeys G.GroupLookup config p.agreement q.agreement
        p.hosts q.hosts p.groups q.groups };

    ghost submits = { λ e p payload e'. SubmitsOne (⟦<Parts<A, H, G, R> as Handed>⟧.says e.transport.config p)
        (carried_end e) payload (carried_end e') };

    ghost rekeys = { λ e p e'. AsksKeys (⟦<Parts<A, H, G, R> as Handed>⟧.says e.transport.config p) (carried_end e)
        (carried_end e') };

    ghost carries = { λ e p wire count e'. CarriesTo (⟦<Parts<A, H, G, R> as Handed>⟧.says e.transport.config p)
        (carried_end e) wire count (carried_end e') };

    ghost refuses = { λ e p q wire count error. RefusesCarrying
        (telling_of A.Agreement H.HostKeys G.GroupLookup e.transport.config p.agreement q.agreement p.hosts q.hosts
        p.groups q.groups) (carried_end e) wire count error };

    ghost unasked = { λ p q. (⟦<Parts<A, H, G, R> as Asked>⟧.calls q) ≡ (⟦<Parts<A, H, G, R> as Asked>⟧.calls p) };

    ghost asks = { λ e e' p q. SideAsks e.transport e'.transport (⟦<Parts<A, H, G, R> as Asked>⟧.calls p)
        (⟦<Parts<A, H, G, R> as Asked>⟧.calls q) };

    ghost asks_for_piece = { λ e wire count p q. PieceAsks (⟦<Parts<A, H, G, R> as Handed>⟧.says e.transport.config p)
        (carried_end e) wire count (⟦<Parts<A, H, G, R> as Asked>⟧.calls p) (⟦<Parts<A, H, G, R> as Asked>⟧.calls q) };
}

/// What calls on a link do by what the parts of both sides say, the client's before the server's.
pub trait LinkTold {
    // A step, a settle, turns of both, and a run with its marks, from one link to the next.
    ghost steps: { Carrier → Self → Self → Step → Carrier → Type 0 };

    ghost settles: { Carrier → Self → Self → Carrier → Type 0 };

    ghost takes_turns: { Carrier → Self → Self → Carrier → Type 0 };

    ghost runs: { Carrier → Self → Self → List Step → Carrier → List Mark → Type 0 };

    // The same that are refused.
    ghost refuses_step: { Carrier → Self → Self → Self → Self → Step → Error → Type 0 };

    ghost refuses_settle: { Carrier → Self → Self → Self → Self → Error → Type 0 };

    ghost refuses_turn: { Carrier → Self → Self → Self → Self → Error → Type 0 };

    ghost refuses_run: { Carrier → Self → Self → Self → Self → List Step → Error → Type 0 };

    // How often the parts were asked: of a turn in part, of turns and one in part, of steps and one in part.
    ghost part_asks: { Carrier → Self → Self → Self → Self → Type 0 };

    ghost turns_ask: { Carrier → Self → Self → Self → Self → Type 0 };

    ghost steps_ask: { Carrier → Self → Self → Self → Self → List Step → Type 0 };
}

impl<A: Agreement, H: HostKeys, G: GroupLookup, R> LinkTold for Parts<A, H, G, R> {
    ghost steps = { λ l p q step l'. StepsLink (⟦<Parts<A, H, G, R> as Handed>⟧.says l.client.transport.config p)
        (⟦<Parts<A, H, G, R> as Handed>⟧.says l.server.transport.config q) step (link_of l) (link_of l') };

    ghost settles = { λ l p q l'. SettlesAll (⟦<Parts<A, H, G, R> as Handed>⟧.says l.client.transport.config p)
        (⟦<Parts<A, H, G, R> as Handed>⟧.says l.server.transport.config q) (link_of l) (link_of l') };

    ghost takes_turns = { λ l p q l'. TakesTurns (⟦<Parts<A, H, G, R> as Handed>⟧.says l.client.transport.config p)
        (⟦<Parts<A, H, G, R> as Handed>⟧.says l.server.transport.config q) (link_of l) (link_of l') };

    ghost runs = { λ l p q steps l' marks. RunsOn (⟦<Parts<A, H, G, R> as Handed>⟧.says l.client.transport.config p)
        (⟦<Parts<A, H, G, R> as Handed>⟧.says l.server.transport.config q) l.bound steps (link_of l)
        (link_of l') marks };

    ghost refuses_step = { λ l p p' q q' step e. RefusesLinkStep (⟦<Parts<A, H, G, R> as Told>⟧.telling
        l.client.transport.config p p') (⟦<Parts<A, H, G, R> as Told>⟧.telling l.server.transport.config q q') l.bound
        step (link_of l) e };

    ghost refuses_settle = { λ l p p' q q' e. RefusesSettle (⟦<Parts<A, H, G, R> as Told>⟧.telling
        l.client.transport.config p p') (⟦<Parts<A, H, G, R> as Told>⟧.telling l.server.transport.config q q') l.bound
        (link_of l) e };

    ghost refuses_turn = { λ l p p' q q' e. RefusesTurn (⟦<Parts<A, H, G, R> as Told>⟧.telling
        l.client.transport.config p p') (⟦<Parts<A, H, G, R> as Told>⟧.telling l.server.transport.config q q')
        (link_of l) e };

    ghost refuses_run = { λ l p p' q q' steps e. RefusesRun (⟦<Parts<A, H, G, R> as Told>⟧.telling
        l.client.transport.config p p') (⟦<Parts<A, H, G, R> as Told>⟧.telling l.server.transport.config q q') steps
        (link_of l) e };

    ghost part_asks = { λ l p p' q q'. PartAsks (⟦<Parts<A, H, G, R> as Handed>⟧.says l.client.transport.config p)
        (⟦<Parts<A, H, G, R> as Handed>⟧.says l.server.transport.config q) (link_of l)
        (⟦<Parts<A, H, G, R> as Asked>⟧.calls p) (⟦<Parts<A, H, G, R> as Asked>⟧.calls p')
        (⟦<Parts<A, H, G, R> as Asked>⟧.calls q) (⟦<Parts<A, H, G, R> as Asked>⟧.calls q') };

    ghost turns_ask = { λ l p p' q q'. TurnsAsk (⟦<Parts<A, H, G, R> as Handed>⟧.says l.client.transport.config p)
        (⟦<Parts<A, H, G, R> as Handed>⟧.says l.server.transport.config q) (link_of l)
        (⟦<Parts<A, H, G, R> as Asked>⟧.calls p) (⟦<Parts<A, H, G, R> as Asked>⟧.calls p')
        (⟦<Parts<A, H, G, R> as Asked>⟧.calls q) (⟦<Parts<A, H, G, R> as Asked>⟧.calls q') };

    ghost steps_ask = { λ l p p' q q' steps. LinkAsks (⟦<Parts<A, H, G, R> as Handed>⟧.says l.client.transport.config p)
        (⟦<Parts<A, H, G, R> as Handed>⟧.says l.server.transport.config q) steps (link_of l)
        (⟦<Parts<A, H, G, R> as Asked>⟧.calls p) (⟦<Parts<A, H, G, R> as Asked>⟧.calls p')
        (⟦<Parts<A, H, G, R> as Asked>⟧.calls q) (⟦<Parts<A, H, G, R> as Asked>⟧.calls q') };
}

/// What a call leaves of a side's parts, so that a clause names it once: from where the first KEXINIT is drawn, and
/// that each part answered.
pub trait Leaving {
    // A call on a side leaves it so.
    ghost leaves: { LinkEnd → LinkEnd → Self → Self → Type 0 };

    // And one on a link both, with the client's parts before the server's.
    ghost leaves_both: { Carrier → Carrier → Self → Self → Self → Self → Type 0 };

    // What both sides sent, by the generators at the start; and what was answered in the run.
    ghost drew: { Config → Config → Self → Self → LinkReport → Type 0 };

    ghost answered: { Config → Config → Self → Self → Self → Self → LinkReport → Type 0 };
}

impl<A: Agreement, H: HostKeys, G: GroupLookup, R: Rng> Leaving for Parts<A, H, G, R> {
    ghost leaves = { λ e e' p q. LeavesSide e.transport e'.transport
        (record { stream = R.stream p.rng; tests = ⟦<Parts<A, H, G, R> as Asked>⟧.tests p })
        (record { stream = R.stream q.rng; tests = ⟦<Parts<A, H, G, R> as Asked>⟧.tests q }) };

    ghost leaves_both = { λ l l' p p' q q'. LeavesBoth (link_of l) (link_of l')
        (record { stream = R.stream p.rng; tests = ⟦<Parts<A, H, G, R> as Asked>⟧.tests p })
        (record { stream = R.stream p'.rng; tests = ⟦<Parts<A, H, G, R> as Asked>⟧.tests p' })
        (record { stream = R.stream q.rng; tests = ⟦<Parts<A, H, G, R> as Asked>⟧.tests q })
        (record { stream = R.stream q'.rng; tests = ⟦<Parts<A, H, G, R> as Asked>⟧.tests q' }) };

    ghost drew = { λ client server p q report. AreDrawn client server (R.stream p.rng) (R.stream q.rng)
        report.client.wire report.server.wire };

    ghost answered = { λ client server p p' q q' report. BothAnswered client server
        (⟦<Parts<A, H, G, R> as Asked>⟧.tests p) (⟦<Parts<A, H, G, R> as Asked>⟧.tests p')
        (⟦<Parts<A, H, G, R> as Asked>⟧.tests q) (⟦<Parts<A, H, G, R> as Asked>⟧.tests q') report };
}

/// What a step of a link does, and why it is refused, by what the parts of both sides say, the client's before the
/// server's.
pub trait Stepped {
    ghost takes_step: { LinkState → Self → Self → Step → LinkState → Type 0 };

    ghost refuses_it: { LinkState → Self → Self → Self → Self → Step → Error → Type 0 };
}

impl<A: Agreement, H: HostKeys, G: GroupLookup, R> Stepped for Parts<A, H, G, R> {
    ghost takes_step = { λ l p q step l'. TakesStep
        (⟦<Parts<A, H, G, R> as Handed>⟧.says l.carried.client.transport.config p)
        (⟦<Parts<A, H, G, R> as Handed>⟧.says l.carried.server.transport.config q) step l l' };

    ghost refuses_it = { λ l p p' q q' step e. RefusesLinkStep
        (⟦<Parts<A, H, G, R> as Told>⟧.telling l.carried.client.transport.config p p')
        (⟦<Parts<A, H, G, R> as Told>⟧.telling l.carried.server.transport.config q q') l.bound step l.carried e };
}
