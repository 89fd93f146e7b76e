//! The link, with the parts of both sides.

ghost use Rattle.std.specs.Prelude.{◌≡◌, ◌<◌, IfErr, IfOk, OnOk, ◌∷◌, [], false, true};
ghost use Rattle.ssh_rules.specs.Valid.{is_good_payload};
ghost use Rattle.ssh_rules.specs.declared.link.Step.TheVariants as steps;
ghost use Rattle.ssh_run.specs.RunCauses.{submits_good};
ghost use Rattle.ssh_mux.specs.Breaking.{BreaksAt, IsNoMessageFault, is_message_refused};
ghost use Rattle.ssh_mux.specs.Doing.{OnlySubmits};
ghost use Rattle.ssh_mux.specs.Running.{Carries, CarriesOut, HasReceived, IsEmptied, IsLinkFault, LeavesNone, LinkGoes, both_of, is_submit, on_link};
ghost use Rattle.ssh_mux.specs.Stopping.{MakesGood, TurnsOnce, WhereStopped, submitted_in};

use crate::fault::RunFault;
use crate::linked::Linked;
use crate::pair::Pair;
use crate::typed::see_steps;
use rand_core::Rng;
use ssh_kex::{Agreement, GroupLookup, Handed, HostKeys, Parts};
use ssh_rules::link::Step;
use ssh_run::Link;
use ssh_wire::{Blob, Payload, Side};

/// Carries out a step of the link.
pub(crate) fn step_link<'c, A: Agreement, H: HostKeys, G: GroupLookup, R: Rng>(
    link: &mut Link<'c>,
    client_parts: &mut Parts<A, H, G, R>,
    server_parts: &mut Parts<A, H, G, R>,
    step: Step,
) -> Result<(), RunFault>
    ensures step { OnOk result (LinkGoes step link.old link.new) }
    ensures fault { IfErr result IsLinkFault }
    ensures goes { OnOk result (⟦<Parts<A, H, G, R> as Linked>⟧.goes_on link.old client_parts.old server_parts.old
        link.new) }
    ensures unbroken { IfErr result IsNoMessageFault }
    ensures stops { IfErr result (λ fault. WhereStopped fault (λ e. submits_good step ≡ true
        → ⟦<Parts<A, H, G, R> as Linked>⟧.refuses_on link.old client_parts.old client_parts.new server_parts.old
        server_parts.new e)) }
    ensures client_keeps { ⟦<Parts<A, H, G, R> as Handed>⟧.keeps client_parts.old client_parts.new }
    ensures server_keeps { ⟦<Parts<A, H, G, R> as Handed>⟧.keeps server_parts.old server_parts.new }
{
    see_steps(link.steps());
    match link.step(client_parts, server_parts, step) {
        Ok(()) => Ok(()),
        Err(error) => Err(RunFault::Link(error)),
    }
}

/// Submits a payload to a side.
fn submit_one<'c, A: Agreement, H: HostKeys, G: GroupLookup, R: Rng>(
    link: &mut Link<'c>,
    client_parts: &mut Parts<A, H, G, R>,
    server_parts: &mut Parts<A, H, G, R>,
    side: Side,
    payload: Payload,
) -> Result<(), RunFault>
    ensures step { OnOk result (LinkGoes (steps.Submit side payload) link.old link.new) }
    ensures fault { IfErr result IsLinkFault }
    ensures goes { OnOk result (⟦<Parts<A, H, G, R> as Linked>⟧.goes_on link.old client_parts.old server_parts.old
        link.new) }
    ensures unbroken { IfErr result IsNoMessageFault }
    ensures stops { IfErr result (λ fault. WhereStopped fault (λ e. is_good_payload payload ≡ true
        → ⟦<Parts<A, H, G, R> as Linked>⟧.refuses_on link.old client_parts.old client_parts.new server_parts.old
        server_parts.new e)) }
    ensures client_keeps { ⟦<Parts<A, H, G, R> as Handed>⟧.keeps client_parts.old client_parts.new }
    ensures server_keeps { ⟦<Parts<A, H, G, R> as Handed>⟧.keeps server_parts.old server_parts.new }
{
    let step = Step::Submit(side, Blob::new(payload.into_vec()));
    step_link(link, client_parts, server_parts, step)
}

/// Submits what a side made, each message as a step. Whether there was any: else the link is as it was.
#[tactic(auto, using(crate::proofs::Doing::only_none))]
pub(crate) fn submit_made<'c, A: Agreement, H: HostKeys, G: GroupLookup, R: Rng>(
    link: &mut Link<'c>,
    client_parts: &mut Parts<A, H, G, R>,
    server_parts: &mut Parts<A, H, G, R>,
    pair: &mut Pair,
    side: Side,
) -> Result<bool, RunFault>
    ensures carries { OnOk result (Carries (on_link pair.old link.old) (on_link pair.new link.new)) }
    ensures submits { OnOk result (OnlySubmits link.old link.new) }
    ensures emptied { OnOk result (IsEmptied side (both_of pair.old) (both_of pair.new)) }
    ensures still { IfOk result (λ some. some ≡ false → link.new ≡ link.old) }
    ensures some { IfOk result (λ some. some ≡ true → submitted_in link.old < submitted_in link.new) }
    ensures fault { IfErr result IsLinkFault }
    ensures goes { OnOk result (⟦<Parts<A, H, G, R> as Linked>⟧.goes_on link.old client_parts.old server_parts.old
        link.new) }
    ensures unbroken { IfErr result IsNoMessageFault }
    ensures stops { IfErr result (λ fault. WhereStopped fault (λ e. MakesGood (both_of pair.old)
        → ⟦<Parts<A, H, G, R> as Linked>⟧.refuses_on link.old client_parts.old client_parts.new server_parts.old
        server_parts.new e)) }
    ensures client_keeps { ⟦<Parts<A, H, G, R> as Handed>⟧.keeps client_parts.old client_parts.new }
    ensures server_keeps { ⟦<Parts<A, H, G, R> as Handed>⟧.keeps server_parts.old server_parts.new }
{
    let made = pair.take_output(side).into_vec();
    let some = !made.is_empty();
    for payload in made {
        submit_one(link, client_parts, server_parts, side, payload)?;
    }
    Ok(some)
}

/// Lets a side receive what was delivered to it, and submits what it made. Whether there was any: else the link is as
/// it was.
pub(crate) fn receive_delivered<'c, A: Agreement, H: HostKeys, G: GroupLookup, R: Rng>(
    link: &mut Link<'c>,
    client_parts: &mut Parts<A, H, G, R>,
    server_parts: &mut Parts<A, H, G, R>,
    pair: &mut Pair,
    side: Side,
) -> Result<bool, RunFault>
    ensures carries { OnOk result (Carries (on_link pair.old link.old) (on_link pair.new link.new)) }
    ensures submits { OnOk result (OnlySubmits link.old link.new) }
    ensures received { OnOk result (HasReceived side link.old (both_of pair.old) (both_of pair.new)) }
    ensures still { IfOk result (λ some. some ≡ false → link.new ≡ link.old) }
    ensures some { IfOk result (λ some. some ≡ true → submitted_in link.old < submitted_in link.new) }
    ensures fault { IfErr result IsLinkFault }
    ensures goes { OnOk result (⟦<Parts<A, H, G, R> as Linked>⟧.goes_on link.old client_parts.old server_parts.old
        link.new) }
    ensures breaks { IfErr result (λ fault. is_message_refused fault ≡ true
        → BreaksAt fault (on_link pair.old link.old) link.new
        × ⟦<Parts<A, H, G, R> as Linked>⟧.goes_on link.old client_parts.old server_parts.old link.new) }
    ensures stops { IfErr result (λ fault. WhereStopped fault (λ e. MakesGood (both_of pair.old)
        → ⟦<Parts<A, H, G, R> as Linked>⟧.refuses_on link.old client_parts.old client_parts.new server_parts.old
        server_parts.new e)) }
    ensures client_keeps { ⟦<Parts<A, H, G, R> as Handed>⟧.keeps client_parts.old client_parts.new }
    ensures server_keeps { ⟦<Parts<A, H, G, R> as Handed>⟧.keeps server_parts.old server_parts.new }
{
    pair.receive(side, link.delivered(side))?;
    let made = submit_made(link, client_parts, server_parts, pair, side)?;
    Ok(made)
}

/// Carries all, and lets both sides receive it. Whether a message was made: else nothing is on the way.
pub(crate) fn carry_all<'c, A: Agreement, H: HostKeys, G: GroupLookup, R: Rng>(
    link: &mut Link<'c>,
    client_parts: &mut Parts<A, H, G, R>,
    server_parts: &mut Parts<A, H, G, R>,
    pair: &mut Pair,
) -> Result<bool, RunFault>
    ensures carries { OnOk result (Carries (on_link pair.old link.old) (on_link pair.new link.new)) }
    ensures settles { OnOk result (CarriesOut (steps.Settle ∷ []) link.old link.new) }
    ensures settled { IfOk result (λ some. some ≡ false → LeavesNone (on_link pair.new link.new)) }
    ensures turns { IfOk result (λ some. some ≡ true → TurnsOnce (on_link pair.old link.old)
        (on_link pair.new link.new)) }
    ensures fault { IfErr result IsLinkFault }
    ensures goes { OnOk result (⟦<Parts<A, H, G, R> as Linked>⟧.goes_on link.old client_parts.old server_parts.old
        link.new) }
    ensures breaks { IfErr result (λ fault. is_message_refused fault ≡ true
        → BreaksAt fault (on_link pair.old link.old) link.new
        × ⟦<Parts<A, H, G, R> as Linked>⟧.goes_on link.old client_parts.old server_parts.old link.new) }
    ensures stops { IfErr result (λ fault. WhereStopped fault (λ e. MakesGood (both_of pair.old)
        → ⟦<Parts<A, H, G, R> as Linked>⟧.refuses_on link.old client_parts.old client_parts.new server_parts.old
        server_parts.new e)) }
    ensures client_keeps { ⟦<Parts<A, H, G, R> as Handed>⟧.keeps client_parts.old client_parts.new }
    ensures server_keeps { ⟦<Parts<A, H, G, R> as Handed>⟧.keeps server_parts.old server_parts.new }
{
    step_link(link, client_parts, server_parts, Step::Settle)?;
    let client = receive_delivered(link, client_parts, server_parts, pair, Side::Client)?;
    let server = receive_delivered(link, client_parts, server_parts, pair, Side::Server)?;
    Ok(client || server)
}
