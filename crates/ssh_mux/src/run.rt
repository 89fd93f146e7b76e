//! The run of channels over a link.

ghost use Rattle.std.specs.Prelude.{List, ◌≡◌, ◌⊎◌, None, Some, IfErr, IfOk, IfSome, OnOk, Ok, ◌++◌, ◌∷◌, [], true, false};
ghost use Rattle.ssh_kex.specs.Parts.{between};
ghost use Rattle.ssh_wire.specs.declared.error.Error.TheVariants.{Disconnect};
ghost use Rattle.ssh_rules.specs.Headline.{IsLink, chosen_by, kind_by};
ghost use Rattle.ssh_rules.specs.Refused.{group_due};
ghost use Rattle.ssh_rules.specs.RunLaws.{config_of};
ghost use Rattle.ssh_run.specs.RunCauses.{IsValidRun, offered_on, rises_by};
ghost use Rattle.ssh_channels.specs.Asking.{IsRefused};
ghost use Rattle.ssh_mux.specs.Breaking.{BreaksAt, BreaksRun, IsNoMessageFault, is_message_refused};
ghost use Rattle.ssh_mux.specs.Causes.{IsLinkCause};
ghost use Rattle.ssh_mux.specs.Doing.{DoesCall, SettlesSome, link_call};
ghost use Rattle.ssh_mux.specs.Pairs.{are_within, new_pair};
ghost use Rattle.ssh_mux.specs.Program.{HasBefore, IsRefusedRun, IsWholeRun};
ghost use Rattle.ssh_mux.specs.Running.{Called, Carries, IsBrokenOff, IsEndBehind, IsLinkFault, LeavesNone, RefusesStep, RunsSteps, both_of, is_call_refused, on_link, step_fault};
ghost use Rattle.ssh_mux.specs.Stopping.{IsNoDisconnect, IsWanting, MakesGood, RunsOut, TurnsOn, TurnsOut, WhereStopped, turns_behind};
ghost use Rattle.ssh_mux.specs.declared.fault.RunFault.TheVariants.{Config as config_fault};
ghost use Rattle.ssh_mux.specs.declared.run.LinkCall.TheVariants.{Settle as settle_behind};
ghost use Rattle.ssh_mux.specs.declared.step.ChannelStep.{ChannelStep};
ghost use Rattle.ssh_mux.specs.declared.step.ChannelStep.TheVariants.{Settle as settle_step};

use crate::carried::{carry_all, receive_delivered, step_link, submit_made};
use crate::fault::RunFault;
use crate::linked::Linked;
use crate::pair::{Pair, PairConfig};
use crate::report::{MuxEnd, MuxReport};
use crate::step::ChannelStep;
use crate::summing::report_of;
use crate::typed::{see_config, see_steps};
use rand_core::Rng;
use ssh_channels::MuxFault;
use ssh_kex::{Agreement, Config, GroupLookup, Handed, HostKeys, Parts};
use ssh_rules::Asked;
use ssh_rules::link::Step;
use ssh_run::Link;
use ssh_wire::{Error, Side};
use std::alloc::Global;

/// How both sides are set up.
#[derive(Clone, Copy)]
pub struct Setup<'c> {
    pub client: &'c Config,
    pub server: &'c Config,
    pub channels: PairConfig,
}

/// Runs calls on the channels of a client and a server over an honest carrier. Each message that a side makes is
/// submitted when it is made, and a side receives what was delivered behind each `Deliver`. `Settle` settles the link
/// and lets both sides receive, until no message is made: it leaves nothing on the way.
///
/// Config where a window or a largest packet is out of its bounds, before any step. Unknown, Ended or Full by the first
/// call that a side refuses, with the report of the steps before. Link where the link refuses a step. Memory.
///
/// Of lawful parts the link of a report is a link between both sides, also of the steps before a refused call. No run
/// is refused for a message that comes, and no settle comes to no end. The link refuses such a run only for a
/// configuration, for what a part decides, or for want of memory. Where the parts oblige and the configurations are
/// valid and offer what they choose, that is for want of memory alone.
#[tactic(auto, using(crate::proofs::Refusing::refused_config, crate::proofs::Refusing::refused_link, crate::proofs::Refusing::refused_behind, crate::proofs::Refusing::whole, crate::proofs::Refusing::none_before, crate::proofs::Breaking::end_unbroken, crate::proofs::Stopping::end_no_disconnect, crate::proofs::Stopping::config_no_disconnect, crate::proofs::Stopping::new_no_disconnect, crate::proofs::Stopping::end_stopped, crate::proofs::Stopping::config_caused, crate::proofs::Stopping::new_caused))]
pub fn run_channels<'c, A: Agreement, H: HostKeys, G: GroupLookup, R: Rng>(
    alloc: Global,
    setup: &Setup<'c>,
    client_parts: &mut Parts<A, H, G, R>,
    server_parts: &mut Parts<A, H, G, R>,
    steps: &[ChannelStep],
) -> Result<MuxReport, MuxEnd>
    ensures run { IfOk result (IsWholeRun setup.now.channels steps.now) }
    ensures refused { IfErr result (IsRefusedRun setup.now.channels steps.now) }
    ensures link { A.lawful client_parts.old.agreement (between setup.now.client.now setup.now.server.now)
        → A.lawful server_parts.old.agreement (between setup.now.client.now setup.now.server.now)
        → G.lawful server_parts.old.groups (between setup.now.client.now setup.now.server.now)
        → IfOk result (λ r. IsLink A.client_makes A.server_makes A.agrees setup.now.client.now setup.now.server.now
        r.steps.items r.link) }
    ensures before { A.lawful client_parts.old.agreement (between setup.now.client.now setup.now.server.now)
        → A.lawful server_parts.old.agreement (between setup.now.client.now setup.now.server.now)
        → G.lawful server_parts.old.groups (between setup.now.client.now setup.now.server.now)
        → IfErr result (λ end. IfSome end.before (λ r. IsLink A.client_makes A.server_makes A.agrees
        setup.now.client.now setup.now.server.now r.steps.items r.link)) }
    ensures unrefused { A.lawful client_parts.old.agreement (between setup.now.client.now setup.now.server.now)
        → A.lawful server_parts.old.agreement (between setup.now.client.now setup.now.server.now)
        → G.lawful server_parts.old.groups (between setup.now.client.now setup.now.server.now)
        → IfErr result (λ end. IsNoMessageFault end.fault) }
    ensures ends { A.lawful client_parts.old.agreement (between setup.now.client.now setup.now.server.now)
        → A.lawful server_parts.old.agreement (between setup.now.client.now setup.now.server.now)
        → H.lawful client_parts.old.hosts (between setup.now.client.now setup.now.server.now)
        → H.lawful server_parts.old.hosts (between setup.now.client.now setup.now.server.now)
        → G.lawful server_parts.old.groups (between setup.now.client.now setup.now.server.now)
        → IfErr result (λ end. IsNoDisconnect end.fault) }
    ensures causes { A.lawful client_parts.old.agreement (between setup.now.client.now setup.now.server.now)
        → A.lawful server_parts.old.agreement (between setup.now.client.now setup.now.server.now)
        → H.lawful client_parts.old.hosts (between setup.now.client.now setup.now.server.now)
        → H.lawful server_parts.old.hosts (between setup.now.client.now setup.now.server.now)
        → G.lawful server_parts.old.groups (between setup.now.client.now setup.now.server.now)
        → IfErr result (λ end. WhereStopped end.fault (IsLinkCause (rises_by
        (⟦<Parts<A, H, G, R> as Asked>⟧.unobliged (between setup.now.client.now setup.now.server.now)
        server_parts.old client_parts.old client_parts.new)
        (⟦<Parts<A, H, G, R> as Asked>⟧.unobliged (between setup.now.client.now setup.now.server.now)
        server_parts.old server_parts.old server_parts.new))
        (config_of (between setup.now.client.now setup.now.server.now))
        (offered_on (A.offered client_parts.old.agreement) (A.offered server_parts.old.agreement))
        (G.group server_parts.old.groups setup.now.client.now.gex))) }
    ensures complete { IsValidRun (config_of (between setup.now.client.now setup.now.server.now))
        (offered_on (A.offered client_parts.old.agreement) (A.offered server_parts.old.agreement)) []
        → A.obliging client_parts.old.agreement client_parts.new.agreement
        (between setup.now.client.now setup.now.server.now)
        (group_due (between setup.now.client.now setup.now.server.now)
        (G.group server_parts.old.groups setup.now.client.now.gex))
        → A.obliging server_parts.old.agreement server_parts.new.agreement
        (between setup.now.client.now setup.now.server.now)
        (group_due (between setup.now.client.now setup.now.server.now)
        (G.group server_parts.old.groups setup.now.client.now.gex))
        → H.judges client_parts.old.hosts client_parts.new.hosts (between setup.now.client.now setup.now.server.now)
        → H.signs server_parts.old.hosts server_parts.new.hosts (between setup.now.client.now setup.now.server.now)
        → G.lawful server_parts.old.groups (between setup.now.client.now setup.now.server.now)
        → (kind_by (chosen_by setup.now.client.now setup.now.server.now) ≡ true
        → G.obliging server_parts.old.groups server_parts.new.groups
        (between setup.now.client.now setup.now.server.now))
        → IfErr result (λ end. IsWanting end.fault) }
{
    see_config(setup.client);
    see_config(setup.server);
    if !setup.channels.is_within() {
        return Err(refused(RunFault::Config));
    }
    let mut link = match Link::new(alloc, setup.client, setup.server) {
        Ok(link) => link,
        Err(error) => return Err(refused(RunFault::Link(error))),
    };
    let mut pair = Pair::new(alloc, &setup.channels);
    match run_steps(&mut link, client_parts, server_parts, &mut pair, steps) {
        Ok(()) => {
            see_steps(link.steps());
            ended(report_of(alloc, link, &pair))
        }
        Err(fault) => {
            see_steps(link.steps());
            Err(broken_off(alloc, link, &pair, fault))
        }
    }
}

/// An end without a report.
fn refused(fault: RunFault) -> MuxEnd
    ensures { result ≡ record { fault = fault; before = None } }
{
    MuxEnd {
        fault,
        before: None,
    }
}

/// The report, if there was memory for it.
#[tactic(auto, using(crate::proofs::Breaking::end_unbroken, crate::proofs::Stopping::end_no_disconnect, crate::proofs::Stopping::end_wanting))]
fn ended(report: Result<MuxReport, RunFault>) -> Result<MuxReport, MuxEnd>
    requires { IfErr report IsLinkFault }
    ensures ran { IfOk result (λ r. report ≡ Ok r) }
    ensures refused { IfErr result (λ end. IsLinkFault end.fault × (end.before ≡ None)) }
    ensures unbroken { IfErr report IsNoMessageFault → IfErr result (λ end. IsNoMessageFault end.fault) }
    ensures ends { IfErr report IsNoDisconnect → IfErr result (λ end. IsNoDisconnect end.fault) }
    ensures wants { IfErr report IsWanting → IfErr result (λ end. IsWanting end.fault) }
{
    match report {
        Ok(report) => Ok(report),
        Err(fault) => Err(refused(fault)),
    }
}

/// The end of a run that is refused: with the report of the steps before where a side refused a call.
#[tactic(auto, using(crate::proofs::Refusing::ended_untold, crate::proofs::Breaking::end_unbroken, crate::proofs::Stopping::end_no_disconnect, crate::proofs::Stopping::end_wanting))]
fn broken_off(alloc: Global, link: Link<'_>, pair: &Pair, fault: RunFault) -> MuxEnd
    requires { fault ≡ config_fault → ⊥ }
    ensures ended { IsEndBehind fault (on_link pair.now link.entry) result }
    ensures unbroken { IsNoMessageFault fault → IsNoMessageFault result.fault }
    ensures ends { IsNoDisconnect fault → IsNoDisconnect result.fault }
    ensures wants { (result.fault ≡ fault) ⊎ IsWanting result.fault }
{
    if is_call_refused(&fault) {
        return end_before(alloc, link, pair, fault);
    }
    refused(fault)
}

/// The end of a run in which a side refused a call.
#[tactic(auto, using(crate::proofs::Refusing::ended_told, crate::proofs::Refusing::ended_wanting, crate::proofs::Breaking::end_unbroken, crate::proofs::Stopping::end_no_disconnect, crate::proofs::Stopping::end_wanting))]
fn end_before(alloc: Global, link: Link<'_>, pair: &Pair, fault: RunFault) -> MuxEnd
    requires { is_call_refused fault ≡ true }
    ensures ended { IsEndBehind fault (on_link pair.now link.entry) result }
    ensures unbroken { IsNoMessageFault fault → IsNoMessageFault result.fault }
    ensures ends { IsNoDisconnect fault → IsNoDisconnect result.fault }
    ensures wants { (result.fault ≡ fault) ⊎ IsWanting result.fault }
{
    match report_of(alloc, link, pair) {
        Ok(report) => MuxEnd {
            fault,
            before: Some(report),
        },
        Err(fault) => refused(fault),
    }
}

/// Whether a side refused a call.
fn is_call_refused(fault: &RunFault) -> bool
    ensures { result ≡ is_call_refused fault.now }
{
    match fault {
        RunFault::Mux(MuxFault::Unknown(_) | MuxFault::Ended(_) | MuxFault::Full) => true,
        _ => false,
    }
}

/// How many messages but for data both sides make of one channel at most.
const TURNS_A_CHANNEL: u64 = 8;

/// How many turns a settle may take behind a step, where it may take so many before: more than the messages that are
/// still to be made where no more is called.
fn turns_behind(step: &ChannelStep, turns: u64) -> u64
    ensures { result ≡ turns_behind step.now turns }
{
    match step {
        ChannelStep::Start(_) => turns.saturating_add(TURNS_A_CHANNEL),
        ChannelStep::Write(_, _, bytes) => turns.saturating_add(bytes.as_slice().len() as u64),
        ChannelStep::Read(_, _, _)
        | ChannelStep::Eof(_, _)
        | ChannelStep::Close(_, _)
        | ChannelStep::Deliver(_, _)
        | ChannelStep::Rekey(_)
        | ChannelStep::Settle => turns,
    }
}

/// Carries out the steps, until one is refused.
fn run_steps<'c, A: Agreement, H: HostKeys, G: GroupLookup, R: Rng>(
    link: &mut Link<'c>,
    client_parts: &mut Parts<A, H, G, R>,
    server_parts: &mut Parts<A, H, G, R>,
    pair: &mut Pair,
    steps: &[ChannelStep],
) -> Result<(), RunFault>
    ensures run { OnOk result (RunsSteps steps.now (on_link pair.old link.old) (on_link pair.new link.new)) }
    ensures settled { (before : List ChannelStep) → steps.now ≡ before ++ settle_step ∷ []
        → OnOk result (LeavesNone (on_link pair.new link.new)) }
    ensures refused { IfErr result (λ fault. IsBrokenOff steps.now fault (on_link pair.old link.old)
        (on_link pair.new link.new) ⊎ IsLinkFault fault) }
    ensures goes { OnOk result (⟦<Parts<A, H, G, R> as Linked>⟧.goes_on link.old client_parts.old server_parts.old
        link.new) }
    ensures breaks { IfErr result (λ fault. is_message_refused fault ≡ true
        → BreaksRun fault (on_link pair.old link.old) link.new
        × ⟦<Parts<A, H, G, R> as Linked>⟧.goes_on link.old client_parts.old server_parts.old link.new) }
    ensures called { IfErr result (λ fault. is_call_refused fault ≡ true
        → ⟦<Parts<A, H, G, R> as Linked>⟧.goes_on link.old client_parts.old server_parts.old link.new) }
    ensures stops { IfErr result (λ fault. WhereStopped fault
        (λ e. MakesGood (both_of pair.old)
        → ((e ≡ Disconnect) × RunsOut 2 (on_link pair.old link.old) (on_link pair.new link.new)
        × ⟦<Parts<A, H, G, R> as Linked>⟧.goes_on link.old client_parts.old server_parts.old link.new)
        ⊎ ⟦<Parts<A, H, G, R> as Linked>⟧.refuses_on link.old client_parts.old client_parts.new
        server_parts.old server_parts.new e)) }
    ensures client_keeps { ⟦<Parts<A, H, G, R> as Handed>⟧.keeps client_parts.old client_parts.new }
    ensures server_keeps { ⟦<Parts<A, H, G, R> as Handed>⟧.keeps server_parts.old server_parts.new }
{
    let mut turns = 2;
    for step in steps {
        turns = turns_behind(step, turns);
        match run_step(link, client_parts, server_parts, pair, step, turns) {
            Ok(()) => {}
            Err(fault) => return Err(fault),
        }
    }
    Ok(())
}

/// Carries out a step.
#[tactic(auto, using(crate::proofs::Carrying::one_step, crate::proofs::Carrying::refuses))]
fn run_step<'c, A: Agreement, H: HostKeys, G: GroupLookup, R: Rng>(
    link: &mut Link<'c>,
    client_parts: &mut Parts<A, H, G, R>,
    server_parts: &mut Parts<A, H, G, R>,
    pair: &mut Pair,
    step: &ChannelStep,
    turns: u64,
) -> Result<(), RunFault>
    ensures run { OnOk result (RunsSteps (step.now ∷ []) (on_link pair.old link.old) (on_link pair.new link.new)) }
    ensures settled { step.now ≡ settle_step → OnOk result (LeavesNone (on_link pair.new link.new)) }
    ensures refused { IfErr result (λ fault. RefusesStep step.now fault (on_link pair.old link.old)
        (on_link pair.new link.new)) }
    ensures goes { OnOk result (⟦<Parts<A, H, G, R> as Linked>⟧.goes_on link.old client_parts.old server_parts.old
        link.new) }
    ensures breaks { IfErr result (λ fault. is_message_refused fault ≡ true
        → BreaksRun fault (on_link pair.old link.old) link.new
        × ⟦<Parts<A, H, G, R> as Linked>⟧.goes_on link.old client_parts.old server_parts.old link.new) }
    ensures called { IfErr result (λ fault. is_call_refused fault ≡ true
        → ⟦<Parts<A, H, G, R> as Linked>⟧.goes_on link.old client_parts.old server_parts.old link.new) }
    ensures stops { IfErr result (λ fault. WhereStopped fault
        (λ e. MakesGood (both_of pair.old)
        → ((e ≡ Disconnect) × TurnsOut turns step.now (on_link pair.old link.old) (on_link pair.new link.new)
        × ⟦<Parts<A, H, G, R> as Linked>⟧.goes_on link.old client_parts.old server_parts.old link.new)
        ⊎ ⟦<Parts<A, H, G, R> as Linked>⟧.refuses_on link.old client_parts.old client_parts.new
        server_parts.old server_parts.new e)) }
    ensures client_keeps { ⟦<Parts<A, H, G, R> as Handed>⟧.keeps client_parts.old client_parts.new }
    ensures server_keeps { ⟦<Parts<A, H, G, R> as Handed>⟧.keeps server_parts.old server_parts.new }
{
    let behind = call(pair, step)?;
    carry(link, client_parts, server_parts, pair, behind, turns)
}

/// Does what the link has to do behind a call.
fn carry<'c, A: Agreement, H: HostKeys, G: GroupLookup, R: Rng>(
    link: &mut Link<'c>,
    client_parts: &mut Parts<A, H, G, R>,
    server_parts: &mut Parts<A, H, G, R>,
    pair: &mut Pair,
    behind: LinkCall,
    turns: u64,
) -> Result<(), RunFault>
    ensures carries { OnOk result (Carries (on_link pair.old link.old) (on_link pair.new link.new)) }
    ensures does { OnOk result (DoesCall behind (on_link pair.old link.old) (on_link pair.new link.new)) }
    ensures settled { behind ≡ settle_behind → OnOk result (LeavesNone (on_link pair.new link.new)) }
    ensures fault { IfErr result IsLinkFault }
    ensures goes { OnOk result (⟦<Parts<A, H, G, R> as Linked>⟧.goes_on link.old client_parts.old server_parts.old
        link.new) }
    ensures breaks { IfErr result (λ fault. is_message_refused fault ≡ true
        → BreaksAt fault (on_link pair.old link.old) link.new
        × ⟦<Parts<A, H, G, R> as Linked>⟧.goes_on link.old client_parts.old server_parts.old link.new) }
    ensures stops { IfErr result (λ fault. WhereStopped fault
        (λ e. MakesGood (both_of pair.old)
        → ((e ≡ Disconnect) × TurnsOn turns (on_link pair.old link.old) (on_link pair.new link.new)
        × ⟦<Parts<A, H, G, R> as Linked>⟧.goes_on link.old client_parts.old server_parts.old link.new)
        ⊎ ⟦<Parts<A, H, G, R> as Linked>⟧.refuses_on link.old client_parts.old client_parts.new
        server_parts.old server_parts.new e)) }
    ensures client_keeps { ⟦<Parts<A, H, G, R> as Handed>⟧.keeps client_parts.old client_parts.new }
    ensures server_keeps { ⟦<Parts<A, H, G, R> as Handed>⟧.keeps server_parts.old server_parts.new }
{
    match behind {
        LinkCall::Submit(side) => {
            submit_made(link, client_parts, server_parts, pair, side)?;
            Ok(())
        }
        LinkCall::Deliver(side, count) => {
            step_link(link, client_parts, server_parts, Step::Deliver(side, count))?;
            receive_delivered(link, client_parts, server_parts, pair, side)?;
            Ok(())
        }
        LinkCall::Rekey(side) => {
            step_link(link, client_parts, server_parts, Step::Rekey(side))?;
            Ok(())
        }
        LinkCall::Settle => settle(link, client_parts, server_parts, pair, turns),
    }
}

/// Carries all until no message is made, in so many turns at most. Then nothing is on the way.
#[tactic(auto, using(crate::proofs::Carrying::carries_then, crate::proofs::Doing::any_none))]
fn settle<'c, A: Agreement, H: HostKeys, G: GroupLookup, R: Rng>(
    link: &mut Link<'c>,
    client_parts: &mut Parts<A, H, G, R>,
    server_parts: &mut Parts<A, H, G, R>,
    pair: &mut Pair,
    turns: u64,
) -> Result<(), RunFault>
    ensures carries { OnOk result (Carries (on_link pair.old link.old) (on_link pair.new link.new)) }
    ensures settles { OnOk result (SettlesSome link.old link.new) }
    ensures settled { OnOk result (LeavesNone (on_link pair.new link.new)) }
    ensures fault { IfErr result IsLinkFault }
    ensures goes { OnOk result (⟦<Parts<A, H, G, R> as Linked>⟧.goes_on link.old client_parts.old server_parts.old
        link.new) }
    ensures breaks { IfErr result (λ fault. is_message_refused fault ≡ true
        → BreaksAt fault (on_link pair.old link.old) link.new
        × ⟦<Parts<A, H, G, R> as Linked>⟧.goes_on link.old client_parts.old server_parts.old link.new) }
    ensures stops { IfErr result (λ fault. WhereStopped fault
        (λ e. MakesGood (both_of pair.old)
        → ((e ≡ Disconnect) × TurnsOn turns (on_link pair.old link.old) (on_link pair.new link.new)
        × ⟦<Parts<A, H, G, R> as Linked>⟧.goes_on link.old client_parts.old server_parts.old link.new)
        ⊎ ⟦<Parts<A, H, G, R> as Linked>⟧.refuses_on link.old client_parts.old client_parts.new
        server_parts.old server_parts.new e)) }
    ensures client_keeps { ⟦<Parts<A, H, G, R> as Handed>⟧.keeps client_parts.old client_parts.new }
    ensures server_keeps { ⟦<Parts<A, H, G, R> as Handed>⟧.keeps server_parts.old server_parts.new }
{
    for _turn in 0..turns {
        if !carry_all(link, client_parts, server_parts, pair)? {
            return Ok(());
        }
    }
    Err(RunFault::Link(Error::Disconnect))
}

/// What the link has to do behind a call.
#[derive(Clone, Copy, Debug)]
enum LinkCall {
    /// To carry what the side made.
    Submit(Side),
    Deliver(Side, u64),
    Rekey(Side),
    Settle,
}

/// Makes the call that a step asks for, and says what the link has to do then.
fn call(pair: &mut Pair, step: &ChannelStep) -> Result<LinkCall, MuxFault>
    ensures ok { OnOk result (Called step.now (both_of pair.old) (both_of pair.new)) }
    ensures settles { IfOk result (λ behind. step.now ≡ settle_step → behind ≡ settle_behind) }
    ensures asks { IfOk result (λ behind. behind ≡ link_call step.now) }
    ensures refused { IfErr result (λ f. IsRefused (step_fault step.now (both_of pair.old)) f
        (both_of pair.new ≡ both_of pair.old)) }
{
    match step {
        ChannelStep::Start(side) => {
            let _number = pair.start(*side)?;
            Ok(LinkCall::Submit(*side))
        }
        ChannelStep::Write(side, channel, bytes) => {
            pair.write(*side, *channel, bytes.as_slice())?;
            Ok(LinkCall::Submit(*side))
        }
        ChannelStep::Read(side, channel, n) => {
            let _bytes = pair.read(*side, *channel, *n)?;
            Ok(LinkCall::Submit(*side))
        }
        ChannelStep::Eof(side, channel) => {
            pair.eof(*side, *channel)?;
            Ok(LinkCall::Submit(*side))
        }
        ChannelStep::Close(side, channel) => {
            pair.close(*side, *channel)?;
            Ok(LinkCall::Submit(*side))
        }
        ChannelStep::Deliver(side, count) => Ok(LinkCall::Deliver(*side, *count)),
        ChannelStep::Rekey(side) => Ok(LinkCall::Rekey(*side)),
        ChannelStep::Settle => Ok(LinkCall::Settle),
    }
}
