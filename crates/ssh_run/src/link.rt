//! The run of a link: a client and a server over an honest carrier.

ghost use Rattle.std.specs.Prelude.{◌≡◌, ◌⊎◌, ◌≤◌, ◌<◌, ◌^◌, [], Err, IfErr, IfOk, IfSome, None, OnErr, OnOk, false, length, true};
ghost use Rattle.std.specs.Str.{is_utf8};
ghost use Rattle.ssh_kex.specs.Parts.{between};
ghost use Rattle.ssh_rules.specs.AnyParts.{IsReadLink};
ghost use Rattle.ssh_rules.specs.Headline.{IsInGroup, IsLink, chosen_by, kind_by};
ghost use Rattle.ssh_rules.specs.Valid as valid;
ghost use Rattle.ssh_rules.specs.Valid.{HasSizes, first_config_fault};
ghost use Rattle.ssh_run.specs.Asking.{CarriedAsks, RunAsks};
ghost use Rattle.ssh_run.specs.Carrying.{IsCarried, text_of_id};
ghost use Rattle.ssh_run.specs.Reports.{IsWholeReport};
ghost use Rattle.ssh_run.specs.RefusedCarrying.{RefusesLink};
ghost use Rattle.ssh_run.specs.RunCauses.{IsAnyRunCause, IsRunCause, IsValidRun, all_submits_good, offered_on, rises_by};
ghost use Rattle.ssh_rules.specs.Refused.{group_due};
ghost use Rattle.ssh_rules.specs.RunLaws.{config_of};
ghost use Rattle.ssh_run.specs.LinkEnds.{BothAnswered};
ghost use Rattle.ssh_transport.specs.Drawing.{AreDrawn};
ghost use Rattle.ssh_wire.specs.declared.error.Error.TheVariants.{InvalidConfig, Memory};
ghost use Rattle.ssh_wire.specs.declared.side.Side.TheVariants.{Client as client_side, Server as server_side};

use crate::link_end::LinkEnd;
use crate::told::{Leaving, LinkTold, Told};
use rand_core::Rng;
use ssh_kex::{Agreement, Config, GroupLookup, Handed, HostKeys, Parts};
use ssh_rules::Asked;
use ssh_rules::link::{LinkReport, Mark, MarkList, Step};
use ssh_transport::{Transport, first_config_fault};
use ssh_wire::{Error, Side, SshId};
use std::alloc::{AllocError, Global};

/// Both sides, and how many exchanges may be begun.
#[derive(Drop)]
pub(crate) struct Carrier<'c> {
    pub(crate) client: LinkEnd<'c>,
    pub(crate) server: LinkEnd<'c>,
    /// 1, and for each rekey that was asked for 1, and for each payload that was submitted 2.
    pub(crate) bound: u128,
}

/// How many turns a settling takes at most for each exchange that may be begun.
const TURNS: u128 = 32;

/// Runs a client and a server with these configurations over an honest carrier, by these steps.
///
/// InvalidConfig where a configuration is refused, the client's first, before memory is taken. The first step that is
/// refused ends the run: PacketSize where a payload has no byte or over 262157, Inconsistent where its first byte is
/// neither 5 to 7 nor at least 50, and while bytes are taken what `Transport::feed` answers. Settling answers
/// Disconnect where its turns have run out, where a side has begun more exchanges than were asked for, or where nothing
/// waits while an exchange is open or input is unfinished; only parts that break their laws bring that about. Memory.
pub fn run_link<A: Agreement, H: HostKeys, G: GroupLookup, R: Rng>(
    alloc: Global,
    client: &Config,
    server: &Config,
    client_parts: &mut Parts<A, H, G, R>,
    server_parts: &mut Parts<A, H, G, R>,
    steps: &[Step],
) -> Result<LinkReport, Error>
    ensures report { IfOk result (IsWholeReport steps.now) }
    ensures good { OnOk result (all_submits_good steps.now ≡ true) }
    ensures link { A.lawful client_parts.old.agreement (between client.now server.now)
        → A.lawful server_parts.old.agreement (between client.now server.now)
        → G.lawful server_parts.old.groups (between client.now server.now)
        → IfOk result (IsLink A.client_makes A.server_makes A.agrees client.now server.now steps.now) }
    ensures group { A.lawful client_parts.old.agreement (between client.now server.now)
        → A.lawful server_parts.old.agreement (between client.now server.now)
        → G.lawful server_parts.old.groups (between client.now server.now)
        → IfOk result (IsInGroup server.now (G.group server_parts.old.groups client.now.gex)) }
    ensures configs { IfSome (first_config_fault (valid.config_fault client_side client.now)
        (valid.config_fault server_side server.now)) (λ f. result ≡ Err (InvalidConfig f)) }
    ensures refused { IfErr result (IsAnyRunCause (rises_by (⟦<Parts<A, H, G, R> as Asked>⟧.rises client_parts.old
        client_parts.new) (⟦<Parts<A, H, G, R> as Asked>⟧.rises server_parts.old server_parts.new))
        (config_of (between client.now server.now)) steps.now) }
    ensures causes { A.lawful client_parts.old.agreement (between client.now server.now)
        → A.lawful server_parts.old.agreement (between client.now server.now)
        → H.lawful client_parts.old.hosts (between client.now server.now)
        → H.lawful server_parts.old.hosts (between client.now server.now)
        → G.lawful server_parts.old.groups (between client.now server.now)
        → IfErr result (IsRunCause (rises_by
        (⟦<Parts<A, H, G, R> as Asked>⟧.unobliged (between client.now server.now)
        server_parts.old client_parts.old client_parts.new)
        (⟦<Parts<A, H, G, R> as Asked>⟧.unobliged (between client.now server.now)
        server_parts.old server_parts.old server_parts.new))
        (config_of (between client.now server.now))
        (offered_on (A.offered client_parts.old.agreement) (A.offered server_parts.old.agreement))
        (G.group server_parts.old.groups client.now.gex) steps.now) }
    ensures complete { IsValidRun (config_of (between client.now server.now))
        (offered_on (A.offered client_parts.old.agreement) (A.offered server_parts.old.agreement)) steps.now
        → A.obliging client_parts.old.agreement client_parts.new.agreement (between client.now server.now)
        (group_due (between client.now server.now) (G.group server_parts.old.groups client.now.gex))
        → A.obliging server_parts.old.agreement server_parts.new.agreement (between client.now server.now)
        (group_due (between client.now server.now) (G.group server_parts.old.groups client.now.gex))
        → H.judges client_parts.old.hosts client_parts.new.hosts (between client.now server.now)
        → H.signs server_parts.old.hosts server_parts.new.hosts (between client.now server.now)
        → G.lawful server_parts.old.groups (between client.now server.now)
        → (kind_by (chosen_by client.now server.now) ≡ true
        → G.obliging server_parts.old.groups server_parts.new.groups (between client.now server.now))
        → IfErr result (λ e. e ≡ Memory) }
    ensures read { IfOk result (IsReadLink (H.accepts client_parts.old.hosts) (H.trusts client_parts.old.hosts)
        client.now server.now) }
    ensures calls { A.lawful client_parts.old.agreement (between client.now server.now)
        → A.lawful server_parts.old.agreement (between client.now server.now)
        → G.lawful server_parts.old.groups (between client.now server.now)
        → RunAsks client.now server.now steps.now (⟦<Parts<A, H, G, R> as Asked>⟧.calls client_parts.old)
        (⟦<Parts<A, H, G, R> as Asked>⟧.calls client_parts.new) (⟦<Parts<A, H, G, R> as Asked>⟧.calls server_parts.old)
        (⟦<Parts<A, H, G, R> as Asked>⟧.calls server_parts.new) }
    ensures client_keeps { ⟦<Parts<A, H, G, R> as Handed>⟧.keeps client_parts.old client_parts.new }
    ensures server_keeps { ⟦<Parts<A, H, G, R> as Handed>⟧.keeps server_parts.old server_parts.new }
    ensures drawn { IfOk result (λ r. AreDrawn client.now server.now (R.stream client_parts.old.rng)
        (R.stream server_parts.old.rng) r.client.wire r.server.wire) }
    ensures answered { IfOk result (BothAnswered client.now server.now
        (⟦<Parts<A, H, G, R> as Asked>⟧.tests client_parts.old) (⟦<Parts<A, H, G, R> as Asked>⟧.tests client_parts.new)
        (⟦<Parts<A, H, G, R> as Asked>⟧.tests server_parts.old)
        (⟦<Parts<A, H, G, R> as Asked>⟧.tests server_parts.new)) }
{
    see_types(client);
    see_types(server);
    carry_steps(alloc, client, server, client_parts, server_parts, steps)
}

/// What the types of a configuration say: its sizes are u32, and its version line is UTF-8.
fn see_types(config: &Config)
    ensures sizes { HasSizes config.now }
    ensures text { is_utf8 (text_of_id config.now.id) ≡ true }
{
    let _least = config.gex.min_group_size;
    let _wanted = config.gex.preferred_group_size;
    let _most = config.gex.max_group_size;
    let text = id_text(&config.id);
    let _length = text.len();
}

fn id_text(id: &SshId) -> &str
    ensures text { result.now ≡ text_of_id id.now }
{
    match id {
        SshId::Standard(text) => text.as_str(),
        SshId::Raw(text) => text.as_str(),
    }
}

/// Runs both sides by the steps. Both configurations are tested before anything takes memory.
#[tactic(auto, using(ssh_transport::proofs::Lemmas::parts_same))]
fn carry_steps<A: Agreement, H: HostKeys, G: GroupLookup, R: Rng>(
    alloc: Global,
    client: &Config,
    server: &Config,
    client_parts: &mut Parts<A, H, G, R>,
    server_parts: &mut Parts<A, H, G, R>,
    steps: &[Step],
) -> Result<LinkReport, Error>
    ensures client { OnOk result (valid.config_fault client_side client.now ≡ None) }
    ensures server { OnOk result (valid.config_fault server_side server.now ≡ None) }
    ensures configs { IfSome (first_config_fault (valid.config_fault client_side client.now)
        (valid.config_fault server_side server.now)) (λ f. result ≡ Err (InvalidConfig f)) }
    ensures few { OnOk result (length steps.now < 2 ^ 64) }
    ensures refused { IfErr result (λ e. RefusesLink (⟦<Parts<A, H, G, R> as Told>⟧.telling client.now client_parts.old
        client_parts.new) (⟦<Parts<A, H, G, R> as Told>⟧.telling server.now server_parts.old server_parts.new)
        client.now server.now steps.now e) }
    ensures carried { IfOk result (IsCarried (⟦<Parts<A, H, G, R> as Handed>⟧.says client.now client_parts.old)
        (⟦<Parts<A, H, G, R> as Handed>⟧.says server.now server_parts.old) client.now server.now steps.now) }
    ensures asks { CarriedAsks (⟦<Parts<A, H, G, R> as Handed>⟧.says client.now client_parts.old)
        (⟦<Parts<A, H, G, R> as Handed>⟧.says server.now server_parts.old) client.now server.now steps.now
        (⟦<Parts<A, H, G, R> as Asked>⟧.calls client_parts.old) (⟦<Parts<A, H, G, R> as Asked>⟧.calls client_parts.new)
        (⟦<Parts<A, H, G, R> as Asked>⟧.calls server_parts.old) (⟦<Parts<A, H, G, R> as Asked>⟧.calls
        server_parts.new) }
    ensures client_keeps { ⟦<Parts<A, H, G, R> as Handed>⟧.keeps client_parts.old client_parts.new }
    ensures server_keeps { ⟦<Parts<A, H, G, R> as Handed>⟧.keeps server_parts.old server_parts.new }
    ensures drawn { IfOk result (⟦<Parts<A, H, G, R> as Leaving>⟧.drew client.now server.now client_parts.old
        server_parts.old) }
    ensures answered { IfOk result (⟦<Parts<A, H, G, R> as Leaving>⟧.answered client.now server.now client_parts.old
        client_parts.new server_parts.old server_parts.new) }
{
    if let Some(fault) = first_config_fault(client, server) {
        return Err(Error::InvalidConfig(fault));
    }
    let mut link = Carrier::new(alloc, client, server)?;
    let marks = link.run(alloc, client_parts, server_parts, steps)?;
    Ok(link.report(marks)?)
}

impl<'c> Carrier<'c> {
    ghost use Rattle.ssh_run.specs.Carrying.{FewBehind, HasWaiting, IsNewLink, begun_by, bound_behind, reported_link};
    ghost use Rattle.ssh_run.specs.LinkEnds.{WhereUnfailed, link_mark, link_of};
    ghost use Rattle.ssh_run.specs.RefusedCarrying.{BeginTooMany, IsConfigFault, RefusesSubmit};
    ghost use Rattle.ssh_wire.specs.declared.error.Error.TheVariants.{Memory};
    ghost use Rattle.ssh_rules.specs.declared.link.Step.TheVariants.{Deliver, Rekey, Submit};

    /// Both sides, each of which has sent its id line.
    pub(crate) fn new(
        alloc: Global,
        client: &'c Config,
        server: &'c Config,
    ) -> Result<Carrier<'c>, Error>
        ensures client { OnOk result (valid.config_fault client_side client.now ≡ None) }
        ensures server { OnOk result (valid.config_fault server_side server.now ≡ None) }
        ensures new { IfOk result (λ link. IsNewLink client.now server.now (link_of link)) }
        ensures bound { IfOk result (λ link. link.bound ≡ 1) }
        ensures refused { IfErr result (λ e. (e ≡ Memory) ⊎ IsConfigFault client.now server.now e) }
    {
        Ok(Carrier {
            client: LinkEnd::new(alloc, Transport::client(alloc, client)?),
            server: LinkEnd::new(alloc, Transport::server(alloc, server)?),
            bound: 1,
        })
    }

    pub(crate) fn mark(&self) -> Mark
        ensures { result ≡ link_mark self.now }
    {
        Mark {
            client: self.client.mark(),
            server: self.server.mark(),
        }
    }

    /// Carries out all steps: the marks before the first and behind each.
    #[tactic(auto, using(ssh_transport::proofs::Lemmas::parts_same, crate::proofs::Asking::side_still, crate::proofs::Asking::link_none, crate::proofs::Leaving::both_still))]
    fn run<A: Agreement, H: HostKeys, G: GroupLookup, R: Rng>(
        &mut self,
        alloc: Global,
        client_parts: &mut Parts<A, H, G, R>,
        server_parts: &mut Parts<A, H, G, R>,
        steps: &[Step],
    ) -> Result<Vec<Mark>, Error>
        ensures few { length steps.now < 2 ^ 64 }
        ensures refused { self.old.bound ≡ 1 → WhereUnfailed self.old
            (IfErr result (λ e. ⟦<Parts<A, H, G, R> as LinkTold>⟧.refuses_run self.old client_parts.old client_parts.new
            server_parts.old server_parts.new steps.now e)) }
        ensures runs { IfOk result (λ marks. ⟦<Parts<A, H, G, R> as LinkTold>⟧.runs self.old client_parts.old
            server_parts.old steps.now self.new marks.items) }
        ensures asks { WhereUnfailed self.old (⟦<Parts<A, H, G, R> as LinkTold>⟧.steps_ask self.old client_parts.old
            client_parts.new server_parts.old server_parts.new steps.now) }
        ensures client_keeps { ⟦<Parts<A, H, G, R> as Handed>⟧.keeps client_parts.old client_parts.new }
        ensures server_keeps { ⟦<Parts<A, H, G, R> as Handed>⟧.keeps server_parts.old server_parts.new }
        ensures leaves { OnOk result (⟦<Parts<A, H, G, R> as Leaving>⟧.leaves_both self.old self.new client_parts.old
            client_parts.new server_parts.old server_parts.new) }
    {
        let mut marks = Vec::with_capacity(alloc, steps.len().saturating_add(1))?;
        marks.push(self.mark())?;
        for step in steps {
            self.step(client_parts, server_parts, step)?;
            marks.push(self.mark())?;
        }
        Ok(marks)
    }

    /// Carries out one step.
    #[tactic(auto, using(crate::proofs::Asking::turns_part, crate::proofs::Asking::turns_still))]
    pub(crate) fn step<A: Agreement, H: HostKeys, G: GroupLookup, R: Rng>(
        &mut self,
        client_parts: &mut Parts<A, H, G, R>,
        server_parts: &mut Parts<A, H, G, R>,
        step: &Step,
    ) -> Result<(), Error>
        ensures steps { OnOk result (⟦<Parts<A, H, G, R> as LinkTold>⟧.steps self.old client_parts.old server_parts.old
            step.now self.new) }
        ensures refused { WhereUnfailed self.old (IfErr result (λ e. ⟦<Parts<A, H, G, R> as LinkTold>⟧.refuses_step
            self.old client_parts.old client_parts.new server_parts.old server_parts.new step.now e)) }
        ensures bound { self.new.bound ≡ bound_behind step.now self.old.bound }
        ensures few { OnOk result (FewBehind self.old.bound step.now (link_of self.new)) }
        ensures client_keeps { ⟦<Parts<A, H, G, R> as Handed>⟧.keeps client_parts.old client_parts.new }
        ensures server_keeps { ⟦<Parts<A, H, G, R> as Handed>⟧.keeps server_parts.old server_parts.new }
        ensures leaves { OnOk result (⟦<Parts<A, H, G, R> as Leaving>⟧.leaves_both self.old self.new client_parts.old
            client_parts.new server_parts.old server_parts.new) }
        ensures asks_client { OnOk result (⟦<Parts<A, H, G, R> as Told>⟧.asks self.old.client self.new.client
            client_parts.old client_parts.new) }
        ensures asks_server { OnOk result (⟦<Parts<A, H, G, R> as Told>⟧.asks self.old.server self.new.server
            server_parts.old server_parts.new) }
        ensures asked { WhereUnfailed self.old (OnErr result (⟦<Parts<A, H, G, R> as LinkTold>⟧.turns_ask self.old
            client_parts.old client_parts.new server_parts.old server_parts.new)) }
    {
        match step {
            Step::Submit(side, payload) => {
                self.submit(client_parts, server_parts, *side, payload.as_slice())
            }
            Step::Deliver(side, count) => self.deliver(client_parts, server_parts, *side, *count),
            Step::Rekey(side) => self.rekey(client_parts, server_parts, *side),
            Step::Settle => self.settle(client_parts, server_parts),
        }
    }

    /// Submits a payload to a side.
    #[tactic(auto, using(ssh_transport::proofs::Lemmas::parts_same, crate::proofs::Asking::side_still, crate::proofs::Asking::side_same))]
    fn submit<A: Agreement, H: HostKeys, G: GroupLookup, R: Rng>(
        &mut self,
        client_parts: &mut Parts<A, H, G, R>,
        server_parts: &mut Parts<A, H, G, R>,
        side: Side,
        payload: &[u8],
    ) -> Result<(), Error>
        ensures submits { OnOk result (⟦<Parts<A, H, G, R> as LinkTold>⟧.steps self.old client_parts.old
            server_parts.old (Submit side payload.now) self.new) }
        ensures refused { WhereUnfailed self.old (IfErr result (λ e. RefusesSubmit payload.now e)) }
        ensures bound { self.new.bound ≡ bound_behind (Submit side payload.now) self.old.bound }
        ensures client_keeps { ⟦<Parts<A, H, G, R> as Handed>⟧.keeps client_parts.old client_parts.new }
        ensures server_keeps { ⟦<Parts<A, H, G, R> as Handed>⟧.keeps server_parts.old server_parts.new }
        ensures leaves { OnOk result (⟦<Parts<A, H, G, R> as Leaving>⟧.leaves_both self.old self.new client_parts.old
            client_parts.new server_parts.old server_parts.new) }
        ensures asks_client { OnOk result (⟦<Parts<A, H, G, R> as Told>⟧.asks self.old.client self.new.client
            client_parts.old client_parts.new) }
        ensures asks_server { OnOk result (⟦<Parts<A, H, G, R> as Told>⟧.asks self.old.server self.new.server
            server_parts.old server_parts.new) }
        ensures calls_client { ⟦<Parts<A, H, G, R> as Told>⟧.unasked client_parts.old client_parts.new }
        ensures calls_server { ⟦<Parts<A, H, G, R> as Told>⟧.unasked server_parts.old server_parts.new }
    {
        self.bound = self.bound.saturating_add(2);
        match side {
            Side::Client => self.client.submit(client_parts, payload),
            Side::Server => self.server.submit(server_parts, payload),
        }
    }

    /// Carries bytes to a side.
    #[tactic(auto, using(ssh_transport::proofs::Lemmas::parts_same, crate::proofs::Asking::side_still, crate::proofs::Asking::client_part, crate::proofs::Asking::server_part))]
    fn deliver<A: Agreement, H: HostKeys, G: GroupLookup, R: Rng>(
        &mut self,
        client_parts: &mut Parts<A, H, G, R>,
        server_parts: &mut Parts<A, H, G, R>,
        side: Side,
        count: u64,
    ) -> Result<(), Error>
        ensures delivers { OnOk result (⟦<Parts<A, H, G, R> as LinkTold>⟧.steps self.old client_parts.old
            server_parts.old (Deliver side count) self.new) }
        ensures refused { WhereUnfailed self.old (IfErr result (λ e. ⟦<Parts<A, H, G, R> as LinkTold>⟧.refuses_step
            self.old client_parts.old client_parts.new server_parts.old server_parts.new (Deliver side count) e)) }
        ensures bound { self.new.bound ≡ self.old.bound }
        ensures client_keeps { ⟦<Parts<A, H, G, R> as Handed>⟧.keeps client_parts.old client_parts.new }
        ensures server_keeps { ⟦<Parts<A, H, G, R> as Handed>⟧.keeps server_parts.old server_parts.new }
        ensures leaves { OnOk result (⟦<Parts<A, H, G, R> as Leaving>⟧.leaves_both self.old self.new client_parts.old
            client_parts.new server_parts.old server_parts.new) }
        ensures asks_client { OnOk result (⟦<Parts<A, H, G, R> as Told>⟧.asks self.old.client self.new.client
            client_parts.old client_parts.new) }
        ensures asks_server { OnOk result (⟦<Parts<A, H, G, R> as Told>⟧.asks self.old.server self.new.server
            server_parts.old server_parts.new) }
        ensures asked { WhereUnfailed self.old (OnErr result (⟦<Parts<A, H, G, R> as LinkTold>⟧.part_asks self.old
            client_parts.old client_parts.new server_parts.old server_parts.new)) }
    {
        match side {
            Side::Client => self
                .client
                .deliver(client_parts, self.server.output(), count),
            Side::Server => self
                .server
                .deliver(server_parts, self.client.output(), count),
        }
    }

    /// Asks a side for new keys.
    #[tactic(auto, using(ssh_transport::proofs::Lemmas::parts_same, crate::proofs::Asking::side_still, crate::proofs::Asking::side_same))]
    fn rekey<A: Agreement, H: HostKeys, G: GroupLookup, R: Rng>(
        &mut self,
        client_parts: &mut Parts<A, H, G, R>,
        server_parts: &mut Parts<A, H, G, R>,
        side: Side,
    ) -> Result<(), Error>
        ensures rekeys { OnOk result (⟦<Parts<A, H, G, R> as LinkTold>⟧.steps self.old client_parts.old server_parts.old
            (Rekey side) self.new) }
        ensures refused { WhereUnfailed self.old (IfErr result (λ e. e ≡ Memory)) }
        ensures bound { self.new.bound ≡ bound_behind (Rekey side) self.old.bound }
        ensures client_keeps { ⟦<Parts<A, H, G, R> as Handed>⟧.keeps client_parts.old client_parts.new }
        ensures server_keeps { ⟦<Parts<A, H, G, R> as Handed>⟧.keeps server_parts.old server_parts.new }
        ensures leaves { OnOk result (⟦<Parts<A, H, G, R> as Leaving>⟧.leaves_both self.old self.new client_parts.old
            client_parts.new server_parts.old server_parts.new) }
        ensures asks_client { OnOk result (⟦<Parts<A, H, G, R> as Told>⟧.asks self.old.client self.new.client
            client_parts.old client_parts.new) }
        ensures asks_server { OnOk result (⟦<Parts<A, H, G, R> as Told>⟧.asks self.old.server self.new.server
            server_parts.old server_parts.new) }
        ensures calls_client { ⟦<Parts<A, H, G, R> as Told>⟧.unasked client_parts.old client_parts.new }
        ensures calls_server { ⟦<Parts<A, H, G, R> as Told>⟧.unasked server_parts.old server_parts.new }
    {
        self.bound = self.bound.saturating_add(1);
        match side {
            Side::Client => self.client.rekey(client_parts),
            Side::Server => self.server.rekey(server_parts),
        }
    }

    /// Lets the server take all that waits for it, then the client, until nothing waits.
    #[tactic(auto, using(ssh_transport::proofs::Lemmas::parts_same, crate::proofs::Asking::side_still, crate::proofs::Asking::turns_end, crate::proofs::Leaving::both_still))]
    fn settle<A: Agreement, H: HostKeys, G: GroupLookup, R: Rng>(
        &mut self,
        client_parts: &mut Parts<A, H, G, R>,
        server_parts: &mut Parts<A, H, G, R>,
    ) -> Result<(), Error>
        ensures settles { OnOk result (⟦<Parts<A, H, G, R> as LinkTold>⟧.settles self.old client_parts.old
            server_parts.old self.new) }
        ensures refused { WhereUnfailed self.old (IfErr result (λ e. ⟦<Parts<A, H, G, R> as LinkTold>⟧.refuses_settle
            self.old client_parts.old client_parts.new server_parts.old server_parts.new e)) }
        ensures few_by_client { OnOk result (begun_by (link_of self.new).client ≤ self.old.bound) }
        ensures few_by_server { OnOk result (begun_by (link_of self.new).server ≤ self.old.bound) }
        ensures bound { self.new.bound ≡ self.old.bound }
        ensures client_keeps { ⟦<Parts<A, H, G, R> as Handed>⟧.keeps client_parts.old client_parts.new }
        ensures server_keeps { ⟦<Parts<A, H, G, R> as Handed>⟧.keeps server_parts.old server_parts.new }
        ensures leaves { OnOk result (⟦<Parts<A, H, G, R> as Leaving>⟧.leaves_both self.old self.new client_parts.old
            client_parts.new server_parts.old server_parts.new) }
        ensures asks_client { OnOk result (⟦<Parts<A, H, G, R> as Told>⟧.asks self.old.client self.new.client
            client_parts.old client_parts.new) }
        ensures asks_server { OnOk result (⟦<Parts<A, H, G, R> as Told>⟧.asks self.old.server self.new.server
            server_parts.old server_parts.new) }
        ensures asked { WhereUnfailed self.old (OnErr result (⟦<Parts<A, H, G, R> as LinkTold>⟧.turns_ask self.old
            client_parts.old client_parts.new server_parts.old server_parts.new)) }
    {
        let mut turns = self.bound.saturating_mul(TURNS);
        while self.waits() {
            if turns == 0 || self.begun_too_many() {
                return Err(Error::Disconnect);
            }
            turns -= 1;
            self.turn(client_parts, server_parts)?;
        }
        if self.begun_too_many() || !self.client.rests() || !self.server.rests() {
            return Err(Error::Disconnect);
        }
        Ok(())
    }

    /// Lets the server take all that waits for it, then the client.
    #[tactic(auto, using(crate::proofs::Asking::client_part, crate::proofs::Asking::server_part, crate::proofs::Asking::half_part))]
    fn turn<A: Agreement, H: HostKeys, G: GroupLookup, R: Rng>(
        &mut self,
        client_parts: &mut Parts<A, H, G, R>,
        server_parts: &mut Parts<A, H, G, R>,
    ) -> Result<(), Error>
        ensures turns { OnOk result (⟦<Parts<A, H, G, R> as LinkTold>⟧.takes_turns self.old client_parts.old
            server_parts.old self.new) }
        ensures refused { WhereUnfailed self.old (IfErr result (λ e. ⟦<Parts<A, H, G, R> as LinkTold>⟧.refuses_turn
            self.old client_parts.old client_parts.new server_parts.old server_parts.new e)) }
        ensures bound { self.new.bound ≡ self.old.bound }
        ensures client_keeps { ⟦<Parts<A, H, G, R> as Handed>⟧.keeps client_parts.old client_parts.new }
        ensures server_keeps { ⟦<Parts<A, H, G, R> as Handed>⟧.keeps server_parts.old server_parts.new }
        ensures leaves { OnOk result (⟦<Parts<A, H, G, R> as Leaving>⟧.leaves_both self.old self.new client_parts.old
            client_parts.new server_parts.old server_parts.new) }
        ensures asks_client { OnOk result (⟦<Parts<A, H, G, R> as Told>⟧.asks self.old.client self.new.client
            client_parts.old client_parts.new) }
        ensures asks_server { OnOk result (⟦<Parts<A, H, G, R> as Told>⟧.asks self.old.server self.new.server
            server_parts.old server_parts.new) }
        ensures asked { WhereUnfailed self.old (OnErr result (⟦<Parts<A, H, G, R> as LinkTold>⟧.part_asks self.old
            client_parts.old client_parts.new server_parts.old server_parts.new)) }
    {
        self.server
            .deliver(server_parts, self.client.output(), u64::MAX)?;
        self.client
            .deliver(client_parts, self.server.output(), u64::MAX)
    }

    /// What both sides did, with these marks. Memory.
    pub(crate) fn report(self, marks: Vec<Mark>) -> Result<LinkReport, AllocError>
        ensures { IfOk result (λ report. report ≡ record (reported_link (link_of self.entry) [])
            { marks = marks.items }) }
    {
        Ok(LinkReport {
            client: self.client.report()?,
            server: self.server.report()?,
            marks: MarkList::new(marks),
        })
    }

    /// Whether bytes wait for a side.
    fn waits(&self) -> bool
        ensures to_client { result ≡ false → length self.now.server.transport.output ≤ self.now.client.taken }
        ensures to_server { result ≡ false → length self.now.client.transport.output ≤ self.now.server.taken }
        ensures waiting { result ≡ true → HasWaiting (link_of self.now) }
    {
        self.server.waiting(self.client.output()) > 0
            || self.client.waiting(self.server.output()) > 0
    }

    /// Whether a side has begun more exchanges than were asked for.
    fn begun_too_many(&self) -> bool
        ensures few_by_client { result ≡ false → begun_by (link_of self.now).client ≤ self.now.bound }
        ensures few_by_server { result ≡ false → begun_by (link_of self.now).server ≤ self.now.bound }
        ensures many { result ≡ true → BeginTooMany self.now.bound (link_of self.now) }
    {
        self.client.begun() > self.bound || self.server.begun() > self.bound
    }
}
