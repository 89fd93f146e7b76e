//! A link that is carried out step by step.

ghost use Rattle.std.specs.Prelude.{◌≡◌, ◌⊎◌, Err, IfErr, IfOk, IfSome, None, OnErr, OnOk, false, true};
ghost use Rattle.ssh_rules.specs.Valid as valid;
ghost use Rattle.ssh_rules.specs.Valid.{first_config_fault};
ghost use Rattle.ssh_run.specs.Carrying.{CarriedLink, IsNewLink};
ghost use Rattle.ssh_run.specs.RefusedCarrying.{IsConfigFault};
ghost use Rattle.ssh_run.specs.Stepping.{WhereLive, first_link_state, report_so_far};
ghost use Rattle.ssh_wire.specs.declared.error.Error.TheVariants.{Disconnect, InvalidConfig, Memory};
ghost use Rattle.ssh_wire.specs.declared.side.Side.TheVariants.{Client as client_side, Server as server_side};

use crate::link::Carrier;
use crate::told::Stepped;
use rand_core::Rng;
use ssh_kex::{Agreement, Config, GroupLookup, Handed, HostKeys, Parts};
use ssh_rules::link::{LinkReport, Mark, Step};
use ssh_transport::first_config_fault;
use ssh_wire::{Error, Payload, Side};
use std::alloc::Global;
use std::marker::Model;

/// A client and a server over an honest carrier, the steps that were carried out, and a mark before the first and
/// behind each.
#[derive(Drop)]
pub struct Link<'c> {
    carrier: Carrier<'c>,
    steps: Vec<Step>,
    marks: Vec<Mark>,
    refused: bool,
}

impl<'c> Model for Link<'c> {
    ghost use Rattle.ssh_run.specs.LinkEnds.{link_of};
    ghost use Rattle.ssh_run.specs.Stepping.{LinkState};

    ghost Value = { LinkState };

    ghost view = { λ l. record {
      carried = link_of l.carrier;
      bound = l.carrier.bound;
      steps = l.steps.items;
      marks = l.marks.items;
      refused = l.refused;
    } };
}

impl<'c> Link<'c> {
    /// Both sides, each of which has sent its version line. InvalidConfig where a configuration is refused, the
    /// client's first, before memory is taken. Memory.
    pub fn new(alloc: Global, client: &'c Config, server: &'c Config) -> Result<Link<'c>, Error>
        ensures client { OnOk result (valid.config_fault client_side client.now ≡ None) }
        ensures server { OnOk result (valid.config_fault server_side server.now ≡ None) }
        ensures new { IfOk result (λ l. IsNewLink client.now server.now l.carried) }
        ensures first { IfOk result (λ l. l ≡ first_link_state l.carried) }
        ensures configs { IfSome (first_config_fault (valid.config_fault client_side client.now)
            (valid.config_fault server_side server.now)) (λ f. result ≡ Err (InvalidConfig f)) }
        ensures refused { IfErr result (λ e. (e ≡ Memory) ⊎ IsConfigFault client.now server.now e) }
    {
        if let Some(fault) = first_config_fault(client, server) {
            return Err(Error::InvalidConfig(fault));
        }
        let carrier = Carrier::new(alloc, client, server)?;
        let mut marks = Vec::new(alloc);
        marks.push(carrier.mark())?;
        Ok(Link {
            carrier,
            steps: Vec::new(alloc),
            marks,
            refused: false,
        })
    }

    /// Carries out a step. Disconnect where an earlier step was refused, which changes nothing. Else it is refused as a
    /// step of `run_link`, and no further step is carried out then. Memory.
    #[tactic(auto, using(ssh_transport::proofs::Lemmas::parts_same))]
    pub fn step<A: Agreement, H: HostKeys, G: GroupLookup, R: Rng>(
        &mut self,
        client_parts: &mut Parts<A, H, G, R>,
        server_parts: &mut Parts<A, H, G, R>,
        step: Step,
    ) -> Result<(), Error>
        ensures dead { self.old.refused ≡ true → (result ≡ Err Disconnect) × (self.new ≡ self.old)
            × (client_parts.new ≡ client_parts.old) × (server_parts.new ≡ server_parts.old) }
        ensures takes { self.old.refused ≡ false → OnOk result (⟦<Parts<A, H, G, R> as Stepped>⟧.takes_step self.old
            client_parts.old server_parts.old step self.new) }
        ensures refused { self.old.refused ≡ false → WhereLive self.old (IfErr result
            (λ e. ⟦<Parts<A, H, G, R> as Stepped>⟧.refuses_it self.old client_parts.old client_parts.new
            server_parts.old server_parts.new step e)) }
        ensures ends { OnErr result (self.new.refused ≡ true) }
        ensures client_keeps { ⟦<Parts<A, H, G, R> as Handed>⟧.keeps client_parts.old client_parts.new }
        ensures server_keeps { ⟦<Parts<A, H, G, R> as Handed>⟧.keeps server_parts.old server_parts.new }
    {
        if self.refused {
            return Err(Error::Disconnect);
        }
        self.refused = true;
        self.carrier.step(client_parts, server_parts, &step)?;
        self.marks.push(self.carrier.mark())?;
        self.steps.push(step)?;
        self.refused = false;
        Ok(())
    }

    /// The steps that were carried out, in order.
    pub fn steps(&self) -> &[Step]
        ensures { result.now ≡ self.now.steps }
    {
        self.steps.as_slice()
    }

    /// What a side delivered, in order.
    pub fn delivered(&self, side: Side) -> &[Payload]
        ensures client { side ≡ client_side → result.now ≡ self.now.carried.client.delivered }
        ensures server { side ≡ server_side → result.now ≡ self.now.carried.server.delivered }
    {
        match side {
            Side::Client => self.carrier.client.delivered.as_slice(),
            Side::Server => self.carrier.server.delivered.as_slice(),
        }
    }

    /// The steps that were carried out, and the report of what they did. No byte is copied. Memory.
    pub fn report(self) -> Result<(Vec<Step>, LinkReport), Error>
        ensures steps { IfOk result (λ r. r.0.items ≡ self.entry.steps) }
        ensures report { IfOk result (λ r. r.1 ≡ report_so_far self.entry) }
        ensures err { IfErr result (λ e. e ≡ Memory) }
    {
        let report = self.carrier.report(self.marks)?;
        Ok((self.steps, report))
    }
}
