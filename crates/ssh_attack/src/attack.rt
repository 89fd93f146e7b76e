//! The run of two sides that are fed any bytes.

ghost use Rattle.std.specs.Prelude.{◌≡◌, ◌⊎◌, Err, IfErr, IfOk, IfSome, None, OnOk, Some};
ghost use Rattle.ssh_wire.specs.declared.error.ConfigFault.{ConfigFault};
ghost use Rattle.ssh_kex.specs.Parts.{between};
ghost use Rattle.ssh_rules.specs.AttackCauses.{IsAttackedRun};
ghost use Rattle.ssh_rules.specs.Attacking.{AttacksEnd, AttacksSide, attacked_report};
ghost use Rattle.ssh_rules.specs.Valid as valid;
ghost use Rattle.ssh_rules.specs.Valid.{first_config_fault};
ghost use Rattle.ssh_attack.specs.AttackEnds.{EndsAnswered, IsFirstEnd, attacked_end, none_asked};
ghost use Rattle.ssh_transport.specs.Drawing.{AreDrawn};
ghost use Rattle.ssh_wire.specs.declared.error.Error.TheVariants.{InvalidConfig, Memory};
ghost use Rattle.ssh_wire.specs.declared.side.Side.TheVariants.{Client, Server};

use crate::attack_end::AttackEnd;
use crate::attacked::{Attacked, Leaving};
use rand_core::Rng;
use ssh_kex::{Agreement, Config, GroupLookup, Handed, HostKeys, Parts};
use ssh_rules::link::{AnswerList, AttackReport, AttackStep};
use ssh_rules::{Asked, sizes_are_u32};
use ssh_transport::{Transport, first_config_fault};
use ssh_wire::{Error, Side};
use std::alloc::{AllocError, Global};

/// Both sides.
#[derive(Drop)]
struct Attack<'c> {
    client: AttackEnd<'c>,
    server: AttackEnd<'c>,
}

/// Runs a client and a server by these steps; each is fed the bytes that a step says, whoever made them. What a step is
/// answered stands in the report, and the run goes on.
///
/// InvalidConfig where a configuration falls, the client's tested first; Memory, also where a step answers it.
pub fn run_attacked<A: Agreement, H: HostKeys, G: GroupLookup, R: Rng>(
    alloc: Global,
    client: &Config,
    server: &Config,
    client_parts: &mut Parts<A, H, G, R>,
    server_parts: &mut Parts<A, H, G, R>,
    steps: &[AttackStep],
) -> Result<AttackReport, Error>
    ensures configs { IfSome (first_config_fault (valid.config_fault Client client.now)
        (valid.config_fault Server server.now)) (λ f. result ≡ Err (InvalidConfig f)) }
    ensures refused { IfErr result (λ e. (e ≡ Memory) ⊎ ((f : ConfigFault)
        × (first_config_fault (valid.config_fault Client client.now) (valid.config_fault Server server.now) ≡ Some f)
        × (e ≡ InvalidConfig f))) }
    ensures run { IfOk result (IsAttackedRun (⟦<Parts<A, H, G, R> as Attacked>⟧.does
        (between client.now server.now) client_parts.old client_parts.new)
        (⟦<Parts<A, H, G, R> as Attacked>⟧.does (between client.now server.now) server_parts.old
        server_parts.new) client.now server.now steps.now) }
    ensures client_keeps { ⟦<Parts<A, H, G, R> as Handed>⟧.keeps client_parts.old client_parts.new }
    ensures server_keeps { ⟦<Parts<A, H, G, R> as Handed>⟧.keeps server_parts.old server_parts.new }
    ensures drawn { IfOk result (λ r. AreDrawn client.now server.now (R.stream client_parts.old.rng)
        (R.stream server_parts.old.rng) r.client.wire r.server.wire) }
    ensures answered { IfOk result (EndsAnswered client.now server.now steps.now
        (⟦<Parts<A, H, G, R> as Asked>⟧.tests client_parts.old) (⟦<Parts<A, H, G, R> as Asked>⟧.tests client_parts.new)
        (⟦<Parts<A, H, G, R> as Asked>⟧.tests server_parts.old)
        (⟦<Parts<A, H, G, R> as Asked>⟧.tests server_parts.new)) }
{
    sizes_are_u32(client);
    sizes_are_u32(server);
    if let Some(fault) = first_config_fault(client, server) {
        return Err(Error::InvalidConfig(fault));
    }
    let mut attack = Attack::new(alloc, client, server)?;
    let answers = attack.run(alloc, client_parts, server_parts, steps)?;
    Ok(attack.report(answers)?)
}

impl<'c> Attack<'c> {
    /// Both sides, each of which has sent its id line. Memory.
    fn new(alloc: Global, client: &'c Config, server: &'c Config) -> Result<Attack<'c>, Error>
        requires of_client { valid.config_fault Client client.now ≡ None }
        requires of_server { valid.config_fault Server server.now ≡ None }
        ensures client { IfOk result (λ attack. IsFirstEnd Client client.now attack.client) }
        ensures server { IfOk result (λ attack. IsFirstEnd Server server.now attack.server) }
        ensures err { IfErr result (λ e. e ≡ Memory) }
    {
        Ok(Attack {
            client: AttackEnd::new(alloc, Transport::client(alloc, client)?),
            server: AttackEnd::new(alloc, Transport::server(alloc, server)?),
        })
    }

    /// What both sides did, with these answers. Memory.
    fn report(self, answers: Vec<Result<(), Error>>) -> Result<AttackReport, AllocError>
        ensures { IfOk result (λ report. report ≡ record {
          client = attacked_report
              (attacked_end self.entry.client none_asked);
          server = attacked_report (attacked_end self.entry.server none_asked);
          answers = answers.items;
        }) }
    {
        Ok(AttackReport {
            client: self.client.report()?,
            server: self.server.report()?,
            answers: AnswerList::new(answers),
        })
    }

    /// Carries out all steps, and keeps what each was answered. Memory.
    fn run<A: Agreement, H: HostKeys, G: GroupLookup, R: Rng>(
        &mut self,
        alloc: Global,
        client_parts: &mut Parts<A, H, G, R>,
        server_parts: &mut Parts<A, H, G, R>,
        steps: &[AttackStep],
    ) -> Result<Vec<Result<(), Error>>, Error>
        ensures err { IfErr result (λ e. e ≡ Memory) }
        ensures client { IfOk result (λ answers. AttacksSide (⟦<Parts<A, H, G, R> as Attacked>⟧.tells
            self.old.client.transport.config client_parts.old client_parts.new) Client steps.now answers.items
            (attacked_end self.old.client (⟦<Parts<A, H, G, R> as Asked>⟧.calls client_parts.old))
            (attacked_end self.new.client (⟦<Parts<A, H, G, R> as Asked>⟧.calls client_parts.new))) }
        ensures server { IfOk result (λ answers. AttacksSide (⟦<Parts<A, H, G, R> as Attacked>⟧.tells
            self.old.server.transport.config server_parts.old server_parts.new) Server steps.now answers.items
            (attacked_end self.old.server (⟦<Parts<A, H, G, R> as Asked>⟧.calls server_parts.old))
            (attacked_end self.new.server (⟦<Parts<A, H, G, R> as Asked>⟧.calls server_parts.new))) }
        ensures client_keeps { ⟦<Parts<A, H, G, R> as Handed>⟧.keeps client_parts.old client_parts.new }
        ensures server_keeps { ⟦<Parts<A, H, G, R> as Handed>⟧.keeps server_parts.old server_parts.new }
        ensures client_leaves { OnOk result (⟦<Parts<A, H, G, R> as Leaving>⟧.leaves self.old.client.transport
            self.new.client.transport client_parts.old client_parts.new) }
        ensures server_leaves { OnOk result (⟦<Parts<A, H, G, R> as Leaving>⟧.leaves self.old.server.transport
            self.new.server.transport server_parts.old server_parts.new) }
    {
        let mut answers = Vec::with_capacity(alloc, steps.len())?;
        for step in steps {
            let answer = self.step(client_parts, server_parts, step);
            if let Err(Error::Memory) = answer {
                return Err(Error::Memory);
            }
            answers.push(answer)?;
        }
        Ok(answers)
    }

    /// Carries out one step.
    fn step<A: Agreement, H: HostKeys, G: GroupLookup, R: Rng>(
        &mut self,
        client_parts: &mut Parts<A, H, G, R>,
        server_parts: &mut Parts<A, H, G, R>,
        step: &AttackStep,
    ) -> Result<(), Error>
        ensures client { (result ≡ Err Memory → ⊥) → AttacksEnd (⟦<Parts<A, H, G, R> as Attacked>⟧.tells
            self.old.client.transport.config client_parts.old client_parts.new) Client step.now result
            (attacked_end self.old.client (⟦<Parts<A, H, G, R> as Asked>⟧.calls client_parts.old))
            (attacked_end self.new.client (⟦<Parts<A, H, G, R> as Asked>⟧.calls client_parts.new)) }
        ensures server { (result ≡ Err Memory → ⊥) → AttacksEnd (⟦<Parts<A, H, G, R> as Attacked>⟧.tells
            self.old.server.transport.config server_parts.old server_parts.new) Server step.now result
            (attacked_end self.old.server (⟦<Parts<A, H, G, R> as Asked>⟧.calls server_parts.old))
            (attacked_end self.new.server (⟦<Parts<A, H, G, R> as Asked>⟧.calls server_parts.new)) }
        ensures client_keeps { ⟦<Parts<A, H, G, R> as Handed>⟧.keeps client_parts.old client_parts.new }
        ensures server_keeps { ⟦<Parts<A, H, G, R> as Handed>⟧.keeps server_parts.old server_parts.new }
        ensures client_leaves { (result ≡ Err Memory → ⊥) → ⟦<Parts<A, H, G, R> as Leaving>⟧.leaves
            self.old.client.transport self.new.client.transport client_parts.old client_parts.new }
        ensures server_leaves { (result ≡ Err Memory → ⊥) → ⟦<Parts<A, H, G, R> as Leaving>⟧.leaves
            self.old.server.transport self.new.server.transport server_parts.old server_parts.new }
    {
        match step {
            AttackStep::Submit(Side::Client, payload) => {
                self.client.submit(client_parts, payload.as_slice())
            }
            AttackStep::Submit(Side::Server, payload) => {
                self.server.submit(server_parts, payload.as_slice())
            }
            AttackStep::Feed(Side::Client, bytes) => self
                .client
                .feed(client_parts, bytes.as_slice()),
            AttackStep::Feed(Side::Server, bytes) => self
                .server
                .feed(server_parts, bytes.as_slice()),
            AttackStep::Rekey(Side::Client) => self.client.rekey(client_parts),
            AttackStep::Rekey(Side::Server) => self.server.rekey(server_parts),
        }
    }
}
