//! Two runs in which both sides are fed any bytes.

ghost use Rattle.std.specs.Prelude.{◌≡◌, ◌⊎◌, IfErr, IfOk, Some};
ghost use Rattle.ssh_kex.specs.Parts.{between};
ghost use Rattle.ssh_rules.specs.AttackCauses.{IsAttackedRun};
ghost use Rattle.ssh_rules.specs.Attacked.{fed_to, first_refusal};
ghost use Rattle.ssh_rules.specs.Valid.{config_fault, first_config_fault};
ghost use Rattle.ssh_wire.specs.declared.error.ConfigFault.{ConfigFault};
ghost use Rattle.ssh_wire.specs.declared.error.Error.TheVariants.{InvalidConfig, Memory};
ghost use Rattle.ssh_wire.specs.declared.side.Side.TheVariants.{Client, Server};
ghost use Rattle.uses.specs.FedAlike.{IsByReader};

use rand_core::Rng;
use ssh_attack::{Attacked, run_attacked};
use ssh_kex::{Agreement, Config, GroupLookup, HostKeys, Parts};
use ssh_rules::link::{AttackReport, AttackStep};
use ssh_rules::same_delivered;
use ssh_wire::Error;
use std::alloc::Global;

/// Runs two sides of these configurations twice, by either list of steps, each time with a client's and a server's
/// parts of their own. What a side is delivered rests on the bytes that it was fed and on the exchanges that it
/// recorded, and not on where the bytes were cut.
///
/// InvalidConfig where a configuration falls; Memory.
pub fn attack_twice<A: Agreement, H: HostKeys, G: GroupLookup, R: Rng>(
    alloc: Global,
    client: &Config,
    server: &Config,
    parts: &mut (Parts<A, H, G, R>, Parts<A, H, G, R>),
    other_parts: &mut (Parts<A, H, G, R>, Parts<A, H, G, R>),
    steps: &[AttackStep],
    other_steps: &[AttackStep],
) -> Result<(AttackReport, AttackReport), Error>
    ensures client { fed_to Client steps.now ≡ fed_to Client other_steps.now
        → IfOk result (λ both. both.0.client.exchanges ≡ both.1.client.exchanges
        → IsByReader (first_refusal Client steps.now both.0.answers) → IsByReader
        (first_refusal Client other_steps.now both.1.answers)
        → both.0.client.delivered ≡ both.1.client.delivered) }
    ensures server { fed_to Server steps.now ≡ fed_to Server other_steps.now
        → IfOk result (λ both. both.0.server.exchanges ≡ both.1.server.exchanges
        → IsByReader (first_refusal Server steps.now both.0.answers) → IsByReader
        (first_refusal Server other_steps.now both.1.answers)
        → both.0.server.delivered ≡ both.1.server.delivered) }
    ensures first { IfOk result (λ both. IsAttackedRun (⟦<Parts<A, H, G, R> as Attacked>⟧.does
        (between client.now server.now) parts.old.0 parts.new.0) (⟦<Parts<A, H, G, R> as Attacked>⟧.does
        (between client.now server.now) parts.old.1 parts.new.1) client.now server.now steps.now both.0) }
    ensures second { IfOk result (λ both. IsAttackedRun (⟦<Parts<A, H, G, R> as Attacked>⟧.does
        (between client.now server.now) other_parts.old.0 other_parts.new.0) (⟦<Parts<A, H, G, R> as Attacked>⟧.does
        (between client.now server.now) other_parts.old.1 other_parts.new.1) client.now server.now other_steps.now
        both.1) }
    ensures refused { IfErr result (λ e. (e ≡ Memory) ⊎ ((f : ConfigFault) × (first_config_fault
        (config_fault Client client.now) (config_fault Server server.now) ≡ Some f) × (e ≡ InvalidConfig f))) }
{
    same_delivered::<A, H>();
    let report = run_attacked(alloc, client, server, &mut parts.0, &mut parts.1, steps)?;
    let other = run_attacked(
        alloc,
        client,
        server,
        &mut other_parts.0,
        &mut other_parts.1,
        other_steps,
    )?;
    Ok((report, other))
}
