//! A service that a client asks for over a link, and extensions that its server tells.

ghost use Rattle.std.specs.Prelude.{◌≡◌, ◌∷◌, [], List, IfErr, IfOk, IfSome, OnOk, map, true};
ghost use Rattle.ssh_kex.specs.Parts.{between};
ghost use Rattle.ssh_rules.specs.Headline.{chosen_by, kind_by};
ghost use Rattle.ssh_rules.specs.Refused.{group_due};
ghost use Rattle.ssh_rules.specs.RunLaws.{config_of};
ghost use Rattle.ssh_run.specs.RunCauses.{IsValidRun, offered_on};
ghost use Rattle.ssh_service.specs.Answers.{StandsFor};
ghost use Rattle.ssh_service.specs.Extensions.{AreExtensions};
ghost use Rattle.ssh_service.specs.Messages.{IsMessage, spelling};
ghost use Rattle.ssh_service.specs.ServiceNames.{IsServiceName, name_fault};
ghost use Rattle.ssh_service.specs.declared.message.ServiceMessage.{ServiceMessage};
ghost use Rattle.ssh_wire.specs.declared.error.Error.TheVariants.{Memory, SshEncoding};
ghost use Rattle.uses.specs.Granted.{AreMessages, IsGranted, granting_steps};

use rand_core::Rng;
use ssh_kex::{Agreement, Config, GroupLookup, HostKeys, Parts};
use ssh_rules::link::Step;
use ssh_run::run_link;
use ssh_service::{ExtInfo, ServiceAnswer, ServiceMessage, ServiceName, Services};
use ssh_wire::{Blob, Error, Payload, Side};
use std::alloc::Global;

/// What came of asking for a service.
#[derive(Debug, Drop)]
pub struct Granted {
    /// The server's answers to what was delivered to it, in order.
    pub answers: Vec<ServiceAnswer>,
    /// The messages that were delivered to the client, in order.
    pub told: Vec<ServiceMessage>,
}

/// Runs a link between a client and a server, whose parts are these. The server offers the service of this name. Behind
/// the first exchange it tells these extensions, and the client asks for the service. The server grants it, and the
/// client reads that.
///
/// SshEncoding where the text isn't the name of a service. Else as `run_link`; Memory.
pub fn ask_for_service<A: Agreement, H: HostKeys, G: GroupLookup, R: Rng>(
    alloc: Global,
    client: &Config,
    server: &Config,
    parts: &mut (Parts<A, H, G, R>, Parts<A, H, G, R>),
    name: &str,
    extensions: ExtInfo,
) -> Result<Granted, Error>
    ensures granted { A.lawful parts.old.0.agreement (between client.now server.now)
        → A.lawful parts.old.1.agreement (between client.now server.now)
        → G.lawful parts.old.1.groups (between client.now server.now)
        → IfOk result (IsGranted name.now extensions) }
    ensures complete { IsValidRun (config_of (between client.now server.now))
        (offered_on (A.offered parts.old.0.agreement) (A.offered parts.old.1.agreement)) []
        → IsServiceName name.now
        → A.obliging parts.old.0.agreement parts.new.0.agreement (between client.now server.now)
        (group_due (between client.now server.now) (G.group parts.old.1.groups client.now.gex))
        → A.obliging parts.old.1.agreement parts.new.1.agreement (between client.now server.now)
        (group_due (between client.now server.now) (G.group parts.old.1.groups client.now.gex))
        → H.judges parts.old.0.hosts parts.new.0.hosts (between client.now server.now)
        → H.signs parts.old.1.hosts parts.new.1.hosts (between client.now server.now)
        → G.lawful parts.old.1.groups (between client.now server.now)
        → (kind_by (chosen_by client.now server.now) ≡ true
        → G.obliging parts.old.1.groups parts.new.1.groups (between client.now server.now))
        → IfErr result (λ e. e ≡ Memory) }
    ensures name { OnOk result (IsServiceName name.now) }
    ensures unnamed { IfSome (name_fault name.now) (λ fault. IfErr result (λ e. e ≡ SshEncoding fault)) }
{
    let steps = steps_of(alloc, name, extensions)?;
    let report = run_link(
        alloc,
        client,
        server,
        &mut parts.0,
        &mut parts.1,
        steps.as_slice(),
    )?;
    let mut services = offering(alloc, name)?;
    let answers = services.receive_all(report.server.delivered.as_slice())?;
    let told = read_messages(alloc, report.client.delivered.as_slice())?;
    Ok(Granted { answers, told })
}

/// A machine that offers the service of this name alone. SshEncoding where the text isn't the name of a service;
/// Memory.
fn offering(alloc: Global, name: &str) -> Result<Services, Error>
    ensures offered { IfOk result (λ services. services.offered ≡ name.now ∷ []) }
    ensures stands { IfOk result (λ services. StandsFor services []) }
    ensures refused { IsServiceName name.now → IfErr result (λ e. e ≡ Memory) }
{
    let mut offered = Vec::new(alloc);
    offered.push(ServiceName::new(alloc, name)?)?;
    Ok(Services::new(offered))
}

/// The steps of the link. SshEncoding where the text isn't the name of a service; Memory.
fn steps_of(alloc: Global, name: &str, extensions: ExtInfo) -> Result<Vec<Step>, Error>
    ensures ok { IfOk result (λ steps. steps.items ≡ granting_steps name.now extensions) }
    ensures name { OnOk result (IsServiceName name.now) }
    ensures told { OnOk result (AreExtensions extensions) }
    ensures refused { IsServiceName name.now → IfErr result (λ e. e ≡ Memory) }
    ensures unnamed { IfSome (name_fault name.now) (λ fault. IfErr result (λ e. e ≡ SshEncoding fault)) }
{
    let request = payload_of(
        alloc,
        &ServiceMessage::Request(ServiceName::new(alloc, name)?),
    )?;
    let grant = payload_of(
        alloc,
        &ServiceMessage::Accept(ServiceName::new(alloc, name)?),
    )?;
    let told = payload_of(alloc, &ServiceMessage::Info(extensions))?;
    let mut steps = Vec::new(alloc);
    steps.push(Step::Settle)?;
    steps.push(Step::Submit(Side::Server, told))?;
    steps.push(Step::Submit(Side::Client, request))?;
    steps.push(Step::Settle)?;
    steps.push(Step::Submit(Side::Server, grant))?;
    steps.push(Step::Settle)?;
    Ok(steps)
}

/// The payload of a message. Memory.
fn payload_of(alloc: Global, message: &ServiceMessage) -> Result<Blob, Error>
    ensures ok { IfOk result (λ payload. payload ≡ spelling message.now) }
    ensures message { OnOk result (IsMessage message.now) }
    ensures err { IfErr result (λ e. e ≡ Memory) }
{
    let mut out = Vec::new(alloc);
    message.encode(&mut out)?;
    Ok(Blob::new(out))
}

/// The messages that these payloads are. As `ServiceMessage::decode`, by the first payload that is none; Memory.
fn read_messages(alloc: Global, payloads: &[Payload]) -> Result<Vec<ServiceMessage>, Error>
    ensures again { (messages : List ServiceMessage) → AreMessages messages → payloads.now ≡ map spelling messages
        → IfOk result (λ v. v.items ≡ messages) × IfErr result (λ e. e ≡ Memory) }
{
    let mut messages = Vec::new(alloc);
    for payload in payloads {
        let message = ServiceMessage::decode(alloc, payload.as_slice())?;
        messages.push(message)?;
    }
    Ok(messages)
}
