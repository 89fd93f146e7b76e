//! Answering what a transport delivered.

ghost use Rattle.std.specs.Prelude.{◌≡◌, ◌++◌, [], List, ℕ, Err, IfErr, IfOk, OnErr, OnOk, false, true};
ghost use Rattle.ssh_service.specs.Answers.{StandsFor, answers_from};
ghost use Rattle.ssh_service.specs.Serving.{ServesSome, SubmitsAll, replies_in, replies_of};
ghost use Rattle.ssh_service.specs.Steps.{RepliesGrant};
ghost use Rattle.ssh_wire.specs.declared.error.Error.TheVariants.{Disconnect, Memory};

use crate::answer::ServiceAnswer;
use crate::services::Services;
use rand_core::Rng;
use ssh_kex::{Agreement, GroupLookup, Handed, HostKeys, Parts};
use ssh_transport::Transport;
use ssh_wire::Error;
use std::alloc::Global;

/// Takes what a transport delivered, answers each payload, and submits the messages that grant services. The answers
/// are in the order of the payloads, whose bytes are dropped.
///
/// Disconnect where the transport had failed, which changes nothing. Memory: the payloads that were taken are gone.
/// Some of them, from the first one on, were received; where the transport still lives, exactly their replies were
/// submitted.
pub fn serve<A: Agreement, H: HostKeys, G: GroupLookup, R: Rng>(
    alloc: Global,
    transport: &mut Transport<'_>,
    parts: &mut Parts<A, H, G, R>,
    services: &mut Services,
) -> Result<Vec<ServiceAnswer>, Error>
    ensures dead { transport.old.failed ≡ true → (result ≡ Err Disconnect) × (transport.new ≡ transport.old)
        × (parts.new ≡ parts.old) × (services.new ≡ services.old) }
    ensures answers { IfOk result (λ v. (earlier : List (List ℕ)) → StandsFor services.old earlier
        → v.items ≡ answers_from services.old.offered earlier transport.old.delivered) }
    ensures stands { OnOk result ((earlier : List (List ℕ)) → StandsFor services.old earlier
        → StandsFor services.new (earlier ++ transport.old.delivered)) }
    ensures offered { services.new.offered ≡ services.old.offered }
    ensures replies { IfOk result (λ v. SubmitsAll (⟦<Parts<A, H, G, R> as Handed>⟧.says transport.old.config parts.old)
        (record transport.old { delivered = [] }) (replies_in v.items) transport.new) }
    ensures lives { transport.old.failed ≡ false → OnOk result (transport.new.failed ≡ false) }
    ensures memory { transport.old.failed ≡ false → IfErr result (λ e. e ≡ Memory) }
    ensures so_far { transport.old.failed ≡ false → OnErr result
        (ServesSome (⟦<Parts<A, H, G, R> as Handed>⟧.says transport.old.config parts.old)
        (record transport.old { delivered = [] }) services.old transport.old.delivered transport.new services.new) }
    ensures gone { transport.old.failed ≡ false → OnErr result (transport.new.delivered ≡ []) }
    ensures parts { (parts.new.agreement ≡ parts.old.agreement) × (parts.new.hosts ≡ parts.old.hosts)
        × (parts.new.groups ≡ parts.old.groups) }
{
    if transport.failed() {
        return Err(Error::Disconnect);
    }
    let delivered = transport.take_delivered();
    let mut answers = Vec::new(alloc);
    for payload in delivered.as_slice() {
        let answer = services.receive(payload.as_slice())?;
        submit_reply(transport, parts, &answer)?;
        answers.push(answer)?;
    }
    Ok(answers)
}

/// Submits the message that grants a service, where the answer is one.
fn submit_reply<A: Agreement, H: HostKeys, G: GroupLookup, R: Rng>(
    transport: &mut Transport<'_>,
    parts: &mut Parts<A, H, G, R>,
    answer: &ServiceAnswer,
) -> Result<(), Error>
    requires live { transport.old.failed ≡ false }
    requires good { RepliesGrant answer.now }
    ensures sent { OnOk result (SubmitsAll (⟦<Parts<A, H, G, R> as Handed>⟧.says transport.old.config parts.old)
        transport.old (replies_of answer.now) transport.new) }
    ensures live { OnOk result (transport.new.failed ≡ false) }
    ensures config { OnOk result (transport.new.config ≡ transport.old.config) }
    ensures memory { IfErr result (λ e. e ≡ Memory) }
    ensures ends { OnErr result ((transport.new.failed ≡ true)
        × (transport.new.delivered ≡ transport.old.delivered)) }
    ensures parts { (parts.new.agreement ≡ parts.old.agreement) × (parts.new.hosts ≡ parts.old.hosts)
        × (parts.new.groups ≡ parts.old.groups) }
{
    match answer {
        ServiceAnswer::Accepted(reply) => transport.submit(parts, reply.as_slice()),
        ServiceAnswer::Refused(_)
        | ServiceAnswer::Extensions
        | ServiceAnswer::Other
        | ServiceAnswer::Bad(_) => Ok(()),
    }
}
