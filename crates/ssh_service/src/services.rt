//! The machine that grants services, each once (RFC 4253 section 10).

ghost use Rattle.std.specs.Prelude.{◌≡◌, ◌++◌, ◌∷◌, [], List, ℕ, OnOk, OnErr, IfErr, IfOk, true, if◌then◌else◌};
ghost use Rattle.ssh_service.specs.Answers.{IsServiceAnswer, ReceivesSome, StandsFor, answer_after, answers_from, has_name, is_for_above};
ghost use Rattle.ssh_service.specs.Steps.{RepliesGrant, answer_to, moves};
ghost use Rattle.ssh_service.specs.ServiceNames.{IsServiceName};
ghost use Rattle.ssh_service.specs.Messages.{IsMessage};
ghost use Rattle.ssh_wire.specs.declared.error.Error.TheVariants.{Inconsistent, Memory};
ghost use Rattle.ssh_service.specs.declared.message.ServiceMessage.TheVariants.{Request};
ghost use Rattle.ssh_service.specs.declared.answer.ServiceAnswer.TheVariants.{Bad, Extensions};

use crate::answer::ServiceAnswer;
use crate::message::{ServiceMessage, granting};
use crate::name::ServiceName;
use crate::name_set::NameSet;
use ssh_wire::{Disconnect, Error, Payload};
use std::alloc::{AllocError, Global};
use std::marker::Model;

/// The least number of a message that isn't answered here: authentication and what follows it (RFC 4251 section 7).
const FIRST_OTHER: u8 = 50;

/// The services that a side offers, which of them the peer asked for, and whether it told extensions.
#[derive(Debug, Drop)]
pub struct Services {
    offered: Vec<ServiceName>,
    requested: Vec<ServiceName>,
    informed: bool,
    /// The names that are offered, from the first request on.
    known: Option<NameSet>,
    /// The names that were asked for.
    asked: NameSet,
}

impl Model for Services {
    ghost use Rattle.ssh_service.specs.Answers.{ServiceState};
    ghost use Rattle.ssh_service.specs.NameSets.{AreIn, AreTaken};

    ghost Value = { ServiceState };

    ghost view = { λ s. record {
      offered = s.offered.items;
      requested = s.requested.items;
      informed = s.informed;
    } };

    ghost invariant = { λ s. AreTaken s.known s.offered.items × AreIn s.asked s.requested.items };
}

impl Services {
    /// A machine that offers these services, and that received nothing. It takes no memory.
    pub fn new(offered: Vec<ServiceName>) -> Services
        ensures offered { result.offered ≡ offered.items }
        ensures stands { StandsFor result [] }
    {
        let alloc = *offered.allocator();
        Services {
            offered,
            requested: Vec::new(alloc),
            informed: false,
            known: None,
            asked: NameSet::new(alloc),
        }
    }

    /// The answer to the next payload that was delivered:
    ///
    /// - Accepted, at the first request of a service that is offered, with the message that grants it;
    /// - Refused(ProtocolError) at each later one, Refused(ServiceNotAvailable) where it isn't offered;
    /// - Extensions at the first extension info;
    /// - Other for a message number of at least 50;
    /// - Bad for all else: what `ServiceMessage::decode` answers, or Inconsistent at an accept and at later extensions.
    ///
    /// Memory, which leaves the machine as it was.
    pub fn receive(&mut self, payload: &[u8]) -> Result<ServiceAnswer, Error>
        ensures answer { (earlier : List (List ℕ)) → StandsFor self.old earlier
            → IsServiceAnswer (answer_after self.old.offered earlier payload.now) result }
        ensures stands { OnOk result ((earlier : List (List ℕ)) → StandsFor self.old earlier
            → StandsFor self.new (earlier ++ payload.now ∷ [])) }
        ensures offered { self.new.offered ≡ self.old.offered }
        ensures unchanged { OnErr result (self.new ≡ self.old) }
        ensures err { IfErr result (λ e. e ≡ Memory) }
        ensures reply { IfOk result RepliesGrant }
    {
        if is_for_above(payload) {
            return Ok(ServiceAnswer::Other);
        }
        let alloc = *self.offered.allocator();
        match ServiceMessage::decode(alloc, payload) {
            Ok(message) => self.answer(alloc, message),
            Err(Error::Memory) => Err(Error::Memory),
            Err(error) => Ok(ServiceAnswer::Bad(error)),
        }
    }

    /// The answers to the next payloads that were delivered, in their order. Memory: some of them, from the first one
    /// on, were received.
    pub fn receive_all(&mut self, payloads: &[Payload]) -> Result<Vec<ServiceAnswer>, Error>
        ensures answers { IfOk result (λ v. (earlier : List (List ℕ)) → StandsFor self.old earlier
            → v.items ≡ answers_from self.old.offered earlier payloads.now) }
        ensures stands { OnOk result ((earlier : List (List ℕ)) → StandsFor self.old earlier
            → StandsFor self.new (earlier ++ payloads.now)) }
        ensures so_far { OnErr result (ReceivesSome self.old payloads.now self.new) }
        ensures offered { self.new.offered ≡ self.old.offered }
        ensures err { IfErr result (λ e. e ≡ Memory) }
    {
        let mut answers = Vec::new(*self.offered.allocator());
        for payload in payloads {
            let answer = self.receive(payload.as_slice())?;
            answers.push(answer)?;
        }
        Ok(answers)
    }

    /// The answer to a message.
    fn answer(&mut self, alloc: Global, message: ServiceMessage) -> Result<ServiceAnswer, Error>
        requires { IsMessage message }
        ensures answer { IfOk result (λ a. a ≡ answer_to self.old message) }
        ensures moves { OnOk result (self.new ≡ moves self.old message) }
        ensures unchanged { OnErr result (self.new ≡ self.old) }
        ensures err { IfErr result (λ e. e ≡ Memory) }
        ensures reply { IfOk result RepliesGrant }
    {
        match message {
            ServiceMessage::Request(name) => self.grant(alloc, name),
            ServiceMessage::Accept(_) => Ok(ServiceAnswer::Bad(Error::Inconsistent)),
            ServiceMessage::Info(_) => Ok(self.inform()),
        }
    }

    /// The answer to a request of this service.
    fn grant(&mut self, alloc: Global, name: ServiceName) -> Result<ServiceAnswer, Error>
        requires { IsServiceName name }
        ensures answer { IfOk result (λ a. a ≡ answer_to self.old (Request name)) }
        ensures moves { OnOk result (self.new ≡ moves self.old (Request name)) }
        ensures unchanged { OnErr result (self.new ≡ self.old) }
        ensures err { IfErr result (λ e. e ≡ Memory) }
        ensures reply { IfOk result RepliesGrant }
    {
        if !self.offers(alloc, &name)? {
            return Ok(ServiceAnswer::Refused(Disconnect::ServiceNotAvailable));
        }
        if self.asked.has(name.as_str().as_bytes()) {
            return Ok(ServiceAnswer::Refused(Disconnect::ProtocolError));
        }
        let reply = granting(alloc, &name)?;
        self.request(alloc, name)?;
        Ok(ServiceAnswer::Accepted(reply))
    }

    /// Whether a service of this name is offered. The names are taken up at the first call.
    fn offers(&mut self, alloc: Global, name: &ServiceName) -> Result<bool, AllocError>
        ensures offered { IfOk result (λ offered. offered ≡ has_name name.now self.old.offered) }
        ensures unchanged { self.new ≡ self.old }
    {
        let known = match self.known.take() {
            Some(known) => known,
            None => NameSet::of(alloc, self.offered.as_slice())?,
        };
        let offered = known.has(name.as_str().as_bytes());
        self.known = Some(known);
        Ok(offered)
    }

    /// Takes up a name that was asked for.
    fn request(&mut self, alloc: Global, name: ServiceName) -> Result<(), AllocError>
        ensures ok { OnOk result (self.new ≡ record self.old { requested = self.old.requested ++ name ∷ [] }) }
        ensures unchanged { OnErr result (self.new ≡ self.old) }
    {
        // The room first: a name isn't taken up in one place alone.
        self.requested.reserve(1)?;
        self.asked.add(alloc, name.as_str().as_bytes())?;
        self.requested.push(name)?;
        Ok(())
    }

    /// The answer to extensions.
    fn inform(&mut self) -> ServiceAnswer
        ensures answer { result ≡ (if self.old.informed then Bad Inconsistent else Extensions) }
        ensures moves { self.new ≡ record self.old { informed = true } }
    {
        if self.informed {
            return ServiceAnswer::Bad(Error::Inconsistent);
        }
        self.informed = true;
        ServiceAnswer::Extensions
    }
}

/// Whether a payload is a message of authentication or of a later protocol.
fn is_for_above(payload: &[u8]) -> bool
    ensures { result ≡ is_for_above payload.now }
{
    match payload {
        [] => false,
        [message_type, ..] => *message_type >= FIRST_OTHER,
    }
}
