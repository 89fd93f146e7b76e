//! What each payload is answered.

ghost use Rattle.std.specs.Prelude.{◌≡◌, ◌||◌, ◌∷◌, ◌++◌, [], ℕ, List, true, Ok, IfErr, IfOk, IfSome, OnOk};
ghost use Rattle.std.specs.Str.{bytes_eq};
ghost use Rattle.ssh_service.specs.Messages.{message_of, spelling};
ghost use Rattle.ssh_service.specs.Steps.{IsGrant};
ghost use Rattle.ssh_service.specs.declared.answer.ServiceAnswer.TheVariants.{Other};
ghost use Rattle.ssh_service.specs.declared.message.ServiceMessage.TheVariants.{Accept, Request};
ghost use Rattle.ssh_wire.specs.declared.error.Error.TheVariants.{Memory};
ghost use Rattle.ssh_wire.specs.declared.side.Side.TheVariants.{Client, Server};
ghost use Rattle.ssh_pipe.specs.Desks.{HasAnswered, IsAsking, LetsNobodyIn, client_reply, first_of, grants_login, is_login, login_failure, login_service, reply_to, server_reply};

use ssh_service::{ServiceAnswer, ServiceMessage, ServiceName, Services};
use ssh_wire::{Blob, Error, Side, msg};
use std::alloc::{AllocError, Global};
use std::marker::Model;

/// The service of logins (RFC 4252), which a server offers and a client asks for.
const LOGIN_SERVICE: &str = "ssh-userauth";

/// The answer to each login: SSH_MSG_USERAUTH_FAILURE, no method that may go on, and no partial success (RFC 4252
/// section 5.1).
const LOGIN_FAILURE: [u8; 6] = [msg::USERAUTH_FAILURE, 0, 0, 0, 0, 0];

/// What a side makes of a payload.
#[derive(Debug, Drop)]
pub enum Reply {
    /// Nothing is due.
    Silent,
    /// This payload is due.
    Message(Blob),
    /// The service that is asked for isn't granted.
    NotServed,
    /// The payload is none that may come here.
    Bad(Error),
}

/// Answers the payloads of the other side. A server grants the service of logins once, and lets every login behind it
/// fail. A client asks for that service, and waits until it is granted.
#[derive(Debug, Drop)]
pub struct Desk {
    side: Side,
    services: Services,
    granted: bool,
}

impl Model for Desk {
    ghost use Rattle.ssh_pipe.specs.Desks.{DeskState};

    ghost Value = { DeskState };

    ghost view = { λ d. record { side = d.side; services = d.services; granted = d.granted } };
}

impl Desk {
    /// One that received nothing. Memory.
    pub fn new(alloc: Global, side: Side) -> Result<Desk, Error>
        ensures side { IfOk result (λ d. d.side ≡ side) }
        ensures answered { IfOk result (λ d. HasAnswered d []) }
        ensures err { IfErr result (λ e. e ≡ Memory) }
    {
        let mut offered = Vec::new(alloc);
        offered.push(login_name(alloc)?)?;
        Ok(Desk {
            side,
            services: Services::new(offered),
            granted: false,
        })
    }

    /// Whether the service of logins was granted.
    pub fn granted(&self) -> bool
        ensures { result ≡ self.now.granted }
    {
        self.granted
    }

    /// Whether nothing is left to wait for: a client's service was granted.
    pub fn is_done(&self) -> bool
        ensures granted { result ≡ true → self.now.granted ≡ true }
        ensures client { result ≡ true → self.now.side ≡ Client }
    {
        self.granted && matches!(self.side, Side::Client)
    }

    /// What a side sends first: a client's request. Memory.
    pub fn first(&self, alloc: Global) -> Result<Option<Blob>, Error>
        ensures asks { IfOk result (λ o. IfSome o IsAsking) }
        ensures first { IfOk result (λ o. o ≡ first_of self.now.side) }
        ensures err { IfErr result (λ e. e ≡ Memory) }
    {
        match self.side {
            Side::Client => Ok(Some(request(alloc)?)),
            Side::Server => Ok(None),
        }
    }

    /// What the next payload is answered. Memory.
    pub fn reply_to(&mut self, alloc: Global, payload: &[u8]) -> Result<Reply, Error>
        ensures nobody { IfOk result LetsNobodyIn }
        ensures reply { (earlier : List (List ℕ)) → HasAnswered self.old earlier
            → IfOk result (λ r. r ≡ reply_to self.old.side earlier payload.now) }
        ensures answered { OnOk result ((earlier : List (List ℕ)) → HasAnswered self.old earlier
            → HasAnswered self.new (earlier ++ payload.now ∷ [])) }
        ensures side { self.new.side ≡ self.old.side }
        ensures err { IfErr result (λ e. e ≡ Memory) }
    {
        match self.side {
            Side::Client => self.client_reply(alloc, payload),
            Side::Server => self.server_reply(alloc, payload),
        }
    }

    /// A client waits for the service that it asked for, and takes extensions.
    fn client_reply(&mut self, alloc: Global, payload: &[u8]) -> Result<Reply, Error>
        ensures nobody { IfOk result LetsNobodyIn }
        ensures reply { IfOk result (λ r. r ≡ client_reply self.old.granted (message_of payload.now)) }
        ensures granted { OnOk result (self.new ≡ record self.old {
          granted = self.old.granted || grants_login payload.now;
        }) }
        ensures side { self.new.side ≡ self.old.side }
        ensures err { IfErr result (λ e. e ≡ Memory) }
    {
        match ServiceMessage::decode(alloc, payload) {
            Ok(ServiceMessage::Accept(name)) => Ok(self.take_grant(&name)),
            Ok(ServiceMessage::Info(_)) => Ok(Reply::Silent),
            Ok(ServiceMessage::Request(_)) => Ok(Reply::Bad(Error::Inconsistent)),
            Err(Error::Memory) => Err(Error::Memory),
            Err(error) => Ok(Reply::Bad(error)),
        }
    }

    /// A grant is good once, of the service that was asked for.
    fn take_grant(&mut self, name: &ServiceName) -> Reply
        ensures nobody { LetsNobodyIn result }
        ensures reply { result ≡ client_reply self.old.granted (Ok (Accept name.now)) }
        ensures granted { self.new ≡ record self.old {
          granted = self.old.granted || bytes_eq name.now login_service;
        } }
    {
        if self.granted || name.as_str() != LOGIN_SERVICE {
            return Reply::Bad(Error::Inconsistent);
        }
        self.granted = true;
        Reply::Silent
    }

    /// A server grants services, and lets logins fail.
    fn server_reply(&mut self, alloc: Global, payload: &[u8]) -> Result<Reply, Error>
        requires server { self.old.side ≡ Server }
        ensures nobody { IfOk result LetsNobodyIn }
        ensures reply { (earlier : List (List ℕ)) → HasAnswered self.old earlier
            → IfOk result (λ r. r ≡ reply_to Server earlier payload.now) }
        ensures answered { OnOk result ((earlier : List (List ℕ)) → HasAnswered self.old earlier
            → HasAnswered self.new (earlier ++ payload.now ∷ [])) }
        ensures side { self.new.side ≡ self.old.side }
        ensures err { IfErr result (λ e. e ≡ Memory) }
    {
        match self.services.receive(payload)? {
            ServiceAnswer::Accepted(reply) => {
                self.granted = true;
                Ok(Reply::Message(reply))
            }
            ServiceAnswer::Refused(_) => Ok(Reply::NotServed),
            ServiceAnswer::Extensions => Ok(Reply::Silent),
            ServiceAnswer::Other => self.login_reply(alloc, payload),
            ServiceAnswer::Bad(error) => Ok(Reply::Bad(error)),
        }
    }

    /// A login fails, where the service was granted. Nothing else may come before a login succeeds.
    fn login_reply(&self, alloc: Global, payload: &[u8]) -> Result<Reply, Error>
        ensures nobody { IfOk result LetsNobodyIn }
        ensures reply { IfOk result (λ r. r ≡ server_reply self.now.granted (is_login payload.now) Other) }
        ensures err { IfErr result (λ e. e ≡ Memory) }
    {
        if self.granted && is_login(payload) {
            return Ok(Reply::Message(failure(alloc)?));
        }
        Ok(Reply::Bad(Error::Inconsistent))
    }
}

/// Whether a payload is a request to log in.
fn is_login(payload: &[u8]) -> bool
    ensures { result ≡ is_login payload.now }
{
    match payload {
        [] => false,
        [message_type, ..] => *message_type == msg::USERAUTH_REQUEST,
    }
}

/// The answer to a login. Memory.
fn failure(alloc: Global) -> Result<Blob, AllocError>
    ensures { IfOk result (λ b. b ≡ login_failure) }
{
    Blob::copy_of(alloc, &LOGIN_FAILURE)
}

/// The request of the service of logins. Memory.
fn request(alloc: Global) -> Result<Blob, Error>
    ensures asks { IfOk result IsAsking }
    ensures request { IfOk result (λ b. b ≡ spelling (Request login_service)) }
    ensures err { IfErr result (λ e. e ≡ Memory) }
{
    let mut out = Vec::new(alloc);
    let name = login_name(alloc)?;
    ServiceMessage::Request(name).encode(&mut out)?;
    Ok(Blob::new(out))
}

/// The name of the service of logins. Memory.
fn login_name(alloc: Global) -> Result<ServiceName, Error>
    ensures name { IfOk result (λ n. n ≡ login_service) }
    ensures err { IfErr result (λ e. e ≡ Memory) }
{
    ServiceName::new(alloc, LOGIN_SERVICE)
}
