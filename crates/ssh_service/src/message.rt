//! The messages SSH_MSG_SERVICE_REQUEST and SSH_MSG_SERVICE_ACCEPT (RFC 4253 section 10), and SSH_MSG_EXT_INFO
//! (RFC 8308 section 2.3).

ghost use Rattle.std.specs.Prelude.{◌≡◌, ◌++◌, ◌∷◌, List, ℕ, length, Ok, OnOk, OnErr, IfErr, IfOk};
ghost use Rattle.ssh_wire.specs.declared.error.Error.TheVariants.{Memory};
ghost use Rattle.ssh_service.specs.Extensions.{info_at};
ghost use Rattle.ssh_service.specs.Messages.{IsMessage, IsReadAs, behind_type, message_of, spelling};
ghost use Rattle.ssh_service.specs.ServiceNames.{IsServiceName, name_at};
ghost use Rattle.ssh_wire.specs.Forms.{string};
ghost use Rattle.ssh_wire.specs.Messages.{Grows, ReadsWhole};
ghost use Rattle.ssh_service.specs.declared.message.ServiceMessage.TheVariants.{Accept};

use crate::info::{ExtInfo, put_info, read_info};
use crate::name::{ServiceName, read_name};
use ssh_wire::{Blob, Error, Reader, msg, put_string, put_u8};
use std::alloc::Global;

/// A message on services or on extensions.
#[derive(Debug, Drop)]
pub enum ServiceMessage {
    /// A service is asked for: number 5.
    Request(ServiceName),
    /// A service is granted: number 6.
    Accept(ServiceName),
    /// Extension info, number 7: the extensions that its sender tells.
    Info(ExtInfo),
}

impl ServiceMessage {
    /// Appends the payload of the message. Memory leaves `out` as it was.
    pub fn encode(&self, out: &mut Vec<u8>) -> Result<(), Error>
        ensures ok { OnOk result (out.new.items ≡ out.old.items ++ spelling self.now) }
        ensures message { OnOk result (IsMessage self.now) }
        ensures unchanged { OnErr result (out.new.items ≡ out.old.items) }
        ensures err { IfErr result (λ e. e ≡ Memory) }
    {
        let start = out.len();
        match put_message(out, self) {
            Ok(()) => Ok(()),
            Err(error) => {
                out.truncate(start);
                Err(error)
            }
        }
    }

    /// The message of a payload. Inconsistent where the payload is empty or its number is none of the three. Else
    /// SshEncoding by the first bad field:
    ///
    /// - Length where it is cut short, a name has over 255 bytes, a value over 8192, or the count is over 16;
    /// - CharacterEncoding where a name is empty or not ASCII;
    /// - TrailingData where bytes follow the last field.
    ///
    /// Of a name CharacterEncoding is told before over 255 bytes. The count is tested before the extensions are read.
    /// Memory.
    pub fn decode(alloc: Global, payload: &[u8]) -> Result<ServiceMessage, Error>
        ensures exact { IsReadAs (message_of payload.now) result }
        ensures spelled { IfOk result (λ m. (payload.now ≡ spelling m) × IsMessage m) }
        ensures again { (m : ServiceMessage) → IsMessage m → payload.now ≡ spelling m → IsReadAs (Ok m) result }
    {
        let Some((message_type, fields)) = payload.split_first() else {
            return Err(Error::Inconsistent);
        };
        read_message(alloc, *message_type, fields)
    }
}

/// The message of this type with these fields.
fn read_message(alloc: Global, message_type: u8, fields: &[u8]) -> Result<ServiceMessage, Error>
    ensures { IsReadAs (behind_type message_type fields.now) result }
{
    match message_type {
        msg::SERVICE_REQUEST => Ok(ServiceMessage::Request(whole_name(alloc, fields)?)),
        msg::SERVICE_ACCEPT => Ok(ServiceMessage::Accept(whole_name(alloc, fields)?)),
        msg::EXT_INFO => Ok(ServiceMessage::Info(whole_info(alloc, fields)?)),
        _ => Err(Error::Inconsistent),
    }
}

/// A name, and nothing behind it.
fn whole_name(alloc: Global, fields: &[u8]) -> Result<ServiceName, Error>
    ensures { ReadsWhole (λ n. n) (name_at fields.now) result }
{
    let mut r = Reader::new(fields);
    let name = read_name(alloc, &mut r)?;
    r.ensure_end()?;
    Ok(name)
}

/// Extensions, and nothing behind them.
fn whole_info(alloc: Global, fields: &[u8]) -> Result<ExtInfo, Error>
    ensures { ReadsWhole (λ i. i) (info_at fields.now) result }
{
    let mut r = Reader::new(fields);
    let info = read_info(alloc, &mut r)?;
    r.ensure_end()?;
    Ok(info)
}

/// Appends the message. After an error what stood there is still the front.
fn put_message(out: &mut Vec<u8>, message: &ServiceMessage) -> Result<(), Error>
    ensures ok { OnOk result (out.new.items ≡ out.old.items ++ spelling message.now) }
    ensures message { IsMessage message.now }
    ensures front { OnErr result (Grows out.old.items out.new.items) }
    ensures err { IfErr result (λ e. e ≡ Memory) }
{
    match message {
        ServiceMessage::Request(name) => put_named(out, msg::SERVICE_REQUEST, name),
        ServiceMessage::Accept(name) => put_named(out, msg::SERVICE_ACCEPT, name),
        ServiceMessage::Info(info) => {
            let extensions = info.as_slice();
            put_u8(out, msg::EXT_INFO)?;
            put_info(out, extensions)
        }
    }
}

/// Appends a type and a name. After an error what stood there is still the front.
fn put_named(out: &mut Vec<u8>, message_type: u8, name: &ServiceName) -> Result<(), Error>
    ensures ok { OnOk result (out.new.items ≡ out.old.items ++ message_type ∷ string name.now) }
    ensures name { IsServiceName name.now }
    ensures front { OnErr result (Grows out.old.items out.new.items) }
    ensures err { IfErr result (λ e. e ≡ Memory) }
{
    let text = name.as_str();
    put_u8(out, message_type)?;
    put_string(out, text.as_bytes())
}

/// The message that grants a service. Memory.
pub(crate) fn granting(alloc: Global, name: &ServiceName) -> Result<Blob, Error>
    ensures ok { IfOk result (λ b. b ≡ spelling (Accept name.now)) }
    ensures name { IsServiceName name.now }
    ensures err { IfErr result (λ e. e ≡ Memory) }
{
    let mut out = Vec::new(alloc);
    put_named(&mut out, msg::SERVICE_ACCEPT, name)?;
    Ok(Blob::new(out))
}
