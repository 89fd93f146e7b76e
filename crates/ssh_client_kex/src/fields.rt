//! The fields of messages behind their type.

ghost use Rattle.std.specs.Prelude.{◌≡◌, ◌⊎◌, Ok, Err, IfOk, IfErr, drop};
ghost use Rattle.ssh_wire.specs.Fields.{answer_of};
ghost use Rattle.ssh_wire.specs.Forms.{string};
ghost use Rattle.ssh_wire.specs.declared.error.Error.TheVariants.{Memory};
ghost use Rattle.ssh_client_kex.specs.Reading.{ReadsFront, ReadsGroup};
ghost use Rattle.ssh_kex.specs.Fields.{group_in, reply_front, value_in};

use ssh_kex::DhGroup;
use ssh_wire::{Blob, Error, Reader};
use std::alloc::Global;

/// What is behind a message's type.
pub(crate) fn fields_of(payload: &[u8]) -> &[u8]
    ensures { result.now ≡ drop 1 payload.now }
{
    match payload {
        [_, fields @ ..] => fields,
        [] => payload,
    }
}

/// One string and nothing behind it. SshEncoding.
pub(crate) fn value_of<'a>(reader: &mut Reader<'a>) -> Result<&'a [u8], Error>
    ensures ok { IfOk result (λ v. (value_in reader.old ≡ Ok v.now) × (reader.old ≡ string v.now)) }
    ensures err { IfErr result (λ e. answer_of (value_in reader.old) ≡ Err e) }
{
    let value = match reader.read_string() {
        Ok(value) => value,
        Err(error) => return Err(error),
    };
    match reader.ensure_end() {
        Ok(()) => Ok(value),
        Err(error) => Err(error),
    }
}

/// The host's blob and the server's value of a reply.
#[derive(Clone, Copy)]
pub(crate) struct ReplyFields<'a> {
    pub host: &'a [u8],
    pub value: &'a [u8],
}

/// The host's blob and the server's value at the front of a reply. SshEncoding.
pub(crate) fn front_of<'a>(reader: &mut Reader<'a>) -> Result<ReplyFields<'a>, Error>
    ensures ok { IfOk result (λ r. ReadsFront reader.old r.host.now r.value.now reader.new) }
    ensures err { IfErr result (λ e. answer_of (reply_front reader.old) ≡ Err e) }
{
    let host = match reader.read_string() {
        Ok(host) => host,
        Err(error) => return Err(error),
    };
    match reader.read_string() {
        Ok(value) => Ok(ReplyFields { host, value }),
        Err(error) => Err(error),
    }
}

/// The fields of a group. SshEncoding; Memory.
pub(crate) fn group_of(alloc: Global, bytes: &[u8]) -> Result<DhGroup, Error>
    ensures ok { IfOk result (λ g. ReadsGroup bytes.now g) }
    ensures err { IfErr result (λ e. (e ≡ Memory) ⊎ (answer_of (group_in bytes.now) ≡ Err e)) }
{
    let mut reader = Reader::new(bytes);
    let prime = match reader.read_mpint() {
        Ok(prime) => prime,
        Err(error) => return Err(error),
    };
    let generator = match reader.read_mpint() {
        Ok(generator) => generator,
        Err(error) => return Err(error),
    };
    match reader.ensure_end() {
        Ok(()) => Ok(DhGroup {
            prime: Blob::copy_of(alloc, prime)?,
            generator: Blob::copy_of(alloc, generator)?,
        }),
        Err(error) => Err(error),
    }
}
