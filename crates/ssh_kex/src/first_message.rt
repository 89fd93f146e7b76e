//! The peer's KEXINIT (RFC 4253 section 7.1).

ghost use Rattle.std.specs.Prelude.{◌≡◌, IfOk, IfErr};
ghost use Rattle.ssh_wire.specs.declared.side.Side.TheVariants.{Client as client_side, Server as server_side};
ghost use Rattle.ssh_kex.specs.Opening.{IsLateWhere, Reads, RefusesNames};
ghost use Rattle.ssh_kex.specs.Setting.{behind_guess, offers_of};

use crate::config::Config;
use crate::message::has_type;
use ssh_negotiate::{Client, KexCause, Names, Select, Server};
use ssh_packet::Incoming;
use ssh_wire::{Error, msg};
use std::alloc::Global;

/// Whether a KEXINIT comes too late: under strict key exchange the first is the first packet.
fn is_late(cause: &KexCause, is_strict: bool, seqn: u32) -> bool
    ensures { IsLateWhere result cause.now is_strict seqn }
{
    match cause {
        KexCause::Initial => is_strict && seqn != 1,
        KexCause::Rekey { .. } => false,
    }
}

/// The names that a client takes from the peer's KEXINIT. KexInit where it is another message, else as
/// `Client::read_kex`, and then StrictKeyExchangeViolation where under strict key exchange the first one isn't the
/// first packet; Memory.
pub fn client_names(
    alloc: Global,
    config: &Config,
    cause: &KexCause,
    incoming: &Incoming<'_>,
) -> Result<Names, Error>
    ensures ok { IfOk result (λ n. Reads client_side (offers_of client_side config.now) cause.now incoming.now.seqn
        incoming.now.payload.now n) }
    ensures err { IfErr result (λ e. RefusesNames client_side
        (offers_of client_side config.now) cause.now incoming.now.seqn incoming.now.payload.now e) }
{
    if !has_type(incoming.payload, msg::KEXINIT) {
        return Err(Error::KexInit);
    }
    let names = match Client::read_kex(
        alloc,
        incoming.payload,
        &config.preferred,
        None,
        None,
        cause,
    ) {
        Ok(names) => names,
        Err(error) => return Err(error),
    };
    if is_late(cause, names.strict_kex, incoming.seqn) {
        return Err(Error::StrictKeyExchangeViolation {
            message_type: msg::KEXINIT,
            sequence_number: incoming.seqn.wrapping_sub(1) as usize,
        });
    }
    Ok(names)
}

/// The names that a server takes from the peer's KEXINIT, by its preferences and its keys. As `client_names`, with
/// `Server::read_kex`.
pub fn server_names(
    alloc: Global,
    config: &Config,
    cause: &KexCause,
    incoming: &Incoming<'_>,
) -> Result<Names, Error>
    ensures ok { IfOk result (λ n. Reads server_side (offers_of server_side config.now) cause.now incoming.now.seqn
        incoming.now.payload.now n) }
    ensures err { IfErr result (λ e. RefusesNames server_side
        (offers_of server_side config.now) cause.now incoming.now.seqn incoming.now.payload.now e) }
{
    if !has_type(incoming.payload, msg::KEXINIT) {
        return Err(Error::KexInit);
    }
    let names = match Server::read_kex(
        alloc,
        incoming.payload,
        &config.preferred,
        Some(config.host.keys.as_slice()),
        Some(config.host.certificates.as_slice()),
        cause,
    ) {
        Ok(names) => names,
        Err(error) => return Err(error),
    };
    if is_late(cause, names.strict_kex, incoming.seqn) {
        return Err(Error::StrictKeyExchangeViolation {
            message_type: msg::KEXINIT,
            sequence_number: incoming.seqn.wrapping_sub(1) as usize,
        });
    }
    Ok(names)
}

/// The names of a KEXINIT behind its wrong guess, which was dropped.
pub fn names_behind_guess(names: Names) -> Names
    ensures { result ≡ behind_guess names }
{
    Names {
        ignore_guessed: false,
        guessed_ignored: true,
        ..names
    }
}
