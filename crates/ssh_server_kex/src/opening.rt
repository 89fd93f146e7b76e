//! The peer's KEXINIT.

ghost use Rattle.std.specs.Prelude.{◌≡◌, true, IfOk, IfErr};
ghost use Rattle.ssh_server_kex.specs.ServerRows.{OpensServer, RefusesOpening};

use ssh_kex::first_message::server_names;
use ssh_kex::{Agreement, Config, Exchange};
use ssh_negotiate::{KexCause, Names};
use ssh_packet::Incoming;
use ssh_wire::{Blob, Error};
use std::alloc::Global;

/// Takes a client's KEXINIT into the exchange. As `server_names`; UnknownAlgo where values are to be exchanged and the
/// agreement doesn't offer the name; Memory.
pub(crate) fn open<A: Agreement>(
    alloc: Global,
    config: &Config,
    cause: &KexCause,
    agreement: &A,
    exchange: &mut Exchange,
    incoming: &Incoming<'_>,
) -> Result<Names, Error>
    ensures ok { IfOk result (OpensServer (λ name. A.offered agreement.now name ≡ true) config.now cause.now
        exchange.old exchange.new incoming.now.seqn incoming.now.payload.now) }
    ensures err { IfErr result (RefusesOpening (λ name. A.offered agreement.now name ≡ true) config.now cause.now
        incoming.now.seqn incoming.now.payload.now) }
{
    let names = server_names(alloc, config, cause, incoming)?;
    if !names.kex.shape().skip && !agreement.offers(names.kex) {
        return Err(Error::UnknownAlgo);
    }
    exchange.client_kex_init = Blob::copy_of(alloc, incoming.payload)?;
    Ok(names)
}
