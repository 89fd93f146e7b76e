//! A stream of the other side's bytes, read by a transport that lends its payloads.

ghost use Rattle.std.specs.Prelude.{◌≡◌, ◌⊎◌, ◌++◌, ◌<◌, List, ℕ, Err, IfErr, IfOk, OnOk, [], false, true, length};
ghost use Rattle.ssh_rules.specs.Polling.{Polls};
ghost use Rattle.ssh_wire.specs.declared.error.Error.TheVariants.{Disconnect, Memory};
ghost use Rattle.uses.specs.Streams.{FedLent};

use rand_core::Rng;
use ssh_kex::{Agreement, GroupLookup, Handed, HostKeys, Parts};
use ssh_transport::Transport;
use ssh_wire::{Error, Payload, PayloadList};
use std::alloc::Global;

/// Reads all of these bytes: the payloads that they bring, which are those that feeding the bytes would queue.
/// Disconnect where the transport refuses, which is its end; Memory for the payloads.
pub fn read_stream<A: Agreement, H: HostKeys, G: GroupLookup, R: Rng>(
    alloc: Global,
    transport: &mut Transport<'_>,
    parts: &mut Parts<A, H, G, R>,
    bytes: &[u8],
) -> Result<PayloadList, Error>
    ensures read { IfOk result (λ lent. FedLent (⟦<Parts<A, H, G, R> as Handed>⟧.says transport.old.config parts.old)
        transport.old bytes.now lent transport.new) }
    ensures causes { IfErr result (λ e. (e ≡ Memory) ⊎ ((e ≡ Disconnect) × (transport.new.failed ≡ true))) }
{
    let mut lent = Vec::new(alloc);
    read_kept(alloc, transport, parts, &mut lent)?;
    let mut taken = 0;
    'pieces: while taken < bytes.len() {
        taken += transport.take_input(&bytes[taken..])?;
        read_kept(alloc, transport, parts, &mut lent)?;
    }
    Ok(PayloadList::new(lent))
}

/// Handles all that is whole of what was kept: the payloads that it brings stand behind those that came before.
fn read_kept<A: Agreement, H: HostKeys, G: GroupLookup, R: Rng>(
    alloc: Global,
    transport: &mut Transport<'_>,
    parts: &mut Parts<A, H, G, R>,
    lent: &mut Vec<Payload>,
) -> Result<(), Error>
    ensures read { OnOk result ((more : List (List ℕ)) × (lent.new.items ≡ lent.old.items ++ more)
        × FedLent (⟦<Parts<A, H, G, R> as Handed>⟧.says transport.old.config parts.old) transport.old [] more
        transport.new) }
    ensures causes { IfErr result (λ e. (e ≡ Memory) ⊎ ((e ≡ Disconnect) × (transport.new.failed ≡ true))) }
    ensures config { transport.new.config ≡ transport.old.config }
    ensures keeps { ⟦<Parts<A, H, G, R> as Handed>⟧.keeps parts.old parts.new }
{
    'payloads: loop {
        match read_payload(alloc, transport, parts)? {
            Some(payload) => lent.push(payload)?,
            None => return Ok(()),
        }
    }
}

/// A copy of the next payload.
fn read_payload<A: Agreement, H: HostKeys, G: GroupLookup, R: Rng>(
    alloc: Global,
    transport: &mut Transport<'_>,
    parts: &mut Parts<A, H, G, R>,
) -> Result<Option<Payload>, Error>
    ensures polled { IfOk result (λ lent. Polls (⟦<Parts<A, H, G, R> as Handed>⟧.says transport.old.config parts.old)
        transport.old lent transport.new) }
    ensures causes { IfErr result (λ e. (e ≡ Memory) ⊎ ((e ≡ Disconnect) × (transport.new.failed ≡ true))) }
    ensures config { transport.new.config ≡ transport.old.config }
    ensures keeps { ⟦<Parts<A, H, G, R> as Handed>⟧.keeps parts.old parts.new }
{
    match transport.poll_payload(parts) {
        Ok(Some(payload)) => Ok(Some(Payload::new(Vec::from_slice(alloc, payload)?))),
        Ok(None) => Ok(None),
        Err(_) => Err(Error::Disconnect),
    }
}
