//! The calls on a transport, whatever its parts are.
//!
//! What they promise is long, and a check opens it at each place that calls them: here alone.

use rand_core::Rng;
use ssh_kex::{Agreement, GroupLookup, HostKeys, Parts};
use ssh_transport::Transport;
use ssh_wire::Error;
use vector_rows::{Fault, Found};

/// Feeds it a piece of the peer's bytes.
pub fn feed<A: Agreement, H: HostKeys, G: GroupLookup, R: Rng>(
    transport: &mut Transport<'_>,
    parts: &mut Parts<A, H, G, R>,
    piece: &[u8],
) -> Result<(), Error> {
    transport.feed(parts, piece)
}

/// Submits a payload to it.
pub fn submit<A: Agreement, H: HostKeys, G: GroupLookup, R: Rng>(
    transport: &mut Transport<'_>,
    parts: &mut Parts<A, H, G, R>,
    payload: &[u8],
) -> Result<(), Error> {
    transport.submit(parts, payload)
}

/// Asks it for an exchange.
pub fn rekey<A: Agreement, H: HostKeys, G: GroupLookup, R: Rng>(
    transport: &mut Transport<'_>,
    parts: &mut Parts<A, H, G, R>,
) -> Result<(), Error> {
    transport.rekey(parts)
}

/// Lets it keep a piece of the peer's bytes: how many it has room for.
pub fn take_input(transport: &mut Transport<'_>, piece: &[u8]) -> Result<usize, Error> {
    transport.take_input(piece)
}

/// A copy of the payload that it lends next. Where there is none, a refusal is appended to what was found.
pub fn poll_payload<A: Agreement, H: HostKeys, G: GroupLookup, R: Rng>(
    transport: &mut Transport<'_>,
    parts: &mut Parts<A, H, G, R>,
    found: &Found,
) -> Result<Option<Vec<u8>>, Fault> {
    let alloc = found.alloc();
    match transport.poll_payload(parts) {
        Ok(Some(payload)) => Ok(Some(Vec::from_slice(alloc, payload)?)),
        Ok(None) => Ok(None),
        Err(refusal) => {
            found.say_shown(refusal);
            Ok(None)
        }
    }
}
