//! What the parts of a side say in a call, so that a clause names it once.

ghost use Rattle.ssh_transport.specs.Calls.{PartsCall, call_of};

use rand_core::Rng;
use ssh_kex::{Agreement, GroupLookup, HostKeys, Parts};

/// What the parts of a side say in a call.
pub trait Calling {
    // From how it found them to how it leaves them.
    ghost call: { Self → Self → PartsCall };
}

impl<A: Agreement, H: HostKeys, G: GroupLookup, R: Rng> Calling for Parts<A, H, G, R> {
    ghost call = { λ p q. call_of A.Agreement H.HostKeys G.GroupLookup R.Rng p q };
}
