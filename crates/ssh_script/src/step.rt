//! What a run of a link does, step by step.

use ssh_wire::{Payload, Side};

/// One step of a clear link.
#[derive(Debug, Drop)]
pub enum ClearStep {
    /// The side sends this payload.
    Submit(Side, Payload),
    /// The side takes so many bytes of what the other side sent, or all that wait where fewer do.
    Deliver(Side, u64),
}
