//! What happened in a run.

use ssh_wire::{Blob, PayloadList};

/// What one side of a clear link did.
#[derive(Debug, Drop)]
pub struct ClearSide {
    /// All that the side sent.
    pub wire: Blob,
    /// How many bytes of the other's wire it took.
    pub taken: u64,
    /// The payloads that it read, in order.
    pub delivered: PayloadList,
}

/// What happened in a run of a clear link.
#[derive(Debug, Drop)]
pub struct ClearReport {
    pub client: ClearSide,
    pub server: ClearSide,
}
