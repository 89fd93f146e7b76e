//! What a run of channels did.

use crate::fault::RunFault;
use ssh_rules::link::{LinkReport, Step};
use ssh_wire::{Payload, Side};

/// One direction of a channel.
#[derive(Debug, Drop)]
pub struct Flow {
    /// All bytes that were written.
    pub written: Payload,
    /// The bytes that came.
    pub received: Payload,
    /// How many of these were read.
    pub read: u64,
    /// The window that the receiver told when the channel began; 0 where it told none.
    pub window: u32,
    /// Whether the receiver was told that no more comes.
    pub ended: bool,
}

/// One channel.
#[derive(Debug, Drop)]
pub struct ChannelReport {
    /// The side that asked for it.
    pub opener: Side,
    /// Its number there.
    pub opener_number: u32,
    /// Its number on the other side, where that granted it.
    pub other_number: Option<u32>,
    /// Whether the other side refused it.
    pub refused: bool,
    /// Whether both sides closed it.
    pub closed: bool,
    /// From the opener to the other side.
    pub to_other: Flow,
    /// From the other side to the opener.
    pub to_opener: Flow,
}

/// A run of channels.
#[derive(Debug, Drop)]
pub struct MuxReport {
    /// The channels in the order in which they were asked for, the client's first.
    pub channels: Vec<ChannelReport>,
    /// The steps of the link.
    pub steps: Vec<Step>,
    /// What the link did in these.
    pub link: LinkReport,
}

/// A run that was refused.
#[derive(Debug, Drop)]
pub struct MuxEnd {
    /// Why.
    pub fault: RunFault,
    /// What the steps before did, where a side refused a call as Unknown, Ended or Full.
    pub before: Option<MuxReport>,
}
