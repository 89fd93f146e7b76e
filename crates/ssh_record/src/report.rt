//! What an audit answers.

use ssh_rules::link::{ExchangeList, MarkList};
use ssh_wire::{PayloadList, Side};
use std::alloc::{AllocError, AllocFailed};

/// What a record shows, where it is one of a link.
#[derive(Debug, Drop)]
pub struct AuditReport {
    /// One mark before the first step and one behind each.
    pub marks: MarkList,
    /// What was delivered to the client.
    pub client_delivered: PayloadList,
    /// What was delivered to the server.
    pub server_delivered: PayloadList,
    /// The exchanges of keys that stand whole on both wires, the first one first.
    pub exchanges: ExchangeList,
}

/// The first thing that is wrong with a record.
#[derive(Clone, Copy, Debug, PartialEq, Eq)]
pub enum AuditFault {
    /// A configuration is refused, or the two have no names in common.
    Config,
    /// There is not one pair of lengths more than steps, or the last pair isn't the lengths of the wires.
    Sent,
    /// This many exchanges stand whole on both wires, and fewer secrets are given.
    Secrets { blocks: u64 },
    /// This many packets of the side are as they have to be; bytes follow, and not one packet more.
    Packet { side: Side, place: u64 },
    /// The marks are those of no run, from this one on, counted from 0.
    Mark { place: u64 },
}

/// Why there is no report.
#[derive(Clone, Copy, Debug, PartialEq, Eq)]
pub enum AuditEnd {
    Fault(AuditFault),
    Memory,
}

impl From<AllocError> for AuditEnd {
    ghost use Rattle.std.specs.Prelude.{◌≡◌};
    ghost use Rattle.ssh_record.specs.declared.report.AuditEnd.TheVariants.{Memory};

    ghost from_gives = { λ _ e. e ≡ Memory };

    fn from(_value: AllocError) -> AuditEnd {
        AuditEnd::Memory
    }
}

impl<T: Drop> From<AllocFailed<T>> for AuditEnd {
    ghost use Rattle.std.specs.Prelude.{◌≡◌};
    ghost use Rattle.ssh_record.specs.declared.report.AuditEnd.TheVariants.{Memory};

    ghost from_gives = { λ _ e. e ≡ Memory };

    fn from(_value: AllocFailed<T>) -> AuditEnd {
        AuditEnd::Memory
    }
}
