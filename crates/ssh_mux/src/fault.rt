//! Why a run of channels is refused.

ghost use Rattle.std.specs.Prelude.{◌≡◌};
ghost use Rattle.ssh_channels.specs.declared.fault.MuxFault.TheVariants.{Memory as mux_memory};
ghost use Rattle.ssh_mux.specs.declared.fault.RunFault.TheVariants.{Mux, Link};

use ssh_channels::MuxFault;
use ssh_wire::Error;
use std::alloc::{AllocError, AllocFailed};

/// Why a run of channels is refused.
#[derive(Debug, Drop)]
pub enum RunFault {
    /// A window isn't 1 to 2^30, or a largest packet isn't 1 to 32768.
    Config,
    /// A side refused a call: Unknown, Ended or Full. Memory. The others come only with parts that break their laws.
    Mux(MuxFault),
    /// The link refused a step.
    Link(Error),
}

impl From<MuxFault> for RunFault {
    ghost from_gives = { λ f r. r ≡ Mux f };

    fn from(fault: MuxFault) -> RunFault {
        RunFault::Mux(fault)
    }
}

impl From<Error> for RunFault {
    ghost from_gives = { λ e r. r ≡ Link e };

    fn from(error: Error) -> RunFault {
        RunFault::Link(error)
    }
}

impl From<AllocError> for RunFault {
    ghost from_gives = { λ _ r. r ≡ Mux mux_memory };

    fn from(_value: AllocError) -> RunFault {
        RunFault::Mux(MuxFault::Memory)
    }
}

impl<T: Drop> From<AllocFailed<T>> for RunFault {
    ghost from_gives = { λ _ r. r ≡ Mux mux_memory };

    fn from(_value: AllocFailed<T>) -> RunFault {
        RunFault::Mux(MuxFault::Memory)
    }
}
