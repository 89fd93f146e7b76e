//! What is wrong with one line of a script.

ghost use Rattle.std.specs.Prelude.{◌≡◌};
ghost use Rattle.ssh_lines.specs.LineFaults.{fault_at};

use crate::script::{ScriptError, ScriptFault, ScriptKind};
use std::alloc::{AllocError, AllocFailed};

/// Why a line says nothing.
#[derive(Clone, Copy, Debug, PartialEq, Eq)]
pub enum LineFault {
    /// Its first word is none of the command's forms.
    NotBuilt,
    /// Its other words are wrong, or it can't stand where it does.
    Malformed,
    Memory,
}

impl LineFault {
    /// The fault of the script's line with this number, counted from 1.
    pub fn at(self, line: u64) -> ScriptError
        ensures { result ≡ fault_at line self }
    {
        let kind = match self {
            LineFault::NotBuilt => ScriptKind::NotBuilt,
            LineFault::Malformed => ScriptKind::Malformed,
            LineFault::Memory => return ScriptError::Memory,
        };
        ScriptError::Fault(ScriptFault { line, kind })
    }
}

impl From<AllocError> for LineFault {
    ghost use Rattle.std.specs.Prelude.{◌≡◌};
    ghost use Rattle.ssh_lines.specs.declared.line_fault.LineFault.TheVariants as fault;

    ghost from_gives = { λ _ e. e ≡ fault.Memory };

    fn from(_value: AllocError) -> LineFault {
        LineFault::Memory
    }
}

impl<T: Drop> From<AllocFailed<T>> for LineFault {
    ghost use Rattle.std.specs.Prelude.{◌≡◌};
    ghost use Rattle.ssh_lines.specs.declared.line_fault.LineFault.TheVariants as fault;

    ghost from_gives = { λ _ e. e ≡ fault.Memory };

    fn from(_value: AllocFailed<T>) -> LineFault {
        LineFault::Memory
    }
}
