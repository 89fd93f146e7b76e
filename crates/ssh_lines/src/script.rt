//! Reading scripts: lines of words, each a step of a run.

use std::alloc::{AllocError, AllocFailed};

/// How a script breaks its grammar.
#[derive(Clone, Copy, Debug, PartialEq, Eq, Hash)]
pub enum ScriptKind {
    /// The line's first word is none of the command's forms.
    NotBuilt,
    /// The line has a form's first word, and other words than that form.
    Malformed,
    /// The script is over 67108864 bytes.
    TooLong,
}

/// Where a script breaks its grammar: the first faulty line, from 1, or 0 for the whole script.
#[derive(Clone, Copy, Debug, PartialEq, Eq, Hash)]
pub struct ScriptFault {
    pub line: u64,
    pub kind: ScriptKind,
}

/// Why a script gave no steps.
#[derive(Clone, Copy, Debug, PartialEq, Eq, Hash)]
pub enum ScriptError {
    Fault(ScriptFault),
    Memory,
}

impl From<AllocError> for ScriptError {
    ghost use Rattle.std.specs.Prelude.{◌≡◌};
    ghost use Rattle.ssh_lines.specs.declared.script.ScriptError.TheVariants.{Memory};

    ghost from_gives = { λ _ e. e ≡ Memory };

    fn from(_value: AllocError) -> ScriptError {
        ScriptError::Memory
    }
}

impl<T: Drop> From<AllocFailed<T>> for ScriptError {
    ghost use Rattle.std.specs.Prelude.{◌≡◌};
    ghost use Rattle.ssh_lines.specs.declared.script.ScriptError.TheVariants.{Memory};

    ghost from_gives = { λ _ e. e ≡ Memory };

    fn from(_value: AllocFailed<T>) -> ScriptError {
        ScriptError::Memory
    }
}
