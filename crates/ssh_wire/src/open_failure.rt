//! Why a channel isn't opened (RFC 4254 section 5.1).

ghost use Rattle.std.specs.Prelude.{◌≡◌, IfOk, IfErr};
ghost use Rattle.ssh_wire.specs.FailureTexts.{unknown_text};
ghost use Rattle.ssh_wire.specs.declared.error.Error.TheVariants.{Memory};

use crate::bytes::Text;
use crate::error::Error;
use std::alloc::Global;

/// A reason code, 1 to 4 in this order or another.
#[derive(Debug, PartialEq, Eq, Drop)]
pub enum ChannelOpenFailure {
    AdministrativelyProhibited,
    ConnectFailed,
    UnknownChannelType,
    ResourceShortage,
    /// A code that has no name, and what it means.
    Other { code: u32, reason: Text },
}

impl ChannelOpenFailure {
    ghost use Rattle.ssh_wire.specs.OpenFailures.{failure_of, failure_code, failure_text};

    /// The reason with the code. Memory.
    pub fn from_u32(alloc: Global, x: u32) -> Result<ChannelOpenFailure, Error>
        ensures ok { IfOk result (λ failure. failure ≡ failure_of x) }
        ensures code { IfOk result (λ failure. failure_code failure ≡ x) }
        ensures err { IfErr result (λ e. e ≡ Memory) }
    {
        let failure = match x {
            1 => ChannelOpenFailure::AdministrativelyProhibited,
            2 => ChannelOpenFailure::ConnectFailed,
            3 => ChannelOpenFailure::UnknownChannelType,
            4 => ChannelOpenFailure::ResourceShortage,
            code => ChannelOpenFailure::Other {
                code,
                reason: unknown_code(alloc, code)?,
            },
        };
        Ok(failure)
    }

    /// The code.
    pub fn code(&self) -> u32
        ensures { result ≡ failure_code self.now }
    {
        match self {
            ChannelOpenFailure::AdministrativelyProhibited => 1,
            ChannelOpenFailure::ConnectFailed => 2,
            ChannelOpenFailure::UnknownChannelType => 3,
            ChannelOpenFailure::ResourceShortage => 4,
            ChannelOpenFailure::Other { code, .. } => *code,
        }
    }

    /// What the code means.
    pub fn description(&self) -> &str
        ensures { result.now ≡ failure_text self.now }
    {
        match self {
            ChannelOpenFailure::AdministrativelyProhibited => "Administratively prohibited",
            ChannelOpenFailure::ConnectFailed => "Connect failed",
            ChannelOpenFailure::UnknownChannelType => "Unknown channel type",
            ChannelOpenFailure::ResourceShortage => "Resource shortage",
            ChannelOpenFailure::Other { reason, .. } => reason.as_str(),
        }
    }

    /// An equal value. Memory.
    pub fn try_clone(&self, alloc: Global) -> Result<ChannelOpenFailure, Error>
        ensures ok { IfOk result (λ failure. failure ≡ self.now) }
        ensures err { IfErr result (λ e. e ≡ Memory) }
    {
        let failure = match self {
            ChannelOpenFailure::AdministrativelyProhibited =>
                ChannelOpenFailure::AdministrativelyProhibited,
            ChannelOpenFailure::ConnectFailed => ChannelOpenFailure::ConnectFailed,
            ChannelOpenFailure::UnknownChannelType => ChannelOpenFailure::UnknownChannelType,
            ChannelOpenFailure::ResourceShortage => ChannelOpenFailure::ResourceShortage,
            ChannelOpenFailure::Other { code, reason } => ChannelOpenFailure::Other {
                code: *code,
                reason: Text::copy_of(alloc, reason.as_str())?,
            },
        };
        Ok(failure)
    }
}

/// What a code means that has no name.
fn unknown_code(alloc: Global, code: u32) -> Result<Text, Error>
    ensures ok { IfOk result (λ text. text ≡ unknown_text code) }
    ensures err { IfErr result (λ e. e ≡ Memory) }
{
    let mut text = String::from_str(alloc, "Unknown code ")?;
    let digits = code.to_string(alloc)?;
    text.push_str(digits.as_str())?;
    Ok(Text::new(text))
}
