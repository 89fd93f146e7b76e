//! Signals that are sent to a remote process (RFC 4254 section 6.10).

ghost use Rattle.std.specs.Prelude.{◌≡◌, IfOk, IfErr};
ghost use Rattle.ssh_wire.specs.declared.error.Error.TheVariants.{Memory};

use crate::bytes::Text;
use crate::error::Error;
use std::alloc::Global;

/// A signal by its name without `SIG`.
#[derive(Debug, Drop)]
pub enum Sig {
    ABRT,
    ALRM,
    FPE,
    HUP,
    ILL,
    INT,
    KILL,
    PIPE,
    QUIT,
    SEGV,
    TERM,
    USR1,
    /// Another name.
    Custom(Text),
}

impl Sig {
    ghost use Rattle.ssh_wire.specs.Signals.{sig_name, sig_named, known_sig};

    /// The name.
    pub fn name(&self) -> &str
        ensures { result.now ≡ sig_name self.now }
    {
        match self {
            Sig::ABRT => "ABRT",
            Sig::ALRM => "ALRM",
            Sig::FPE => "FPE",
            Sig::HUP => "HUP",
            Sig::ILL => "ILL",
            Sig::INT => "INT",
            Sig::KILL => "KILL",
            Sig::PIPE => "PIPE",
            Sig::QUIT => "QUIT",
            Sig::SEGV => "SEGV",
            Sig::TERM => "TERM",
            Sig::USR1 => "USR1",
            Sig::Custom(name) => name.as_str(),
        }
    }

    /// The signal of the name: one of the twelve, or `Custom`. Memory.
    pub fn from_name(alloc: Global, name: &str) -> Result<Sig, Error>
        ensures ok { IfOk result (λ sig. sig ≡ sig_named name.now) }
        ensures name { IfOk result (λ sig. sig_name sig ≡ name.now) }
        ensures err { IfErr result (λ e. e ≡ Memory) }
    {
        match Sig::known_signal(name) {
            Some(sig) => Ok(sig),
            None => Ok(Sig::Custom(Text::copy_of(alloc, name)?)),
        }
    }

    /// An equal value. Memory.
    pub fn try_clone(&self, alloc: Global) -> Result<Sig, Error>
        ensures ok { IfOk result (λ sig. sig ≡ self.now) }
        ensures err { IfErr result (λ e. e ≡ Memory) }
    {
        let sig = match self {
            Sig::ABRT => Sig::ABRT,
            Sig::ALRM => Sig::ALRM,
            Sig::FPE => Sig::FPE,
            Sig::HUP => Sig::HUP,
            Sig::ILL => Sig::ILL,
            Sig::INT => Sig::INT,
            Sig::KILL => Sig::KILL,
            Sig::PIPE => Sig::PIPE,
            Sig::QUIT => Sig::QUIT,
            Sig::SEGV => Sig::SEGV,
            Sig::TERM => Sig::TERM,
            Sig::USR1 => Sig::USR1,
            Sig::Custom(name) => Sig::Custom(Text::copy_of(alloc, name.as_str())?),
        };
        Ok(sig)
    }

    /// The signal of the name, where it is one of the twelve.
    fn known_signal(name: &str) -> Option<Sig>
        ensures { result ≡ known_sig name.now }
    {
        match name {
            "ABRT" => Some(Sig::ABRT),
            "ALRM" => Some(Sig::ALRM),
            "FPE" => Some(Sig::FPE),
            "HUP" => Some(Sig::HUP),
            "ILL" => Some(Sig::ILL),
            "INT" => Some(Sig::INT),
            "KILL" => Some(Sig::KILL),
            "PIPE" => Some(Sig::PIPE),
            "QUIT" => Some(Sig::QUIT),
            "SEGV" => Some(Sig::SEGV),
            "TERM" => Some(Sig::TERM),
            "USR1" => Some(Sig::USR1),
            _ => None,
        }
    }
}
