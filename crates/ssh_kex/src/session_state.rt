//! Whether a session has an exchange under way.

ghost use Rattle.std.specs.Prelude.{◌≡◌};
ghost use Rattle.ssh_kex.specs.Sessions.{is_active, left_of, same_variant};
ghost use Rattle.std.specs.Cmp.Rules.{comparing};
ghost use Rattle.std.proofs.Common.{rules};

use std::mem;

/// Whether a session has an exchange under way. Equality compares the variant alone.
#[derive(Debug, Drop)]
pub enum SessionKexState<K> {
    Idle,
    InProgress(K),
    /// The exchange is handed out for a step.
    Taken,
}

impl<K> SessionKexState<K> {
    /// Whether one is under way, also where it is handed out.
    pub fn active(&self) -> bool
        ensures { result ≡ is_active self.now }
    {
        match self {
            SessionKexState::Idle => false,
            SessionKexState::InProgress(_) | SessionKexState::Taken => true,
        }
    }

    /// Hands out what is there. Idle stays, and anything else is taken.
    pub fn take(&mut self) -> SessionKexState<K>
        ensures value { result ≡ self.old }
        ensures left { self.new ≡ left_of self.old }
    {
        match self {
            SessionKexState::Idle => SessionKexState::Idle,
            SessionKexState::InProgress(_) | SessionKexState::Taken => {
                mem::replace(self, SessionKexState::Taken)
            }
        }
    }
}

impl<K> PartialEq for SessionKexState<K> {
    ghost eq = { same_variant };

    ghost laws = { Prim.search (comparing, rules) };

    fn eq(&self, other: &SessionKexState<K>) -> bool {
        match (self, other) {
            (SessionKexState::Idle, SessionKexState::Idle)
            | (SessionKexState::InProgress(_), SessionKexState::InProgress(_))
            | (SessionKexState::Taken, SessionKexState::Taken) => true,
            _ => false,
        }
    }
}
