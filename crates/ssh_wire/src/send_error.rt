//! What is answered where the other end of a session is gone.

use std::fmt;
use thiserror::Error;

/// The session can't be reached.
#[derive(Debug, Drop, Error)]
pub struct SendError;

impl fmt::Display for SendError {
    ghost use Rattle.std.specs.Prelude.{Some, codes};

    ghost output = { λ _. Some (codes "Could not reach the event loop") };

    fn fmt<W: fmt::Write>(&self, f: &mut fmt::Formatter<W>) -> fmt::Result {
        f.write_str("Could not reach the event loop")
    }
}
