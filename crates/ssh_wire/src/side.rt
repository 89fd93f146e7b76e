//! The two ends of a connection.

ghost use Rattle.std.specs.Prelude.{◌≡◌};

/// One end of a connection.
#[derive(Clone, Copy, Debug, PartialEq, Eq, Hash)]
pub enum Side {
    Client,
    Server,
}

impl Side {
    ghost use Rattle.ssh_wire.specs.Sides.{other_side};

    /// The opposite end.
    pub fn other(self) -> Side
        ensures { result ≡ other_side self }
    {
        match self {
            Side::Client => Side::Server,
            Side::Server => Side::Client,
        }
    }
}
