//! What is judged: the record of a link.

ghost use Rattle.std.specs.Prelude.{Some, codes};

use ssh_rules::link::Step;
use ssh_wire::Blob;
use std::fmt;
use std::marker::Model;

/// How many bytes each side had sent.
#[derive(Clone, Copy, Debug, PartialEq, Eq)]
pub struct SentPair {
    pub client: u64,
    pub server: u64,
}

/// The record of a link.
#[derive(Drop)]
pub struct Transcript {
    /// What was done, in order.
    pub steps: Vec<Step>,
    /// How much was sent before the first step and after each.
    pub sent: Vec<SentPair>,
    /// The secret of each exchange of keys, the first one first: the bytes that the agreements gave.
    pub secrets: Vec<Blob>,
    /// All that the client sent.
    pub client: Blob,
    /// All that the server sent.
    pub server: Blob,
}

/// Shows no byte of a secret.
impl fmt::Debug for Transcript {
    ghost debug_output = { λ t. Some (codes "Transcript") };

    fn fmt<W: fmt::Write>(&self, f: &mut fmt::Formatter<W>) -> fmt::Result {
        f.write_str("Transcript")
    }
}

impl Model for Transcript {
    ghost use Rattle.ssh_record.specs.Recordings.{Recording};

    ghost Value = { Recording };

    ghost view = { λ t. record {
      steps = t.steps.items;
      sent = t.sent.items;
      secrets = t.secrets.items;
      client = t.client;
      server = t.server;
    } };
}
