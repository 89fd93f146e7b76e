//! How one side is set up.

use crate::group::GexParams;
use ssh_negotiate::{Preferred, ServerKeys};
use ssh_wire::{Limits, SshId};

/// How one side is set up: the text of its version line, what it offers in its order of preference, when it begins an
/// exchange anew, the sizes that it asks for as a client of a group exchange, and the keys and certificates that it
/// presents as a server.
#[derive(Debug, Drop)]
pub struct Config {
    pub id: SshId,
    pub preferred: Preferred,
    pub limits: Limits,
    pub gex: GexParams,
    pub host: ServerKeys,
}
