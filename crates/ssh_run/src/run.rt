//! The run of a clear link.

ghost use Rattle.std.specs.Prelude.{◌≡◌, None, IfOk, IfErr, OnOk};
ghost use Rattle.ssh_run.specs.ClearRun.{IsWholeLine, IsClearRun, first_refused, IsRefusedRun};

use crate::clear_link::ClearLink;
use rand_chacha::ChaCha20Rng;
use rand_core::SeedableRng;
use ssh_script::{ClearReport, ClearStep};
use ssh_wire::{Error, SshId};
use std::alloc::Global;

/// Runs a client and a server with these ids over an honest carrier, by these steps. Before any exchange
/// each packet stands in clear. PacketSize where a payload that is reached has no byte, or over 262157;
/// Memory.
pub fn run_clear(
    alloc: Global,
    client_id: &SshId,
    server_id: &SshId,
    steps: &[ClearStep],
) -> Result<ClearReport, Error>
    requires client { IsWholeLine client_id.now }
    requires server { IsWholeLine server_id.now }
    ensures run { IfOk result (IsClearRun client_id.now server_id.now steps.now) }
    ensures reached { OnOk result (first_refused steps.now ≡ None) }
    ensures refused { IfErr result (IsRefusedRun steps.now) }
{
    // The clear key draws nothing.
    let mut rng = ChaCha20Rng::from_seed([0; 32]);
    let mut link = ClearLink::new(alloc, client_id, server_id)?;
    for step in steps {
        link.step(alloc, &mut rng, step)?;
    }
    Ok(link.report(alloc))
}
