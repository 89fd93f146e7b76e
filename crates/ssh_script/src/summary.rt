//! The text of a generated run.

ghost use Rattle.std.specs.Prelude.{◌≡◌, ◌++◌, ◌-◌, min, length, IfOk, IfErr, OnOk};
ghost use Rattle.ssh_wire.specs.declared.error.Error.TheVariants.{Memory};
ghost use Rattle.ssh_script.specs.Summary.{bytes_together, largest, side_summary, summary_text};

use ssh_lines::{name_of_side, push_numbered, push_text};
use ssh_rules::link::{LinkReport, SideReport};
use ssh_wire::{Error, Payload, Side, put_u8};
use std::alloc::Global;

/// The summary's text: how many steps there were, and for the client and then for the server how many bytes it sent,
/// how many exchanges it finished, how many payloads were delivered to it, and how many bytes these have. Memory where
/// there is no room for it.
pub fn print_summary(alloc: Global, report: &LinkReport) -> Result<Vec<u8>, Error>
    ensures text { IfOk result (λ text. text.items ≡ summary_text report.now) }
    ensures err { IfErr result (λ e. e ≡ Memory) }
{
    let mut text = Vec::new(alloc);
    let steps = report.marks.as_slice().len().saturating_sub(1);
    push_numbered(&mut text, b"steps ", steps as u64)?;
    put_u8(&mut text, b'\n')?;
    push_side(&mut text, Side::Client, &report.client)?;
    push_side(&mut text, Side::Server, &report.server)?;
    Ok(text)
}

fn push_side(out: &mut Vec<u8>, side: Side, report: &SideReport) -> Result<(), Error>
    ensures ok { OnOk result (out.new.items ≡ out.old.items ++ side_summary side report.now) }
    ensures err { IfErr result (λ e. e ≡ Memory) }
{
    let delivered = report.delivered.as_slice();
    push_text(out, name_of_side(side))?;
    push_numbered(out, b" sent ", report.wire.as_slice().len() as u64)?;
    push_numbered(out, b" finished ", report.exchanges.as_slice().len() as u64)?;
    push_numbered(out, b" delivered ", delivered.len() as u64)?;
    push_numbered(out, b" bytes ", total_bytes(delivered))?;
    put_u8(out, b'\n')
}

/// How many bytes the payloads have together; the sum stands still at its end.
fn total_bytes(payloads: &[Payload]) -> u64
    ensures { result ≡ min (bytes_together payloads.now) largest }
{
    let mut sum = 0u64;
    let mut rest = payloads;
    while let [payload, behind @ ..] = rest {
        sum = sum.saturating_add(payload.as_slice().len() as u64);
        rest = behind;
    }
    sum
}
