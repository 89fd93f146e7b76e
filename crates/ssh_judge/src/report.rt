//! What an accepted record shows.

ghost use Rattle.std.specs.Prelude.{◌≡◌, ℕ, suc, length, slice_get, take, IfOk, Some, option_copied};
ghost use Rattle.ssh_rules.specs.Headline.{submitted_by};
ghost use Rattle.ssh_rules.specs.declared.link.Mark as marks_of;
ghost use Rattle.ssh_wire.specs.declared.side.Side.TheVariants.{Client as client_side, Server as server_side};

use ssh_blocks::next_submit;
use ssh_record::{AuditReport, Transcript};
use ssh_rules::link::{ExchangeList, Mark, MarkList, Step};
use ssh_transcript::ReadWires;
use ssh_wire::{Payload, PayloadList, Side};
use std::alloc::{AllocError, Global};

/// The report of a record with these marks. Memory.
pub(crate) fn report_of(
    alloc: Global,
    transcript: &Transcript,
    wires: ReadWires<'_>,
    marks: Vec<Mark>,
) -> Result<AuditReport, AllocError>
    ensures marks { IfOk result (λ r. r.marks ≡ marks.items) }
    ensures exchanges { IfOk result (λ r. r.exchanges ≡ wires.entry.exchanges.items) }
    ensures to_client { IfOk result (λ r. (k : ℕ) (last : marks_of.Mark) → suc k ≡ length marks.items
        → slice_get marks.items k ≡ Some last
        → r.client_delivered ≡ take last.client.delivered (submitted_by server_side transcript.now.steps)) }
    ensures to_server { IfOk result (λ r. (k : ℕ) (last : marks_of.Mark) → suc k ≡ length marks.items
        → slice_get marks.items k ≡ Some last
        → r.server_delivered ≡ take last.server.delivered (submitted_by client_side transcript.now.steps)) }
{
    let (to_client, to_server) = delivered_at(marks.last());
    let steps = transcript.steps.as_slice();
    let client_delivered = first_submits(alloc, steps, Side::Server, to_client)?;
    let server_delivered = first_submits(alloc, steps, Side::Client, to_server)?;
    Ok(AuditReport {
        marks: MarkList::new(marks),
        client_delivered: PayloadList::new(client_delivered),
        server_delivered: PayloadList::new(server_delivered),
        exchanges: ExchangeList::new(wires.into_exchanges()),
    })
}

/// How many payloads were delivered to the client and to the server at a mark.
fn delivered_at(mark: Option<&Mark>) -> (u64, u64)
    ensures { (m : marks_of.Mark) → option_copied mark.entry ≡ Some m
        → (result.0 ≡ m.client.delivered) × (result.1 ≡ m.server.delivered) }
{
    match mark {
        Some(mark) => (mark.client.delivered, mark.server.delivered),
        None => (0, 0),
    }
}

/// The first payloads that steps submit to a side.
fn first_submits(
    alloc: Global,
    steps: &[Step],
    side: Side,
    count: u64,
) -> Result<Vec<Payload>, AllocError>
    ensures { IfOk result (λ payloads. payloads.items ≡ take count (submitted_by side steps.now)) }
{
    let mut payloads = Vec::new(alloc);
    let mut rest = steps;
    for _ in 0..count {
        let Some((payload, behind)) = next_submit(rest, side) else {
            return Ok(payloads);
        };
        payloads.push(Payload::new(Vec::from_slice(alloc, payload)?))?;
        rest = behind;
    }
    Ok(payloads)
}
