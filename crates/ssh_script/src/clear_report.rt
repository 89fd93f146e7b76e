//! The text of a clear link's report.

ghost use Rattle.std.specs.Prelude.{◌≡◌, ◌++◌, ◌-◌, ◌^◌, min, IfOk, IfErr, OnOk};
ghost use Rattle.ssh_wire.specs.declared.error.Error.TheVariants.{Memory};
ghost use Rattle.ssh_script.specs.Report.{report_room, side_lines, clear_report_text};

use crate::report::{ClearReport, ClearSide};
use crate::report_line::{push_delivered, push_hex_line, push_number_line, room_of};
use ssh_wire::{Error, Side};
use std::alloc::Global;

/// The report's text, two digits a byte. Memory where there is no room for it.
pub fn print_clear(alloc: Global, report: &ClearReport) -> Result<Vec<u8>, Error>
    ensures text { IfOk result (λ text. text.items ≡ clear_report_text report.now) }
    ensures err { IfErr result (λ e. e ≡ Memory) }
{
    let mut text = Vec::with_capacity(
        alloc,
        text_room(&report.client).saturating_add(text_room(&report.server)),
    )?;
    push_side(&mut text, Side::Client, &report.client)?;
    push_side(&mut text, Side::Server, &report.server)?;
    Ok(text)
}

/// More than the length of what is printed of a side, so that the text doesn't grow.
fn text_room(report: &ClearSide) -> usize
    ensures { result ≡ min (report_room report.now.wire report.now.delivered) (2 ^ 64 - 1) }
{
    room_of(report.wire.as_slice(), report.delivered.as_slice())
}

fn push_side(out: &mut Vec<u8>, side: Side, report: &ClearSide) -> Result<(), Error>
    ensures ok { OnOk result (out.new.items ≡ out.old.items ++ side_lines side report.now) }
    ensures err { IfErr result (λ e. e ≡ Memory) }
{
    push_hex_line(out, side, b"wire", report.wire.as_slice())?;
    push_number_line(out, side, b"taken", report.taken)?;
    push_delivered(out, side, report.delivered.as_slice())
}
