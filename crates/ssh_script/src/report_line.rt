//! The lines of a report.

ghost use Rattle.std.specs.Prelude.{◌≡◌, ◌∷◌, [], ◌++◌, ◌-◌, ◌^◌, decimal, min, IfErr, OnOk};
ghost use Rattle.ssh_wire.specs.declared.error.Error.TheVariants.{Memory};
ghost use Rattle.ssh_script.specs.Report.{report_line, report_room, delivered_lines};
ghost use Rattle.ssh_lines.specs.Printed.{side_name, hex_word};

use ssh_lines::{name_of_side, push_decimal, push_hex};
use ssh_wire::{Error, Payload, Side, put_u8};

/// More than the length of what is printed of a wire, a number and payloads; it stops at its end.
pub(crate) fn room_of(wire: &[u8], delivered: &[Payload]) -> usize
    ensures { result ≡ min (report_room wire.now delivered.now) (2 ^ 64 - 1) }
{
    let mut room = wire.len().saturating_mul(2).saturating_add(64);
    for payload in delivered {
        room = room.saturating_add(
            payload
                .as_slice()
                .len()
                .saturating_mul(2)
                .saturating_add(32),
        );
    }
    room
}

/// A line for each payload that was delivered to the side, in hex digits. Memory.
pub fn push_delivered(out: &mut Vec<u8>, side: Side, payloads: &[Payload]) -> Result<(), Error>
    ensures ok { OnOk result (out.new.items ≡ out.old.items ++ delivered_lines side payloads.now) }
    ensures err { IfErr result (λ e. e ≡ Memory) }
{
    for payload in payloads {
        push_hex_line(out, side, b"delivered", payload.as_slice())?;
    }
    Ok(())
}

pub(crate) fn push_hex_line(
    out: &mut Vec<u8>,
    side: Side,
    name: &[u8],
    bytes: &[u8],
) -> Result<(), Error>
    ensures ok { OnOk result (out.new.items ≡ out.old.items ++ report_line side name.now (hex_word bytes.now)) }
    ensures err { IfErr result (λ e. e ≡ Memory) }
{
    push_line_head(out, side, name)?;
    push_hex(out, bytes)?;
    put_u8(out, b'\n')
}

pub(crate) fn push_number_line(
    out: &mut Vec<u8>,
    side: Side,
    name: &[u8],
    n: u64,
) -> Result<(), Error>
    ensures ok { OnOk result (out.new.items ≡ out.old.items ++ report_line side name.now (decimal n)) }
    ensures err { IfErr result (λ e. e ≡ Memory) }
{
    push_line_head(out, side, name)?;
    push_decimal(out, n)?;
    put_u8(out, b'\n')
}

/// The words of a line in front of its value.
pub(crate) fn push_line_head(out: &mut Vec<u8>, side: Side, name: &[u8]) -> Result<(), Error>
    ensures ok { OnOk result (out.new.items ≡ out.old.items ++ (side_name side ++ 32 ∷ name.now ++ 32 ∷ [])) }
    ensures err { IfErr result (λ e. e ≡ Memory) }
{
    out.extend_from_slice(name_of_side(side))?;
    put_u8(out, b' ')?;
    out.extend_from_slice(name)?;
    put_u8(out, b' ')
}
