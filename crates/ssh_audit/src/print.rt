//! The text of an audit.

ghost use Rattle.std.specs.Prelude.{◌≡◌, ◌++◌, IfOk, IfErr, OnOk};
ghost use Rattle.ssh_wire.specs.declared.error.Error.TheVariants.{Memory};
ghost use Rattle.ssh_audit.specs.AuditText.{audit_fault_line, audit_fault_word, audit_report_text, mark_counts, mark_end, mark_head, mark_line, mark_lines, marks_lines, two_words};

use ssh_lines::{name_of_side, push_decimal, push_numbered, push_text};
use ssh_record::{AuditFault, AuditReport};
use ssh_rules::link::{Mark, SideMark};
use ssh_script::push_delivered;
use ssh_wire::{Error, Side, put_u8};
use std::alloc::Global;

/// The text of what an accepted record shows: `yes`, a line for each side of each mark, and the payloads that were
/// delivered. Memory where there is no room for it.
pub fn print_audit(alloc: Global, report: &AuditReport) -> Result<Vec<u8>, Error>
    ensures text { IfOk result (λ text. text.items ≡ audit_report_text report.now) }
    ensures err { IfErr result (λ e. e ≡ Memory) }
{
    let mut text = Vec::new(alloc);
    push_text(&mut text, b"yes\n")?;
    push_marks(&mut text, report.marks.as_slice())?;
    push_delivered(&mut text, Side::Client, report.client_delivered.as_slice())?;
    push_delivered(&mut text, Side::Server, report.server_delivered.as_slice())?;
    Ok(text)
}

/// The line of a fault. Memory where there is no room for it.
pub fn print_audit_fault(alloc: Global, fault: AuditFault) -> Result<Vec<u8>, Error>
    ensures text { IfOk result (λ text. text.items ≡ audit_fault_line fault) }
    ensures err { IfErr result (λ e. e ≡ Memory) }
{
    let mut text = Vec::new(alloc);
    push_fault(&mut text, fault)?;
    put_u8(&mut text, b'\n')?;
    Ok(text)
}

/// What the line of a fault has before its end.
fn push_fault(out: &mut Vec<u8>, fault: AuditFault) -> Result<(), Error>
    ensures ok { OnOk result (out.new.items ≡ out.old.items ++ audit_fault_word fault) }
    ensures err { IfErr result (λ e. e ≡ Memory) }
{
    match fault {
        AuditFault::Config => push_text(out, b"config"),
        AuditFault::Sent => push_text(out, b"sent"),
        AuditFault::Secrets { blocks } => push_numbered(out, b"secrets ", blocks),
        AuditFault::Packet { side, place } => {
            push_text(out, b"packet ")?;
            push_text(out, name_of_side(side))?;
            push_numbered(out, b" ", place)
        }
        AuditFault::Mark { place } => push_numbered(out, b"mark ", place),
    }
}

/// Two lines for each mark; they count from 0.
fn push_marks(out: &mut Vec<u8>, marks: &[Mark]) -> Result<(), Error>
    ensures ok { OnOk result (out.new.items ≡ out.old.items ++ marks_lines 0 marks.now) }
    ensures err { IfErr result (λ e. e ≡ Memory) }
{
    let mut k = 0;
    let mut rest = marks;
    while let Some((mark, behind)) = rest.split_first() {
        push_mark(out, k, mark)?;
        k += 1;
        rest = behind;
    }
    Ok(())
}

/// The lines of a mark, the client's first.
fn push_mark(out: &mut Vec<u8>, k: u64, mark: &Mark) -> Result<(), Error>
    ensures ok { OnOk result (out.new.items ≡ out.old.items ++ mark_lines k mark.now) }
    ensures err { IfErr result (λ e. e ≡ Memory) }
{
    push_side(out, k, Side::Client, &mark.client)?;
    push_side(out, k, Side::Server, &mark.server)
}

/// The line of a side of a mark.
fn push_side(out: &mut Vec<u8>, k: u64, side: Side, mark: &SideMark) -> Result<(), Error>
    ensures ok { OnOk result (out.new.items ≡ out.old.items ++ mark_line k side mark.now) }
    ensures err { IfErr result (λ e. e ≡ Memory) }
{
    push_head(out, k, side)?;
    push_counts(out, mark)?;
    push_end(out, mark)
}

/// Which mark of which side it is.
fn push_head(out: &mut Vec<u8>, k: u64, side: Side) -> Result<(), Error>
    ensures ok { OnOk result (out.new.items ≡ out.old.items ++ mark_head k side) }
    ensures err { IfErr result (λ e. e ≡ Memory) }
{
    push_numbered(out, b"mark ", k)?;
    push_text(out, b" ")?;
    push_text(out, name_of_side(side))
}

/// What was sent, taken, delivered and finished, each behind a space.
fn push_counts(out: &mut Vec<u8>, mark: &SideMark) -> Result<(), Error>
    ensures ok { OnOk result (out.new.items ≡ out.old.items ++ mark_counts mark.now) }
    ensures err { IfErr result (λ e. e ≡ Memory) }
{
    push_two(out, mark.sent, mark.taken)?;
    push_two(out, mark.delivered, mark.finished)
}

/// Two numbers, each behind a space.
fn push_two(out: &mut Vec<u8>, first: u64, second: u64) -> Result<(), Error>
    ensures ok { OnOk result (out.new.items ≡ out.old.items ++ two_words first second) }
    ensures err { IfErr result (λ e. e ≡ Memory) }
{
    push_numbered(out, b" ", first)?;
    push_numbered(out, b" ", second)
}

/// Whether the side is inside an exchange, how much was submitted, and the end of the line.
fn push_end(out: &mut Vec<u8>, mark: &SideMark) -> Result<(), Error>
    ensures ok { OnOk result (out.new.items ≡ out.old.items ++ mark_end mark.now) }
    ensures err { IfErr result (λ e. e ≡ Memory) }
{
    if mark.inside {
        push_text(out, b" in ")?;
    } else {
        push_text(out, b" out ")?;
    }
    push_decimal(out, mark.submitted)?;
    put_u8(out, b'\n')
}
