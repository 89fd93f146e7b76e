//! The top call of the judge.

ghost use Rattle.std.specs.Prelude.{IfErr, IfOk};
ghost use Rattle.ssh_record.specs.Answers.{FitsSent, IsAcceptedRecord, IsAuditEnd};
ghost use Rattle.ssh_transcript.specs.Reading.{IsSetting};

use crate::fits::fits_sent;
use crate::report::report_of;
use crate::run::run_marks;
use ssh_kex::Config;
use ssh_record::{AuditEnd, AuditFault, AuditReport, Transcript};
use ssh_transcript::{Setting, read_wires, setting_for};
use std::alloc::Global;

/// Judges the record of a link between two sides with these configurations.
///
/// The first of these is answered that holds. Config: a configuration is refused, or the two have no names in common.
/// Sent: there is not one pair of lengths more than steps, or the last isn't the lengths of the wires. Secrets: more
/// exchanges stand whole on both wires than secrets are given. Packet: a packet isn't good, the client's wire first.
/// Mark: a mark isn't one of a run of the steps. Memory. A record has one answer (`one_answer` of `ssh_record`), so
/// but for Memory each is answered exactly where it holds.
pub fn audit(
    alloc: Global,
    client: &Config,
    server: &Config,
    transcript: &Transcript,
) -> Result<AuditReport, AuditEnd>
    ensures accepted { IfOk result (IsAcceptedRecord client.now server.now transcript.now) }
    ensures refused { IfErr result (IsAuditEnd client.now server.now transcript.now) }
{
    let setting = match setting_for(alloc, client, server) {
        Ok(setting) => setting,
        Err(end) => return Err(end),
    };
    if !fits_sent(transcript) {
        return Err(AuditEnd::Fault(AuditFault::Sent));
    }
    judged(alloc, &setting, transcript)
}

/// Judges the wires and the marks of a record.
fn judged(
    alloc: Global,
    setting: &Setting<'_>,
    transcript: &Transcript,
) -> Result<AuditReport, AuditEnd>
    requires setting { IsSetting setting.now }
    requires fits { FitsSent transcript.now }
    ensures accepted { IfOk result (IsAcceptedRecord setting.now.client.now setting.now.server.now transcript.now) }
    ensures refused { IfErr result (IsAuditEnd setting.now.client.now setting.now.server.now transcript.now) }
{
    let wires = match read_wires(alloc, setting, transcript) {
        Ok(wires) => wires,
        Err(end) => return Err(end),
    };
    if let Some(fault) = wires.first_bad() {
        return Err(AuditEnd::Fault(fault));
    }
    let marks = match run_marks(alloc, setting, &wires, transcript) {
        Ok(marks) => marks,
        Err(end) => return Err(end),
    };
    match report_of(alloc, transcript, wires, marks) {
        Ok(report) => Ok(report),
        Err(_) => Err(AuditEnd::Memory),
    }
}
