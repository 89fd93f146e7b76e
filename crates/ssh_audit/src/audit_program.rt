//! The program as its outer part sees it.

ghost use Rattle.std.specs.Prelude.{◌≡◌, Ok, IfOk, IfErr};
ghost use Rattle.ssh_lines.specs.LineFaults.{IsRefusal};
ghost use Rattle.ssh_audit.specs.AuditProgram.{AnswersAuditScript, AnswersJudged};
ghost use Rattle.ssh_audit.specs.AuditScript.{AuditPlan, IsRecordOf, audit_script};

use crate::answer::AuditAnswer;
use crate::print::{print_audit, print_audit_fault};
use crate::script::{AuditScript, parse_audit};
use ssh_judge::audit;
use ssh_lines::{ScriptError, print_fault};
use ssh_program::{Program, REPORT_WRITTEN, RUN_REFUSED, SCRIPT_FAULTY, Word};
use ssh_record::AuditEnd;
use std::alloc::{AllocError, Global};

/// What the program can be asked to do.
#[derive(Clone, Copy, Drop, PartialEq, Eq)]
pub enum AuditCommand {
    /// To judge the record of a script.
    Audit,
}

/// The program `sshaudit`.
pub struct AuditProgram;

impl Program for AuditProgram {
    ghost use Rattle.ssh_audit.specs.AuditProgram.{AnswersAuditCommand, audit_command_in, audit_status, audit_text, needs_record};
    ghost use Rattle.ssh_audit.specs.Alike.{answers_alike};

    type Command = AuditCommand;

    type Answer = AuditAnswer;

    ghost command_in = { audit_command_in };

    ghost reads = { needs_record };

    ghost answers = { AnswersAuditCommand };

    ghost text_for = { audit_text };

    ghost status_for = { audit_status };

    fn command_of(words: &[Word]) -> Option<AuditCommand> {
        match words {
            [word] if word.as_str() == "audit" => Some(AuditCommand::Audit),
            _ => None,
        }
    }

    fn reads_script(command: &AuditCommand) -> bool {
        matches!(command, AuditCommand::Audit)
    }

    fn answer(
        alloc: Global,
        command: AuditCommand,
        text: Vec<u8>,
    ) -> Result<AuditAnswer, AllocError> {
        match command {
            AuditCommand::Audit => audit_answer(alloc, text),
        }
    }

    fn text_of(alloc: Global, answer: &AuditAnswer) -> Result<Vec<u8>, AllocError> {
        let text = match answer {
            AuditAnswer::Faulty(fault) => print_fault(alloc, *fault),
            AuditAnswer::Refused(fault) => print_audit_fault(alloc, *fault),
            AuditAnswer::Passed(report) => print_audit(alloc, report),
        };
        match text {
            Ok(text) => Ok(text),
            Err(_) => Err(AllocError),
        }
    }

    fn status_of(answer: &AuditAnswer) -> u8 {
        match answer {
            AuditAnswer::Faulty(_) => SCRIPT_FAULTY,
            AuditAnswer::Refused(_) => RUN_REFUSED,
            AuditAnswer::Passed(_) => REPORT_WRITTEN,
        }
    }

    ghost alike = { answers_alike };
}

/// What is answered to a script.
#[tactic(auto, using(crate::proofs::Answering::record_answered))]
fn audit_answer(alloc: Global, text: Vec<u8>) -> Result<AuditAnswer, AllocError>
    ensures { IfOk result (AnswersAuditScript (audit_script text.items)) }
{
    match take_script(alloc, text) {
        Ok(script) => judged(alloc, &script),
        Err(ScriptError::Fault(fault)) => Ok(AuditAnswer::Faulty(fault)),
        Err(ScriptError::Memory) => Err(AllocError),
    }
}

/// The script. The text is freed before its record is judged.
fn take_script(alloc: Global, text: Vec<u8>) -> Result<AuditScript, ScriptError>
    ensures read { IfOk result (λ script. (plan : AuditPlan) × (audit_script text.items ≡ Ok plan)
        × IsRecordOf plan script) }
    ensures fault { IfErr result (λ error. IsRefusal (audit_script text.items) error) }
{
    parse_audit(alloc, text.as_slice())
}

/// What is answered to the record of a script.
fn judged(alloc: Global, script: &AuditScript) -> Result<AuditAnswer, AllocError>
    ensures { IfOk result (AnswersJudged script.now.client.config script.now.server.config script.now.transcript) }
{
    let client = &script.client.config;
    let server = &script.server.config;
    match audit(alloc, client, server, &script.transcript) {
        Ok(report) => Ok(AuditAnswer::Passed(report)),
        Err(AuditEnd::Fault(fault)) => Ok(AuditAnswer::Refused(fault)),
        Err(AuditEnd::Memory) => Err(AllocError),
    }
}
