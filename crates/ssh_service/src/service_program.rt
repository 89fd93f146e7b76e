//! The program as its outer part sees it.

ghost use Rattle.std.specs.Prelude.{◌≡◌, ◌≤◌, [], Ok, IfOk, IfErr};
ghost use Rattle.ssh_lines.specs.LineFaults.{IsRefusal};
ghost use Rattle.ssh_wire.specs.declared.error.Error.TheVariants.{Memory};
ghost use Rattle.ssh_service.specs.Answers.{answers_from};
ghost use Rattle.ssh_service.specs.Program.{AnswersServiceScript, service_command_in};
ghost use Rattle.ssh_service.specs.Script.{service_script};

use crate::answer::ServiceAnswer;
use crate::print::print_answers;
use crate::script::{ServiceScript, parse_service};
use crate::services::Services;
use ssh_lines::{ScriptError, ScriptFault, print_fault};
use ssh_program::{Program, REPORT_WRITTEN, SCRIPT_FAULTY, Word};
use ssh_wire::Error;
use std::alloc::{AllocError, Global};

/// What the program can be asked to do.
#[derive(Clone, Copy, Debug, Drop, PartialEq, Eq)]
pub enum ServiceCommand {
    /// To answer the messages of a script.
    Service,
}

/// What the program answers.
#[derive(Debug, Drop)]
pub enum ScriptAnswer {
    /// The script breaks its grammar.
    Faulty(ScriptFault),
    /// Each of its messages was answered.
    Answered(Vec<ServiceAnswer>),
}

/// The program `sshservice`.
pub struct ServiceProgram;

impl Program for ServiceProgram {
    ghost use Rattle.ssh_service.specs.Program.{AnswersServiceCommand, service_status, service_text, service_command_in, needs_messages};
    ghost use Rattle.ssh_service.specs.Alike.{answers_alike};

    type Command = ServiceCommand;

    type Answer = ScriptAnswer;

    ghost command_in = { service_command_in };

    ghost reads = { needs_messages };

    ghost answers = { AnswersServiceCommand };

    ghost text_for = { service_text };

    ghost status_for = { service_status };

    fn command_of(words: &[Word]) -> Option<ServiceCommand> {
        match words {
            [word] if word.as_str() == "service" => Some(ServiceCommand::Service),
            _ => None,
        }
    }

    fn reads_script(command: &ServiceCommand) -> bool {
        matches!(command, ServiceCommand::Service)
    }

    fn answer(
        alloc: Global,
        command: ServiceCommand,
        text: Vec<u8>,
    ) -> Result<ScriptAnswer, AllocError> {
        match command {
            ServiceCommand::Service => script_answer(alloc, text),
        }
    }

    fn text_of(alloc: Global, answer: &ScriptAnswer) -> Result<Vec<u8>, AllocError> {
        let text = match answer {
            ScriptAnswer::Faulty(fault) => print_fault(alloc, *fault),
            ScriptAnswer::Answered(answers) => print_answers(alloc, answers.as_slice()),
        };
        match text {
            Ok(text) => Ok(text),
            Err(_) => Err(AllocError),
        }
    }

    fn status_of(answer: &ScriptAnswer) -> u8 {
        match answer {
            ScriptAnswer::Faulty(_) => SCRIPT_FAULTY,
            ScriptAnswer::Answered(_) => REPORT_WRITTEN,
        }
    }

    ghost alike = { answers_alike };
}

/// What is answered to a script.
fn script_answer(alloc: Global, text: Vec<u8>) -> Result<ScriptAnswer, AllocError>
    ensures answer { IfOk result (λ answer. AnswersServiceScript (service_script text.items) answer) }
{
    match take_script(alloc, text) {
        Ok(script) => match answers_of(script) {
            Ok(answers) => Ok(ScriptAnswer::Answered(answers)),
            Err(_) => Err(AllocError),
        },
        Err(ScriptError::Fault(fault)) => Ok(ScriptAnswer::Faulty(fault)),
        Err(ScriptError::Memory) => Err(AllocError),
    }
}

/// The script. The text is freed before its messages are answered.
fn take_script(alloc: Global, text: Vec<u8>) -> Result<ServiceScript, ScriptError>
    ensures read { IfOk result (λ script. service_script text.items ≡ Ok (record {
      offered = script.offered.items;
      payloads = script.payloads.items;
    })) }
    ensures fault { IfErr result (λ error. IsRefusal (service_script text.items) error) }
{
    parse_service(alloc, text.as_slice())
}

/// The answers to the messages of a script.
fn answers_of(script: ServiceScript) -> Result<Vec<ServiceAnswer>, Error>
    ensures answers { IfOk result (λ v. v.items ≡ answers_from script.offered.items [] script.payloads.items) }
    ensures err { IfErr result (λ e. e ≡ Memory) }
{
    let mut services = Services::new(script.offered);
    services.receive_all(script.payloads.as_slice())
}
