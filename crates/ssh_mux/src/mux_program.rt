//! The program as its outer part sees it.

ghost use Rattle.ssh_mux.specs.Breaking.{IsNoMessageFault};
ghost use Rattle.ssh_mux.specs.Program.{AnswersMuxPlan, AnswersMuxScript, IsRefusedRun, IsWholeRun};
ghost use Rattle.ssh_mux.specs.Script.{channel_script};
ghost use Rattle.ssh_mux.specs.Sides.{IsDefaultLink, default_plan};
ghost use Rattle.ssh_mux.specs.Stopping.{IsKept, IsWanting};
ghost use Rattle.ssh_mux.specs.declared.answer.MuxAnswer.TheVariants.{Refused};
ghost use Rattle.ssh_lines.specs.LineFaults.{IsRefusal};
ghost use Rattle.std.specs.Prelude.{◌≡◌, ◌≤◌, Ok, IfOk, IfErr, IfSome, false};

use crate::answer::MuxAnswer;
use crate::fault::RunFault;
use crate::parts::mux_parts;
use crate::print::{print_channels, print_run_fault};
use crate::report::{MuxEnd, MuxReport};
use crate::run::{Setup, run_channels};
use crate::script::{MuxScript, parse_channels};
use ssh_channels::MuxFault;
use ssh_lines::{ScriptError, print_fault};
use ssh_program::{Program, REPORT_WRITTEN, RUN_REFUSED, SCRIPT_FAULTY, Word};
use ssh_script::{RunForms, Script};
use ssh_wire::Error;
use std::alloc::{AllocError, Global};

/// What the program can be asked to do.
#[derive(Clone, Copy, Debug, Drop, PartialEq, Eq)]
pub enum MuxCommand {
    /// To run a script of channels.
    Channels,
}

/// The program `sshmux`.
pub struct MuxProgram;

impl Program for MuxProgram {
    ghost use Rattle.ssh_mux.specs.Program.{AnswersMuxCommand, mux_answer_status, mux_answer_text, mux_command_in, needs_channels};
    ghost use Rattle.ssh_mux.specs.Alike.{answers_alike};

    type Command = MuxCommand;

    type Answer = MuxAnswer;

    ghost command_in = { mux_command_in };

    ghost reads = { needs_channels };

    ghost answers = { AnswersMuxCommand };

    ghost text_for = { mux_answer_text };

    ghost status_for = { mux_answer_status };

    fn command_of(words: &[Word]) -> Option<MuxCommand> {
        match words {
            [word] if word.as_str() == "channels" => Some(MuxCommand::Channels),
            _ => None,
        }
    }

    fn reads_script(command: &MuxCommand) -> bool {
        matches!(command, MuxCommand::Channels)
    }

    fn answer(alloc: Global, command: MuxCommand, text: Vec<u8>) -> Result<MuxAnswer, AllocError> {
        match command {
            MuxCommand::Channels => script_answer(alloc, text),
        }
    }

    fn text_of(alloc: Global, answer: &MuxAnswer) -> Result<Vec<u8>, AllocError> {
        let text = match answer {
            MuxAnswer::Faulty(fault) => print_fault(alloc, *fault),
            MuxAnswer::Refused(end) => print_run_fault(alloc, &end.fault),
            MuxAnswer::Ran(report) => print_channels(alloc, report.channels.as_slice()),
        };
        match text {
            Ok(text) => Ok(text),
            Err(_) => Err(AllocError),
        }
    }

    fn status_of(answer: &MuxAnswer) -> u8 {
        match answer {
            MuxAnswer::Faulty(_) => SCRIPT_FAULTY,
            MuxAnswer::Refused(_) => RUN_REFUSED,
            MuxAnswer::Ran(_) => REPORT_WRITTEN,
        }
    }

    ghost alike = { answers_alike };
}

/// What is answered to a script.
fn script_answer(alloc: Global, text: Vec<u8>) -> Result<MuxAnswer, AllocError>
    ensures answer { IfOk result (λ answer. AnswersMuxScript (channel_script text.items) answer) }
{
    match take_script(alloc, text) {
        Ok(script) => run_answer(alloc, script),
        Err(ScriptError::Fault(fault)) => Ok(MuxAnswer::Faulty(fault)),
        Err(ScriptError::Memory) => Err(AllocError),
    }
}

/// The script. The text is freed before it is run.
fn take_script(alloc: Global, text: Vec<u8>) -> Result<MuxScript, ScriptError>
    ensures read { IfOk result (λ script. channel_script text.items ≡ Ok (record {
      channels = script.channels;
      steps = script.steps.items;
    })) }
    ensures fault { IfErr result (λ error. IsRefusal (channel_script text.items) error) }
{
    parse_channels(alloc, text.as_slice())
}

/// What is answered to what a script says.
#[tactic(auto, using(crate::proofs::DefaultSides::ran_told, crate::proofs::DefaultSides::refusal_told))]
fn run_answer(alloc: Global, script: MuxScript) -> Result<MuxAnswer, AllocError>
    ensures answer { IfOk result (λ answer. AnswersMuxPlan (record {
      channels = script.channels;
      steps = script.steps.items;
    }) answer) }
{
    match run_script(alloc, &script)? {
        Ok(report) => Ok(MuxAnswer::Ran(report)),
        Err(end) => refused(end),
    }
}

/// What is answered to a refused run; want of memory is no refusal.
fn refused(end: MuxEnd) -> Result<MuxAnswer, AllocError>
    ensures answer { IfOk result (λ answer. answer ≡ Refused end) }
    ensures kept { IfOk result (λ answer. IsKept end.fault) }
{
    if is_memory(&end.fault) {
        return Err(AllocError);
    }
    Ok(MuxAnswer::Refused(end))
}

/// Whether memory was wanting.
fn is_memory(fault: &RunFault) -> bool
    ensures { result ≡ false → IsKept fault.now }
{
    matches!(
        fault,
        RunFault::Mux(MuxFault::Memory) | RunFault::Link(Error::Memory)
    )
}

/// Runs a script between two sides as they are where a script says nothing of them.
fn run_script(alloc: Global, script: &MuxScript) -> Result<Result<MuxReport, MuxEnd>, AllocError>
    ensures ran { IfOk result (λ ended. IfOk ended (IsWholeRun script.now.channels script.now.steps.items)) }
    ensures refused { IfOk result (λ ended. IfErr ended (IsRefusedRun script.now.channels script.now.steps.items)) }
    ensures link { IfOk result (λ ended. IfOk ended IsDefaultLink) }
    ensures before { IfOk result (λ ended. IfErr ended (λ end. IfSome end.before IsDefaultLink)) }
    ensures unrefused { IfOk result (λ ended. IfErr ended (λ end. IsNoMessageFault end.fault)) }
    ensures complete { IfOk result (λ ended. IfErr ended (λ end. IsWanting end.fault)) }
{
    let sides = default_sides(alloc)?;
    run_between(alloc, &sides, script)
}

/// Runs a script between these sides. Their parts are test parts.
fn run_between(
    alloc: Global,
    sides: &Script,
    script: &MuxScript,
) -> Result<Result<MuxReport, MuxEnd>, AllocError>
    requires { sides.now ≡ default_plan }
    ensures ran { IfOk result (λ ended. IfOk ended (IsWholeRun script.now.channels script.now.steps.items)) }
    ensures refused { IfOk result (λ ended. IfErr ended (IsRefusedRun script.now.channels script.now.steps.items)) }
    ensures link { IfOk result (λ ended. IfOk ended IsDefaultLink) }
    ensures before { IfOk result (λ ended. IfErr ended (λ end. IfSome end.before IsDefaultLink)) }
    ensures unrefused { IfOk result (λ ended. IfErr ended (λ end. IsNoMessageFault end.fault)) }
    ensures complete { IfOk result (λ ended. IfErr ended (λ end. IsWanting end.fault)) }
{
    let server = &sides.server.config.host;
    let mut client_parts = mux_parts(alloc, sides.client.seed, server)?;
    let mut server_parts = mux_parts(alloc, sides.server.seed, server)?;
    let setup = Setup {
        client: &sides.client.config,
        server: &sides.server.config,
        channels: script.channels,
    };
    Ok(run_channels(
        alloc,
        &setup,
        &mut client_parts,
        &mut server_parts,
        script.steps.as_slice(),
    ))
}

/// Two sides as they are where a script says nothing of them.
fn default_sides(alloc: Global) -> Result<Script, AllocError>
    ensures { IfOk result (λ script. script ≡ default_plan) }
{
    let Ok(forms) = RunForms::new(alloc) else {
        return Err(AllocError);
    };
    match forms.finish(alloc) {
        Ok(script) => Ok(script),
        Err(_) => Err(AllocError),
    }
}
