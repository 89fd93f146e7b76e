//! What a command answers to the text of a script, or to a seed.

ghost use Rattle.std.specs.Prelude.{◌≡◌, Ok, IfOk, IfErr, true, false};
ghost use Rattle.ssh_wire.specs.declared.ssh_id.SshId.TheVariants.{Standard};
ghost use Rattle.ssh_lines.specs.LineFaults.{IsRefusal as IsScriptRefusal};
ghost use Rattle.ssh_script.specs.Plans.{HasSmallGroups};
ghost use Rattle.ssh_script.specs.Generated.{generated_plan};
ghost use Rattle.ssh_link.specs.Program.{AnswersAttack, AnswersAttackScript, AnswersGen, AnswersSteps, AnswersScript, AnswersLinkScript, AnswersPlan, AnswersText, IsRefusedLink};
ghost use Rattle.ssh_script.specs.Script.{clear_script};
ghost use Rattle.ssh_script.specs.RunScript.{link_script};
ghost use Rattle.ssh_vectors.specs.Primes.{IsLawful};

use crate::answer::Answer;
use crate::command::ScriptCommand;
use crate::script_run::{run_attack, run_script};
use ssh_run::run_clear;
use ssh_script::{ClearStep, Script, ScriptError, generated_script, parse_clear, parse_script};
use ssh_wire::{Error, SshId, Text};
use std::alloc::{AllocError, Global};

/// What a command answers to its script.
pub(crate) fn text_answer(
    alloc: Global,
    command: ScriptCommand,
    text: Vec<u8>,
) -> Result<Answer, AllocError>
    ensures answer { IfOk result (λ answer. AnswersText command text.items answer) }
{
    match command {
        ScriptCommand::Clear => clear_answer(alloc, text),
        ScriptCommand::Run => link_answer(alloc, text),
        ScriptCommand::Attack => attack_answer(alloc, text),
    }
}

/// What is answered to a script of the command `clear`.
fn clear_answer(alloc: Global, text: Vec<u8>) -> Result<Answer, AllocError>
    ensures answer { IfOk result (λ answer. AnswersScript (clear_script text.items) answer) }
{
    match take_steps(alloc, text) {
        Ok(steps) => run_answer(alloc, steps),
        Err(ScriptError::Fault(fault)) => Ok(Answer::Faulty(fault)),
        Err(ScriptError::Memory) => Err(AllocError),
    }
}

/// The script's steps. The text is freed before they are run.
fn take_steps(alloc: Global, text: Vec<u8>) -> Result<Vec<ClearStep>, ScriptError>
    ensures read { IfOk result (λ steps. clear_script text.items ≡ Ok steps.items) }
    ensures fault { IfErr result (λ error. IsScriptRefusal (clear_script text.items) error) }
{
    parse_clear(alloc, text.as_slice())
}

/// Runs the steps, which are freed before the report is printed.
fn run_answer(alloc: Global, steps: Vec<ClearStep>) -> Result<Answer, AllocError>
    ensures answer { IfOk result (λ answer. AnswersSteps steps.items answer) }
{
    let client_id = standard_id(alloc, "SSH-2.0-sshlink_client")?;
    let server_id = standard_id(alloc, "SSH-2.0-sshlink_server")?;
    match run_clear(alloc, &client_id, &server_id, steps.as_slice()) {
        Ok(report) => Ok(Answer::Ran(report)),
        Err(Error::Memory) => Err(AllocError),
        Err(error) => Ok(Answer::Refused(error)),
    }
}

fn standard_id(alloc: Global, text: &str) -> Result<SshId, AllocError>
    ensures { IfOk result (λ id. id ≡ Standard text.now) }
{
    Ok(SshId::Standard(Text::new(String::from_str(alloc, text)?)))
}

/// What is answered to a script of the command `run`.
#[tactic(auto, using(crate::proofs::SmallGroups::script_lawful))]
fn link_answer(alloc: Global, text: Vec<u8>) -> Result<Answer, AllocError>
    ensures answer { IfOk result (λ answer. AnswersLinkScript (link_script false text.items) answer) }
{
    match take_script(alloc, false, text) {
        Ok(script) => script_answer(alloc, script),
        Err(ScriptError::Fault(fault)) => Ok(Answer::Faulty(fault)),
        Err(ScriptError::Memory) => Err(AllocError),
    }
}

/// What is answered to a script of the command `attack`.
fn attack_answer(alloc: Global, text: Vec<u8>) -> Result<Answer, AllocError>
    ensures answer { IfOk result (λ answer. AnswersAttackScript (link_script true text.items) answer) }
{
    match take_script(alloc, true, text) {
        Ok(script) => attacked_answer(alloc, script),
        Err(ScriptError::Fault(fault)) => Ok(Answer::Faulty(fault)),
        Err(ScriptError::Memory) => Err(AllocError),
    }
}

/// The script. The text is freed before it is run.
fn take_script(alloc: Global, attacked: bool, text: Vec<u8>) -> Result<Script, ScriptError>
    ensures read { IfOk result (λ script. link_script attacked text.items ≡ Ok script) }
    ensures small { IfOk result HasSmallGroups }
    ensures fault { IfErr result (λ error. IsScriptRefusal (link_script attacked text.items) error) }
{
    parse_script(alloc, attacked, text.as_slice())
}

/// What is answered to a seed and a number of turns.
#[tactic(auto, using(crate::proofs::PlanRuns::generated_link))]
pub(crate) fn gen_answer(alloc: Global, seed: u64, count: u64) -> Result<Answer, AllocError>
    ensures answer { IfOk result (λ answer. AnswersGen (generated_plan seed count) answer) }
{
    let Ok(script) = generated_script(alloc, seed, count) else {
        return Err(AllocError);
    };
    match run_script(alloc, &script) {
        Ok(report) => Ok(Answer::RanGen(report)),
        Err(error) => refused(error),
    }
}

/// Runs the script, which is freed before the report is printed.
#[tactic(auto, using(crate::proofs::PlanRuns::lawful_link))]
fn script_answer(alloc: Global, script: Script) -> Result<Answer, AllocError>
    requires { IsLawful script.server.group_bits script.client.config.gex }
    ensures answer { IfOk result (λ answer. AnswersPlan script answer) }
{
    match run_script(alloc, &script) {
        Ok(report) => Ok(Answer::RanLink(report)),
        Err(error) => refused(error),
    }
}

/// Runs the script of any bytes, which is freed before the report is printed.
fn attacked_answer(alloc: Global, script: Script) -> Result<Answer, AllocError>
    ensures answer { IfOk result (λ answer. AnswersAttack script answer) }
{
    match run_attack(alloc, &script) {
        Ok(report) => Ok(Answer::RanAttack(report)),
        Err(error) => refused(error),
    }
}

/// What is answered to a refused run; want of memory is no refusal.
fn refused(error: Error) -> Result<Answer, AllocError>
    ensures answer { IfOk result (IsRefusedLink error) }
{
    match error {
        Error::Memory => Err(AllocError),
        error => Ok(Answer::Refused(error)),
    }
}
