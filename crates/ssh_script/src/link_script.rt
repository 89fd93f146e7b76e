//! Scripts of the commands `run` and `attack`.

ghost use Rattle.std.specs.Prelude.{◌≡◌, Some, Ok, IfOk, IfErr, OnOk, true, false};
ghost use Rattle.ssh_lines.specs.LineFaults.{AreWrong, IsLineFault, IsRefusal};
ghost use Rattle.ssh_lines.specs.Lines.{said_by};
ghost use Rattle.ssh_lines.specs.declared.script.ScriptError.TheVariants.{Memory};
ghost use Rattle.ssh_script.specs.Plans.{HasSmallGroups};
ghost use Rattle.ssh_script.specs.RunScript.{attack_step, first_plan, link_form, link_script, run_step, settle_of, with_default_key};

use crate::given_blobs::GivenBlobs;
use crate::setting::set;
use crate::setup::Script;
use ssh_lines::{
    LineFault, LineForms, ScriptError, Words, one_side, side_and_bytes, side_and_number,
    take_script,
};
use ssh_rules::link::{AttackStep, Step};
use ssh_wire::Blob;
use std::alloc::Global;

const SUBMIT: &[u8] = b"submit";

const DELIVER: &[u8] = b"deliver";

const FEED: &[u8] = b"feed";

const REKEY: &[u8] = b"rekey";

const SETTLE: &[u8] = b"settle";

const SET: &[u8] = b"set";

/// Reads a script of the command `attack` where `attacked` is true, else of the command `run`, in one pass over the
/// text.
///
/// Its lines are cut as those of `parse_clear`. Both commands have `submit SIDE HEX` and `rekey SIDE`, and before all
/// steps the `set` lines of the configurations, seeds and refused calls. `run` has `deliver SIDE N` and `settle` too,
/// and `attack` has `feed SIDE HEX`.
///
/// Fault names the first line that is none of the command's, counted from 1: NotBuilt where its first word is none of
/// the forms', Malformed where the words behind it are wrong, where it sets something behind a step, or where it gives
/// a blob again. A text over 67108864 bytes is TooLong, with the line 0. Memory where an allocation failed.
#[tactic(auto, using(crate::proofs::SmallGroups::completed_small))]
pub fn parse_script(alloc: Global, attacked: bool, text: &[u8]) -> Result<Script, ScriptError>
    ensures read { IfOk result (λ script. link_script attacked text.now ≡ Ok script) }
    ensures small { IfOk result HasSmallGroups }
    ensures fault { IfErr result (λ error. IsRefusal (link_script attacked text.now) error) }
{
    let mut script = if attacked {
        attack_lines(alloc, text)?
    } else {
        run_lines(alloc, text)?
    };
    script.complete(alloc)?;
    Ok(script)
}

/// What all lines of a script of `run` say.
fn run_lines(alloc: Global, text: &[u8]) -> Result<Script, ScriptError>
    ensures read { IfOk result (λ script. said_by (link_form false) first_plan text.now ≡ Ok script) }
    ensures small { IfOk result HasSmallGroups }
    ensures fault { IfErr result (λ error. IsRefusal (said_by (link_form false) first_plan text.now) error) }
{
    let mut forms = RunForms::new(alloc)?;
    take_script(alloc, &mut forms, text)?;
    Ok(forms.script)
}

/// What all lines of a script of `attack` say.
#[tactic(auto, using(crate::proofs::SmallGroups::first_is_small))]
fn attack_lines(alloc: Global, text: &[u8]) -> Result<Script, ScriptError>
    ensures read { IfOk result (λ script. said_by (link_form true) first_plan text.now ≡ Ok script) }
    ensures small { IfOk result HasSmallGroups }
    ensures fault { IfErr result (λ error. IsRefusal (said_by (link_form true) first_plan text.now) error) }
{
    let mut forms = AttackForms {
        script: first_script(alloc)?,
        given: GivenBlobs::new(alloc),
    };
    take_script(alloc, &mut forms, text)?;
    Ok(forms.script)
}

/// A script without lines. Memory.
fn first_script(alloc: Global) -> Result<Script, ScriptError>
    ensures ok { IfOk result (λ script. script ≡ first_plan) }
    ensures err { IfErr result (λ e. e ≡ Memory) }
{
    match Script::new(alloc) {
        Ok(script) => Ok(script),
        Err(_) => Err(ScriptError::Memory),
    }
}

/// The forms of `run`, with what the lines so far said.
#[derive(Drop)]
pub struct RunForms {
    script: Script,
    given: GivenBlobs,
}

impl RunForms {
    /// The forms before the first line. Memory.
    #[tactic(auto, using(crate::proofs::SmallGroups::first_is_small))]
    pub fn new(alloc: Global) -> Result<RunForms, ScriptError>
        ensures first { IfOk result (λ forms. ⟦<RunForms as LineForms>⟧.said forms ≡ first_plan) }
        ensures holds { IfOk result (λ forms. ⟦<RunForms as LineForms>⟧.holds forms) }
        ensures err { IfErr result (λ e. e ≡ Memory) }
    {
        Ok(RunForms {
            script: first_script(alloc)?,
            given: GivenBlobs::new(alloc),
        })
    }

    /// What all lines said. The server has its one host key where no line gave it another. Memory.
    #[tactic(auto, using(crate::proofs::SmallGroups::completed_small))]
    pub fn finish(self, alloc: Global) -> Result<Script, ScriptError>
        requires { ⟦<RunForms as LineForms>⟧.holds self }
        ensures said { IfOk result (λ script. script ≡ with_default_key (⟦<RunForms as LineForms>⟧.said self)) }
        ensures small { IfOk result HasSmallGroups }
        ensures err { IfErr result (λ e. e ≡ Memory) }
    {
        let mut script = self.script;
        script.complete(alloc)?;
        Ok(script)
    }
}

impl LineForms for RunForms {
    ghost use Rattle.std.specs.Prelude.{false};
    ghost use Rattle.ssh_script.specs.GivenBlobs.{AreBlobsOf};
    ghost use Rattle.ssh_script.specs.Plans.{HasSmallGroups, Plan};
    ghost use Rattle.ssh_script.specs.RunScript.{link_form};

    ghost Said = { Plan };

    ghost form = { link_form false };

    ghost said = { λ f. f.script };

    ghost holds = { λ f. AreBlobsOf f.script.server.config.host f.given × HasSmallGroups f.script };

    #[tactic(auto, using(crate::proofs::SmallGroups::form_small))]
    fn take(&mut self, alloc: Global, word: &[u8], words: Words) -> Result<(), LineFault> {
        if word == SET {
            return set(alloc, &mut self.script, &mut self.given, words);
        }
        self.script.steps.push(run_step(alloc, word, words)?)?;
        Ok(())
    }
}

/// The forms of `attack`, with what the lines so far said.
#[derive(Drop)]
pub struct AttackForms {
    script: Script,
    given: GivenBlobs,
}

impl LineForms for AttackForms {
    ghost use Rattle.std.specs.Prelude.{true};
    ghost use Rattle.ssh_script.specs.GivenBlobs.{AreBlobsOf};
    ghost use Rattle.ssh_script.specs.Plans.{HasSmallGroups, Plan};
    ghost use Rattle.ssh_script.specs.RunScript.{link_form};

    ghost Said = { Plan };

    ghost form = { link_form true };

    ghost said = { λ f. f.script };

    ghost holds = { λ f. AreBlobsOf f.script.server.config.host f.given × HasSmallGroups f.script };

    #[tactic(auto, using(crate::proofs::SmallGroups::form_small))]
    fn take(&mut self, alloc: Global, word: &[u8], words: Words) -> Result<(), LineFault> {
        if word == SET {
            return set(alloc, &mut self.script, &mut self.given, words);
        }
        self.script.attack.push(attack_step(alloc, word, words)?)?;
        Ok(())
    }
}

/// A step of a script of `run`.
fn run_step(alloc: Global, word: &[u8], words: Words) -> Result<Step, LineFault>
    ensures ok { IfOk result (λ made. run_step word.now words.entry ≡ Ok made) }
    ensures fault { IfErr result (IsLineFault (run_step word.now words.entry)) }
{
    if word == SUBMIT {
        let (side, bytes) = side_and_bytes(alloc, words)?;
        Ok(Step::Submit(side, Blob::new(bytes)))
    } else if word == DELIVER {
        let (side, count) = side_and_number(words)?;
        Ok(Step::Deliver(side, count))
    } else if word == REKEY {
        Ok(Step::Rekey(one_side(words)?))
    } else if word == SETTLE {
        settle(words)
    } else {
        Err(LineFault::NotBuilt)
    }
}

/// A step of a script of `attack`.
fn attack_step(alloc: Global, word: &[u8], words: Words) -> Result<AttackStep, LineFault>
    ensures ok { IfOk result (λ made. attack_step word.now words.entry ≡ Ok made) }
    ensures fault { IfErr result (IsLineFault (attack_step word.now words.entry)) }
{
    if word == SUBMIT {
        let (side, bytes) = side_and_bytes(alloc, words)?;
        Ok(AttackStep::Submit(side, Blob::new(bytes)))
    } else if word == FEED {
        let (side, bytes) = side_and_bytes(alloc, words)?;
        Ok(AttackStep::Feed(side, Blob::new(bytes)))
    } else if word == REKEY {
        Ok(AttackStep::Rekey(one_side(words)?))
    } else {
        Err(LineFault::NotBuilt)
    }
}

/// No words.
fn settle(mut words: Words) -> Result<Step, LineFault>
    ensures ok { IfOk result (λ made. settle_of words.entry ≡ Some made) }
    ensures fault { IfErr result (AreWrong (settle_of words.entry)) }
{
    match words.take() {
        None => Ok(Step::Settle),
        Some(_) => Err(LineFault::Malformed),
    }
}
