//! Scripts of the command `clear`.

ghost use Rattle.std.specs.Prelude.{◌≡◌, Ok, IfOk, IfErr};
ghost use Rattle.ssh_lines.specs.LineFaults.{IsLineFault, IsRefusal};
ghost use Rattle.ssh_script.specs.Script.{clear_script, clear_step};

use crate::step::ClearStep;
use ssh_lines::{
    LineFault, LineForms, ScriptError, Words, side_and_bytes, side_and_number, take_script,
};
use ssh_wire::Payload;
use std::alloc::Global;

const SUBMIT: &[u8] = b"submit";

const DELIVER: &[u8] = b"deliver";

/// Reads a script of the command `clear`, in one pass over the text, in linear time.
///
/// A line ends in LF, or at the text's end, and a CR before that is left out. Its words stand between
/// spaces. A line without words, or whose first word begins with `#`, says nothing. Others are
/// `submit SIDE HEX` and `deliver SIDE N`, with SIDE `client` or `server`, HEX an even number of hex
/// digits or `-` for no bytes, and N a decimal number below 2^64 without a leading zero.
///
/// Fault names the first line that is neither, counted from 1: NotBuilt where its first word is none of
/// the forms', Malformed where the words behind it are wrong. A text over 67108864 bytes is TooLong,
/// with the line 0, whatever its lines say. Memory where an allocation failed.
pub fn parse_clear(alloc: Global, text: &[u8]) -> Result<Vec<ClearStep>, ScriptError>
    ensures read { IfOk result (λ steps. clear_script text.now ≡ Ok steps.items) }
    ensures fault { IfErr result (λ error. IsRefusal (clear_script text.now) error) }
{
    let mut forms = ClearForms {
        steps: Vec::new(alloc),
    };
    take_script(alloc, &mut forms, text)?;
    Ok(forms.steps)
}

/// The forms `submit` and `deliver`, with the steps of the lines so far.
#[derive(Drop)]
pub struct ClearForms {
    steps: Vec<ClearStep>,
}

impl LineForms for ClearForms {
    ghost use Rattle.std.specs.Prelude.{List};
    ghost use Rattle.ssh_script.specs.Script.{clear_form};
    ghost use Rattle.ssh_script.specs.declared.step.ClearStep.{ClearStep};

    ghost Said = { List ClearStep };

    ghost form = { clear_form };

    ghost said = { λ f. f.steps.items };

    ghost holds = { λ _. Unit {0} };

    fn take(&mut self, alloc: Global, word: &[u8], words: Words) -> Result<(), LineFault> {
        self.steps.push(clear_step(alloc, word, words)?)?;
        Ok(())
    }
}

/// A step of a script of `clear`.
fn clear_step(alloc: Global, word: &[u8], words: Words) -> Result<ClearStep, LineFault>
    ensures ok { IfOk result (λ made. clear_step word.now words.entry ≡ Ok made) }
    ensures fault { IfErr result (IsLineFault (clear_step word.now words.entry)) }
{
    if word == SUBMIT {
        let (side, bytes) = side_and_bytes(alloc, words)?;
        Ok(ClearStep::Submit(side, Payload::new(bytes)))
    } else if word == DELIVER {
        let (side, count) = side_and_number(words)?;
        Ok(ClearStep::Deliver(side, count))
    } else {
        Err(LineFault::NotBuilt)
    }
}
