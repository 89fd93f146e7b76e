//! Reading the lines of a script one after the other, whatever the command.

ghost use Rattle.std.specs.Prelude.{◌≡◌, ◌≤◌, ℕ, List, Option, Result, Ok, IfErr, OnOk, length, true};
ghost use Rattle.ssh_program.specs.Programs.{longest_script};
ghost use Rattle.ssh_lines.specs.LineFaults.{IsLineFault, IsRefusal};
ghost use Rattle.ssh_lines.specs.Lines.{is_comment, is_filled, line_makes, pieces, said_by, said_from, words_of};
ghost use Rattle.ssh_lines.specs.declared.script.ScriptKind.{ScriptKind};

use crate::line_fault::LineFault;
use crate::script::{ScriptError, ScriptFault, ScriptKind};
use crate::words::{Words, cut};
use std::alloc::Global;

/// The longest script, in bytes.
pub const LONGEST_SCRIPT: usize = 67108864;

/// The forms that the lines of a command's script have. A value keeps what the lines so far said.
pub trait LineForms {
    // What lines say.
    ghost Said: { Type 0 };

    // What a line makes of what those before it said, by its first word and those behind it.
    ghost form: { Self.Said → List ℕ → List (List ℕ) → Result Self.Said ScriptKind };

    // What the lines so far said.
    ghost said: { Self → Self.Said };

    // What holds of a value between two lines.
    ghost holds: { Self → Type 0 };

    /// Takes a line that has words and is no comment, by its first word and those behind it.
    fn take(&mut self, alloc: Global, word: &[u8], words: Words) -> Result<(), LineFault>
        requires { Self.holds self.old }
        ensures holds { OnOk result (Self.holds self.new) }
        ensures ok { OnOk result (Self.form (Self.said self.old) word.now words.entry ≡ Ok (Self.said self.new)) }
        ensures fault { IfErr result (IsLineFault (Self.form (Self.said self.old) word.now words.entry)) };
}

/// Takes all lines of a script, in one pass. Fault names the first line that breaks the grammar, from 1, or line 0
/// where the text is over 67108864 bytes; Memory where an allocation failed.
pub fn take_script<F: LineForms>(
    alloc: Global,
    forms: &mut F,
    text: &[u8],
) -> Result<(), ScriptError>
    requires { F.holds forms.old }
    ensures holds { OnOk result (F.holds forms.new) }
    ensures read { OnOk result (said_by F.form (F.said forms.old) text.now ≡ Ok (F.said forms.new)) }
    ensures fault { IfErr result (IsRefusal (said_by F.form (F.said forms.old) text.now)) }
{
    if text.len() > LONGEST_SCRIPT {
        return Err(ScriptError::Fault(ScriptFault {
            line: 0,
            kind: ScriptKind::TooLong,
        }));
    }
    take_lines(alloc, forms, text)
}

/// Takes all lines, in order.
fn take_lines<F: LineForms>(alloc: Global, forms: &mut F, text: &[u8]) -> Result<(), ScriptError>
    requires small { length text.now ≤ longest_script }
    requires holds { F.holds forms.old }
    ensures holds { OnOk result (F.holds forms.new) }
    ensures read { OnOk result (said_from F.form 1 (F.said forms.old) (pieces 10 text.now) ≡ Ok (F.said forms.new)) }
    ensures fault { IfErr result (IsRefusal (said_from F.form 1 (F.said forms.old) (pieces 10 text.now))) }
{
    let mut line_number = 1;
    let mut rest = Some(text);
    while let Some(lines) = rest {
        let (line, behind) = cut(lines, b'\n');
        match take_line(alloc, forms, line) {
            Ok(()) => {}
            Err(fault) => return Err(fault.at(line_number)),
        }
        line_number += 1;
        rest = behind;
    }
    Ok(())
}

/// Takes one line. One without words, or whose first word begins with `#`, says nothing.
fn take_line<F: LineForms>(alloc: Global, forms: &mut F, line: &[u8]) -> Result<(), LineFault>
    requires { F.holds forms.old }
    ensures holds { OnOk result (F.holds forms.new) }
    ensures ok { OnOk result (line_makes F.form (F.said forms.old) (words_of line.now) ≡ Ok (F.said forms.new)) }
    ensures fault { IfErr result (IsLineFault (line_makes F.form (F.said forms.old) (words_of line.now))) }
{
    let mut words = Words::of(line);
    match words.take() {
        Some(word) if !begins_comment(word) => forms.take(alloc, word, words),
        _ => Ok(()),
    }
}

fn begins_comment(word: &[u8]) -> bool
    requires { is_filled word.now ≡ true }
    ensures { result ≡ is_comment word.now }
{
    word[0] == b'#'
}
