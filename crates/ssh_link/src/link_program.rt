//! The program as its outer part sees it.

ghost use Rattle.std.specs.Prelude.{◌≡◌, ◌≤◌, IfOk};
ghost use Rattle.ssh_program.specs.Statuses.{script_faulty};

use crate::answer::Answer;
use crate::command::{Command, command_of};
use crate::text_answer::{gen_answer, text_answer};
use ssh_program::{Program, Word};
use std::alloc::{AllocError, Global};

/// The program `sshlink`.
pub struct LinkProgram;

impl Program for LinkProgram {
    ghost use Rattle.ssh_link.specs.Program.{AnswersCommand, answer_status, answer_text, command_in, needs_script};
    ghost use Rattle.ssh_link.specs.Alike.{answers_alike};

    type Command = Command;

    type Answer = Answer;

    ghost command_in = { command_in };

    ghost reads = { needs_script };

    ghost answers = { AnswersCommand };

    ghost text_for = { answer_text };

    ghost status_for = { answer_status };

    fn command_of(words: &[Word]) -> Option<Command> {
        command_of(words)
    }

    fn reads_script(command: &Command) -> bool {
        matches!(command, Command::Script(_))
    }

    fn answer(alloc: Global, command: Command, text: Vec<u8>) -> Result<Answer, AllocError> {
        match command {
            Command::Script(command) => text_answer(alloc, command, text),
            Command::Gen { seed, count } => gen_answer(alloc, seed, count),
        }
    }

    fn text_of(alloc: Global, answer: &Answer) -> Result<Vec<u8>, AllocError> {
        match answer.text(alloc) {
            Ok(text) => Ok(text),
            Err(_) => Err(AllocError),
        }
    }

    fn status_of(answer: &Answer) -> u8 {
        answer.status()
    }

    ghost alike = { answers_alike };
}
