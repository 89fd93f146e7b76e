//! The text of answers.

ghost use Rattle.std.specs.Prelude.{◌≡◌, ◌++◌, IfOk, IfErr, OnOk};
ghost use Rattle.ssh_wire.specs.declared.error.Error.TheVariants.{Memory};
ghost use Rattle.ssh_service.specs.Report.{service_answer_line, service_answer_word, answers_text};

use crate::answer::ServiceAnswer;
use ssh_lines::{push_error, push_hex, push_numbered, push_text};
use ssh_wire::{Error, put_u8};
use std::alloc::Global;

/// A line for each answer: `accepted` and the message that grants the service in hex digits, `refused` and the number
/// of the reason (RFC 4253 section 11.1), `extensions`, `other`, or `bad` and the fault. Memory where there is no room
/// for it.
pub fn print_answers(alloc: Global, answers: &[ServiceAnswer]) -> Result<Vec<u8>, Error>
    ensures text { IfOk result (λ text. text.items ≡ answers_text answers.now) }
    ensures err { IfErr result (λ e. e ≡ Memory) }
{
    let mut text = Vec::new(alloc);
    for answer in answers {
        push_line(&mut text, answer)?;
    }
    Ok(text)
}

/// The line of an answer.
fn push_line(out: &mut Vec<u8>, answer: &ServiceAnswer) -> Result<(), Error>
    ensures ok { OnOk result (out.new.items ≡ out.old.items ++ service_answer_line answer.now) }
    ensures err { IfErr result (λ e. e ≡ Memory) }
{
    push_answer(out, answer)?;
    put_u8(out, b'\n')
}

/// What the line of an answer has before its end.
fn push_answer(out: &mut Vec<u8>, answer: &ServiceAnswer) -> Result<(), Error>
    ensures ok { OnOk result (out.new.items ≡ out.old.items ++ service_answer_word answer.now) }
    ensures err { IfErr result (λ e. e ≡ Memory) }
{
    match answer {
        ServiceAnswer::Accepted(reply) => {
            push_text(out, b"accepted ")?;
            push_hex(out, reply.as_slice())
        }
        ServiceAnswer::Refused(reason) => {
            push_numbered(out, b"refused ", u64::from(reason.code()))
        }
        ServiceAnswer::Extensions => push_text(out, b"extensions"),
        ServiceAnswer::Other => push_text(out, b"other"),
        ServiceAnswer::Bad(error) => {
            push_text(out, b"bad ")?;
            push_error(out, error)
        }
    }
}
