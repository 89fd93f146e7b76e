//! The outer part of a program: it tests the words, reads the script, lets it be answered, and writes what is told.

ghost use Rattle.std.specs.Prelude.{◌≡◌, ◌≢◌, ◌≤◌, ◌+◌, ◌⊎◌, ℕ, Bool, List, [], Err, IfOk, IfErr, IfSome, Option, Some, None, true, false};
ghost use Rattle.std.specs.Process.{exit_status};
ghost use Rattle.ssh_wire.specs.Outside.{Rose, TakesAtMost};
ghost use Rattle.ssh_program.specs.Programs.{AnswersAlike, AnswersBy, AnswersLeft, AnswersWords, AreWords, HasOneStatus, IsAnswer, IsCommand, IsReading, IsWritten, longest_script, status_told, text_told};
ghost use Rattle.ssh_program.specs.Statuses.{no_command, source_failed, sink_failed, want_of_memory, script_faulty};
ghost use Rattle.ssh_program.specs.declared.stream.ReadError.TheVariants.{Failed, Memory};

use crate::status::{NO_COMMAND, SINK_FAILED, SOURCE_FAILED, WANT_OF_MEMORY};
use crate::stream::{ReadError, read_source};
use crate::words::{USAGE, Word, words_of};
use ssh_wire::{Sink, Source, write_all};
use std::alloc::{AllocError, Global};
use std::env::Args;
use std::io;
use std::process::ExitCode;

/// A program that answers scripts: which words it takes, what it answers, and how that is told.
pub trait Program {
    /// What words ask for.
    type Command: Drop;

    /// What is answered.
    type Answer: Drop;

    // The command that has these words.
    ghost command_in: { List (List ℕ) → Option Self.Command };

    // Whether a command reads a script.
    ghost reads: { Self.Command → Bool };

    // What a command may answer to the text of a script, or to no text where it reads none.
    ghost answers: { Self.Command → List ℕ → Self.Answer → Type 0 };

    // The text of an answer, and its exit status.
    ghost text_for: { Self.Answer → List ℕ };

    ghost status_for: { Self.Answer → ℕ };

    /// The command that has these words.
    fn command_of(words: &[Word]) -> Option<Self::Command>
        ensures { result ≡ command_in words.now };

    /// Whether the command reads a script.
    fn reads_script(command: &Self::Command) -> bool
        ensures { result ≡ reads command.now };

    /// What the command answers to the text. AllocError where memory was wanted.
    fn answer(
        alloc: Global,
        command: Self::Command,
        text: Vec<u8>,
    ) -> Result<Self::Answer, AllocError>
        ensures { IfOk result (answers command text.items) };

    /// The text that tells the answer.
    fn text_of(alloc: Global, answer: &Self::Answer) -> Result<Vec<u8>, AllocError>
        ensures { IfOk result (λ out. out.items ≡ text_for answer.now) };

    /// The exit status, once all is written: at most that of a faulty script.
    fn status_of(answer: &Self::Answer) -> u8
        ensures status { result ≡ status_for answer.now }
        ensures within { result ≤ script_faulty };

    // Two texts over the longest script are answered alike.
    ghost alike: { AnswersAlike answers };
}

/// How a call of a program ended.
#[derive(Debug, Drop)]
pub struct Ended<A> {
    /// The exit status.
    pub status: u8,
    /// What was answered; nothing where the words are no command, the source failed or memory was wanted.
    pub answer: Option<A>,
}

/// Runs the command that the arguments name, the program's own name first, as `run_program`, and gives the exit status.
/// Arguments of which one isn't UTF-8 name no command. Status 6 where there was no memory for the words.
pub fn exit_code<P: Program, S: Source, K: Sink>(
    alloc: Global,
    arguments: io::Result<Args<Global>>,
    source: &mut S,
    sink: &mut K,
) -> ExitCode
    ensures status { exit_status result ≤ want_of_memory }
    ensures answered { exit_status result ≢ source_failed → exit_status result ≢ want_of_memory
        → (words : List (List ℕ)) × AreWords arguments words
        × ((answer : Option P.Answer) × IsAnswer P.command_in P.reads P.answers words (S.left source.old)
        (S.left source.new) answer × IsWritten (text_told P.text_for answer) (status_told P.status_for answer)
        (exit_status result) (K.held sink.old) (K.held sink.new) (K.faults sink.old) (K.faults sink.new)) }
    ensures source_failed { exit_status result ≡ source_failed → Rose (S.faults source.old) (S.faults source.new) }
    ensures silent { (exit_status result ≡ source_failed) ⊎ (exit_status result ≡ want_of_memory)
        → K.held sink.new ≡ K.held sink.old }
    ensures usage { (words : List (List ℕ)) → AreWords arguments words → ¬ (IsCommand P.command_in words)
        → (exit_status result ≡ no_command)
        ⊎ ((exit_status result ≡ sink_failed) ⊎ (exit_status result ≡ want_of_memory)) }
    ensures read { (words : List (List ℕ)) → AreWords arguments words → exit_status result ≡ source_failed
        → IsReading P.command_in P.reads words }
    ensures source_unfailed { exit_status result ≢ source_failed → S.faults source.new ≡ S.faults source.old }
    ensures sink_unfailed { exit_status result ≢ sink_failed → K.faults sink.new ≡ K.faults sink.old }
    ensures unread { (words : List (List ℕ)) → AreWords arguments words → ¬ (IsReading P.command_in P.reads words)
        → S.left source.new ≡ S.left source.old }
    ensures bounded { TakesAtMost (longest_script + 1) (S.left source.old) (S.left source.new) }
    ensures one { (words : List (List ℕ)) (told : ℕ) → AreWords arguments words
        → HasOneStatus P.command_in P.reads P.answers P.status_for words (S.left source.old) told
        → exit_status result ≢ source_failed → exit_status result ≢ sink_failed
        → (exit_status result ≡ told) ⊎ (exit_status result ≡ want_of_memory) }
{
    match words_of(alloc, arguments) {
        Ok(words) => {
            ExitCode::from(run_program::<P, S, K>(alloc, words.as_slice(), source, sink).status)
        }
        Err(_) => ExitCode::from(WANT_OF_MEMORY),
    }
}

/// Runs a command: tests the words, reads the script from the source where the command reads one, lets it be answered,
/// and writes what tells the answer to the sink. Nothing is written before all of the answer is known.
pub fn run_program<P: Program, S: Source, K: Sink>(
    alloc: Global,
    words: &[Word],
    source: &mut S,
    sink: &mut K,
) -> Ended<P::Answer>
    ensures status { result.status ≤ want_of_memory }
    ensures answered { result.status ≢ source_failed → result.status ≢ want_of_memory
        → IsAnswer P.command_in P.reads P.answers words.now (S.left source.old) (S.left source.new) result.answer
        × IsWritten (text_told P.text_for result.answer) (status_told P.status_for result.answer) result.status
        (K.held sink.old) (K.held sink.new) (K.faults sink.old) (K.faults sink.new) }
    ensures told { IfSome result.answer (AnswersWords P.command_in P.reads P.answers words.now (S.left source.old)
        (S.left source.new)) }
    ensures source_failed { result.status ≡ source_failed → Rose (S.faults source.old) (S.faults source.new) }
    ensures silent { (result.status ≡ source_failed) ⊎ (result.status ≡ want_of_memory) → (result.answer ≡ None)
        × (K.held sink.new ≡ K.held sink.old) }
    ensures usage { ¬ (IsCommand P.command_in words.now) → (result.status ≡ no_command)
        ⊎ (result.status ≡ sink_failed) }
    ensures read { result.status ≡ source_failed → IsReading P.command_in P.reads words.now }
    ensures run { result.status ≡ want_of_memory → IsCommand P.command_in words.now }
    ensures source_unfailed { result.status ≢ source_failed → S.faults source.new ≡ S.faults source.old }
    ensures sink_unfailed { result.status ≢ sink_failed → K.faults sink.new ≡ K.faults sink.old }
    ensures unread { ¬ (IsReading P.command_in P.reads words.now) → S.left source.new ≡ S.left source.old }
    ensures bounded { TakesAtMost (longest_script + 1) (S.left source.old) (S.left source.new) }
    ensures one { (told : ℕ) → HasOneStatus P.command_in P.reads P.answers P.status_for words.now (S.left source.old)
        told → result.status ≢ source_failed → result.status ≢ sink_failed
        → (result.status ≡ told) ⊎ (result.status ≡ want_of_memory) }
{
    let Some(command) = P::command_of(words) else {
        let status = written(sink, USAGE, NO_COMMAND);
        return Ended {
            status,
            answer: None,
        };
    };
    match command_answer::<P, S>(alloc, command, source) {
        Ok(answer) => print_answer::<P, K>(alloc, sink, answer),
        Err(ReadError::Failed) => nothing(SOURCE_FAILED),
        Err(ReadError::Memory) => nothing(WANT_OF_MEMORY),
    }
}

/// An end without an answer.
fn nothing<A: Drop>(status: u8) -> Ended<A>
    ensures status { result.status ≡ status }
    ensures answer { result.answer ≡ None }
{
    Ended {
        status,
        answer: None,
    }
}

/// Lets the command be answered, behind the script that it reads. Failed where the source failed.
fn command_answer<P: Program, S: Source>(
    alloc: Global,
    command: P::Command,
    source: &mut S,
) -> Result<P::Answer, ReadError>
    ensures answer { IfOk result (λ answer. AnswersBy (P.reads command) P.answers command (S.left source.old)
        (S.left source.new) answer) }
    ensures failed { IfErr result (λ e. e ≡ Failed → Rose (S.faults source.old) (S.faults source.new)
        × (P.reads command ≡ true)) }
    ensures unfailed { result ≢ Err Failed → S.faults source.new ≡ S.faults source.old }
    ensures unread { P.reads command ≡ false → S.left source.new ≡ S.left source.old }
    ensures bounded { TakesAtMost (longest_script + 1) (S.left source.old) (S.left source.new) }
{
    if P::reads_script(&command) {
        read_answer::<P, S>(alloc, command, source)
    } else {
        Ok(P::answer(alloc, command, Vec::new(alloc))?)
    }
}

/// Reads the script and lets it be answered.
fn read_answer<P: Program, S: Source>(
    alloc: Global,
    command: P::Command,
    source: &mut S,
) -> Result<P::Answer, ReadError>
    ensures answer { IfOk result (λ answer. AnswersLeft P.answers command (S.left source.old)
        (S.left source.new) answer) }
    ensures failed { IfErr result (λ e. e ≡ Failed → Rose (S.faults source.old) (S.faults source.new)) }
    ensures unfailed { result ≢ Err Failed → S.faults source.new ≡ S.faults source.old }
    ensures bounded { TakesAtMost (longest_script + 1) (S.left source.old) (S.left source.new) }
{
    let text = read_source(alloc, source)?;
    Ok(P::answer(alloc, command, text)?)
}

/// Writes what tells the answer. Where there is no memory for its text, nothing is written.
fn print_answer<P: Program, K: Sink>(
    alloc: Global,
    sink: &mut K,
    answer: P::Answer,
) -> Ended<P::Answer>
    ensures status { result.status ≤ want_of_memory }
    ensures not_four { result.status ≢ source_failed }
    ensures shown { result.status ≢ want_of_memory → result.answer ≡ Some answer }
    ensures told { IfSome result.answer (λ told. told ≡ answer) }
    ensures written { result.status ≢ want_of_memory → IsWritten (P.text_for answer) (P.status_for answer) result.status
        (K.held sink.old) (K.held sink.new) (K.faults sink.old) (K.faults sink.new) }
    ensures unfailed { result.status ≢ sink_failed → K.faults sink.new ≡ K.faults sink.old }
    ensures silent { result.status ≡ want_of_memory → (result.answer ≡ None) × (K.held sink.new ≡ K.held sink.old) }
{
    match P::text_of(alloc, &answer) {
        Ok(text) => {
            let status = written(sink, text.as_slice(), P::status_of(&answer));
            Ended {
                status,
                answer: Some(answer),
            }
        }
        Err(_) => nothing(WANT_OF_MEMORY),
    }
}

/// Writes the text, and gives the status: this one, or that of a sink that failed.
fn written<K: Sink>(sink: &mut K, text: &[u8], status: u8) -> u8
    requires { status ≤ script_faulty }
    ensures status { result ≤ sink_failed }
    ensures not_four { result ≢ source_failed }
    ensures other { (result ≡ status) ⊎ (result ≡ sink_failed) }
    ensures written { IsWritten text.now status result (K.held sink.old) (K.held sink.new) (K.faults sink.old)
        (K.faults sink.new) }
    ensures unfailed { result ≢ sink_failed → K.faults sink.new ≡ K.faults sink.old }
{
    match write_all(sink, text) {
        Ok(()) => status,
        Err(_) => SINK_FAILED,
    }
}
