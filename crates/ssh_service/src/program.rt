//! The top call of the program.

ghost use Rattle.std.specs.Prelude.{◌≡◌, ◌≢◌, ◌≤◌, ◌+◌, ◌⊎◌, [], ℕ, List, Option};
ghost use Rattle.std.specs.Process.{exit_status};
ghost use Rattle.ssh_wire.specs.Outside.{Rose, TakesAtMost, ReachesEnd};
ghost use Rattle.ssh_program.specs.Programs.{AreWords, IsAnswer, IsCommand, IsReading, IsWritten, longest_script, status_told, text_told};
ghost use Rattle.ssh_program.specs.Statuses.{no_command, report_written, run_refused, script_faulty, source_failed, sink_failed, want_of_memory};
ghost use Rattle.ssh_service.specs.Program.{AnswersServiceCommand, HasFault, IsAnswerable, ShowsAnswers, ShowsNoAnswers, service_status, service_text, service_command_in, needs_messages};
ghost use Rattle.ssh_service.specs.declared.service_program.ScriptAnswer.{ScriptAnswer};

use crate::answer::ServiceAnswer;
use crate::service_program::{ScriptAnswer, ServiceProgram};
use ssh_lines::ScriptFault;
use ssh_program::{Word, run_program};
use ssh_wire::{Sink, Source};
use std::alloc::Global;
use std::env::Args;
use std::io;
use std::process::ExitCode;

/// How a call of the program ended.
#[derive(Debug, Drop)]
pub struct ServiceMain {
    /// The exit status: 0 the answers are written, 2 the words are no command, 3 the script is faulty, 4 the source
    /// failed, 5 the sink failed, 6 want of memory.
    pub status: u8,
    /// The answers to the script's messages, in order; none where the script wasn't answered.
    pub answers: Vec<ServiceAnswer>,
    /// How the script breaks its grammar.
    pub fault: Option<ScriptFault>,
}

impl ServiceMain {
    /// An end with what was answered, if anything was.
    pub fn with(alloc: Global, answer: Option<ScriptAnswer>, status: u8) -> ServiceMain
        ensures status { result.status ≡ status }
        ensures shown { ShowsAnswers answer result }
    {
        match answer {
            None => ServiceMain {
                status,
                answers: Vec::new(alloc),
                fault: None,
            },
            Some(ScriptAnswer::Faulty(fault)) => ServiceMain {
                status,
                answers: Vec::new(alloc),
                fault: Some(fault),
            },
            Some(ScriptAnswer::Answered(answers)) => ServiceMain {
                status,
                answers,
                fault: None,
            },
        }
    }
}

/// Runs the command that the arguments name, the program's own name first, as `service_main`, and gives the exit
/// status. Arguments of which one isn't UTF-8 name no command. Status 6 where there was no memory for the words.
pub fn exit_code<S: Source, K: Sink>(
    alloc: Global,
    arguments: io::Result<Args<Global>>,
    source: &mut S,
    sink: &mut K,
) -> ExitCode
    ensures status { exit_status result ≤ want_of_memory }
    ensures answered { exit_status result ≢ source_failed → exit_status result ≢ want_of_memory
        → (words : List (List ℕ)) × AreWords arguments words
        × ((answer : Option ScriptAnswer) × IsAnswer service_command_in needs_messages AnswersServiceCommand words
        (S.left source.old)
        (S.left source.new) answer × IsWritten (text_told service_text answer) (status_told service_status answer)
        (exit_status result) (K.held sink.old) (K.held sink.new) (K.faults sink.old) (K.faults sink.new)) }
    ensures ends { exit_status result ≡ report_written → ReachesEnd (S.left source.old) (S.left source.new) }
    ensures source_failed { exit_status result ≡ source_failed → Rose (S.faults source.old) (S.faults source.new) }
    ensures silent { (exit_status result ≡ source_failed) ⊎ (exit_status result ≡ want_of_memory)
        → K.held sink.new ≡ K.held sink.old }
    ensures usage { (words : List (List ℕ)) → AreWords arguments words → ¬ (IsCommand service_command_in words)
        → (exit_status result ≡ no_command)
        ⊎ ((exit_status result ≡ sink_failed) ⊎ (exit_status result ≡ want_of_memory)) }
    ensures read { (words : List (List ℕ)) → AreWords arguments words → exit_status result ≡ source_failed
        → IsReading service_command_in needs_messages words }
    ensures source_unfailed { exit_status result ≢ source_failed → S.faults source.new ≡ S.faults source.old }
    ensures sink_unfailed { exit_status result ≢ sink_failed → K.faults sink.new ≡ K.faults sink.old }
    ensures unread { (words : List (List ℕ)) → AreWords arguments words
        → ¬ (IsReading service_command_in needs_messages words)
        → S.left source.new ≡ S.left source.old }
    ensures bounded { TakesAtMost (longest_script + 1) (S.left source.old) (S.left source.new) }
    ensures served { (words : List (List ℕ)) → AreWords arguments words → IsAnswerable words (S.left source.old)
        → exit_status result ≢ source_failed → exit_status result ≢ sink_failed
        → (exit_status result ≡ report_written) ⊎ (exit_status result ≡ want_of_memory) }
    ensures faulty { (words : List (List ℕ)) → AreWords arguments words → HasFault words (S.left source.old)
        → exit_status result ≢ source_failed → exit_status result ≢ sink_failed
        → (exit_status result ≡ script_faulty) ⊎ (exit_status result ≡ want_of_memory) }
    ensures never_refused { exit_status result ≢ run_refused }
{
    ssh_program::exit_code::<ServiceProgram, S, K>(alloc, arguments, source, sink)
}

/// Runs the command `service`: tests the words, reads the script from the source, answers its messages, and writes the
/// answers to the sink. Nothing is written before all of them are known.
pub fn service_main<S: Source, K: Sink>(
    alloc: Global,
    words: &[Word],
    source: &mut S,
    sink: &mut K,
) -> ServiceMain
    ensures status { result.status ≤ want_of_memory }
    ensures answered { result.status ≢ source_failed → result.status ≢ want_of_memory → (answer : Option ScriptAnswer)
        × IsAnswer service_command_in needs_messages AnswersServiceCommand words.now (S.left source.old)
        (S.left source.new) answer
        × ShowsAnswers answer result × IsWritten (text_told service_text answer) (status_told service_status answer)
        result.status (K.held sink.old) (K.held sink.new) (K.faults sink.old) (K.faults sink.new) }
    ensures ends { (result.status ≡ report_written) ⊎ (result.answers.items ≢ [])
        → ReachesEnd (S.left source.old) (S.left source.new) }
    ensures source_failed { result.status ≡ source_failed → Rose (S.faults source.old) (S.faults source.new) }
    ensures silent { (result.status ≡ source_failed) ⊎ (result.status ≡ want_of_memory) → ShowsNoAnswers result
        × (K.held sink.new ≡ K.held sink.old) }
    ensures usage { ¬ (IsCommand service_command_in words.now) → (result.status ≡ no_command)
        ⊎ (result.status ≡ sink_failed) }
    ensures read { result.status ≡ source_failed → IsReading service_command_in needs_messages words.now }
    ensures run { result.status ≡ want_of_memory → IsCommand service_command_in words.now }
    ensures source_unfailed { result.status ≢ source_failed → S.faults source.new ≡ S.faults source.old }
    ensures sink_unfailed { result.status ≢ sink_failed → K.faults sink.new ≡ K.faults sink.old }
    ensures unread { ¬ (IsReading service_command_in needs_messages words.now) → S.left source.new ≡ S.left source.old }
    ensures bounded { TakesAtMost (longest_script + 1) (S.left source.old) (S.left source.new) }
    ensures served { IsAnswerable words.now (S.left source.old) → result.status ≢ source_failed
        → result.status ≢ sink_failed → (result.status ≡ report_written) ⊎ (result.status ≡ want_of_memory) }
    ensures faulty { HasFault words.now (S.left source.old) → result.status ≢ source_failed
        → result.status ≢ sink_failed → (result.status ≡ script_faulty) ⊎ (result.status ≡ want_of_memory) }
    ensures never_refused { result.status ≢ run_refused }
{
    let ended = run_program::<ServiceProgram, S, K>(alloc, words, source, sink);
    ServiceMain::with(alloc, ended.answer, ended.status)
}
