//! The top call of the program.

ghost use Rattle.std.specs.Prelude.{◌≡◌, ◌≢◌, ◌≤◌, ◌+◌, ◌⊎◌, ℕ, List, Option, None};
ghost use Rattle.std.specs.Process.{exit_status};
ghost use Rattle.ssh_wire.specs.Outside.{Rose, TakesAtMost};
ghost use Rattle.ssh_program.specs.Programs.{AreWords, IsAnswer, IsCommand, IsReading, IsWritten, longest_script, status_told, text_told};
ghost use Rattle.ssh_program.specs.Statuses.{no_command, source_failed, sink_failed, want_of_memory};
ghost use Rattle.ssh_audit.specs.AuditProgram.{AnswersAuditCommand, ShowsAudit, audit_command_in, audit_status, audit_text, needs_record};
ghost use Rattle.ssh_audit.specs.declared.answer.AuditAnswer.{AuditAnswer};

use crate::answer::AuditAnswer;
use crate::audit_program::AuditProgram;
use ssh_lines::ScriptFault;
use ssh_program::{Word, run_program};
use ssh_record::{AuditFault, AuditReport};
use ssh_wire::{Sink, Source};
use std::alloc::Global;
use std::env::Args;
use std::io;
use std::process::ExitCode;

/// How a call of the program ended.
#[derive(Drop)]
pub struct AuditMain {
    /// The exit status: 0 the record is accepted, and its report is written, 1 it isn't, 2 the words are no command, 3
    /// the script is faulty, 4 the source failed, 5 the sink failed, 6 want of memory.
    pub status: u8,
    /// What the record shows.
    pub report: Option<AuditReport>,
    /// What is wrong with the record.
    pub refused: Option<AuditFault>,
    /// How the script breaks its grammar.
    pub fault: Option<ScriptFault>,
}

impl AuditMain {
    /// An end with what was answered, if anything was.
    pub fn with(answer: Option<AuditAnswer>, status: u8) -> AuditMain
        ensures status { result.status ≡ status }
        ensures shown { ShowsAudit answer result }
    {
        match answer {
            None => AuditMain {
                status,
                report: None,
                refused: None,
                fault: None,
            },
            Some(AuditAnswer::Faulty(fault)) => AuditMain {
                status,
                report: None,
                refused: None,
                fault: Some(fault),
            },
            Some(AuditAnswer::Refused(fault)) => AuditMain {
                status,
                report: None,
                refused: Some(fault),
                fault: None,
            },
            Some(AuditAnswer::Passed(report)) => AuditMain {
                status,
                report: Some(report),
                refused: None,
                fault: None,
            },
        }
    }
}

/// Runs the command that the arguments name, the program's own name first, as `audit_main`, and gives the exit
/// status. Arguments of which one isn't UTF-8 name no command. Status 6 where there was no memory for the words.
pub fn exit_code<S: Source, K: Sink>(
    alloc: Global,
    arguments: io::Result<Args<Global>>,
    source: &mut S,
    sink: &mut K,
) -> ExitCode
    ensures status { exit_status result ≤ want_of_memory }
    ensures answered { exit_status result ≢ source_failed → exit_status result ≢ want_of_memory
        → (words : List (List ℕ)) × AreWords arguments words
        × ((answer : Option AuditAnswer) × IsAnswer audit_command_in needs_record AnswersAuditCommand words
        (S.left source.old) (S.left source.new) answer
        × IsWritten (text_told audit_text answer) (status_told audit_status answer)
        (exit_status result) (K.held sink.old) (K.held sink.new) (K.faults sink.old) (K.faults sink.new)) }
    ensures source_failed { exit_status result ≡ source_failed → Rose (S.faults source.old) (S.faults source.new) }
    ensures silent { (exit_status result ≡ source_failed) ⊎ (exit_status result ≡ want_of_memory)
        → K.held sink.new ≡ K.held sink.old }
    ensures usage { (words : List (List ℕ)) → AreWords arguments words → ¬ (IsCommand audit_command_in words)
        → (exit_status result ≡ no_command)
        ⊎ ((exit_status result ≡ sink_failed) ⊎ (exit_status result ≡ want_of_memory)) }
    ensures read { (words : List (List ℕ)) → AreWords arguments words → exit_status result ≡ source_failed
        → IsReading audit_command_in needs_record words }
    ensures source_unfailed { exit_status result ≢ source_failed → S.faults source.new ≡ S.faults source.old }
    ensures sink_unfailed { exit_status result ≢ sink_failed → K.faults sink.new ≡ K.faults sink.old }
    ensures unread { (words : List (List ℕ)) → AreWords arguments words
        → ¬ (IsReading audit_command_in needs_record words) → S.left source.new ≡ S.left source.old }
    ensures bounded { TakesAtMost (longest_script + 1) (S.left source.old) (S.left source.new) }
{
    ssh_program::exit_code::<AuditProgram, S, K>(alloc, arguments, source, sink)
}

/// Runs the command `audit`: tests the words, reads the script from the source, judges its record, and writes what was
/// found to the sink. Nothing is written before all of it is known.
pub fn audit_main<S: Source, K: Sink>(
    alloc: Global,
    words: &[Word],
    source: &mut S,
    sink: &mut K,
) -> AuditMain
    ensures status { result.status ≤ want_of_memory }
    ensures answered { result.status ≢ source_failed → result.status ≢ want_of_memory → (answer : Option AuditAnswer)
        × IsAnswer audit_command_in needs_record AnswersAuditCommand words.now (S.left source.old)
        (S.left source.new) answer
        × ShowsAudit answer result × IsWritten (text_told audit_text answer) (status_told audit_status answer)
        result.status (K.held sink.old) (K.held sink.new) (K.faults sink.old) (K.faults sink.new) }
    ensures source_failed { result.status ≡ source_failed → Rose (S.faults source.old) (S.faults source.new) }
    ensures silent { (result.status ≡ source_failed) ⊎ (result.status ≡ want_of_memory) → ShowsAudit None result
        × (K.held sink.new ≡ K.held sink.old) }
    ensures usage { ¬ (IsCommand audit_command_in words.now) → (result.status ≡ no_command)
        ⊎ (result.status ≡ sink_failed) }
    ensures read { result.status ≡ source_failed → IsReading audit_command_in needs_record words.now }
    ensures run { result.status ≡ want_of_memory → IsCommand audit_command_in words.now }
    ensures source_unfailed { result.status ≢ source_failed → S.faults source.new ≡ S.faults source.old }
    ensures sink_unfailed { result.status ≢ sink_failed → K.faults sink.new ≡ K.faults sink.old }
    ensures unread { ¬ (IsReading audit_command_in needs_record words.now) → S.left source.new ≡ S.left source.old }
    ensures bounded { TakesAtMost (longest_script + 1) (S.left source.old) (S.left source.new) }
{
    let ended = run_program::<AuditProgram, S, K>(alloc, words, source, sink);
    AuditMain::with(ended.answer, ended.status)
}
