//! The top call of the program.

ghost use Rattle.std.specs.Prelude.{◌≡◌, ◌≢◌, ◌≤◌, ◌+◌, ◌⊎◌, ℕ, List, Option, OnSome};
ghost use Rattle.std.specs.Process.{exit_status};
ghost use Rattle.ssh_wire.specs.Outside.{Rose, TakesAtMost, ReachesEnd};
ghost use Rattle.ssh_program.specs.Programs.{AreWords, IsAnswer, IsCommand, IsReading, IsWritten, longest_script, status_told, text_told};
ghost use Rattle.ssh_program.specs.Statuses.{no_command, report_written, source_failed, sink_failed, want_of_memory};
ghost use Rattle.ssh_link.specs.Program.{AnswersCommand, IsAttackable, IsClearable, IsGenerated, IsReadWhole, IsRunnable, Shows, ShowsNone, answer_status, answer_text, command_in, needs_script};
ghost use Rattle.ssh_link.specs.declared.answer.Answer.{Answer};

use crate::answer::MainEnd;
use crate::link_program::LinkProgram;
use ssh_program::{Word, run_program};
use ssh_wire::{Sink, Source};
use std::alloc::Global;
use std::env::Args;
use std::io;
use std::process::ExitCode;

/// Runs the command that the arguments name, the program's own name first, as `link_main`, and gives the exit
/// status. Arguments of which one isn't UTF-8 name no command. Status 6 where there was no memory for the words.
pub fn exit_code<S: Source, K: Sink>(
    alloc: Global,
    arguments: io::Result<Args<Global>>,
    source: &mut S,
    sink: &mut K,
) -> ExitCode
    ensures status { exit_status result ≤ want_of_memory }
    ensures answered { exit_status result ≢ source_failed → exit_status result ≢ want_of_memory
        → (words : List (List ℕ)) × AreWords arguments words
        × ((answer : Option Answer) × IsAnswer command_in needs_script AnswersCommand words (S.left source.old)
        (S.left source.new) answer × IsReadWhole words answer (S.left source.old) (S.left source.new)
        × IsWritten (text_told answer_text answer) (status_told answer_status answer) (exit_status result)
        (K.held sink.old) (K.held sink.new) (K.faults sink.old) (K.faults sink.new)) }
    ensures source_failed { exit_status result ≡ source_failed → Rose (S.faults source.old) (S.faults source.new) }
    ensures silent { (exit_status result ≡ source_failed) ⊎ (exit_status result ≡ want_of_memory)
        → K.held sink.new ≡ K.held sink.old }
    ensures usage { (words : List (List ℕ)) → AreWords arguments words → ¬ (IsCommand command_in words)
        → (exit_status result ≡ no_command)
        ⊎ ((exit_status result ≡ sink_failed) ⊎ (exit_status result ≡ want_of_memory)) }
    ensures read { (words : List (List ℕ)) → AreWords arguments words → exit_status result ≡ source_failed
        → IsReading command_in needs_script words }
    ensures source_unfailed { exit_status result ≢ source_failed → S.faults source.new ≡ S.faults source.old }
    ensures sink_unfailed { exit_status result ≢ sink_failed → K.faults sink.new ≡ K.faults sink.old }
    ensures unread { (words : List (List ℕ)) → AreWords arguments words → ¬ (IsReading command_in needs_script words)
        → S.left source.new ≡ S.left source.old }
    ensures bounded { TakesAtMost (longest_script + 1) (S.left source.old) (S.left source.new) }
    ensures cleared { (words : List (List ℕ)) → AreWords arguments words → IsClearable words (S.left source.old)
        → exit_status result ≢ source_failed → exit_status result ≢ sink_failed
        → (exit_status result ≡ report_written) ⊎ (exit_status result ≡ want_of_memory) }
    ensures ran { (words : List (List ℕ)) → AreWords arguments words → IsRunnable words (S.left source.old)
        → exit_status result ≢ source_failed → exit_status result ≢ sink_failed
        → (exit_status result ≡ report_written) ⊎ (exit_status result ≡ want_of_memory) }
    ensures attacked { (words : List (List ℕ)) → AreWords arguments words → IsAttackable words (S.left source.old)
        → exit_status result ≢ source_failed → exit_status result ≢ sink_failed
        → (exit_status result ≡ report_written) ⊎ (exit_status result ≡ want_of_memory) }
    ensures generated { (words : List (List ℕ)) → AreWords arguments words → IsGenerated words
        → exit_status result ≢ sink_failed
        → (exit_status result ≡ report_written) ⊎ (exit_status result ≡ want_of_memory) }
{
    ssh_program::exit_code::<LinkProgram, S, K>(alloc, arguments, source, sink)
}

/// Runs a command: tests the words, reads the script from the source or makes the steps of `gen`, runs them, and writes
/// what is answered to the sink. Nothing is written before all of the answer is known.
pub fn link_main<S: Source, K: Sink>(
    alloc: Global,
    words: &[Word],
    source: &mut S,
    sink: &mut K,
) -> MainEnd
    ensures status { result.status ≤ want_of_memory }
    ensures answered { result.status ≢ source_failed → result.status ≢ want_of_memory → (answer : Option Answer)
        × IsAnswer command_in needs_script AnswersCommand words.now (S.left source.old) (S.left source.new) answer
        × Shows answer result × IsWritten (text_told answer_text answer) (status_told answer_status answer)
        result.status (K.held sink.old) (K.held sink.new) (K.faults sink.old) (K.faults sink.new) }
    ensures run_end { OnSome result.clear (ReachesEnd (S.left source.old) (S.left source.new)) }
    ensures link_end { IsReading command_in needs_script words.now → OnSome result.report
        (ReachesEnd (S.left source.old) (S.left source.new)) }
    ensures attack_end { OnSome result.attack (ReachesEnd (S.left source.old) (S.left source.new)) }
    ensures refused_end { IsReading command_in needs_script words.now → OnSome result.refused
        (ReachesEnd (S.left source.old) (S.left source.new)) }
    ensures source_failed { result.status ≡ source_failed → Rose (S.faults source.old) (S.faults source.new) }
    ensures silent { (result.status ≡ source_failed) ⊎ (result.status ≡ want_of_memory) → ShowsNone result
        × (K.held sink.new ≡ K.held sink.old) }
    ensures usage { ¬ (IsCommand command_in words.now) → (result.status ≡ no_command) ⊎ (result.status ≡ sink_failed) }
    ensures read { result.status ≡ source_failed → IsReading command_in needs_script words.now }
    ensures run { result.status ≡ want_of_memory → IsCommand command_in words.now }
    ensures source_unfailed { result.status ≢ source_failed → S.faults source.new ≡ S.faults source.old }
    ensures sink_unfailed { result.status ≢ sink_failed → K.faults sink.new ≡ K.faults sink.old }
    ensures unread { ¬ (IsReading command_in needs_script words.now) → S.left source.new ≡ S.left source.old }
    ensures bounded { TakesAtMost (longest_script + 1) (S.left source.old) (S.left source.new) }
    ensures cleared { IsClearable words.now (S.left source.old) → result.status ≢ source_failed
        → result.status ≢ sink_failed → (result.status ≡ report_written) ⊎ (result.status ≡ want_of_memory) }
    ensures ran { IsRunnable words.now (S.left source.old) → result.status ≢ source_failed
        → result.status ≢ sink_failed → (result.status ≡ report_written) ⊎ (result.status ≡ want_of_memory) }
    ensures attacked { IsAttackable words.now (S.left source.old) → result.status ≢ source_failed
        → result.status ≢ sink_failed → (result.status ≡ report_written) ⊎ (result.status ≡ want_of_memory) }
    ensures generated { IsGenerated words.now → result.status ≢ sink_failed
        → (result.status ≡ report_written) ⊎ (result.status ≡ want_of_memory) }
{
    let ended = run_program::<LinkProgram, S, K>(alloc, words, source, sink);
    MainEnd::with(ended.answer, ended.status)
}
