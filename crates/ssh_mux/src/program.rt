//! The top call of the program.

ghost use Rattle.std.specs.Prelude.{◌≡◌, ◌≢◌, ◌≤◌, ◌+◌, ◌⊎◌, ℕ, List, Option};
ghost use Rattle.std.specs.Process.{exit_status};
ghost use Rattle.ssh_wire.specs.Outside.{Rose, TakesAtMost, ReachesEnd};
ghost use Rattle.ssh_program.specs.Programs.{AreWords, IsAnswer, IsCommand, IsReading, IsWritten, longest_script, status_told, text_told};
ghost use Rattle.ssh_program.specs.Statuses.{no_command, report_written, run_refused, script_faulty, source_failed, sink_failed, want_of_memory};
ghost use Rattle.ssh_mux.specs.Program.{AnswersMuxCommand, HasChannelFault, HasWideWindow, ShowsMux, ShowsNoMux, mux_answer_status, mux_answer_text, mux_command_in, needs_channels};
ghost use Rattle.ssh_mux.specs.declared.answer.MuxAnswer.{MuxAnswer};

use crate::answer::MuxMain;
use crate::mux_program::MuxProgram;
use ssh_program::{Word, run_program};
use ssh_wire::{Sink, Source};
use std::alloc::Global;
use std::env::Args;
use std::io;
use std::process::ExitCode;

/// Runs the command that the arguments name, the program's own name first, as `mux_main`, and gives the exit
/// status. Arguments of which one isn't UTF-8 name no command. Status 6 where there was no memory for the words.
pub fn exit_code<S: Source, K: Sink>(
    alloc: Global,
    arguments: io::Result<Args<Global>>,
    source: &mut S,
    sink: &mut K,
) -> ExitCode
    ensures status { exit_status result ≤ want_of_memory }
    ensures answered { exit_status result ≢ source_failed → exit_status result ≢ want_of_memory
        → (words : List (List ℕ)) × AreWords arguments words
        × ((answer : Option MuxAnswer) × IsAnswer mux_command_in needs_channels AnswersMuxCommand words
        (S.left source.old) (S.left source.new) answer × IsWritten (text_told mux_answer_text answer)
        (status_told mux_answer_status answer) (exit_status result) (K.held sink.old) (K.held sink.new)
        (K.faults sink.old) (K.faults sink.new)) }
    ensures ends { exit_status result ≡ report_written → ReachesEnd (S.left source.old) (S.left source.new) }
    ensures source_failed { exit_status result ≡ source_failed → Rose (S.faults source.old) (S.faults source.new) }
    ensures silent { (exit_status result ≡ source_failed) ⊎ (exit_status result ≡ want_of_memory)
        → K.held sink.new ≡ K.held sink.old }
    ensures usage { (words : List (List ℕ)) → AreWords arguments words → ¬ (IsCommand mux_command_in words)
        → (exit_status result ≡ no_command)
        ⊎ ((exit_status result ≡ sink_failed) ⊎ (exit_status result ≡ want_of_memory)) }
    ensures read { (words : List (List ℕ)) → AreWords arguments words → exit_status result ≡ source_failed
        → IsReading mux_command_in needs_channels words }
    ensures source_unfailed { exit_status result ≢ source_failed → S.faults source.new ≡ S.faults source.old }
    ensures sink_unfailed { exit_status result ≢ sink_failed → K.faults sink.new ≡ K.faults sink.old }
    ensures unread { (words : List (List ℕ)) → AreWords arguments words
        → ¬ (IsReading mux_command_in needs_channels words)
        → S.left source.new ≡ S.left source.old }
    ensures bounded { TakesAtMost (longest_script + 1) (S.left source.old) (S.left source.new) }
    ensures faulty { (words : List (List ℕ)) → AreWords arguments words → HasChannelFault words (S.left source.old)
        → exit_status result ≢ source_failed → exit_status result ≢ sink_failed
        → (exit_status result ≡ script_faulty) ⊎ (exit_status result ≡ want_of_memory) }
    ensures wide { (words : List (List ℕ)) → AreWords arguments words → HasWideWindow words (S.left source.old)
        → exit_status result ≢ source_failed → exit_status result ≢ sink_failed
        → (exit_status result ≡ run_refused) ⊎ (exit_status result ≡ want_of_memory) }
{
    ssh_program::exit_code::<MuxProgram, S, K>(alloc, arguments, source, sink)
}

/// Runs the command `channels`: tests the words, reads the script from the source, runs it, and writes the report to
/// the sink. Nothing is written before all of it is known.
pub fn mux_main<S: Source, K: Sink>(
    alloc: Global,
    words: &[Word],
    source: &mut S,
    sink: &mut K,
) -> MuxMain
    ensures status { result.status ≤ want_of_memory }
    ensures answered { result.status ≢ source_failed → result.status ≢ want_of_memory → (answer : Option MuxAnswer)
        × IsAnswer mux_command_in needs_channels AnswersMuxCommand words.now (S.left source.old) (S.left source.new)
        answer × ShowsMux answer result
        × IsWritten (text_told mux_answer_text answer) (status_told mux_answer_status answer)
        result.status (K.held sink.old) (K.held sink.new) (K.faults sink.old) (K.faults sink.new) }
    ensures ends { result.status ≡ report_written → ReachesEnd (S.left source.old) (S.left source.new) }
    ensures source_failed { result.status ≡ source_failed → Rose (S.faults source.old) (S.faults source.new) }
    ensures silent { (result.status ≡ source_failed) ⊎ (result.status ≡ want_of_memory) → ShowsNoMux result
        × (K.held sink.new ≡ K.held sink.old) }
    ensures usage { ¬ (IsCommand mux_command_in words.now)
        → (result.status ≡ no_command) ⊎ (result.status ≡ sink_failed) }
    ensures read { result.status ≡ source_failed → IsReading mux_command_in needs_channels words.now }
    ensures run { result.status ≡ want_of_memory → IsCommand mux_command_in words.now }
    ensures source_unfailed { result.status ≢ source_failed → S.faults source.new ≡ S.faults source.old }
    ensures sink_unfailed { result.status ≢ sink_failed → K.faults sink.new ≡ K.faults sink.old }
    ensures unread { ¬ (IsReading mux_command_in needs_channels words.now) → S.left source.new ≡ S.left source.old }
    ensures bounded { TakesAtMost (longest_script + 1) (S.left source.old) (S.left source.new) }
    ensures faulty { HasChannelFault words.now (S.left source.old) → result.status ≢ source_failed
        → result.status ≢ sink_failed → (result.status ≡ script_faulty) ⊎ (result.status ≡ want_of_memory) }
    ensures wide { HasWideWindow words.now (S.left source.old) → result.status ≢ source_failed
        → result.status ≢ sink_failed → (result.status ≡ run_refused) ⊎ (result.status ≡ want_of_memory) }
{
    let ended = run_program::<MuxProgram, S, K>(alloc, words, source, sink);
    MuxMain::with(ended.answer, ended.status)
}
