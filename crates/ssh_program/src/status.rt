//! The exit statuses of the program, in one place.

ghost use Rattle.std.specs.Prelude.{◌≡◌};
ghost use Rattle.ssh_program.specs.Statuses.{report_written, run_refused, no_command, script_faulty, source_failed, sink_failed, want_of_memory};

/// The run went to its end, and its report is written.
pub const REPORT_WRITTEN: u8 = 0;

/// The run was refused.
pub const RUN_REFUSED: u8 = 1;

/// The words are no command.
pub const NO_COMMAND: u8 = 2;

/// The script breaks its grammar.
pub const SCRIPT_FAULTY: u8 = 3;

/// The source failed.
pub const SOURCE_FAILED: u8 = 4;

/// The sink failed.
pub const SINK_FAILED: u8 = 5;

/// Memory ran out.
pub const WANT_OF_MEMORY: u8 = 6;

/// What each constant is, for proofs above to cite.
pub fn exit_statuses()
    ensures run { (REPORT_WRITTEN ≡ report_written) × (RUN_REFUSED ≡ run_refused) }
    ensures words { (NO_COMMAND ≡ no_command) × (SCRIPT_FAULTY ≡ script_faulty) }
    ensures outside { (SOURCE_FAILED ≡ source_failed) × (SINK_FAILED ≡ sink_failed)
        × (WANT_OF_MEMORY ≡ want_of_memory) }
{}
