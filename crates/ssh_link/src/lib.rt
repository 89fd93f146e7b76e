//! The run of a script, from its text to the text of its report, and the program's top call.
#![tactic(auto)]

mod answer;
mod command;
mod link_program;
mod program;
mod run_parts;
mod script_run;
mod text_answer;

pub use crate::answer::MainEnd;
pub use crate::link_program::LinkProgram;
pub use crate::program::{exit_code, link_main};
pub use crate::script_run::{run_attack, run_script};
pub use ssh_attack::run_attacked;
pub use ssh_program::{
    NO_COMMAND, REPORT_WRITTEN, RUN_REFUSED, SCRIPT_FAULTY, SINK_FAILED, SOURCE_FAILED, StdSink,
    StdSource, WANT_OF_MEMORY, Word, exit_statuses,
};
pub use ssh_run::{run_clear, run_link};
pub use ssh_script::{
    ClearReport, ClearSide, ClearStep, Script, ScriptError, ScriptFault, ScriptKind, SideSetup,
    parse_clear, parse_script, print_attack, print_clear, print_report, print_summary,
};
