//! One side of a connection over a source and a sink: its key file, its setup, and the talk with the other side.
#![tactic(auto)]

mod command;
mod desk;
mod end;
mod notes;
mod program;
mod setup;
mod talking;
mod told;

pub use crate::command::{PipeCommand, command_of};
pub use crate::desk::{Desk, Reply};
pub use crate::end::{TalkEnd, status_of};
pub use crate::program::{exit_code, run_with_key, set_up, talk_as};
pub use crate::setup::{PipeParts, config_of, parts_of};
pub use crate::talking::talk;
pub use crate::told::RunTold;
pub use ssh_program::{StdSink, StdSource, Word};
