//! Channels over a link: the run of a script of calls on both sides, its report, and the top call of the program.
#![tactic(auto)]

mod answer;
mod carried;
mod fault;
mod laws;
mod linked;
mod mux_program;
mod pair;
mod parts;
mod print;
mod program;
mod report;
mod run;
mod script;
mod step;
mod summing;
mod typed;

pub use crate::answer::{MuxAnswer, MuxMain};
pub use crate::fault::RunFault;
pub use crate::laws::{
    runs_are_talks, runs_end, runs_finish, runs_flow, runs_flow_always, runs_in_order, runs_settle,
};
pub use crate::mux_program::{MuxCommand, MuxProgram};
pub use crate::pair::{Pair, PairConfig};
pub use crate::print::{print_channels, print_run_fault};
pub use crate::program::{exit_code, mux_main};
pub use crate::report::{ChannelReport, Flow, MuxEnd, MuxReport};
pub use crate::run::{Setup, run_channels};
pub use crate::script::{MuxScript, parse_channels};
pub use crate::step::ChannelStep;
pub use ssh_channels::{MuxConfig, MuxFault};
pub use ssh_program::{StdSink, StdSource, Word};
