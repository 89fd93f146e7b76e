//! The texts of the program: what the lines of a script say, and how reports and refusals are printed.
#![tactic(auto)]

mod clear_report;
mod clear_script;
mod generated;
mod given_blobs;
mod link_report;
mod link_script;
mod name_lists;
mod report;
mod report_line;
mod setting;
mod setup;
mod step;
mod summary;

pub use crate::clear_report::print_clear;
pub use crate::clear_script::{ClearForms, parse_clear};
pub use crate::generated::generated_script;
pub use crate::link_report::{print_attack, print_report};
pub use crate::link_script::{AttackForms, RunForms, parse_script};
pub use crate::report::{ClearReport, ClearSide};
pub use crate::report_line::push_delivered;
pub use crate::setup::{Script, SideSetup};
pub use crate::step::ClearStep;
pub use crate::summary::print_summary;
pub use ssh_lines::{ScriptError, ScriptFault, ScriptKind, number, print_fault, print_refusal};
