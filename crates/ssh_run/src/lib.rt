//! A client and a server, joined: what a run of steps does, with both sides' bytes in clear, and with exchanges of
//! keys.
#![tactic(auto)]

mod clear_link;
mod link;
mod link_end;
mod link_steps;
mod receiver;
mod run;
mod told;

pub use crate::link::run_link;
pub use crate::link_steps::Link;
pub use crate::run::run_clear;
pub use crate::told::{Stepped, Told};
