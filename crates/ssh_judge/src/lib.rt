//! The judge of recorded links: whether what a record says is what a link of its steps does, and the first thing that
//! isn't.
#![tactic(auto)]

mod cause;
mod effect;
mod fits;
mod judging;
mod marked;
mod report;
mod run;
mod side;
mod tally;

pub use crate::judging::audit;
pub use ssh_record::{AuditEnd, AuditFault, AuditReport, SentPair, Transcript};
