//! The records of links: what stands in one, what is wrong with one, and the laws of both.
#![tactic(auto)]

mod laws;
mod recording;
mod report;

pub use crate::laws::{link_has_no_fault, link_is_shown, one_answer};
pub use crate::recording::{SentPair, Transcript};
pub use crate::report::{AuditEnd, AuditFault, AuditReport};
