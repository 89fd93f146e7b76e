//! Callers of what stands above a link, whose contracts rest on its public clauses alone: examples of what a caller can
//! prove.
#![tactic(auto)]

mod asked;
mod audited;

pub use crate::asked::{AskFault, Asked, ask};
pub use crate::audited::audit_link;
