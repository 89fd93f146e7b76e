//! The rules of one side and of two, and their laws.
#![tactic(auto)]

mod asked;
mod laws;
pub mod link;

pub use crate::asked::Asked;
pub use crate::laws::{
    any_refusals, each_run, honest_link, host_trusted, keyed_run, no_violation,
    none_refused_in_link, nothing_refused, only_messages_refused, parts_refuse_alone,
    records_agree, refusals_have_causes, rested_run, same_delivered, signed_run, sizes_are_u32,
};
