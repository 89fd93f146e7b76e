//! Blocks of exchange messages: the form that each message has, the values that two blocks hold, and which packet may
//! come next on a side's wire.
#![tactic(auto)]

mod block;
mod forms;
mod host;
mod judge;
mod order;
mod rules;
mod submits;
mod values;

pub use crate::block::OpenBlock;
pub use crate::forms::{Numbers, Reply, one_string, three_sizes, three_strings, two_numbers};
pub use crate::host::blob_shown;
pub use crate::judge::PacketJudge;
pub use crate::order::{is_payload_type, messages_due, order_of};
pub use crate::rules::WireRules;
pub use crate::submits::next_submit;
pub use crate::values::{BlockValues, GroupValues, values_of};
