//! What the checks of rows on machines and on transports share: how a side is set up, the machine of either side, and
//! the calls on a transport.
#![tactic(auto)]

mod config;
mod machine;
mod transport;

pub use crate::config::{config_of, key_of, keys_of, side_of, times, trusted_by};
pub use crate::machine::{Machine, Progress};
pub use crate::transport::{feed, poll_payload, rekey, submit, take_input};
