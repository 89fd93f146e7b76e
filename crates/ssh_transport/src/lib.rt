//! One side of the transport (RFC 4253): its version line, its packets, and the exchanges of keys among them.
#![tactic(auto)]

mod calls;
mod config;
mod connection;
mod machine;
mod message;
mod session;
mod transport;

pub use crate::config::{config_fault, first_config_fault};
pub use crate::transport::Transport;
pub use ssh_kex::{Config, FinishedExchange};
pub use ssh_rules::link::ExchangeList;
