//! What a machine keeps from its start to its end.

use crate::config::Config;
use crate::exchange::Exchange;
use ssh_negotiate::KexCause;
use std::alloc::Global;

/// What an exchange keeps in each state: the configuration, what began it, and what it knows so far.
#[derive(Debug, Drop)]
pub struct KexBase<'c> {
    pub alloc: Global,
    pub config: &'c Config,
    pub cause: KexCause,
    pub exchange: Exchange,
}
