//! Key exchange (RFC 4253 sections 7 and 8, RFC 4419, RFC 5656): what is handed in, the exchange hash, the keys, one
//! exchange's group, values and secret, and the messages that both sides' machines share. The definitions of each step
//! of a machine stand here; the machines themselves are `ssh_client_kex` and `ssh_server_kex`.
#![tactic(auto)]

mod algorithm;
mod base;
mod config;
mod exchange;
pub mod first_message;
mod group;
mod handed;
mod hashing;
pub mod kexinit_message;
mod keys;
pub mod last_message;
mod laws;
pub mod message;
mod parts;
mod progress;
mod session_state;
mod signature;

pub use crate::algorithm::KexAlgorithm;
pub use crate::base::KexBase;
pub use crate::config::Config;
pub use crate::exchange::{
    Exchange, FinishedExchange, GexChosen, Keys, NewCiphers, NewKeys, ServerHost, SharedSecret,
};
pub use crate::group::{DhGroup, GexParams, copy_of_group};
pub use crate::handed::Handed;
pub use crate::keys::compute_keys;
pub use crate::laws::{canonical_once, ciphers_meet, keys_are_well, memory_alone, rows_exclude};
pub use crate::parts::{Agreed, Agreement, GroupLookup, HostKeys, Parts, Refusal, Started};
pub use crate::progress::KexProgress;
pub use crate::session_state::SessionKexState;
pub use crate::signature::canonicalize_ecdsa_signature;
