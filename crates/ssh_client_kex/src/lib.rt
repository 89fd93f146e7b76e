//! A client's side of one exchange of keys (RFC 4253 sections 7 and 8, RFC 4419): a machine that is handed the server's
//! messages one by one, and writes its own.
#![tactic(auto)]

mod client_kex;
mod client_reply;
mod fields;

pub use crate::client_kex::ClientKex;
