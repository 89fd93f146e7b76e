//! A server's side of one exchange of keys (RFC 4253 sections 7 and 8, RFC 4419): a machine that is handed the client's
//! messages one by one, and writes its own.
#![tactic(auto)]

mod opening;
mod presented;
mod request;
mod server_kex;
mod value;

pub use crate::server_kex::ServerKex;
