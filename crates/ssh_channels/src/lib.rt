//! Channels with windows (RFC 4254 sections 5.1 to 5.3): one side of a connection, its messages, and laws of both.
#![tactic(auto)]

mod channel;
mod config;
mod end;
mod fault;
mod incoming;
mod laws;
mod mux;
mod stored;
mod text;

pub use crate::channel::Channel;
pub use crate::config::MuxConfig;
pub use crate::end::{End, Phase};
pub use crate::fault::MuxFault;
pub use crate::incoming::{Incoming, Offer, Said};
pub use crate::laws::{
    all_comes, all_ends, comes_in_order, keeps_windows, nothing_refused, only_called, read_again,
    settle_ends,
};
pub use crate::mux::Mux;
pub use crate::stored::Stored;
