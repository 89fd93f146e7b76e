//! Binary packets (RFC 4253 section 6): keys, a writer that seals, a reader that opens.
#![tactic(auto)]

pub mod block;
pub mod buffer;
pub mod cipher;
pub mod clear;
pub mod compression;
mod error;
mod front;
pub mod gcm;
mod keys;
mod laws;
mod names;
mod reader;
mod sealing;
mod sizes;
mod writer;

pub use crate::buffer::{PacketBytesWriter, SSHBuffer};
pub use crate::cipher::{OpeningKey, SealingKey};
pub use crate::error::OpenError;
pub use crate::keys::{CipherPair, OpenKey, SealKey};
pub use crate::laws::{
    front_sound, front_stays, front_whole, never_memory, one_packet, one_reading, opens_again,
    padding_fills, pair_opens, plain_reading, reads_by_type, reads_what_was_written, states_agree,
};
pub use crate::names::{cipher_names, compression_names};
pub use crate::reader::{Incoming, PacketReader};
pub use crate::writer::PacketWriter;
