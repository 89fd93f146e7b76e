//! AES (FIPS 197), counter mode and chaining mode (SP 800-38A), and Galois counter mode (SP
//! 800-38D). None takes memory of its own.
#![tactic(auto)]

mod aes;
mod blocks;
mod cbc;
mod ctr;
mod encryption;
mod factors;
mod gcm;
mod hash;
mod keys;
mod laws;
mod multiples;
mod rounds;
mod runs;
mod stream;
mod tables;
mod vector_tables;
mod vectors;

pub use crate::aes::Aes;
pub use crate::cbc::CbcWrapper;
pub use crate::ctr::CtrWrapper;
pub use crate::gcm::Gcm;
pub use crate::laws::{
    blocks_redone, blocks_undone, closes_well, fronts_kept, gcm_closes_well, gcm_well,
    number_spelled, opens_well, runs_well, streams_undone, twelve_bytes, worked_examples,
};
pub use crate::runs::{BlockStreamCipher, PacketLengthProbe};
