//! What tests are made of: a source and a sink in memory, of which chosen calls fail, and parts to hand in, with the
//! seed of their generator. Nothing of the parts is secure.
#![tactic(auto)]

mod agreement;
mod counts;
mod groups;
mod hashing;
mod hosts;
mod laws;
mod memory;
mod refusing;
mod seed;

pub use crate::agreement::TestAgreement;
pub use crate::groups::TestGroups;
pub use crate::hosts::{TestHosts, TrustedHost};
pub use crate::laws::hosts_trusted;
pub use crate::memory::{MemorySink, MemorySource};
pub use crate::refusing::Refusing;
pub use crate::seed::seed_bytes;
