//! Digests, HMAC (RFC 2104) and the message authentication codes of SSH (RFC 4253 section 6.4).
//! No call takes memory.
#![tactic(auto)]

mod digest;
mod hash_value;
mod hmac;
mod keys;
mod laws;
pub mod mac;

pub use crate::digest::{DigestKind, Hasher};
pub use crate::hash_value::HashValue;
pub use crate::hmac::hmac_of;
pub use crate::laws::{
    digests_have_length, own_tag_taken, tags_are_short, tags_have_length, taken_is_tag,
};
