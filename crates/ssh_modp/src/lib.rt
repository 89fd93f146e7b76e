//! Real parts for a transport to be handed: key agreement in finite fields, with the groups of RFC 3526, and RSA host
//! keys, which are read from files; and the preferences that fit them.
#![tactic(auto)]

mod agreement;
mod counts;
mod field;
mod groups;
mod hosts;
mod key_files;
mod preferred;
mod primes;
mod rsa;

pub use crate::agreement::FieldAgreement;
pub use crate::groups::ModpGroups;
pub use crate::hosts::{RsaHosts, RsaKey};
pub use crate::key_files::{known_blob, private_key};
pub use crate::preferred::preferred_for;
