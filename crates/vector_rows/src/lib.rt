//! What the programs share that compare rows of values with what the crates' public calls answer: the loop over the
//! rows, a row's words, what is found by them, preferences and KEXINITs that it gives, a value that is lent to a call,
//! and a generator that hands out given bytes.
#![tactic(auto)]

mod lending;
pub mod preferences;
mod row;
mod suite;
mod words;

pub use crate::lending::{lent, lent_ok};
pub use crate::row::{Fault, Found, Row};
pub use crate::suite::{Answers, check};
pub use crate::words::{Words, words_of};
