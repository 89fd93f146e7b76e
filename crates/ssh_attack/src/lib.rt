//! A client and a server that are fed any bytes: what each step was answered, and what both did.
#![tactic(auto)]

mod attack;
mod attack_end;
mod attacked;

pub use crate::attack::run_attacked;
pub use crate::attacked::Attacked;
