//! Callers of the library whose contracts rest on its public clauses alone: examples of what a caller can prove.
#![tactic(auto)]

mod agreeing;
mod attacked;
mod ciphers;
mod drawn_group;
mod encapsulating;
mod given_part;
mod granted;
mod known_hosts;
mod listed;
mod moduli;
mod one_key;
mod own_part;
mod real_parts;
mod running;
mod sealing;
mod settled;
mod streams;
mod two_sides;

pub use crate::agreeing::{Secrets, agree, agree_in_group};
pub use crate::attacked::attack_twice;
pub use crate::ciphers::ciphers_of_both;
pub use crate::drawn_group::DrawnGroup;
pub use crate::encapsulating::MaskedAgreement;
pub use crate::given_part::{GivenAgreement, GivenGroups, GivenHosts};
pub use crate::granted::{Granted, ask_for_service};
pub use crate::known_hosts::KnownHosts;
pub use crate::listed::{ListedAgreement, ListedGroups, found_group_taken};
pub use crate::one_key::{OneKey, one_key_presented};
pub use crate::own_part::OneGroup;
pub use crate::real_parts::run_real_link;
pub use crate::running::{own_tag_accepted, there_and_back};
pub use crate::sealing::{carry, carry_three};
pub use crate::settled::settled_delivers;
pub use crate::streams::read_stream;
pub use crate::two_sides::hand_over;
