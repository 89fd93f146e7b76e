//! Recorded wires, read whole: their packets opened epoch by epoch, and the exchanges that their blocks and the given
//! secrets make.
#![tactic(auto)]

mod direction;
mod exchange;
mod given;
mod packet;
mod reading;
mod setting;
mod wire;

pub use crate::direction::{Direction, Directions};
pub use crate::exchange::{Made, exchange_made};
pub use crate::given::GivenSecret;
pub use crate::packet::Packet;
pub use crate::reading::{ReadWires, read_wires};
pub use crate::setting::{Setting, setting_for};
pub use crate::wire::WireReader;
