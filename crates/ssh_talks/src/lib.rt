//! All channels of two sides over an honest carrier: each is a talk of two ends, so what is proved of one channel
//! holds of each of them.
#![tactic(auto)]

mod laws;

pub use crate::laws::{
    asking_adds, channels_are_talks, channels_come, channels_end, channels_finish, channels_flow,
    hearing_lowers, no_packet_refused, no_payload_refused,
};
