//! What all other crates of the transport stand on: errors, small byte types, encodings, version
//! lines, and the traits of the outside.
#![tactic(auto)]

mod algorithm;
mod borrowed_names;
mod bytes;
mod channel_id;
mod disconnect;
mod encoding;
mod error;
mod fields;
mod from_source;
mod laws;
mod limited;
mod limits;
mod line;
mod message_numbers;
pub mod msg;
mod name_list;
mod open_failure;
mod open_handle;
mod outside;
mod read_id;
mod reader;
mod send_error;
mod side;
mod signal;
mod ssh_id;
mod ssh_read;
mod strict_order;

pub use crate::algorithm::{Algorithm, EcdsaCurve, HashAlg};
pub use crate::borrowed_names::BorrowedNames;
pub use crate::bytes::{Blob, Payload, PayloadList, Text};
pub use crate::channel_id::ChannelId;
pub use crate::disconnect::Disconnect;
pub use crate::encoding::{encode_mpint, mpint_parts, put_string, put_u8, put_u32};
pub use crate::error::{AlgorithmKind, ConfigFault, EncodingFault, Error, IdError};
pub use crate::laws::{
    equal_mpints, fed_more, fed_twice, id_stays, joined_read, joined_utf8, less_than_a_line,
    mpint_number, one_mpint, read_spelled,
};
pub use crate::limited::LimitedString;
pub use crate::limits::Limits;
pub use crate::line::without_last_cr;
pub use crate::message_numbers::{authentication_numbers, connection_numbers, transport_numbers};
pub use crate::name_list::{NameList, first_name, name_len, put_name};
pub use crate::open_failure::ChannelOpenFailure;
pub use crate::open_handle::ChannelOpenHandleInner;
pub use crate::outside::{Failed, Sink, Source, write_all};
pub use crate::read_id::{IdProgress, ReadSshIdBuffer};
pub use crate::reader::Reader;
pub use crate::send_error::SendError;
pub use crate::side::Side;
pub use crate::signal::Sig;
pub use crate::ssh_id::SshId;
pub use crate::ssh_read::SshRead;
pub use crate::strict_order::{
    is_kex_msg, validate_client_msg_strict_kex, validate_server_msg_strict_kex,
};
