//! Services and extension info: the messages of RFC 4253 section 10 and RFC 8308, and the machine that answers them.
#![tactic(auto)]

mod answer;
mod info;
mod laws;
mod message;
mod name;
mod name_set;
mod print;
mod program;
mod script;
mod service_program;
mod services;
mod serving;

pub use crate::answer::ServiceAnswer;
pub use crate::info::{ExtInfo, Extension, server_sig_algs};
pub use crate::laws::{accepted_once, first_accepted, one_payload, spelled_read};
pub use crate::message::ServiceMessage;
pub use crate::name::ServiceName;
pub use crate::print::print_answers;
pub use crate::program::{ServiceMain, exit_code, service_main};
pub use crate::script::{ServiceScript, parse_service};
pub use crate::service_program::{ScriptAnswer, ServiceCommand, ServiceProgram};
pub use crate::services::Services;
pub use crate::serving::serve;
pub use ssh_program::{StdSink, StdSource, Word};
