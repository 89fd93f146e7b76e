//! Scripts and what is printed: lines, words and fields, whatever a program's forms are, and texts, numbers, bytes and
//! refusals.
#![tactic(auto)]

mod fields;
mod line_fault;
mod lines;
mod print;
mod refusal;
mod script;
mod words;

pub use crate::fields::{hex_bytes, number, one_side, side, side_and_bytes, side_and_number, size};
pub use crate::line_fault::LineFault;
pub use crate::lines::{LONGEST_SCRIPT, LineForms, take_script};
pub use crate::print::{push_decimal, push_hex, push_named, push_names, push_numbered, push_text};
pub use crate::refusal::{name_of_side, print_fault, print_refusal, push_error};
pub use crate::script::{ScriptError, ScriptFault, ScriptKind};
pub use crate::words::{Words, cut};
