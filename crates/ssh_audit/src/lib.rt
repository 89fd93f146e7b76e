//! The auditor of recorded links: scripts of records, what is answered to them, and the program's top call.
#![tactic(auto)]

mod answer;
mod audit_program;
mod print;
mod program;
mod script;

pub use crate::answer::AuditAnswer;
pub use crate::audit_program::{AuditCommand, AuditProgram};
pub use crate::print::{print_audit, print_audit_fault};
pub use crate::program::{AuditMain, audit_main, exit_code};
pub use crate::script::{AuditForms, AuditScript, parse_audit};
pub use ssh_program::{StdSink, StdSource, Word};
