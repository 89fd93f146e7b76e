//! What the program `sshaudit` answers to a script.

use ssh_lines::ScriptFault;
use ssh_record::{AuditFault, AuditReport};

/// What is answered to a script.
#[derive(Drop)]
pub enum AuditAnswer {
    /// The script breaks its grammar.
    Faulty(ScriptFault),
    /// The record isn't one of a link.
    Refused(AuditFault),
    /// It is.
    Passed(AuditReport),
}
