//! What the program answers.

ghost use Rattle.std.specs.Prelude.{◌≡◌};
ghost use Rattle.ssh_mux.specs.Program.{ShowsMux};

use crate::fault::RunFault;
use crate::report::{MuxEnd, MuxReport};
use ssh_lines::ScriptFault;

/// What the program answers.
#[derive(Debug, Drop)]
pub enum MuxAnswer {
    /// The script breaks its grammar.
    Faulty(ScriptFault),
    /// The run was refused.
    Refused(MuxEnd),
    /// It went to its end.
    Ran(MuxReport),
}

/// How a call of the program ended.
#[derive(Debug, Drop)]
pub struct MuxMain {
    /// The exit status: 0 the report is written, 1 the run was refused, 2 the words are no command, 3 the script is
    /// faulty, 4 the source failed, 5 the sink failed, 6 want of memory.
    pub status: u8,
    /// The run's report.
    pub report: Option<MuxReport>,
    /// Why the run was refused.
    pub refused: Option<RunFault>,
    /// What the steps before did, where a side refused a call.
    pub before: Option<MuxReport>,
    /// How the script breaks its grammar.
    pub fault: Option<ScriptFault>,
}

impl MuxMain {
    /// An end with what was answered, if anything was.
    pub fn with(answer: Option<MuxAnswer>, status: u8) -> MuxMain
        ensures status { result.status ≡ status }
        ensures shown { ShowsMux answer result }
    {
        match answer {
            None => MuxMain {
                status,
                report: None,
                refused: None,
                before: None,
                fault: None,
            },
            Some(MuxAnswer::Faulty(fault)) => MuxMain {
                status,
                report: None,
                refused: None,
                before: None,
                fault: Some(fault),
            },
            Some(MuxAnswer::Refused(end)) => MuxMain {
                status,
                report: None,
                refused: Some(end.fault),
                before: end.before,
                fault: None,
            },
            Some(MuxAnswer::Ran(report)) => MuxMain {
                status,
                report: Some(report),
                refused: None,
                before: None,
                fault: None,
            },
        }
    }
}
