//! What the program answers, and how it ends.

ghost use Rattle.std.specs.Prelude.{◌≡◌, ◌≤◌, [], ◌++◌, IfOk, IfErr};
ghost use Rattle.ssh_program.specs.Statuses.{script_faulty};
ghost use Rattle.ssh_link.specs.Program.{answer_text, answer_status, Shows};
ghost use Rattle.ssh_wire.specs.declared.error.Error.TheVariants.{Memory};

use ssh_program::{REPORT_WRITTEN, RUN_REFUSED, SCRIPT_FAULTY};
use ssh_rules::link::{AttackReport, LinkReport};
use ssh_script::{
    ClearReport, ScriptFault, print_attack, print_clear, print_fault, print_refusal, print_report,
    print_summary,
};
use ssh_wire::Error;
use std::alloc::Global;

/// What the program answers.
#[derive(Debug, Drop)]
pub enum Answer {
    /// The script breaks its grammar.
    Faulty(ScriptFault),
    /// The run was refused.
    Refused(Error),
    /// The run of a clear link went to its end.
    Ran(ClearReport),
    /// The run of a link went to its end.
    RanLink(LinkReport),
    /// The run of a link by generated steps went to its end.
    RanGen(LinkReport),
    /// The run of two sides that were fed any bytes went to its end.
    RanAttack(AttackReport),
}

/// How a call of the program ended.
#[derive(Debug, Drop)]
pub struct MainEnd {
    /// The exit status, one of `status`: 0 the report is written, 1 the run was refused, 2 the words are no
    /// command, 3 the script is faulty, 4 the source failed, 5 the sink failed, 6 want of memory.
    pub status: u8,
    /// The report of a clear link, where its run went to its end.
    pub clear: Option<ClearReport>,
    /// The report of a link, by a script or by generated steps, where its run went to its end.
    pub report: Option<LinkReport>,
    /// The report of two sides that were fed any bytes, where their run went to its end.
    pub attack: Option<AttackReport>,
    /// Why the run was refused.
    pub refused: Option<Error>,
    /// How the script breaks its grammar.
    pub fault: Option<ScriptFault>,
}

impl MainEnd {
    /// An end with what was answered, if anything was.
    pub fn with(answer: Option<Answer>, status: u8) -> MainEnd
        ensures status { result.status ≡ status }
        ensures shown { Shows answer result }
    {
        let mut end = MainEnd {
            status,
            clear: None,
            report: None,
            attack: None,
            refused: None,
            fault: None,
        };
        match answer {
            None => {}
            Some(Answer::Faulty(fault)) => end.fault = Some(fault),
            Some(Answer::Refused(error)) => end.refused = Some(error),
            Some(Answer::Ran(report)) => end.clear = Some(report),
            Some(Answer::RanLink(report) | Answer::RanGen(report)) => end.report = Some(report),
            Some(Answer::RanAttack(report)) => end.attack = Some(report),
        }
        end
    }
}

impl Answer {
    /// The exit status, once all is written.
    pub fn status(&self) -> u8
        ensures status { result ≡ answer_status self.now }
        ensures within { result ≤ script_faulty }
    {
        match self {
            Answer::Faulty(_) => SCRIPT_FAULTY,
            Answer::Refused(_) => RUN_REFUSED,
            Answer::Ran(_) | Answer::RanLink(_) | Answer::RanGen(_) | Answer::RanAttack(_) => {
                REPORT_WRITTEN
            }
        }
    }

    /// The text that is written. Memory where there is no room for it.
    pub fn text(&self, alloc: Global) -> Result<Vec<u8>, Error>
        ensures text { IfOk result (λ text. text.items ≡ answer_text self.now) }
        ensures err { IfErr result (λ e. e ≡ Memory) }
    {
        match self {
            Answer::Faulty(fault) => print_fault(alloc, *fault),
            Answer::Refused(error) => print_refusal(alloc, error),
            Answer::Ran(report) => print_clear(alloc, report),
            Answer::RanLink(report) => print_report(alloc, report),
            Answer::RanGen(report) => print_summary(alloc, report),
            Answer::RanAttack(report) => print_attack(alloc, report),
        }
    }
}
