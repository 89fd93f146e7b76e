//! Laws of runs of channels, for callers and proofs above to cite.

ghost use Rattle.ssh_mux.specs.Doing.{RunsInOrder};
ghost use Rattle.ssh_mux.specs.Honesty.{RunsAreTalks, RunsEnd, RunsFinish, RunsFlow, RunsFlowAlways, RunsSettle};

use ssh_kex::Agreement;

/// In a run from its first step, the link carries out each `Deliver` and each `Rekey` that was given, in order, and a
/// `Settle` once or more. Beside these it only submits. Nothing that a side made is left behind the last step.
pub fn runs_in_order()
    ensures { RunsInOrder }
{}

/// Where the link of a run's report is a link between two sides (as `run_channels` says of lawful parts), both sides
/// are those of a moment of two sides over an honest carrier: what is on the way to a side is what the other made and
/// what it hasn't received.
pub fn runs_are_talks<A: Agreement>()
    ensures { RunsAreTalks A.client_makes A.server_makes A.agrees }
{}

/// So on each channel, both ways, what came is a front of what was written, and no window is passed.
pub fn runs_flow<A: Agreement>()
    ensures { RunsFlow A.client_makes A.server_makes A.agrees }
{}

/// So it is behind each step of such a run, and not only behind the last one: both sides are those of such a moment,
/// and each channel flows so, both ways. No window is passed behind any step.
pub fn runs_flow_always<A: Agreement>()
    ensures { RunsFlowAlways A.client_makes A.server_makes A.agrees }
{}

/// Behind a run whose last step is `Settle` nothing is on the way. On each channel that nobody closed all that was
/// written came, both ways, as far as the reader's window and reads allow.
pub fn runs_settle<A: Agreement>()
    ensures { RunsSettle A.client_makes A.server_makes A.agrees }
{}

/// On each channel an end of data came only where the other end's caller ended it. Where both ends said close, one of
/// both callers closed it.
pub fn runs_end<A: Agreement>()
    ensures { RunsEnd A.client_makes A.server_makes A.agrees }
{}

/// Where the last step of such a run is `Settle`, and all that an end wrote came, its close closed the channel at both
/// ends. Its end of data came, where neither end was closed.
pub fn runs_finish<A: Agreement>()
    ensures { RunsFinish A.client_makes A.server_makes A.agrees }
{}
