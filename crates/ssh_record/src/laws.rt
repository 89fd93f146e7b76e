//! Laws of audits, for callers and proofs above to cite.

ghost use Rattle.ssh_record.specs.Laws.{EachHasOneAnswer};
ghost use Rattle.ssh_record.specs.Links.{LinkHasNoFault, LinkIsShown};

use ssh_kex::Agreement;

/// A record has one answer.
#[tactic(auto, using(crate::proofs::OneAnswer::one_answer))]
pub fn one_answer()
    ensures { EachHasOneAnswer }
{}

/// A record that is taken of a link, with the secrets on which its agreements agreed, has no fault.
#[tactic(auto, using(crate::proofs::LinkAccepted::link_no_fault))]
pub fn link_has_no_fault<A: Agreement>()
    ensures { LinkHasNoFault A.client_makes A.server_makes A.agrees }
{}

/// What is told of it is what the link's report tells.
pub fn link_is_shown<A: Agreement>()
    ensures { LinkIsShown A.client_makes A.server_makes A.agrees }
{}
