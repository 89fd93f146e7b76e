//! Laws of an exchange, for proofs above to cite.

ghost use Rattle.ssh_kex.specs.Laws.{CanonicalOnce, CiphersMeet, KeysAreWell, MemoryAlone, NoneCounted, RowsExclude};

use crate::parts::{Agreement, GroupLookup, HostKeys};

/// Under the same names and keys each side opens with what the other seals under.
#[tactic(auto, using(crate::proofs::Lemmas::ciphers_meet))]
pub fn ciphers_meet()
    ensures { CiphersMeet }
{}

/// The six keys are bytes, as many as the names want.
pub fn keys_are_well()
    ensures { KeysAreWell }
{}

/// A canonical signature of under 2^32 bytes is its own canonical form.
#[tactic(auto, using(crate::proofs::Lemmas::canonical_once))]
pub fn canonical_once()
    ensures { CanonicalOnce }
{}

/// A row that takes a message and one that refuses it exclude each other, whatever the parts are, but where the parts
/// decide or memory is wanting. That one of both holds is what the `step` of each machine answers.
pub fn rows_exclude<A: Agreement, H: HostKeys, G: GroupLookup>()
    ensures { RowsExclude A.Agreement H.HostKeys G.GroupLookup }
{}

/// Where agreement and host keys are lawful, no part counted a refusal, and the group or the host's blob that the
/// answer carries has at most 65536 bytes a number, want of memory is all that could refuse a message which a row
/// takes.
pub fn memory_alone<A: Agreement, H: HostKeys, G: GroupLookup>()
    ensures { MemoryAlone A.Agreement H.HostKeys G.GroupLookup }
{}
