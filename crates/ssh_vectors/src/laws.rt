//! What is owed by test host keys, for proofs above to cite.

ghost use Rattle.ssh_vectors.specs.Hosts.{HostsTrusted};

/// Test host keys that trust each configured key, and each configured certificate with its key, are obliging.
#[tactic(auto, using(crate::proofs::Lemmas::hosts_trusted))]
pub fn hosts_trusted()
    ensures { HostsTrusted }
{}
