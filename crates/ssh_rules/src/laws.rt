//! Laws of the rules, for proofs above to cite. Each holds of what the handed-in parts say by their members.

ghost use Rattle.ssh_rules.specs.AttackLaws.{SameDelivered};
ghost use Rattle.ssh_rules.specs.Laws.{RecordsAgree};
ghost use Rattle.ssh_rules.specs.LinkCauses.{AnyRefusals, NoneRefusedInLink, RefusalsHaveCauses};
ghost use Rattle.ssh_rules.specs.Refused.{HostTrusted, NothingRefused, PartsRefuseAlone};
ghost use Rattle.ssh_rules.specs.RefusedTurn.{OnlyMessagesRefused};
ghost use Rattle.ssh_rules.specs.RunLaws.{EachRun, HonestLink, KeyedRun, NoViolation, RestedRun, SignedRun};
ghost use Rattle.ssh_rules.specs.Valid.{HasSizes};

use ssh_kex::{Agreement, Config, GroupLookup, HostKeys};

/// The sizes of a configuration's groups are below 2^32, as their type says.
pub fn sizes_are_u32(config: &Config)
    ensures { HasSizes config.now }
{
    let _least = config.gex.min_group_size;
    let _wanted = config.gex.preferred_group_size;
    let _most = config.gex.max_group_size;
}

/// From the same messages both sides of a link make the same record, where the agreements of both and the server's
/// lookup are lawful.
pub fn records_agree<A: Agreement, H: HostKeys, G: GroupLookup>()
    ensures { RecordsAgree A.Agreement H.HostKeys G.GroupLookup }
{}

/// Each run of a side, whatever it is fed and whatever its parts are, has its wire in blocks, the exchanges that it
/// read, and no epoch in which a number, a nonce or a counter block comes twice.
pub fn each_run<A: Agreement, H: HostKeys, G: GroupLookup>()
    ensures { EachRun A.Agreement H.HostKeys G.GroupLookup }
{}

/// A run that leaves nothing to do and nothing whole to read has handled all that can be opened, and is prompt.
pub fn rested_run<A: Agreement, H: HostKeys, G: GroupLookup>()
    ensures { RestedRun A.Agreement H.HostKeys G.GroupLookup }
{}

/// Where a side's agreement is lawful, the hash and the keys that it records are those of one agreed secret.
pub fn keyed_run<A: Agreement, H: HostKeys, G: GroupLookup>()
    ensures { KeyedRun A.Agreement H.HostKeys G.GroupLookup }
{}

/// What a client records was signed by a host that it trusts, whatever the parts are.
pub fn signed_run<A: Agreement, H: HostKeys, G: GroupLookup>()
    ensures { SignedRun A.Agreement H.HostKeys G.GroupLookup }
{}

/// What a loop over the steps of a link keeps is all of what its report says, where the agreements of both and the
/// server's lookup are lawful.
pub fn honest_link<A: Agreement, H: HostKeys, G: GroupLookup>()
    ensures { HonestLink A.Agreement H.HostKeys G.GroupLookup }
{}

/// Over an honest carrier a reader without a record never meets a violation of the strict order, whatever the parts
/// are.
pub fn no_violation<A: Agreement, H: HostKeys, G: GroupLookup>()
    ensures { NoViolation A.Agreement H.HostKeys G.GroupLookup }
{}

/// Where the parts of both sides are lawful, what they decide is all that is refused of the next message of an honest
/// peer, and want of memory.
pub fn parts_refuse_alone<A: Agreement, H: HostKeys, G: GroupLookup>()
    ensures { PartsRefuseAlone A.Agreement H.HostKeys G.GroupLookup }
{}

/// Where they are obliging, and offer the name that is chosen, nothing is refused of it but for want of memory.
pub fn nothing_refused<A: Agreement, H: HostKeys, G: GroupLookup>()
    ensures { NothingRefused A.Agreement H.HostKeys G.GroupLookup }
{}

/// When the last message of an exchange comes, the host that the client has accepted is one that the server presents,
/// and obliging host keys trust it.
pub fn host_trusted<A: Agreement, H: HostKeys, G: GroupLookup>()
    ensures { HostTrusted A.Agreement H.HostKeys G.GroupLookup }
{}

/// Where the agreements of both sides and the server's lookup are lawful, a message of an exchange is all that is
/// refused of a piece of an honest peer's wire, and want of memory.
pub fn only_messages_refused<A: Agreement, H: HostKeys, G: GroupLookup>()
    ensures { OnlyMessagesRefused A.Agreement H.HostKeys G.GroupLookup }
{}

/// Where the parts of both sides are lawful, each refusal of a piece of an honest peer's wire has its cause: the lists
/// of both configurations, what the side's agreement offers, the group of the client's sizes, or a part that doesn't
/// oblige and counted a refusal.
pub fn refusals_have_causes<A: Agreement, H: HostKeys, G: GroupLookup>()
    ensures { RefusalsHaveCauses A.Agreement H.HostKeys G.GroupLookup }
{}

/// Where they are obliging, the configurations valid and the chosen key exchange offered, nothing of it is refused but
/// for want of memory.
pub fn none_refused_in_link<A: Agreement, H: HostKeys, G: GroupLookup>()
    ensures { NoneRefusedInLink A.Agreement H.HostKeys G.GroupLookup }
{}

/// Of an honest peer's wire no version line is refused, nothing is out of the strict order, and host keys refuse only
/// where their own count rose, whatever the parts are.
pub fn any_refusals<A: Agreement, H: HostKeys, G: GroupLookup>()
    ensures { AnyRefusals A.Agreement H.HostKeys G.GroupLookup }
{}

/// What a side of an attacked run delivers is told by the bytes that it was fed and the exchanges that it recorded,
/// however the bytes are cut, where no packet that it could open was refused.
pub fn same_delivered<A: Agreement, H: HostKeys>()
    ensures { SameDelivered A.lawful A.agrees H.accepts H.trusts }
{}
