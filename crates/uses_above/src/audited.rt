//! A link whose record is audited.

ghost use Rattle.std.specs.Prelude.{◌≡◌, map, IfErr, IfOk};
ghost use Rattle.ssh_negotiate.specs.declared.negotiation.Names.{Names as names_of};
ghost use Rattle.ssh_rules.specs.Headline.{IsLink};
ghost use Rattle.ssh_rules.specs.Valid.{HasSizes};
ghost use Rattle.ssh_record.specs.Answers.{HaveNames, judged_record};
ghost use Rattle.ssh_record.specs.Links.{HasSecretsOf, ShowsLink, recording_of};
ghost use Rattle.ssh_record.specs.Runs.{sent_at};
ghost use Rattle.ssh_record.specs.declared.report.AuditEnd.TheVariants.{Memory};

use ssh_judge::audit;
use ssh_kex::{Agreement, Config};
use ssh_record::{AuditEnd, AuditReport, SentPair, Transcript, link_has_no_fault, link_is_shown};
use ssh_rules::link::{LinkReport, Mark, Step};
use ssh_wire::Blob;
use std::alloc::{AllocError, Global};

/// Audits the record of a link that was run by these steps, under the secret of each exchange of keys. Where the report
/// is one of a link, the configurations choose names, and each secret is the one on which both sides agreed, the record
/// has no fault, and the audit shows what the report says. Memory.
pub fn audit_link<A: Agreement>(
    alloc: Global,
    client: &Config,
    server: &Config,
    steps: Vec<Step>,
    report: LinkReport,
    secrets: Vec<Blob>,
) -> Result<AuditReport, AuditEnd>
    ensures shown { (names : names_of) → HaveNames client.now server.now names → HasSizes client.now
        → IsLink A.client_makes A.server_makes A.agrees client.now server.now steps.items report
        → HasSecretsOf A.client_makes A.server_makes A.agrees
        (judged_record client.now server.now (recording_of steps.items report secrets.items) names)
        → IfOk result (ShowsLink report) }
    ensures faultless { (names : names_of) → HaveNames client.now server.now names → HasSizes client.now
        → IsLink A.client_makes A.server_makes A.agrees client.now server.now steps.items report
        → HasSecretsOf A.client_makes A.server_makes A.agrees
        (judged_record client.now server.now (recording_of steps.items report secrets.items) names)
        → IfErr result (λ e. e ≡ Memory) }
{
    link_has_no_fault::<A>();
    link_is_shown::<A>();
    let transcript = record_of(alloc, steps, report, secrets)?;
    audit(alloc, client, server, &transcript)
}

/// The record of a link: its steps, and what each side had sent before the first and behind each. Memory.
fn record_of(
    alloc: Global,
    steps: Vec<Step>,
    report: LinkReport,
    secrets: Vec<Blob>,
) -> Result<Transcript, AllocError>
    ensures { IfOk result (λ t. t ≡ recording_of steps.items report secrets.items) }
{
    let sent = sent_pairs(alloc, report.marks.as_slice())?;
    let LinkReport { client, server, .. } = report;
    Ok(Transcript {
        steps,
        sent,
        secrets,
        client: client.wire,
        server: server.wire,
    })
}

/// How much both sides had sent at each mark. Memory.
fn sent_pairs(alloc: Global, marks: &[Mark]) -> Result<Vec<SentPair>, AllocError>
    ensures { IfOk result (λ pairs. pairs.items ≡ map sent_at marks.now) }
{
    let mut pairs = Vec::with_capacity(alloc, marks.len())?;
    for mark in marks {
        pairs.push(SentPair {
            client: mark.client.sent,
            server: mark.server.sent,
        })?;
    }
    Ok(pairs)
}
