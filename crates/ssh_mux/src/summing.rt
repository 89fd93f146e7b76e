//! The report of a run, from both sides and the link.

ghost use Rattle.std.specs.Prelude.{◌≡◌, ◌++◌, ◌==◌, ◌&&◌, not, IfErr, IfOk, OnOk};
ghost use Rattle.std.specs.Option.{option_map};
ghost use Rattle.ssh_mux.specs.Breaking.{IsNoMessageFault};
ghost use Rattle.ssh_mux.specs.Summing.{all_channels, both_flows, channel_of, channels_from, flows_of, granted_channel, granted_number, is_refused_in, is_shut, lone_flows, next_number, one_channel, refusal_in, refusals_in, submitted_by_step, flow_between};
ghost use Rattle.ssh_mux.specs.Running.{IsLinkFault, TellsRun, on_link};
ghost use Rattle.ssh_mux.specs.Stopping.{IsNoDisconnect, IsWanting};

use crate::fault::RunFault;
use crate::pair::Pair;
use crate::report::{ChannelReport, Flow, MuxReport};
use ssh_channels::{Channel, End, MuxFault, Phase};
use ssh_rules::link::{LinkReport, Step};
use ssh_run::Link;
use ssh_wire::{Payload, Side};
use std::alloc::{AllocError, Global};

/// The report of a run. Memory.
pub(crate) fn report_of(alloc: Global, link: Link<'_>, pair: &Pair) -> Result<MuxReport, RunFault>
    ensures tells { IfOk result (TellsRun (on_link pair.now link.entry)) }
    ensures want { IfErr result IsLinkFault }
    ensures unbroken { IfErr result IsNoMessageFault }
    ensures ends { IfErr result IsNoDisconnect }
    ensures wants { IfErr result IsWanting }
{
    match link.report() {
        Ok((steps, report)) => with_channels(alloc, steps, report, pair),
        Err(error) => Err(RunFault::Link(error)),
    }
}

/// The report with the channels of both sides.
fn with_channels(
    alloc: Global,
    steps: Vec<Step>,
    link: LinkReport,
    pair: &Pair,
) -> Result<MuxReport, RunFault>
    ensures channels { IfOk result (λ report. report.channels.items ≡ all_channels pair.now.client.mux.side.channels
        pair.now.server.mux.side.channels report.steps.items) }
    ensures steps { IfOk result (λ report. report.steps.items ≡ steps.items) }
    ensures link { IfOk result (λ report. report.link ≡ link) }
    ensures want { IfErr result IsLinkFault }
    ensures unbroken { IfErr result IsNoMessageFault }
    ensures ends { IfErr result IsNoDisconnect }
    ensures wants { IfErr result IsWanting }
{
    match channels_of(alloc, steps.as_slice(), pair) {
        Ok(channels) => Ok(MuxReport {
            channels,
            steps,
            link,
        }),
        Err(_) => Err(RunFault::Mux(MuxFault::Memory)),
    }
}

/// The channels of both sides, the client's first.
fn channels_of(alloc: Global, steps: &[Step], pair: &Pair) -> Result<Vec<ChannelReport>, AllocError>
    ensures { IfOk result (λ channels. channels.items ≡ all_channels pair.now.client.mux.side.channels
        pair.now.server.mux.side.channels steps.now) }
{
    let client = pair.client.mux.channels();
    let server = pair.server.mux.channels();
    let by_server = refusals(alloc, Side::Server, steps)?;
    let by_client = refusals(alloc, Side::Client, steps)?;
    let mut out = Vec::new(alloc);
    push_channels(&mut out, Side::Client, client, server, by_server.as_slice())?;
    push_channels(&mut out, Side::Server, server, client, by_client.as_slice())?;
    Ok(out)
}

/// The numbers of the channels that a side submitted refusals of.
fn refusals(alloc: Global, of: Side, steps: &[Step]) -> Result<Vec<u32>, AllocError>
    ensures { IfOk result (λ numbers. numbers.items ≡ refusals_in of steps.now) }
{
    let mut numbers = Vec::new(alloc);
    for step in steps {
        push_refusal(&mut numbers, of, step)?;
    }
    Ok(numbers)
}

/// Adds the number of the channel that a step refuses, if it is such a step of this side.
fn push_refusal(numbers: &mut Vec<u32>, of: Side, step: &Step) -> Result<(), AllocError>
    ensures { OnOk result (numbers.new.items ≡ numbers.old.items ++ refusal_in (submitted_by_step of step.now)) }
{
    match submitted(step, of) {
        [92, a, b, c, d, ..] => {
            numbers.push(u32::from_be_bytes([*a, *b, *c, *d]))?;
            Ok(())
        }
        _ => Ok(()),
    }
}

/// What a step submits of this side; nothing where it is no such step.
fn submitted(step: &Step, of: Side) -> &[u8]
    ensures { result.now ≡ submitted_by_step of step.now }
{
    match step {
        Step::Submit(side, payload) => { if *side == of { payload.as_slice() } else { &[] } }
        Step::Deliver(_, _) | Step::Rekey(_) | Step::Settle => &[],
    }
}

/// Adds the channels that a side asked for.
fn push_channels(
    out: &mut Vec<ChannelReport>,
    opener: Side,
    openers: &[Channel],
    others: &[Channel],
    refusals: &[u32],
) -> Result<(), AllocError>
    ensures { OnOk result (out.new.items ≡ out.old.items
        ++ channels_from opener 0 openers.now others.now refusals.now) }
{
    let mut number: u32 = 0;
    for channel in openers {
        let place = Place { opener, number };
        push_channel(out, place, channel, others, refusals)?;
        number = number.saturating_add(1);
    }
    Ok(())
}

/// A channel's number on the side that asked for it.
#[derive(Clone, Copy)]
struct Place {
    opener: Side,
    number: u32,
}

/// Adds a channel, if the side asked for it.
fn push_channel(
    out: &mut Vec<ChannelReport>,
    place: Place,
    channel: &Channel,
    others: &[Channel],
    refusals: &[u32],
) -> Result<(), AllocError>
    ensures { OnOk result (out.new.items ≡ out.old.items
        ++ one_channel place.opener place.number channel.now others.now refusals.now) }
{
    if !channel.is_started() {
        return Ok(());
    }
    let alloc = *out.allocator();
    let report = channel_report(alloc, place, channel.end(), others, refusals)?;
    out.push(report)?;
    Ok(())
}

/// The report of a channel.
fn channel_report(
    alloc: Global,
    place: Place,
    own: &End,
    others: &[Channel],
    refusals: &[u32],
) -> Result<ChannelReport, AllocError>
    ensures { IfOk result (λ report. report ≡ channel_of place.opener place.number own.now others.now refusals.now) }
{
    let granted = granted_number(others, place.number);
    let flows = flows_of(alloc, own, granted_channel(others, granted))?;
    Ok(ChannelReport {
        opener: place.opener,
        opener_number: place.number,
        other_number: granted,
        refused: is_refused(refusals, place.number),
        closed: flows.closed,
        to_other: flows.to_other,
        to_opener: flows.to_opener,
    })
}

/// Whether a channel is among those that were refused.
fn is_refused(refusals: &[u32], number: u32) -> bool
    ensures { result ≡ is_refused_in refusals.now number }
{
    refusals.iter().any(|n| *n == number)
}

/// The number of the channel that grants the opening with this number.
fn granted_number(others: &[Channel], opening: u32) -> Option<u32>
    ensures { result ≡ granted_number 0 others.now opening }
{
    let mut number: u32 = 0;
    for channel in others {
        if grants(channel, opening) {
            return Some(number);
        }
        number = number.saturating_add(1);
    }
    None
}

/// Whether a channel grants the opening with this number.
fn grants(channel: &Channel, opening: u32) -> bool
    ensures { result ≡ (not channel.now.started && (channel.now.peer == opening)) }
{
    !channel.is_started() && channel.peer() == opening
}

/// The channel with this number.
fn granted_channel(others: &[Channel], number: Option<u32>) -> Option<&Channel>
    ensures { option_map (λ c. c.now) result ≡ granted_channel others.now number }
{
    match number {
        Some(number) => others.get(number as usize),
        None => None,
    }
}

/// Both directions of a channel, and whether both ends closed it.
#[derive(Drop)]
pub struct Flows {
    closed: bool,
    to_other: Flow,
    to_opener: Flow,
}

/// What went from and to an end, with the other one where there is one.
fn flows_of(alloc: Global, own: &End, other: Option<&Channel>) -> Result<Flows, AllocError>
    ensures { IfOk result (λ flows. flows ≡ flows_of own.now (option_map (λ c. c.now) other.entry)) }
{
    match other {
        Some(channel) => both_flows(alloc, own, channel.end()),
        None => lone_flows(alloc, own),
    }
}

/// What went between both ends.
fn both_flows(alloc: Global, own: &End, other: &End) -> Result<Flows, AllocError>
    ensures { IfOk result (λ flows. flows ≡ both_flows own.now other.now) }
{
    let to_other = flow_between(alloc, own, other)?;
    let to_opener = flow_between(alloc, other, own)?;
    Ok(Flows {
        closed: is_shut(own.said) && is_shut(other.said),
        to_other,
        to_opener,
    })
}

/// What went from one end to another.
fn flow_between(alloc: Global, writer: &End, reader: &End) -> Result<Flow, AllocError>
    ensures { IfOk result (λ flow. flow ≡ flow_between writer.now reader.now) }
{
    Ok(Flow {
        written: copy_of(alloc, writer.written.as_slice())?,
        received: copy_of(alloc, reader.received.as_slice())?,
        read: reader.read,
        window: reader.window,
        ended: reader.ended,
    })
}

/// What went from and to an end alone.
fn lone_flows(alloc: Global, own: &End) -> Result<Flows, AllocError>
    ensures { IfOk result (λ flows. flows ≡ lone_flows own.now) }
{
    let written = copy_of(alloc, own.written.as_slice())?;
    let received = copy_of(alloc, own.received.as_slice())?;
    Ok(Flows {
        closed: false,
        to_other: Flow {
            written,
            received: Payload::new(Vec::new(alloc)),
            read: 0,
            window: 0,
            ended: false,
        },
        to_opener: Flow {
            written: Payload::new(Vec::new(alloc)),
            received,
            read: own.read,
            window: own.window,
            ended: own.ended,
        },
    })
}

/// A payload of the same bytes.
fn copy_of(alloc: Global, bytes: &[u8]) -> Result<Payload, AllocError>
    ensures { IfOk result (λ p. p ≡ bytes.now) }
{
    let mut items = Vec::new(alloc);
    items.extend_from_slice(bytes)?;
    Ok(Payload::new(items))
}

/// Whether an end closed its channel.
fn is_shut(said: Phase) -> bool
    ensures { result ≡ is_shut said }
{
    matches!(said, Phase::Shut)
}
