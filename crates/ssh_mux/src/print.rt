//! The texts of a run of channels.

ghost use Rattle.std.specs.Prelude.{◌≡◌, ◌++◌, IfOk, IfErr, OnOk};
ghost use Rattle.ssh_wire.specs.declared.error.Error.TheVariants.{Memory};
ghost use Rattle.ssh_mux.specs.Printing.{channel_lines, channels_text, flow_line, head_line, mux_fault_word, other_word, run_fault_line, run_fault_word, state_word};

use crate::fault::RunFault;
use crate::report::{ChannelReport, Flow};
use ssh_channels::MuxFault;
use ssh_lines::{
    name_of_side, push_decimal, push_error, push_hex, push_named, push_numbered, push_text,
};
use ssh_wire::{Error, put_u8};
use std::alloc::Global;

/// Three lines for each channel: `channel SIDE N M STATE`, with the opener, its number, the other side's number or `-`,
/// and `open`, `refused` or `closed`; then `to other HEX read N` and `to opener HEX read N`, with the bytes that came
/// and how many of them were read. Memory where there is no room for it.
pub fn print_channels(alloc: Global, channels: &[ChannelReport]) -> Result<Vec<u8>, Error>
    ensures text { IfOk result (λ text. text.items ≡ channels_text channels.now) }
    ensures err { IfErr result (λ e. e ≡ Memory) }
{
    let mut out = Vec::new(alloc);
    for channel in channels {
        push_channel(&mut out, channel)?;
    }
    Ok(out)
}

/// The lines of a channel.
fn push_channel(out: &mut Vec<u8>, channel: &ChannelReport) -> Result<(), Error>
    ensures ok { OnOk result (out.new.items ≡ out.old.items ++ channel_lines channel.now) }
    ensures err { IfErr result (λ e. e ≡ Memory) }
{
    push_head(out, channel)?;
    push_flow(out, b"other", &channel.to_other)?;
    push_flow(out, b"opener", &channel.to_opener)
}

/// The first line of a channel.
fn push_head(out: &mut Vec<u8>, channel: &ChannelReport) -> Result<(), Error>
    ensures ok { OnOk result (out.new.items ≡ out.old.items ++ head_line channel.now) }
    ensures err { IfErr result (λ e. e ≡ Memory) }
{
    push_named(out, b"channel ", name_of_side(channel.opener))?;
    push_numbered(out, b" ", u64::from(channel.opener_number))?;
    push_text(out, b" ")?;
    push_other(out, channel.other_number)?;
    push_named(out, b" ", name_of_state(channel))?;
    put_u8(out, b'\n')
}

/// The number on the other side.
fn push_other(out: &mut Vec<u8>, number: Option<u32>) -> Result<(), Error>
    ensures ok { OnOk result (out.new.items ≡ out.old.items ++ other_word number) }
    ensures err { IfErr result (λ e. e ≡ Memory) }
{
    match number {
        Some(number) => push_decimal(out, u64::from(number)),
        None => push_text(out, b"-"),
    }
}

/// `closed`, `refused` or `open`.
fn name_of_state(channel: &ChannelReport) -> &'static [u8]
    ensures { result.now ≡ state_word channel.now.refused channel.now.closed }
{
    if channel.refused {
        b"refused"
    } else if channel.closed {
        b"closed"
    } else {
        b"open"
    }
}

/// The line of one direction.
fn push_flow(out: &mut Vec<u8>, name: &[u8], flow: &Flow) -> Result<(), Error>
    ensures ok { OnOk result (out.new.items ≡ out.old.items ++ flow_line name.now flow.now) }
    ensures err { IfErr result (λ e. e ≡ Memory) }
{
    push_named(out, b"to ", name)?;
    push_text(out, b" ")?;
    push_hex(out, flow.received.as_slice())?;
    push_numbered(out, b" read ", flow.read)?;
    put_u8(out, b'\n')
}

/// The line of a refused run: `refused Config`, `refused Unknown N`, `refused Ended N`, `refused Full`, or `refused
/// Link` and the error. Memory where there is no room for it.
pub fn print_run_fault(alloc: Global, fault: &RunFault) -> Result<Vec<u8>, Error>
    ensures text { IfOk result (λ text. text.items ≡ run_fault_line fault.now) }
    ensures err { IfErr result (λ e. e ≡ Memory) }
{
    let mut out = Vec::new(alloc);
    push_text(&mut out, b"refused ")?;
    push_run_fault(&mut out, fault)?;
    put_u8(&mut out, b'\n')?;
    Ok(out)
}

/// The name of a refusal, and what it carries.
fn push_run_fault(out: &mut Vec<u8>, fault: &RunFault) -> Result<(), Error>
    ensures ok { OnOk result (out.new.items ≡ out.old.items ++ run_fault_word fault.now) }
    ensures err { IfErr result (λ e. e ≡ Memory) }
{
    match fault {
        RunFault::Config => push_text(out, b"Config"),
        RunFault::Mux(fault) => push_mux_fault(out, fault),
        RunFault::Link(error) => {
            push_text(out, b"Link ")?;
            push_error(out, error)
        }
    }
}

/// The name of a refusal, and what it carries.
fn push_mux_fault(out: &mut Vec<u8>, fault: &MuxFault) -> Result<(), Error>
    ensures ok { OnOk result (out.new.items ≡ out.old.items ++ mux_fault_word fault.now) }
    ensures err { IfErr result (λ e. e ≡ Memory) }
{
    match fault {
        MuxFault::Encoding(_) => push_text(out, b"Encoding"),
        MuxFault::Unexpected { channel, .. } => {
            push_numbered(out, b"Unexpected ", u64::from(*channel))
        }
        MuxFault::Window { channel, .. } => push_numbered(out, b"Window ", u64::from(*channel)),
        MuxFault::Unknown(channel) => push_numbered(out, b"Unknown ", u64::from(*channel)),
        MuxFault::Ended(channel) => push_numbered(out, b"Ended ", u64::from(*channel)),
        MuxFault::Full => push_text(out, b"Full"),
        MuxFault::Memory => push_text(out, b"Memory"),
    }
}
