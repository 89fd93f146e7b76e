//! One end of a channel.

ghost use Rattle.std.specs.Prelude.{◌≡◌, ◌≤◌, ◌<◌, ◌^◌, ◌+◌, ◌-◌, ◌++◌, List, ℕ, length, min, OnOk, true, if◌then◌else◌, take, drop, nat_le, nat_lt, ◌&&◌, ◌||◌};
ghost use Rattle.ssh_channels.specs.Ends.{IsSound, after_close, after_eof, all_gone, closes_now, ends_now, has_ended, fresh, taken, tells};
ghost use Rattle.ssh_channels.specs.Phases.{Silent, Talking, is_live, may_send, is_refused};
ghost use Rattle.ssh_channels.specs.Pumping.{PumpsData, Pumps};
ghost use Rattle.ssh_channels.specs.Texts.{eof_texts, close_texts};

use crate::stored::Stored;
use crate::text::{close_text, data_text, eof_text};
use ssh_wire::Payload;
use std::alloc::{AllocError, Global};

/// The most bytes of data in one message.
const LONGEST_DATA: u64 = 32768;

/// How far one side has come in what it says of a channel.
#[derive(Clone, Copy, Debug, PartialEq, Eq)]
pub enum Phase {
    /// It said nothing.
    Silent,
    /// It asked for the channel or granted it.
    Talking,
    /// It said that no data follows.
    Ended,
    /// It closed the channel.
    Shut,
    /// It refused the channel.
    Failed,
}

/// One end: what it said and heard of the channel, and what was written to it and received by it. Numbers of bytes but
/// for `most` and `largest`, which are of bytes in one message.
#[derive(Debug, Drop)]
pub struct End {
    /// What it tells of itself.
    pub window: u32,
    pub most: u32,
    pub said: Phase,
    pub heard: Phase,
    pub written: Stored,
    /// How much of it went out.
    pub gone: u64,
    /// How much may go out.
    pub granted: u64,
    pub largest: u32,
    pub eof_called: bool,
    pub close_called: bool,
    pub received: Stored,
    /// How much of it was read.
    pub read: u64,
    /// How much that was read was told to the other end.
    pub told: u64,
    /// No data follows.
    pub ended: bool,
}

/// An end that tells this of itself, and of which nothing else is known.
#[tactic(auto, using(crate::proofs::Sound::sound_fresh))]
pub(crate) fn fresh(alloc: Global, window: u32, most: u32, said: Phase) -> End
    ensures end { result ≡ fresh window most said }
    ensures sound { IsSound result }
{
    End {
        window,
        most,
        said,
        heard: Phase::Silent,
        written: Stored::new(alloc),
        gone: 0,
        granted: 0,
        largest: 0,
        eof_called: false,
        close_called: false,
        received: Stored::new(alloc),
        read: 0,
        told: 0,
        ended: false,
    }
}

/// Whether a side still speaks of the channel.
pub(crate) fn is_live(phase: Phase) -> bool
    ensures { result ≡ is_live phase }
{
    match phase {
        Phase::Talking | Phase::Ended => true,
        Phase::Silent | Phase::Shut | Phase::Failed => false,
    }
}

/// Whether a side may still say data.
pub(crate) fn may_send(phase: Phase) -> bool
    ensures { result ≡ may_send phase }
{
    match phase {
        Phase::Talking => true,
        Phase::Silent | Phase::Ended | Phase::Shut | Phase::Failed => false,
    }
}

/// Whether the other side closed the channel or refused it.
pub(crate) fn is_refused(phase: Phase) -> bool
    ensures { result ≡ is_refused phase }
{
    match phase {
        Phase::Shut | Phase::Failed => true,
        Phase::Silent | Phase::Talking | Phase::Ended => false,
    }
}

/// Whether no more may be written.
pub(crate) fn has_ended(end: &End) -> bool
    ensures { result ≡ has_ended end.now }
{
    end.eof_called || end.close_called || is_refused(end.heard)
}

/// How many bytes may still come.
pub(crate) fn window_left(end: &End) -> u32
    requires { IsSound end.now }
    ensures value { result ≡ (end.now.window + end.now.told) - length end.now.received }
{
    let size = end.received.size();
    (u64::from(end.window) + end.told).saturating_sub(size) as u32
}

/// How many bytes a read of at most `n` takes.
pub(crate) fn taken(end: &End, n: u64) -> u64
    requires { IsSound end.now }
    ensures value { result ≡ taken end.now n }
    ensures within { end.now.read + result ≤ length end.now.received }
    ensures small { end.now.read + result < 2 ^ 63 }
    ensures few { result < 2 ^ 32 }
{
    let _window = end.window;
    n.min(end.received.size() - end.read)
}

/// Whether so many bytes more would let 2^32 or more be sent.
pub(crate) fn grants_too_much(end: &End, count: u32) -> bool
    requires { IsSound end.now }
    ensures { result ≡ nat_le (2 ^ 32) ((end.now.granted - end.now.gone) + count) }
{
    end.granted - end.gone + u64::from(count) >= 1 << 32
}

/// Adds bytes to what is written.
#[tactic(auto, using(crate::proofs::Sound::sound_written))]
pub(crate) fn add_written(end: &mut End, bytes: &[u8]) -> Result<(), AllocError>
    requires { IsSound end.old }
    ensures sound { IsSound end.new }
    ensures ok { OnOk result (end.new ≡ record end.old { written = end.old.written ++ bytes.now }) }
{
    end.written.append(bytes)?;
    Ok(())
}

/// No more is written.
#[tactic(auto, using(crate::proofs::Sound::sound_eof))]
pub(crate) fn call_eof(end: &mut End)
    requires { IsSound end.old }
    ensures sound { IsSound end.new }
    ensures end { end.new ≡ record end.old { eof_called = true } }
{
    end.eof_called = true;
}

/// It is closed behind what is written.
#[tactic(auto, using(crate::proofs::Sound::sound_close))]
pub(crate) fn call_close(end: &mut End)
    requires { IsSound end.old }
    ensures sound { IsSound end.new }
    ensures end { end.new ≡ record end.old { close_called = true } }
{
    end.close_called = true;
}

/// So many bytes more are read, and so many of all are told of.
#[tactic(auto, using(crate::proofs::Sound::sound_read))]
pub(crate) fn mark_read(end: &mut End, count: u64, told: u64)
    requires sound { IsSound end.old }
    requires all { end.old.read + count ≤ length end.old.received }
    requires later { end.old.told ≤ told }
    requires less { told ≤ end.old.read + count }
    ensures sound { IsSound end.new }
    ensures end { end.new ≡ record end.old { read = end.old.read + count; told = told } }
{
    let _size = end.received.size();
    end.read += count;
    end.told = told;
}

/// How many bytes are told of behind a read of so many.
pub(crate) fn told_behind(end: &End, count: u64, tells: bool) -> u64
    requires sound { IsSound end.now }
    requires all { end.now.read + count ≤ length end.now.received }
    ensures told { result ≡ (if tells then end.now.told + count else end.now.told) }
    ensures later { end.now.told ≤ result }
    ensures less { result ≤ end.now.read + count }
{
    let _size = end.received.size();
    if tells { end.told + count } else { end.told }
}

/// The other end takes so many bytes, and so many in one message.
#[tactic(auto, using(crate::proofs::Sound::sound_granted))]
pub(crate) fn be_granted(end: &mut End, window: u32, largest: u32)
    requires sound { IsSound end.old }
    requires silent { end.old.heard ≡ Silent }
    ensures sound { IsSound end.new }
    ensures end { end.new ≡ record end.old { heard = Talking; granted = window; largest = largest } }
{
    end.heard = Phase::Talking;
    end.granted = u64::from(window);
    end.largest = largest;
}

/// So many bytes more may go out.
#[tactic(auto, using(crate::proofs::Sound::sound_adjusted))]
pub(crate) fn adjust_by(end: &mut End, count: u32)
    requires sound { IsSound end.old }
    requires few { (end.old.granted - end.old.gone) + count < 2 ^ 32 }
    requires heard { end.old.heard ≡ Silent → ⊥ }
    ensures sound { IsSound end.new }
    ensures end { end.new ≡ record end.old { granted = end.old.granted + count } }
{
    end.granted += u64::from(count);
}

/// Bytes came.
#[tactic(auto, using(crate::proofs::Sound::sound_received))]
pub(crate) fn add_received(end: &mut End, bytes: &[u8]) -> Result<(), AllocError>
    requires sound { IsSound end.old }
    requires fits { length bytes.now ≤ (end.old.window + end.old.told) - length end.old.received }
    ensures sound { IsSound end.new }
    ensures ok { OnOk result (end.new ≡ record end.old { received = end.old.received ++ bytes.now }) }
{
    end.received.append(bytes)?;
    Ok(())
}

/// The other side said this.
#[tactic(auto, using(crate::proofs::Sound::sound_heard))]
pub(crate) fn mark_heard(end: &mut End, heard: Phase, ended: bool)
    requires sound { IsSound end.old }
    requires heard { heard ≡ Silent → ⊥ }
    ensures sound { IsSound end.new }
    ensures end { end.new ≡ record end.old { heard = heard; ended = ended } }
{
    end.heard = heard;
    end.ended = ended;
}

/// The side said this.
#[tactic(auto, using(crate::proofs::Sound::sound_said))]
pub(crate) fn mark_said(end: &mut End, said: Phase)
    requires { IsSound end.old }
    ensures sound { IsSound end.new }
    ensures end { end.new ≡ record end.old { said = said } }
{
    end.said = said;
}

/// Sends what may go out: data, then the end of data and the close where they are due.
pub(crate) fn pump(
    alloc: Global,
    peer: u32,
    end: &mut End,
    out: &mut Vec<Payload>,
) -> Result<(), AllocError>
    requires { IsSound end.old }
    ensures sound { IsSound end.new }
    ensures ok { OnOk result (Pumps peer end.old out.old.items end.new out.new.items) }
{
    send_data(alloc, peer, end, out)?;
    send_eof(alloc, peer, end, out)?;
    send_close(alloc, peer, end, out)
}

/// Says that no data follows, where that is due.
fn send_eof(
    alloc: Global,
    peer: u32,
    end: &mut End,
    out: &mut Vec<Payload>,
) -> Result<(), AllocError>
    requires { IsSound end.old }
    ensures sound { IsSound end.new }
    ensures end { OnOk result (end.new ≡ after_eof end.old) }
    ensures out { OnOk result (out.new.items ≡ out.old.items ++ eof_texts peer end.old) }
{
    if !ends_now(end) {
        return Ok(());
    }
    out.push(eof_text(alloc, peer)?)?;
    mark_said(end, Phase::Ended);
    Ok(())
}

/// Closes the channel, where that is due.
fn send_close(
    alloc: Global,
    peer: u32,
    end: &mut End,
    out: &mut Vec<Payload>,
) -> Result<(), AllocError>
    requires { IsSound end.old }
    ensures sound { IsSound end.new }
    ensures end { OnOk result (end.new ≡ after_close end.old) }
    ensures out { OnOk result (out.new.items ≡ out.old.items ++ close_texts peer end.old) }
{
    if !closes_now(end) {
        return Ok(());
    }
    out.push(close_text(alloc, peer)?)?;
    mark_said(end, Phase::Shut);
    Ok(())
}

fn ends_now(end: &End) -> bool
    ensures { result ≡ ends_now end.now }
{
    may_send(end.said) && is_live(end.heard) && end.eof_called && all_gone(end)
}

fn closes_now(end: &End) -> bool
    ensures { result ≡ closes_now end.now }
{
    is_live(end.said) && is_live(end.heard) && end.close_called && all_gone(end)
}

fn all_gone(end: &End) -> bool
    ensures { result ≡ all_gone end.now }
{
    end.written.size() <= end.gone
}

/// Sends data, until the window or the bytes are used up.
fn send_data(
    alloc: Global,
    peer: u32,
    end: &mut End,
    out: &mut Vec<Payload>,
) -> Result<(), AllocError>
    requires { IsSound end.old }
    ensures sound { IsSound end.new }
    ensures ok { OnOk result (PumpsData peer end.old out.old.items end.new out.new.items) }
{
    if !may_send(end.said) || !is_live(end.heard) || end.largest == 0 {
        return Ok(());
    }
    let until = end.granted.min(end.written.size());
    let most = LONGEST_DATA.min(u64::from(end.largest));
    while end.gone < until {
        let next = end.gone + most.min(until - end.gone);
        let piece = &end.written.as_slice()[end.gone as usize..next as usize];
        out.push(data_text(alloc, peer, piece)?)?;
        end.gone = next;
    }
    Ok(())
}
