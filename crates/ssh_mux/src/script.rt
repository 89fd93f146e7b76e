//! Scripts of channels.

ghost use Rattle.std.specs.Prelude.{◌≡◌, Ok, Some, IfOk, IfErr, OnOk};
ghost use Rattle.std.specs.Option.{option_map};
ghost use Rattle.ssh_lines.specs.Fields.{from_three, from_two, hex_of, number_of, side_and, side_of};
ghost use Rattle.ssh_lines.specs.LineFaults.{AreWrong, IsLineFault, IsRefusal};
ghost use Rattle.ssh_mux.specs.Script.{channel_script, first_mux_plan, read_on, settle_in, small_number_of, step_of, step_of_link, window_behind, window_in, with_window, write_on};

use crate::pair::PairConfig;
use crate::step::ChannelStep;
use ssh_channels::MuxConfig;
use ssh_lines::{
    LineFault, LineForms, ScriptError, Words, hex_bytes, number, one_side, side, side_and_number,
    take_script,
};
use ssh_wire::{Payload, Side};
use std::alloc::Global;

const WINDOW: &[u8] = b"window";

const OPEN: &[u8] = b"open";

const WRITE: &[u8] = b"write";

const READ: &[u8] = b"read";

const EOF: &[u8] = b"eof";

const CLOSE: &[u8] = b"close";

const DELIVER: &[u8] = b"deliver";

const REKEY: &[u8] = b"rekey";

const SETTLE: &[u8] = b"settle";

/// What a side tells of itself where a script says nothing of it.
const DEFAULT_CONFIG: MuxConfig = MuxConfig {
    window: 1048576,
    largest: 32768,
};

/// What a script of channels says.
#[derive(Debug, Drop)]
pub struct MuxScript {
    /// What both sides tell of themselves.
    pub channels: PairConfig,
    /// The steps, in the order of their lines.
    pub steps: Vec<ChannelStep>,
}

/// Reads a script of channels, in one pass over the text, in linear time.
///
/// A line ends in LF, or at the text's end, and a CR before that is left out. Its words stand between
/// spaces. A line without words, or whose first word begins with `#`, says nothing. Before all others stand the lines
/// `window SIDE N N`, with a window and a largest packet, both below 2^32. The others are `open SIDE`,
/// `write SIDE N HEX`, `read SIDE N N`, `eof SIDE N`, `close SIDE N`, `deliver SIDE N`, `rekey SIDE` and `settle`. A
/// channel's number is below 2^32.
///
/// Fault names the first line that is none of these, counted from 1: NotBuilt where its first word is none of the
/// forms', Malformed where the words behind it are wrong, or where a window stands behind a step. A text over 67108864
/// bytes is TooLong, with the line 0, whatever its lines say. Memory where an allocation failed.
pub fn parse_channels(alloc: Global, text: &[u8]) -> Result<MuxScript, ScriptError>
    ensures read { IfOk result (λ script. channel_script text.now ≡ Ok (record {
      channels = script.channels;
      steps = script.steps.items;
    })) }
    ensures fault { IfErr result (λ error. IsRefusal (channel_script text.now) error) }
{
    let mut forms = MuxForms::new(alloc);
    take_script(alloc, &mut forms, text)?;
    Ok(forms.script)
}

/// The forms of channels, with what the lines so far said.
#[derive(Drop)]
pub struct MuxForms {
    script: MuxScript,
}

impl MuxForms {
    /// The forms before the first line.
    pub fn new(alloc: Global) -> MuxForms
        ensures { ⟦<MuxForms as LineForms>⟧.said result ≡ first_mux_plan }
    {
        MuxForms {
            script: MuxScript {
                channels: PairConfig {
                    client: DEFAULT_CONFIG,
                    server: DEFAULT_CONFIG,
                },
                steps: Vec::new(alloc),
            },
        }
    }
}

impl LineForms for MuxForms {
    ghost use Rattle.ssh_mux.specs.Script.{MuxPlan, mux_form};

    ghost Said = { MuxPlan };

    ghost form = { mux_form };

    ghost said = { λ f. record { channels = f.script.channels; steps = f.script.steps.items } };

    ghost holds = { λ _. Unit {0} };

    fn take(&mut self, alloc: Global, word: &[u8], words: Words) -> Result<(), LineFault> {
        if word == WINDOW {
            return set_window(&mut self.script, words);
        }
        self.script.steps.push(channel_step(alloc, word, words)?)?;
        Ok(())
    }
}

/// Takes the words of a window.
fn set_window(script: &mut MuxScript, words: Words) -> Result<(), LineFault>
    ensures ok { OnOk result (window_behind script.old.steps.items (option_map
        (with_window (record { channels = script.old.channels; steps = script.old.steps.items }))
        (window_in words.entry))
        ≡ Some (record { channels = script.new.channels; steps = script.new.steps.items })) }
    ensures fault { IfErr result (AreWrong (window_behind script.old.steps.items (option_map
        (with_window (record { channels = script.old.channels; steps = script.old.steps.items }))
        (window_in words.entry)))) }
{
    if !script.steps.is_empty() {
        return Err(LineFault::Malformed);
    }
    let (side, config) = window_of(words)?;
    match side {
        Side::Client => script.channels.client = config,
        Side::Server => script.channels.server = config,
    }
    Ok(())
}

/// SIDE N N, both below 2^32
fn window_of(mut words: Words) -> Result<(Side, MuxConfig), LineFault>
    ensures ok { IfOk result (λ made. window_in words.entry ≡ Some made) }
    ensures fault { IfErr result (AreWrong (window_in words.entry)) }
{
    let (Some(side_word), Some(window_word), Some(largest_word), None) = (
        words.take(),
        words.take(),
        words.take(),
        words.take(),
    ) else {
        return Err(LineFault::Malformed);
    };
    let (Some(side), Some(window), Some(largest)) = (
        side(side_word),
        small_number(window_word),
        small_number(largest_word),
    ) else {
        return Err(LineFault::Malformed);
    };
    Ok((side, MuxConfig { window, largest }))
}

/// N, below 2^32.
fn small_number(word: &[u8]) -> Option<u32>
    ensures { result ≡ small_number_of word.now }
{
    let n = number(word)?;
    if n >= 1 << 32 {
        return None;
    }
    Some(n as u32)
}

/// The step of a line.
fn channel_step(alloc: Global, word: &[u8], words: Words) -> Result<ChannelStep, LineFault>
    ensures ok { IfOk result (λ made. step_of word.now words.entry ≡ Ok made) }
    ensures fault { IfErr result (IsLineFault (step_of word.now words.entry)) }
{
    if word == OPEN {
        Ok(ChannelStep::Start(one_side(words)?))
    } else if word == WRITE {
        write_step(alloc, words)
    } else if word == READ {
        read_step(words)
    } else if word == EOF {
        let (side, channel) = side_and_channel(words)?;
        Ok(ChannelStep::Eof(side, channel))
    } else if word == CLOSE {
        let (side, channel) = side_and_channel(words)?;
        Ok(ChannelStep::Close(side, channel))
    } else {
        link_step(word, words)
    }
}

/// A step of the link.
fn link_step(word: &[u8], words: Words) -> Result<ChannelStep, LineFault>
    ensures ok { IfOk result (λ made. step_of_link word.now words.entry ≡ Ok made) }
    ensures fault { IfErr result (IsLineFault (step_of_link word.now words.entry)) }
{
    if word == DELIVER {
        let (side, count) = side_and_number(words)?;
        Ok(ChannelStep::Deliver(side, count))
    } else if word == REKEY {
        Ok(ChannelStep::Rekey(one_side(words)?))
    } else if word == SETTLE {
        settle_step(words)
    } else {
        Err(LineFault::NotBuilt)
    }
}

/// No words.
fn settle_step(mut words: Words) -> Result<ChannelStep, LineFault>
    ensures ok { IfOk result (λ made. settle_in words.entry ≡ Some made) }
    ensures fault { IfErr result (AreWrong (settle_in words.entry)) }
{
    match words.take() {
        None => Ok(ChannelStep::Settle),
        Some(_) => Err(LineFault::Malformed),
    }
}

/// SIDE N, the number below 2^32
fn side_and_channel(mut words: Words) -> Result<(Side, u32), LineFault>
    ensures ok { IfOk result (λ made. from_two side_and side_of small_number_of words.entry ≡ Some made) }
    ensures fault { IfErr result (AreWrong (from_two side_and side_of small_number_of words.entry)) }
{
    let (Some(side_word), Some(channel_word), None) = (words.take(), words.take(), words.take())
    else {
        return Err(LineFault::Malformed);
    };
    let (Some(side), Some(channel)) = (side(side_word), small_number(channel_word)) else {
        return Err(LineFault::Malformed);
    };
    Ok((side, channel))
}

/// SIDE N HEX
fn write_step(alloc: Global, mut words: Words) -> Result<ChannelStep, LineFault>
    ensures ok { IfOk result (λ made. from_three write_on side_of small_number_of hex_of words.entry ≡ Some made) }
    ensures fault { IfErr result (AreWrong (from_three write_on side_of small_number_of hex_of words.entry)) }
{
    let (Some(side_word), Some(channel_word), Some(hex_word), None) = (
        words.take(),
        words.take(),
        words.take(),
        words.take(),
    ) else {
        return Err(LineFault::Malformed);
    };
    let (Some(side), Some(channel)) = (side(side_word), small_number(channel_word)) else {
        return Err(LineFault::Malformed);
    };
    let Some(bytes) = hex_bytes(alloc, hex_word)? else {
        return Err(LineFault::Malformed);
    };
    Ok(ChannelStep::Write(side, channel, Payload::new(bytes)))
}

/// SIDE N N, the channel's number below 2^32
fn read_step(mut words: Words) -> Result<ChannelStep, LineFault>
    ensures ok { IfOk result (λ made. from_three read_on side_of small_number_of number_of words.entry ≡ Some made) }
    ensures fault { IfErr result (AreWrong (from_three read_on side_of small_number_of number_of words.entry)) }
{
    let (Some(side_word), Some(channel_word), Some(count_word), None) = (
        words.take(),
        words.take(),
        words.take(),
        words.take(),
    ) else {
        return Err(LineFault::Malformed);
    };
    let (Some(side), Some(channel), Some(count)) = (
        side(side_word),
        small_number(channel_word),
        number(count_word),
    ) else {
        return Err(LineFault::Malformed);
    };
    Ok(ChannelStep::Read(side, channel, count))
}
