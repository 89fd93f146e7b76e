//! What is told beside the talk: a line for each exchange that was finished, and one for the end.

ghost use Rattle.std.specs.Prelude.{[], ◌≡◌, ◌≤◌, ◌+◌, ◌++◌, ◌∷◌, drop, length, IfErr, IfOk, OnErr, OnOk};
ghost use Rattle.std.specs.List.{flat_map};
ghost use Rattle.ssh_wire.specs.declared.error.Error.TheVariants.{Memory};
ghost use Rattle.ssh_pipe.specs.declared.end.TalkEnd.TheVariants.{Refused};
ghost use Rattle.ssh_pipe.specs.Notes.{IsTold, TellsLines, noted, end_note, end_words, escaped, escaped_byte, exchange_note, exchange_notes, exchange_words, is_shown};

use crate::end::TalkEnd;
use ssh_kex::FinishedExchange;
use ssh_lines::{push_error, push_hex, push_numbered, push_text};
use ssh_negotiate::Names;
use ssh_transport::Transport;
use ssh_wire::{Error, Sink, put_u8, write_all};
use std::alloc::Global;

/// Reports the exchanges after the first `told`, and returns how many are reported then. If the sink fails, a prefix of a
/// line was written. If there is no memory for a line, it is left out.
pub(crate) fn tell_exchanges<N: Sink>(
    alloc: Global,
    transport: &Transport<'_>,
    told: usize,
    notes: &mut N,
) -> usize
    ensures lines { TellsLines (exchange_notes (told + 1) (drop told transport.now.state.records))
        (noted (N.held notes.old) (N.faults notes.old)) (noted (N.held notes.new) (N.faults notes.new)) }
    ensures count { told ≤ length transport.now.state.records → result ≡ length transport.now.state.records }
{
    let mut count = told;
    while count < transport.finished() {
        count += 1;
        write_note(
            exchange_line(alloc, count, transport.exchange(count)),
            notes,
        );
    }
    count
}

/// Tells a line, where there is one.
fn write_note<N: Sink>(line: Result<Vec<u8>, Error>, notes: &mut N)
    ensures told { IfOk line (λ text. IsTold text.items (noted (N.held notes.old) (N.faults notes.old))
        (noted (N.held notes.new) (N.faults notes.new))) }
    ensures none { OnErr line (notes.new ≡ notes.old) }
{
    if let Ok(line) = line {
        tell(line.as_slice(), notes);
    }
}

/// The line of an exchange: its number, and what was negotiated. Fails with `Memory`.
fn exchange_line(alloc: Global, k: usize, exchange: &FinishedExchange) -> Result<Vec<u8>, Error>
    ensures line { IfOk result (λ text. text.items ≡ exchange_note k exchange.now) }
    ensures err { IfErr result (λ e. e ≡ Memory) }
{
    let mut out = Vec::new(alloc);
    push_numbered(&mut out, b"sshpipe: exchange ", k as u64)?;
    push_names(&mut out, &exchange.names)?;
    put_u8(&mut out, b'\n')?;
    Ok(out)
}

/// What was negotiated, each word behind a space: key exchange, host key, cipher, both MACs, and whether it is strict.
fn push_names(out: &mut Vec<u8>, names: &Names) -> Result<(), Error>
    ensures ok { OnOk result (out.new.items ≡ out.old.items
        ++ flat_map (λ word. 32 ∷ word) (exchange_words names.now)) }
    ensures err { IfErr result (λ e. e ≡ Memory) }
{
    push_word(out, names.kex.as_str())?;
    push_word(out, names.key.as_str())?;
    push_word(out, names.cipher.as_str())?;
    push_word(out, names.client_mac.as_str())?;
    push_word(out, names.server_mac.as_str())?;
    push_word(out, if names.strict_kex { "strict" } else { "plain" })
}

/// A space and a word.
fn push_word(out: &mut Vec<u8>, word: &str) -> Result<(), Error>
    ensures ok { OnOk result (out.new.items ≡ out.old.items ++ (32 ∷ word.now)) }
    ensures err { IfErr result (λ e. e ≡ Memory) }
{
    put_u8(out, b' ')?;
    push_text(out, word.as_bytes())
}

/// Tells how the talk ended.
pub(crate) fn tell_end<N: Sink>(alloc: Global, end: &TalkEnd, notes: &mut N)
    ensures { TellsLines (end_note end.now ∷ []) (noted (N.held notes.old) (N.faults notes.old))
        (noted (N.held notes.new) (N.faults notes.new)) }
{
    write_note(end_line(alloc, end), notes);
}

/// The line of an end. Fails with `Memory`.
fn end_line(alloc: Global, end: &TalkEnd) -> Result<Vec<u8>, Error>
    ensures line { IfOk result (λ text. text.items ≡ end_note end.now) }
    ensures err { IfErr result (λ e. e ≡ Memory) }
{
    let mut out = Vec::new(alloc);
    push_text(&mut out, b"sshpipe: ")?;
    push_end(&mut out, end)?;
    put_u8(&mut out, b'\n')?;
    Ok(out)
}

/// Why the talk ended.
fn push_end(out: &mut Vec<u8>, end: &TalkEnd) -> Result<(), Error>
    ensures ok { OnOk result (out.new.items ≡ out.old.items ++ end_words end.now) }
    ensures err { IfErr result (λ e. e ≡ Memory) }
{
    match end {
        TalkEnd::InputEnded => push_text(out, b"the input has ended"),
        TalkEnd::Disconnected => push_text(out, b"the other side has disconnected"),
        TalkEnd::Granted => push_text(out, b"the service is granted"),
        TalkEnd::Refused(error) => push_refused(out, error),
        TalkEnd::NotServed => push_text(out, b"the service isn't offered"),
        TalkEnd::SourceFailed => push_text(out, b"reading failed"),
        TalkEnd::SinkFailed => push_text(out, b"writing failed"),
        TalkEnd::Exhausted => push_text(out, b"too many pieces were read"),
    }
}

/// The error for which the session was ended. It may have names from the peer in it.
fn push_refused(out: &mut Vec<u8>, error: &Error) -> Result<(), Error>
    ensures ok { OnOk result (out.new.items ≡ out.old.items ++ end_words (Refused error.now)) }
    ensures err { IfErr result (λ e. e ≡ Memory) }
{
    let mut text = Vec::new(*out.allocator());
    push_error(&mut text, error)?;
    push_text(out, b"refused ")?;
    push_escaped(out, text.as_slice())
}

/// A text, so that no byte of it controls the terminal that shows it.
fn push_escaped(out: &mut Vec<u8>, text: &[u8]) -> Result<(), Error>
    ensures ok { OnOk result (out.new.items ≡ out.old.items ++ escaped text.now) }
    ensures err { IfErr result (λ e. e ≡ Memory) }
{
    for byte in text {
        push_escaped_byte(out, *byte)?;
    }
    Ok(())
}

/// The byte as it is, or `\xHH`.
fn push_escaped_byte(out: &mut Vec<u8>, byte: u8) -> Result<(), Error>
    ensures ok { OnOk result (out.new.items ≡ out.old.items ++ escaped_byte byte) }
    ensures err { IfErr result (λ e. e ≡ Memory) }
{
    if is_shown(byte) {
        return put_u8(out, byte);
    }
    push_text(out, b"\\x")?;
    push_hex(out, &[byte])
}

/// Whether a byte is shown as it is: printable ASCII, except for the backslash.
fn is_shown(byte: u8) -> bool
    ensures { result ≡ is_shown byte }
{
    (b' '..=b'~').contains(&byte) && byte != b'\\'
}

/// Writes a text, or a prefix of it if the sink fails.
pub(crate) fn tell<N: Sink>(text: &[u8], notes: &mut N)
    ensures { IsTold text.now (noted (N.held notes.old) (N.faults notes.old))
        (noted (N.held notes.new) (N.faults notes.new)) }
{
    match write_all(notes, text) {
        Ok(()) | Err(_) => {}
    }
}
