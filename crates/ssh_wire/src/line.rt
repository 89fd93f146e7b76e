//! The bytes of one line (RFC 4253 section 4.2).

ghost use Rattle.std.specs.Prelude.{◌≡◌, ◌≤◌, ◌<◌, ◌+◌, IfSome, length, is_some, take};
ghost use Rattle.ssh_wire.specs.Lines.{lf_end, line_end, without_cr, line_text, is_id_text};

use crate::fields::is_utf8_text;

/// The longest version line with its ending, in bytes (RFC 4253 section 4.2).
pub(crate) const LONGEST_LINE: usize = 255;

/// Behind the first LF of bytes that stand from place `at` on.
pub(crate) fn first_lf_end(at: usize, bytes: &[u8]) -> Option<usize>
    requires { at ≤ LONGEST_LINE }
    ensures end { result ≡ lf_end at bytes.now }
    ensures beyond { IfSome result (λ end. at < end) }
    ensures within { IfSome result (λ end. end ≤ at + length bytes.now) }
{
    for (i, b) in bytes.iter().enumerate() {
        if *b == b'\n' {
            return Some(at + i + 1);
        }
    }
    None
}

/// Behind the first LF that isn't the first byte.
pub(crate) fn first_line_end(bytes: &[u8]) -> Option<usize>
    ensures end { result ≡ line_end bytes.now }
    ensures beyond { IfSome result (λ end. 0 < end) }
    ensures within { IfSome result (λ end. end ≤ length bytes.now) }
{
    let (_, rest) = bytes.split_first()?;
    first_lf_end(1, rest)
}

/// The text of a line without the CR that may stand before its LF. One CR at the end is left out, and
/// none elsewhere.
pub fn without_last_cr(text: &[u8]) -> &[u8]
    ensures { result.now ≡ without_cr text.now }
{
    let len = text.len();
    if len > 0 && text[len - 1] == b'\r' {
        &text[..len - 1]
    } else {
        text
    }
}

/// How long the line's text is, where that is an id's.
pub(crate) fn id_text_len(line: &[u8]) -> Option<usize>
    ensures id { is_some result ≡ is_id_text (line_text line.now) }
    ensures text { IfSome result (λ n. take n line.now ≡ line_text line.now) }
    ensures within { IfSome result (λ n. n ≤ length line.now) }
{
    if line.is_empty() {
        return None;
    }
    let text = without_last_cr(&line[..line.len() - 1]);
    if names_protocol(text) {
        Some(text.len())
    } else {
        None
    }
}

/// Whether the text names the protocol.
fn names_protocol(text: &[u8]) -> bool
    ensures { result ≡ is_id_text text.now }
{
    (text.starts_with(b"SSH-2.0-") || text.starts_with(b"SSH-1.99-")) && is_utf8_text(text)
}
