//! Version lines as they are sent (RFC 4253 section 4.2).

ghost use Rattle.std.specs.Prelude.{◌≡◌, ◌++◌, ◌+◌, ◌≤◌, length, vec_len, vec_capacity, OnOk, OnErr, IfErr, IsOk};
ghost use Rattle.ssh_wire.specs.Lines.{is_line_end, without_line_ends};
ghost use Rattle.ssh_wire.specs.declared.error.Error.TheVariants.{Memory};

use crate::bytes::Text;
use crate::error::Error;

/// The version line of one side.
#[derive(Debug, Drop)]
pub enum SshId {
    /// A text, to be sent with CR LF behind it.
    Standard(Text),
    /// A text that has its line ending already.
    Raw(Text),
}

const LINE_ENDING: &[u8] = b"\r\n";

impl SshId {
    ghost use Rattle.ssh_wire.specs.Lines.{id_line, id_text};

    /// The text that the exchange hash takes: without the line's ending (RFC 4253 section 8).
    pub fn as_kex_hash_bytes(&self) -> &[u8]
        ensures { result.now ≡ id_text self.now }
    {
        match self {
            SshId::Standard(text) => text.as_str().as_bytes(),
            SshId::Raw(text) => without_line_ends(text.as_str().as_bytes()),
        }
    }

    /// Appends the line with its ending. Memory leaves `out` as it was.
    pub fn write(&self, out: &mut Vec<u8>) -> Result<(), Error>
        ensures ok { OnOk result (out.new.items ≡ out.old.items ++ id_line self.now) }
        ensures unchanged { OnErr result (out.new.items ≡ out.old.items) }
        ensures err { IfErr result (λ e. e ≡ Memory) }
        ensures ready { vec_len out.old + length (id_line self.now) ≤ vec_capacity out.old → IsOk result }
        ensures capacity { vec_capacity out.old ≤ vec_capacity out.new }
    {
        match self {
            SshId::Standard(text) => {
                let text = text.as_str().as_bytes();
                out.reserve(text.len() + LINE_ENDING.len())?;
                out.extend_from_slice(text)?;
                out.extend_from_slice(LINE_ENDING)?;
            }
            SshId::Raw(text) => out.extend_from_slice(text.as_str().as_bytes())?,
        }
        Ok(())
    }
}

/// The bytes without all CR and LF at their end.
fn without_line_ends(text: &[u8]) -> &[u8]
    ensures { result.now ≡ without_line_ends text.now }
{
    let mut rest = text;
    while let Some((last, front)) = rest.split_last() {
        if !ends_line(*last) {
            return rest;
        }
        rest = front;
    }
    rest
}

fn ends_line(b: u8) -> bool
    ensures { result ≡ is_line_end b }
{
    b == b'\r' || b == b'\n'
}
