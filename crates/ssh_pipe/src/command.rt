//! The words that the program is called with.

ghost use Rattle.std.specs.Prelude.{◌≡◌, ◌≤◌, ◌^◌, IfSome, None};
ghost use Rattle.ssh_wire.specs.declared.side.Side.{Side};
ghost use Rattle.ssh_pipe.specs.Commands.{IsLimit, IsPipeCommand, NamesNoCommand, side_word};

use ssh_lines::number;
use ssh_program::Word;
use ssh_wire::Side;

/// The greatest byte limit, which holds where none is given: one gigabyte (RFC 4253 section 9).
const MOST_BYTES: u64 = 1 << 30;

/// What the program is to be.
#[derive(Clone, Copy, Debug)]
pub struct PipeCommand<'w> {
    pub side: Side,
    /// The name of the key's file: a server's private key, or the public key that a client knows.
    pub file: &'w str,
    /// After how many bytes, written or read, keys are exchanged again.
    pub limit: usize,
}

/// The command that has these words: `server` or `client`, the key's file, and a limit from 1 to 2^30, which may be
/// left out.
pub fn command_of<'w>(words: &'w [Word]) -> Option<PipeCommand<'w>>
    ensures some { IfSome result (λ c. 1 ≤ c.limit) }
    ensures most { IfSome result (λ c. c.limit ≤ 2 ^ 30) }
    ensures named { IfSome result (λ c. IsPipeCommand words.now c.side c.file.now c.limit) }
    ensures nothing { result ≡ None → NamesNoCommand words.now }
{
    match words {
        [side, file] => command_with(side, file, MOST_BYTES),
        [side, file, limit] => command_with(side, file, number(limit.as_str().as_bytes())?),
        _ => None,
    }
}

fn command_with<'w>(side: &'w Word, file: &'w Word, limit: u64) -> Option<PipeCommand<'w>>
    ensures limit { IfSome result (λ c. (c.limit ≡ limit) × IsLimit limit) }
    ensures side { IfSome result (λ c. side.now ≡ side_word c.side) }
    ensures file { IfSome result (λ c. c.file.now ≡ file.now) }
    ensures nothing { result ≡ None → IsLimit limit → (s : Side) → side.now ≡ side_word s → ⊥ }
{
    if limit == 0 || limit > MOST_BYTES {
        return None;
    }
    Some(PipeCommand {
        side: side_of(side.as_str())?,
        file: file.as_str(),
        limit: limit as usize,
    })
}

fn side_of(word: &str) -> Option<Side>
    ensures named { IfSome result (λ s. word.now ≡ side_word s) }
    ensures nothing { result ≡ None → (s : Side) → word.now ≡ side_word s → ⊥ }
{
    match word {
        "server" => Some(Side::Server),
        "client" => Some(Side::Client),
        _ => None,
    }
}
