//! Reading a script whole.

ghost use Rattle.std.specs.Prelude.{◌≡◌, ◌≢◌, ◌++◌, ◌+◌, ◌<◌, ◌≤◌, ℕ, List, length, vec_len, Err, IfOk, IfErr};
ghost use Rattle.ssh_wire.specs.Outside.{Rose, Appends, TakesFront, TakesAtMost, ReachesEnd, AppendsFront};
ghost use Rattle.ssh_program.specs.Programs.{longest_script};
ghost use Rattle.ssh_program.specs.declared.stream.ReadError.TheVariants.{Memory, Failed as ReadFailed};

use ssh_wire::{Failed, Source};
use std::alloc::{AllocError, Global};

/// The most that is read of a script, in bytes: one more than a script may have.
pub const LONGEST_READ: usize = 67108865;

/// How many bytes are read at once.
const PIECE: usize = 65536;

/// Why a script couldn't be read.
#[derive(Clone, Copy, Debug, PartialEq, Eq, Hash)]
pub enum ReadError {
    /// The source failed, and has counted it.
    Failed,
    Memory,
}

impl From<Failed> for ReadError {
    ghost use Rattle.std.specs.Prelude.{◌≡◌};
    ghost use Rattle.ssh_program.specs.declared.stream.ReadError.TheVariants as error;

    ghost from_gives = { λ _ e. e ≡ error.Failed };

    fn from(_value: Failed) -> ReadError {
        ReadError::Failed
    }
}

impl From<AllocError> for ReadError {
    ghost use Rattle.std.specs.Prelude.{◌≡◌};
    ghost use Rattle.ssh_program.specs.declared.stream.ReadError.TheVariants as error;

    ghost from_gives = { λ _ e. e ≡ error.Memory };

    fn from(_value: AllocError) -> ReadError {
        ReadError::Memory
    }
}

/// Reads to the end, or until 67108865 bytes came. After an error the bytes that were taken are gone.
pub fn read_source<S: Source>(alloc: Global, source: &mut S) -> Result<Vec<u8>, ReadError>
    ensures text { IfOk result (λ text. TakesFront text.items (S.left source.old) (S.left source.new)) }
    ensures whole { IfOk result (λ text. vec_len text < longest_script + 1 → ReachesEnd (S.left source.old)
        (S.left source.new)) }
    ensures limit { IfOk result (λ text. vec_len text ≤ longest_script + 1) }
    ensures bounded { TakesAtMost (longest_script + 1) (S.left source.old) (S.left source.new) }
    ensures failed { IfErr result (λ e. e ≡ ReadFailed → Rose (S.faults source.old) (S.faults source.new)) }
    ensures unfailed { result ≢ Err ReadFailed → S.faults source.new ≡ S.faults source.old }
    ensures count { S.faults source.old ≤ S.faults source.new }
{
    let mut buffer = zeros(alloc, PIECE)?;
    let mut text = Vec::new(alloc);
    while text.len() < LONGEST_READ {
        let room = PIECE.min(LONGEST_READ - text.len());
        if read_piece(source, &mut buffer[..room], &mut text)? == 0 {
            break;
        }
    }
    Ok(text)
}

fn zeros(alloc: Global, len: usize) -> Result<Vec<u8>, AllocError>
    ensures { IfOk result (λ zeros. vec_len zeros ≡ len) }
{
    Ok(vec![in alloc; 0; len]?)
}

/// Reads once, into the buffer, and appends what came; it answers how many bytes.
fn read_piece<S: Source>(
    source: &mut S,
    buffer: &mut [u8],
    text: &mut Vec<u8>,
) -> Result<usize, ReadError>
    ensures more { IfOk result (λ n. (piece : List ℕ) × (length piece ≡ n) × (text.new.items ≡ text.old.items ++ piece)
        × TakesFront piece (S.left source.old) (S.left source.new)) }
    ensures within { IfOk result (λ n. n ≤ length buffer.old) }
    ensures end { IfOk result (λ n. n ≡ 0 → 0 < length buffer.old → ReachesEnd (S.left source.old)
        (S.left source.new)) }
    ensures bounded { TakesAtMost (length buffer.old) (S.left source.old) (S.left source.new) }
    ensures failed { IfErr result (λ e. e ≡ ReadFailed → Rose (S.faults source.old) (S.faults source.new)) }
    ensures unfailed { result ≢ Err ReadFailed → S.faults source.new ≡ S.faults source.old }
    ensures count { S.faults source.old ≤ S.faults source.new }
{
    let n = source.read(buffer)?;
    text.extend_from_slice(&buffer[..n])?;
    Ok(n)
}
