//! The fields of a script's line: what one word says.

ghost use Rattle.std.specs.Prelude.{◌≡◌, IfErr, IfOk, Some};
ghost use Rattle.std.specs.Option.{option_map};
ghost use Rattle.std.specs.Char.{is_ascii_digit};
ghost use Rattle.std.specs.List.{list_all};
ghost use Rattle.ssh_lines.specs.Fields.{from_word, hex_of, is_number, number_of, side_bytes, side_number, side_of, size_of};
ghost use Rattle.ssh_lines.specs.LineFaults.{AreWrong};

use crate::line_fault::LineFault;
use crate::words::Words;
use hex::FromHexError;
use ssh_wire::Side;
use std::alloc::{AllocError, Global};
use std::str;

const CLIENT: &[u8] = b"client";

const SERVER: &[u8] = b"server";

const NO_BYTES: &[u8] = b"-";

/// The largest size of a group, in bits.
const LARGEST_SIZE: u64 = 65536;

/// SIDE: `client` or `server`.
pub fn side(word: &[u8]) -> Option<Side>
    ensures { result ≡ side_of word.now }
{
    if word == CLIENT {
        Some(Side::Client)
    } else if word == SERVER {
        Some(Side::Server)
    } else {
        None
    }
}

/// HEX: an even number of hex digits of either case, or `-` for no bytes.
pub fn hex_bytes(alloc: Global, word: &[u8]) -> Result<Option<Vec<u8>>, AllocError>
    ensures { IfOk result (λ bytes. option_map (λ v. v.items) bytes ≡ hex_of word.now) }
{
    if word == NO_BYTES {
        return Ok(Some(Vec::new(alloc)));
    }
    match hex::decode(alloc, word) {
        Ok(bytes) => Ok(Some(bytes)),
        Err(FromHexError::OutOfMemory) => Err(AllocError),
        Err(_) => Ok(None),
    }
}

/// N: decimal digits without a leading zero, of a number below 2^64.
pub fn number(word: &[u8]) -> Option<u64>
    ensures { result ≡ number_of word.now }
{
    if !is_number(word) {
        return None;
    }
    str::from_utf8(word).ok()?.parse::<u64>().ok()
}

/// N, at most 65536.
pub fn size(word: &[u8]) -> Option<u32>
    ensures { result ≡ size_of word.now }
{
    let n = number(word)?;
    if LARGEST_SIZE < n {
        return None;
    }
    Some(n as u32)
}

fn is_number(word: &[u8]) -> bool
    ensures { result ≡ is_number word.now }
{
    match word {
        [] => false,
        [first, ..] => all_digits(word) && (word.len() == 1 || *first != b'0'),
    }
}

fn all_digits(word: &[u8]) -> bool
    ensures { result ≡ list_all is_ascii_digit word.now }
{
    word.iter().all(|b| b.is_ascii_digit())
}

/// SIDE HEX
pub fn side_and_bytes(alloc: Global, mut words: Words) -> Result<(Side, Vec<u8>), LineFault>
    ensures ok { IfOk result (λ made. side_bytes words.entry ≡ Some (made.0, made.1.items)) }
    ensures fault { IfErr result (AreWrong (side_bytes words.entry)) }
{
    let (Some(side_word), Some(hex_word), None) = (words.take(), words.take(), words.take()) else {
        return Err(LineFault::Malformed);
    };
    let Some(side) = side(side_word) else {
        return Err(LineFault::Malformed);
    };
    let Some(bytes) = hex_bytes(alloc, hex_word)? else {
        return Err(LineFault::Malformed);
    };
    Ok((side, bytes))
}

/// SIDE
pub fn one_side(mut words: Words) -> Result<Side, LineFault>
    ensures ok { IfOk result (λ made. from_word side_of words.entry ≡ Some made) }
    ensures fault { IfErr result (AreWrong (from_word side_of words.entry)) }
{
    let (Some(side_word), None) = (words.take(), words.take()) else {
        return Err(LineFault::Malformed);
    };
    side(side_word).ok_or(LineFault::Malformed)
}

/// SIDE N
pub fn side_and_number(mut words: Words) -> Result<(Side, u64), LineFault>
    ensures ok { IfOk result (λ made. side_number words.entry ≡ Some made) }
    ensures fault { IfErr result (AreWrong (side_number words.entry)) }
{
    let (Some(side_word), Some(count_word), None) = (words.take(), words.take(), words.take())
    else {
        return Err(LineFault::Malformed);
    };
    let (Some(side), Some(count)) = (side(side_word), number(count_word)) else {
        return Err(LineFault::Malformed);
    };
    Ok((side, count))
}
