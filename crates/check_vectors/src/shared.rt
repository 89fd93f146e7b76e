//! What the answers of several kinds share: words of a row, and what is appended where it is another than wanted.

use std::alloc::Global;
use std::fmt;
use vector_rows::{Fault, Found, Row};

/// Whether the next word is the first of two, of which it is one.
pub(crate) fn is_first_of(row: &Row<'_>, first: &str, second: &str) -> bool {
    let word = row.word();
    if word != first && word != second {
        row.reject();
    }
    word == first
}

/// The next word as a number below 256.
pub(crate) fn byte(row: &Row<'_>) -> u8 {
    let word = row.word();
    row.expect(word.parse::<u8>().ok(), 0)
}

/// So many letters `a`.
pub(crate) fn letters(alloc: Global, count: usize) -> Result<Vec<u8>, Fault> {
    let mut letters = Vec::new(alloc);
    letters.resize(count, b'a')?;
    Ok(letters)
}

/// Appends the text of a value.
pub(crate) fn say_text<T: fmt::Display>(found: &Found, value: &T) {
    match format!(in found.alloc(); "{value}") {
        Ok(text) => found.say(text.as_str()),
        Err(_) => found.fail(Fault::Memory),
    }
}

/// Appends a word and bytes where they aren't the wanted ones.
pub(crate) fn say_other(found: &Found, word: &str, bytes: &[u8], wanted: &[u8]) {
    if bytes != wanted {
        found.say(word);
        found.say_bytes(bytes);
    }
}

/// Appends a word and what else was found, where that isn't what was found already.
pub(crate) fn say_otherwise(found: &Found, word: &str, other: Found) {
    if let Some(fault) = other.fault() {
        found.fail(fault);
    }
    let other = other.into_text();
    if !found.is(other.as_str()) {
        found.say(word);
        found.say(other.as_str());
    }
}
