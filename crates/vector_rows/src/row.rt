//! A row's words, what is found by them, and why a row can't be answered.
//!
//! Neither words nor what is found make a call fail: the first fault is kept, and the loop over the rows asks for it.
//! So what answers a row goes straight on: each early return costs its proof more than the call before it. Both are
//! kept in cells, and lent as `&`: a call that is lent a `&mut` takes one place and one local more, and bytes that are
//! owned take four.

use ssh_wire::Error;
use std::alloc::{AllocError, AllocFailed, Global};
use std::cell::{Cell, RefCell};
use std::fmt;

/// Why a row has no answer.
#[derive(Clone, Copy, Debug, PartialEq, Eq)]
pub enum Fault {
    /// Its words aren't those of its kind.
    Malformed,
    /// A call refused that was to succeed.
    Refused,
    /// Memory ran out.
    Memory,
}

impl From<AllocError> for Fault {
    fn from(_error: AllocError) -> Fault {
        Fault::Memory
    }
}

impl<T: Drop> From<AllocFailed<T>> for Fault {
    fn from(_error: AllocFailed<T>) -> Fault {
        Fault::Memory
    }
}

impl From<Error> for Fault {
    fn from(error: Error) -> Fault {
        match error {
            Error::Memory => Fault::Memory,
            _ => Fault::Refused,
        }
    }
}

impl From<fmt::Error> for Fault {
    fn from(_error: fmt::Error) -> Fault {
        Fault::Memory
    }
}

/// A word, and the bytes that its hexadecimal digits give, where it has no other letters; `-` gives none.
#[derive(Drop)]
struct Word<'a> {
    text: &'a str,
    bytes: Option<Vec<u8>>,
}

/// The bytes of pairs of hexadecimal digits, or of `-` for none.
fn decoded(alloc: Global, word: &str) -> Option<Vec<u8>> {
    match word {
        "" => None,
        "-" => Some(Vec::new(alloc)),
        digits => hex::decode(alloc, digits).ok(),
    }
}

/// The words of a row that are still to come.
///
/// In place of a word that is missing, or that isn't what is asked for, some value of its kind is given, and the row is
/// malformed from then on.
#[derive(Drop)]
pub struct Row<'a> {
    words: Vec<Word<'a>>,
    at: Cell<usize>,
    alloc: Global,
    is_malformed: Cell<bool>,
}

impl<'a> Row<'a> {
    /// The words of a text.
    pub fn of(alloc: Global, text: &'a str) -> Result<Row<'a>, Fault> {
        let mut words = Vec::new(alloc);
        for text in text.split_whitespace() {
            let bytes = decoded(alloc, text);
            words.push(Word { text, bytes })?;
        }
        Ok(Row {
            words,
            at: Cell::new(0),
            alloc,
            is_malformed: Cell::new(false),
        })
    }

    /// Where what is found is kept.
    pub fn alloc(&self) -> Global {
        self.alloc
    }

    /// How many words are left.
    pub fn left(&self) -> usize {
        self.words.len().saturating_sub(self.at.get())
    }

    /// Whether a word was missing, or another than was asked for.
    pub fn is_malformed(&self) -> bool {
        self.is_malformed.get()
    }

    /// Notes that a word isn't what it should be.
    pub fn reject(&self) {
        self.is_malformed.set(true);
    }

    /// A value that a word gives, or a default where it gives none.
    pub fn expect<T: Drop>(&self, given: Option<T>, default: T) -> T {
        match given {
            Some(value) => value,
            None => {
                self.reject();
                default
            }
        }
    }

    /// The next word, and its bytes.
    fn next(&self) -> Option<&Word<'a>> {
        let word = self.words.get(self.at.get());
        if word.is_some() {
            self.at.set(self.at.get().saturating_add(1));
        } else {
            self.reject();
        }
        word
    }

    /// The next word, or the empty one.
    pub fn word(&self) -> &'a str {
        match self.next() {
            Some(word) => word.text,
            None => "",
        }
    }

    /// The next word as a number.
    pub fn number(&self) -> u64 {
        let word = self.word();
        self.expect(word.parse::<u64>().ok(), 0)
    }

    /// The next word as a number below 2^32.
    pub fn number32(&self) -> u32 {
        let word = self.word();
        self.expect(word.parse::<u32>().ok(), 0)
    }

    /// The next word as a number of bytes or of turns, at most 2^24.
    pub fn count(&self) -> usize {
        let word = self.word();
        self.count_of(word)
    }

    /// Such a number of a word, or of a part of one.
    pub fn count_of(&self, word: &str) -> usize {
        match word.parse::<u32>() {
            Ok(number) if number <= 1 << 24 => number as usize,
            _ => {
                self.reject();
                0
            }
        }
    }

    /// The next word as bytes: pairs of hexadecimal digits, or `-` for none.
    pub fn bytes(&self) -> &[u8] {
        match self.next() {
            Some(word) => self.expect(word.bytes.as_ref().map(|bytes| bytes.as_slice()), b""),
            None => b"",
        }
    }

    /// A copy of such bytes of the next word.
    pub fn owned_bytes(&self) -> Vec<u8> {
        let word = self.word();
        self.bytes_of(word)
    }

    /// Such bytes of a word, or of a part of one.
    pub fn bytes_of(&self, word: &str) -> Vec<u8> {
        self.expect(decoded(self.alloc, word), Vec::new(self.alloc))
    }

    /// The next word as bytes of this length.
    pub fn array<const N: usize>(&self) -> [u8; N] {
        let bytes = self.bytes();
        let mut array = [0; N];
        if bytes.len() == array.len() {
            array.copy_from_slice(bytes);
        } else {
            self.reject();
        }
        array
    }

    /// The next word as a text, which stands as it is, or `-` for none.
    pub fn text(&self) -> &'a str {
        let word = self.word();
        if word == "-" { "" } else { word }
    }
}

/// What is found by a row's words: words with a space between them.
///
/// Where memory runs out, the fault is kept, and what comes then is of no account.
#[derive(Drop)]
pub struct Found {
    text: RefCell<String>,
    alloc: Global,
    fault: Cell<Option<Fault>>,
}

impl Found {
    /// Nothing yet.
    pub fn new(alloc: Global) -> Found {
        Found {
            text: RefCell::new(String::new(alloc)),
            alloc,
            fault: Cell::new(None),
        }
    }

    /// Where it is kept.
    pub fn alloc(&self) -> Global {
        self.alloc
    }

    /// Whether this was found.
    pub fn is(&self, text: &str) -> bool {
        match self.text.try_borrow() {
            Ok(found) => found.as_str() == text,
            Err(_) => false,
        }
    }

    /// What was found.
    pub fn into_text(self) -> String {
        self.text.into_inner()
    }

    /// What went wrong first.
    pub fn fault(&self) -> Option<Fault> {
        self.fault.get()
    }

    /// Keeps what went wrong, where nothing did before.
    pub fn fail(&self, fault: Fault) {
        if self.fault.get().is_none() {
            self.fault.set(Some(fault));
        }
    }

    /// Keeps why a call failed.
    pub fn note(&self, outcome: Result<(), Fault>) {
        if let Err(fault) = outcome {
            self.fail(fault);
        }
    }

    /// Appends a text as it stands.
    pub fn append(&self, text: &str) {
        let is_kept = match self.text.try_borrow_mut() {
            Ok(mut found) => found.push_str(text).is_ok(),
            Err(_) => false,
        };
        if !is_kept {
            self.fail(Fault::Memory);
        }
    }

    /// Appends a word.
    pub fn say(&self, word: &str) {
        if !self.is("") {
            self.append(" ");
        }
        self.append(word);
    }

    /// Appends a number.
    pub fn say_number(&self, number: u64) {
        self.say_shown(&number);
    }

    /// Appends bytes in hexadecimal digits, or `-` for none.
    pub fn say_bytes(&self, bytes: &[u8]) {
        if bytes.is_empty() {
            return self.say("-");
        }
        match hex::encode(self.alloc, bytes) {
            Ok(text) => self.say(text.as_str()),
            Err(_) => self.fail(Fault::Memory),
        }
    }

    /// Appends a value as `Debug` shows it.
    pub fn say_shown<T: fmt::Debug>(&self, value: &T) {
        match format!(in self.alloc; "{value:?}") {
            Ok(text) => self.say(text.as_str()),
            Err(_) => self.fail(Fault::Memory),
        }
    }
}
