//! Bytes, texts and lists of them, as small types that contracts see as lists.

ghost use Rattle.std.specs.Prelude.{◌≡◌, List, ℕ, IfOk};
ghost use Rattle.std.specs.String.{string_bytes};
ghost use Rattle.std.specs.Str.{bytes_eq};
ghost use Rattle.std.specs.Cmp.Rules.{comparing};
ghost use Rattle.std.proofs.Common.{rules};

use std::alloc::{AllocError, Global};
use std::marker::Model;

/// Bytes, such as a key or a public value.
#[derive(Debug, Drop)]
pub struct Blob {
    bytes: Vec<u8>,
}

impl Model for Blob {
    ghost Value = { List ℕ };

    ghost view = { λ b. b.bytes.items };
}

impl Blob {
    /// The bytes of the vector, which is kept as it is.
    pub fn new(items: Vec<u8>) -> Self
        ensures { result ≡ items.items }
    {
        Blob { bytes: items }
    }

    /// A blob of the same bytes. Memory.
    pub fn copy_of(alloc: Global, bytes: &[u8]) -> Result<Blob, AllocError>
        ensures { IfOk result (λ b. b ≡ bytes.now) }
    {
        let mut items = Vec::new(alloc);
        items.extend_from_slice(bytes)?;
        Ok(Blob::new(items))
    }

    /// The bytes.
    pub fn as_slice(&self) -> &[u8]
        ensures { result.now ≡ self.now }
    {
        self.bytes.as_slice()
    }

    /// The vector that the bytes stand in.
    pub fn into_vec(self) -> Vec<u8>
        ensures { result.items ≡ self }
    {
        self.bytes
    }
}

/// The bytes of one message, its type first.
#[derive(Debug, Drop)]
pub struct Payload {
    bytes: Vec<u8>,
}

impl Model for Payload {
    ghost Value = { List ℕ };

    ghost view = { λ p. p.bytes.items };
}

impl Payload {
    /// The bytes of the vector, which is kept as it is.
    pub fn new(items: Vec<u8>) -> Self
        ensures { result ≡ items.items }
    {
        Payload { bytes: items }
    }

    /// The bytes.
    pub fn as_slice(&self) -> &[u8]
        ensures { result.now ≡ self.now }
    {
        self.bytes.as_slice()
    }

    /// The vector that the bytes stand in.
    pub fn into_vec(self) -> Vec<u8>
        ensures { result.items ≡ self }
    {
        self.bytes
    }
}

/// Payloads in order.
#[derive(Debug, Drop)]
pub struct PayloadList {
    items: Vec<Payload>,
}

impl Model for PayloadList {
    ghost Value = { List (List ℕ) };

    ghost view = { λ l. l.items.items };
}

impl PayloadList {
    /// The payloads of the vector, which is kept as it is.
    pub fn new(items: Vec<Payload>) -> Self
        ensures { result ≡ items.items }
    {
        PayloadList { items }
    }

    /// The payloads, the first one first.
    pub fn as_slice(&self) -> &[Payload]
        ensures { result.now ≡ self.now }
    {
        self.items.as_slice()
    }

    /// The vector that the payloads stand in.
    pub fn into_vec(self) -> Vec<Payload>
        ensures { result.items ≡ self }
    {
        self.items
    }
}

/// A text, seen as its bytes in UTF-8.
#[derive(Debug, Drop)]
pub struct Text {
    text: String,
}

impl Model for Text {
    ghost Value = { List ℕ };

    ghost view = { λ t. string_bytes t.text };
}

impl Text {
    /// The text of the string, which is kept as it is.
    pub fn new(text: String) -> Self
        ensures { result ≡ string_bytes text }
    {
        Text { text }
    }

    /// The text.
    pub fn as_str(&self) -> &str
        ensures { result.now ≡ self.now }
    {
        self.text.as_str()
    }

    /// A text with the same bytes. Memory.
    pub(crate) fn copy_of(alloc: Global, text: &str) -> Result<Text, AllocError>
        ensures { IfOk result (λ t. t ≡ text.now) }
    {
        Ok(Text::new(String::from_str(alloc, text)?))
    }

    /// The string that the text stands in.
    pub fn into_string(self) -> String
        ensures { string_bytes result ≡ self }
    {
        self.text
    }
}

impl PartialEq for Text {
    ghost eq = { bytes_eq };

    ghost laws = { Prim.search (comparing, rules) };

    fn eq(&self, other: &Text) -> bool {
        self.as_str() == other.as_str()
    }
}

impl Eq for Text {
    ghost laws = { Prim.search (comparing, rules) };
}
