//! Texts whose length has a limit.

ghost use Rattle.std.specs.Prelude.{◌≡◌, ◌<◌, ◌≤◌, ◌^◌, ◌++◌, true, List, ℕ, length, IfOk};
ghost use Rattle.std.specs.Str.{is_utf8};
ghost use Rattle.std.specs.String.{string_bytes};
ghost use Rattle.ssh_wire.specs.Forms.{string};
ghost use Rattle.ssh_wire.specs.Fields.{limited_at, TakesFormInMemory, IsReadInMemory};

use crate::error::Error;
use crate::fields::limited_of;
use crate::reader::Reader;
use std::alloc::Global;
use std::marker::Model;

/// A text of at most N bytes, seen as its bytes in UTF-8.
#[derive(Debug, Drop)]
pub struct LimitedString<const N: usize> {
    text: String,
}

impl<const N: usize> Model for LimitedString<N> {
    ghost Value = { List ℕ };

    ghost view = { λ t. string_bytes t.text };

    ghost invariant = { λ t. length (string_bytes t.text) ≤ N };
}

impl<const N: usize> LimitedString<N> {
    /// Reads a `string` that is UTF-8. SshEncoding(Length) where it is cut short or longer than N, then
    /// SshEncoding(CharacterEncoding) where it isn't UTF-8; Memory. A refusal takes nothing.
    pub fn decode(alloc: Global, r: &mut Reader<'_>) -> Result<Self, Error>
        ensures exact { TakesFormInMemory (λ s. s) (limited_at N r.old) r.old result r.new }
        ensures spelled { IfOk result (λ s. (r.old ≡ string s ++ r.new) × (length s ≤ N) × (is_utf8 s ≡ true)) }
        ensures again { (s rest : List ℕ) → length s < 2 ^ 32 → length s ≤ N → is_utf8 s ≡ true → r.old ≡ string s
            ++ rest → IsReadInMemory (λ x. x) s rest result r.new }
    {
        let (text, rest) = limited_of(N, r.rest())?;
        let text = String::from_str(alloc, text)?;
        *r = Reader::new(rest);
        Ok(LimitedString { text })
    }

    /// The text.
    pub fn as_str(&self) -> &str
        ensures text { result.now ≡ self.now }
        ensures limit { length self.now ≤ N }
    {
        self.text.as_str()
    }
}
