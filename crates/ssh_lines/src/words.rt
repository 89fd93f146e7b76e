//! Cutting a script's text into lines, and a line into words. What a word means stands elsewhere.

ghost use Rattle.std.specs.Prelude.{◌≡◌, ◌<◌, List, ℕ, [], ◌∷◌, length, true, MatchOption, IfSome};
ghost use Rattle.ssh_lines.specs.Lines.{pieces, is_filled, words_of};
ghost use Rattle.ssh_lines.specs.LineFaults.{words_in};

use ssh_wire::without_last_cr;
use std::marker::Model;

/// The bytes before the first separator, and those behind it where one stands in the text.
pub fn cut(text: &[u8], separator: u8) -> (&[u8], Option<&[u8]>)
    ensures pieces { MatchOption result.1 (pieces separator text.now ≡ result.0.now ∷ [])
        (λ rest. pieces separator text.now ≡ result.0.now ∷ pieces separator rest.now) }
    ensures shorter { IfSome result.1 (λ rest. length rest.now < length text.now) }
{
    for (i, b) in text.iter().enumerate() {
        if *b == separator {
            return (&text[..i], Some(&text[i + 1..]));
        }
    }
    (text, None)
}

/// The first word of a text, and what stands behind it. Words stand between spaces.
fn cut_word(text: &[u8]) -> Option<(&[u8], &[u8])>
    ensures words { MatchOption result (words_in text.now ≡ [])
        (λ found. words_in text.now ≡ found.0.now ∷ words_in found.1.now) }
    ensures filled { IfSome result (λ found. is_filled found.0.now ≡ true) }
{
    let mut rest = text;
    while !rest.is_empty() {
        let (piece, behind) = cut(rest, b' ');
        let behind = behind.unwrap_or(&[]);
        if !piece.is_empty() {
            return Some((piece, behind));
        }
        rest = behind;
    }
    None
}

/// The words of a line that are still to come, the first one first.
#[derive(Drop)]
pub struct Words<'a> {
    rest: &'a [u8],
}

impl<'a> Model for Words<'a> {
    ghost Value = { List (List ℕ) };

    ghost view = { λ w. words_in w.rest.now };
}

impl<'a> Words<'a> {
    /// The words of a line, which may end in a CR.
    pub fn of(line: &'a [u8]) -> Words<'a>
        ensures { result ≡ words_of line.now }
    {
        Words {
            rest: without_last_cr(line),
        }
    }

    /// Takes the next word.
    pub fn take(&mut self) -> Option<&'a [u8]>
        ensures words { MatchOption result (self.old ≡ []) (λ word. self.old ≡ word.now ∷ self.new) }
        ensures filled { IfSome result (λ word. is_filled word.now ≡ true) }
    {
        let (word, rest) = cut_word(self.rest)?;
        self.rest = rest;
        Some(word)
    }
}
