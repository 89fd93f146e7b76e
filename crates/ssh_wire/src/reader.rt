//! Reading the forms of RFC 4251 section 5 one after the other.

ghost use Rattle.std.specs.Prelude.{◌≡◌, ◌∷◌, [], ◌++◌, ◌<◌, ◌^◌, ◌-◌, true, List, ℕ, length, IfOk, IfErr};
ghost use Rattle.std.specs.Str.{is_utf8};
ghost use Rattle.ssh_wire.specs.Forms.{AreBytes, u32be, string, mpint, magnitude};
ghost use Rattle.ssh_wire.specs.Fields.{byte_at, u32_at, string_at, text_at, mpint_at, TakesForm, IsRead};
ghost use Rattle.ssh_wire.specs.declared.error.Error.TheVariants.{SshEncoding};
ghost use Rattle.ssh_wire.specs.declared.error.EncodingFault.TheVariants.{TrailingData};

use crate::error::{EncodingFault, Error};
use crate::fields::{mpint_of, string_of, text_of, u8_of, u32_of};
use std::marker::Model;

/// Bytes that are read from the front, seen as those that are left. After a refusal a reader stands
/// where it stood.
#[derive(Debug, Drop)]
pub struct Reader<'a> {
    rest: &'a [u8],
}

impl<'a> Model for Reader<'a> {
    ghost Value = { List ℕ };

    ghost view = { λ r. r.rest.now };

    ghost invariant = { λ r. AreBytes r.rest.now };
}

impl<'a> Reader<'a> {
    /// A reader at the front of the bytes.
    pub fn new(bytes: &'a [u8]) -> Reader<'a>
        ensures { result ≡ bytes.now }
    {
        Reader { rest: bytes }
    }

    /// How many bytes are left.
    pub fn remaining_len(&self) -> usize
        ensures { result ≡ length self.now }
    {
        self.rest.len()
    }

    /// What is left to read, lent from the bytes that the reader was made of. Nothing is read.
    pub fn rest(&self) -> &'a [u8]
        ensures value { result.now ≡ self.now }
        ensures bytes { AreBytes self.now }
    {
        self.rest
    }

    /// A byte. SshEncoding(Length) where none is left.
    pub fn read_u8(&mut self) -> Result<u8, Error>
        ensures exact { TakesForm (λ n. n) (byte_at self.old) self.old result self.new }
        ensures spelled { IfOk result (λ n. self.old ≡ n ∷ self.new) }
        ensures again { (n : ℕ) (rest : List ℕ) → self.old ≡ n ∷ rest → IsRead (λ x. x) n rest result self.new }
    {
        let (value, rest) = u8_of(self.rest)?;
        self.rest = rest;
        Ok(value)
    }

    /// A `uint32`, the most significant byte first. SshEncoding(Length) where fewer than four bytes are
    /// left.
    pub fn read_u32(&mut self) -> Result<u32, Error>
        ensures exact { TakesForm (λ n. n) (u32_at self.old) self.old result self.new }
        ensures spelled { IfOk result (λ n. self.old ≡ u32be n ++ self.new) }
        ensures again { (n : ℕ) (rest : List ℕ) → n < 2 ^ 32 → self.old ≡ u32be n ++ rest → IsRead (λ x. x) n rest
            result self.new }
    {
        let (value, rest) = u32_of(self.rest)?;
        self.rest = rest;
        Ok(value)
    }

    /// A `string`: a length of four bytes and that many bytes. SshEncoding(Length) where the length or the
    /// bytes are cut short.
    pub fn read_string(&mut self) -> Result<&'a [u8], Error>
        ensures exact { TakesForm (λ s. s.now) (string_at self.old) self.old result self.new }
        ensures spelled { IfOk result (λ s. self.old ≡ string s.now ++ self.new) }
        ensures again { (s rest : List ℕ) → length s < 2 ^ 32 → self.old ≡ string s ++ rest → IsRead (λ x. x.now) s rest
            result self.new }
    {
        let (value, rest) = string_of(self.rest)?;
        self.rest = rest;
        Ok(value)
    }

    /// A `string` that is UTF-8. SshEncoding(Length) as of `read_string`, then SshEncoding(CharacterEncoding).
    pub fn read_text(&mut self) -> Result<&'a [u8], Error>
        ensures exact { TakesForm (λ s. s.now) (text_at self.old) self.old result self.new }
        ensures spelled { IfOk result (λ s. (self.old ≡ string s.now ++ self.new) × (is_utf8 s.now ≡ true)) }
        ensures again { (s rest : List ℕ) → length s < 2 ^ 32 → is_utf8 s ≡ true → self.old ≡ string s ++ rest → IsRead
            (λ x. x.now) s rest result self.new }
    {
        let (value, rest) = text_of(self.rest)?;
        self.rest = rest;
        Ok(value)
    }

    /// The bytes of an `mpint`, the most significant first, without leading zeros; none for zero.
    /// SshEncoding(Length) as of `read_string`, then SshEncoding(MpintEncoding) where the number is negative
    /// or has an unneeded leading byte.
    pub fn read_mpint(&mut self) -> Result<&'a [u8], Error>
        ensures exact { TakesForm (λ m. m.now) (mpint_at self.old) self.old result self.new }
        ensures spelled { IfOk result (λ m. (self.old ≡ mpint m.now ++ self.new) × (magnitude m.now ≡ m.now)) }
        ensures again { (s rest : List ℕ) → length s < 2 ^ 32 - 1 → self.old ≡ mpint s ++ rest → IsRead (λ x. x.now)
            (magnitude s) rest result self.new }
    {
        let (value, rest) = mpint_of(self.rest)?;
        self.rest = rest;
        Ok(value)
    }

    /// Nothing more. SshEncoding(TrailingData) where bytes are left.
    pub fn ensure_end(&self) -> Result<(), Error>
        ensures end { IfOk result (λ _. self.now ≡ []) }
        ensures left { IfErr result (λ e. (e ≡ SshEncoding TrailingData) × (0 < length self.now)) }
    {
        if self.rest.is_empty() {
            Ok(())
        } else {
            Err(Error::SshEncoding(EncodingFault::TrailingData))
        }
    }
}
