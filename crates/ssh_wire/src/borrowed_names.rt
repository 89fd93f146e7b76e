//! Lists of names that stay where they were read (RFC 4251 section 5, name-list).

ghost use Rattle.std.specs.Prelude.{◌≡◌, IfErr, IfOk};
ghost use Rattle.ssh_wire.specs.declared.error.Error.TheVariants.{Memory};
ghost use Rattle.std.specs.List.{list_any};
ghost use Rattle.std.specs.Str.{bytes_eq};
ghost use Rattle.ssh_wire.specs.Fields.{FindsForm, TakesForm};
ghost use Rattle.ssh_wire.specs.Names.{fault_of, first_fault, names_at, names_of};
ghost use Rattle.ssh_wire.specs.Naming.{parts_behind};

use crate::error::{EncodingFault, Error};
use crate::fields::limited_of;
use crate::name_list::{
    NAME_LIMIT, NAME_LIST_LIMIT, NameList, first_name, is_ascii_name, names_in, without_comma,
};
use crate::reader::Reader;
use std::alloc::Global;
use std::marker::Model;

/// The names of a list, in order, borrowed from the bytes that they were read from. It takes no memory.
#[derive(Debug, Drop)]
pub struct BorrowedNames<'a> {
    /// The names with commas between them; None if there are none.
    text: Option<&'a [u8]>,
}

impl<'a> Model for BorrowedNames<'a> {
    ghost use Rattle.std.specs.Prelude.{◌≡◌, List, ℕ, None};
    ghost use Rattle.ssh_wire.specs.Names.{first_fault};
    ghost use Rattle.ssh_wire.specs.Naming.{parts_behind};

    ghost Value = { List (List ℕ) };

    ghost view = { λ n. parts_behind n.text };

    ghost invariant = { λ n. first_fault 0 (parts_behind n.text) ≡ None };
}

impl<'a> BorrowedNames<'a> {
    /// Reads a name list as `NameList::decode` does, with the same errors but for `Memory`. An error takes nothing.
    pub fn decode(r: &mut Reader<'a>) -> Result<BorrowedNames<'a>, Error>
        ensures { TakesForm (λ l. l) (names_at r.old) r.old result r.new }
    {
        let (names, rest) = names_front(r.rest())?;
        *r = Reader::new(rest);
        Ok(names)
    }

    /// The text of the names, with a comma between two of them; None if there are none. `first_name` takes it apart.
    pub fn text(&self) -> Option<&'a [u8]>
        ensures { self.now ≡ parts_behind result }
    {
        self.text
    }

    /// A list of its own with these names. Fails with `Memory`.
    pub fn to_list(&self, alloc: Global) -> Result<NameList, Error>
        ensures ok { IfOk result (λ l. l.0.items ≡ self.now) }
        ensures err { IfErr result (λ e. e ≡ Memory) }
    {
        match self.text {
            Some(text) => names_in(alloc, text),
            None => Ok(NameList(Vec::new(alloc))),
        }
    }

    /// Whether the list holds a name.
    pub fn holds(&self, name: &str) -> bool
        ensures { result ≡ list_any (bytes_eq name.now) self.now }
    {
        is_among(name.as_bytes(), self.text)
    }
}

/// The names at the front of bytes, and the bytes after them.
#[tactic(auto, unfolding(crate::specs::Names::names_at))]
fn names_front(bytes: &[u8]) -> Result<(BorrowedNames<'_>, &[u8]), EncodingFault>
    ensures { FindsForm (λ l. l) (λ r. r.now) (names_at bytes.now) result }
{
    let (text, rest) = limited_of(NAME_LIST_LIMIT, bytes)?;
    let names = names_of_text(text)?;
    Ok((names, rest))
}

/// The names of a text, none of the empty text.
fn names_of_text(value: &str) -> Result<BorrowedNames<'_>, EncodingFault>
    ensures { result ≡ names_of value.now }
{
    if value.is_empty() {
        return Ok(BorrowedNames { text: None });
    }
    let text = Some(without_comma(value.as_bytes()));
    match fault_in(text) {
        Some(fault) => Err(fault),
        None => Ok(BorrowedNames { text }),
    }
}

/// What is wrong with the first faulty name of a text, if any is.
fn fault_in(text: Option<&[u8]>) -> Option<EncodingFault>
    ensures { result ≡ first_fault 0 (parts_behind text.entry) }
{
    let mut before = 0;
    let mut rest = text;
    while let Some(names) = rest {
        let (name, behind) = first_name(names);
        let fault = fault_of(before, name);
        if fault.is_some() {
            return fault;
        }
        before += 1;
        rest = behind;
    }
    None
}

/// What is wrong with a name that `before` others stand before.
fn fault_of(before: usize, name: &[u8]) -> Option<EncodingFault>
    ensures { result ≡ fault_of before name.now }
{
    if !is_ascii_name(name) {
        Some(EncodingFault::CharacterEncoding)
    } else if before >= NAME_LIMIT {
        Some(EncodingFault::Length)
    } else {
        None
    }
}

/// Whether a name is among those of a text.
fn is_among(name: &[u8], text: Option<&[u8]>) -> bool
    ensures { result ≡ list_any (bytes_eq name.now) (parts_behind text.entry) }
{
    let mut rest = text;
    while let Some(names) = rest {
        let (first, behind) = first_name(names);
        if name == first {
            return true;
        }
        rest = behind;
    }
    false
}
