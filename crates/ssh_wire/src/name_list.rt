//! Lists of names as text (RFC 4251 section 5, name-list).

ghost use Rattle.std.specs.Prelude.{◌≡◌, ◌<◌, ◌≤◌, ◌^◌, ◌++◌, ◌∷◌, nat_lt, List, ℕ, ◌+◌, length, vec_len, vec_capacity, take, OnOk, OnErr, IfOk, IfErr, IfSome, IsOk, position};
ghost use Rattle.std.specs.List.{slice_split, list_all};
ghost use Rattle.std.specs.String.{string_bytes};
ghost use Rattle.ssh_wire.specs.Forms.{joined_names, name_list};
ghost use Rattle.ssh_wire.specs.Fields.{Gives, IsMadeInMemory, TakesFormInMemory, IsReadInMemory};
ghost use Rattle.ssh_wire.specs.Names.{is_comma, without_last_comma, is_name, fault_of, names_or_fault, names_of, names_at, AreNames, name_list_limit};
ghost use Rattle.ssh_wire.specs.Naming.{parts_behind, behind_comma, Admits, Spelled};
ghost use Rattle.ssh_wire.specs.declared.error.Error.TheVariants.{Memory};

use crate::bytes::Text;
use crate::encoding::put_u32;
use crate::error::{EncodingFault, Error};
use crate::fields::{limited_of, utf8_of};
use crate::reader::Reader;
use std::alloc::Global;

/// How many names a list may have.
pub(crate) const NAME_LIMIT: usize = 1024;

/// How many bytes a list may have as text.
pub(crate) const NAME_LIST_LIMIT: usize = 16384;

/// Names of algorithms in order of preference (RFC 4251 section 5, name-list).
#[derive(Debug, PartialEq, Eq, Drop)]
pub struct NameList(pub Vec<Text>);

impl NameList {
    /// The names of a text that is cut at its commas. The empty text is no names, and one comma at the end
    /// is dropped where something stands before it. The first faulty name decides:
    /// SshEncoding(CharacterEncoding) where it is empty or not ASCII, SshEncoding(Length) where 1024 names
    /// stand before it. Memory.
    pub fn from_encoded_string(alloc: Global, value: &str) -> Result<NameList, Error>
        ensures exact { Gives (λ l. l.0.items) (names_of value.now) result }
        ensures again { (names : List (List ℕ)) → AreNames names → value.now ≡ joined_names names → IsMadeInMemory
            (λ l. l.0.items) names result }
    {
        names_of_text(alloc, value)
    }

    /// The names joined by commas. Memory.
    pub fn as_encoded_string(&self) -> Result<String, Error>
        ensures ok { IfOk result (λ text. string_bytes text ≡ joined_names self.now.0.items) }
        ensures err { IfErr result (λ e. e ≡ Memory) }
    {
        let mut text = String::new(*self.0.allocator());
        for (i, name) in self.0.iter().enumerate() {
            push_name(&mut text, i > 0, name.as_str())?;
        }
        Ok(text)
    }

    /// Appends the list as a `string`. Memory leaves `out` as it was.
    pub fn encode(&self, out: &mut Vec<u8>) -> Result<(), Error>
        requires { length (joined_names self.now.0.items) < 2 ^ 32 }
        ensures ok { OnOk result (out.new.items ≡ out.old.items ++ name_list self.now.0.items) }
        ensures unchanged { OnErr result (out.new.items ≡ out.old.items) }
        ensures err { IfErr result (λ e. e ≡ Memory) }
        ensures ready { vec_len out.old + length (name_list self.now.0.items) ≤ vec_capacity out.old → IsOk result }
        ensures capacity { vec_capacity out.old ≤ vec_capacity out.new }
    {
        let start = out.len();
        put_u32(out, joined_len(self.0.as_slice()) as u32)?;
        match put_names(out, self.0.as_slice()) {
            Ok(()) => Ok(()),
            Err(error) => {
                out.truncate(start);
                Err(error)
            }
        }
    }

    /// Reads a `string` of at most 16384 bytes of UTF-8, as `LimitedString`, and its names, as
    /// `from_encoded_string`. Memory. A refusal takes nothing.
    pub fn decode(alloc: Global, r: &mut Reader<'_>) -> Result<NameList, Error>
        ensures exact { TakesFormInMemory (λ l. l.0.items) (names_at r.old) r.old result r.new }
        ensures spelled { IfOk result (λ l. Spelled l.0.items r.old r.new) }
        ensures again { (names : List (List ℕ)) (rest : List ℕ) → AreNames names → length (joined_names names)
            ≤ name_list_limit → r.old ≡ name_list names ++ rest → IsReadInMemory (λ l. l.0.items) names rest result
            r.new }
    {
        let (names, rest) = names_front(alloc, r.rest())?;
        *r = Reader::new(rest);
        Ok(names)
    }
}

/// The name list at the front of bytes, and the bytes behind it.
#[tactic(auto, unfolding(crate::specs::Names::names_at))]
fn names_front(alloc: Global, bytes: &[u8]) -> Result<(NameList, &[u8]), Error>
    ensures { Gives (λ l. (l.0.0.items, l.1.now)) (names_at bytes.now) result }
{
    let (text, rest) = limited_of(NAME_LIST_LIMIT, bytes)?;
    let names = NameList::from_encoded_string(alloc, text)?;
    Ok((names, rest))
}

/// The names of a text, none of the empty text.
fn names_of_text(alloc: Global, value: &str) -> Result<NameList, Error>
    ensures { Gives (λ l. l.0.items) (names_of value.now) result }
{
    if value.is_empty() {
        return Ok(NameList(Vec::new(alloc)));
    }
    names_in(alloc, without_comma(value.as_bytes()))
}

/// The text without one comma at its end, where something stands before it.
pub(crate) fn without_comma(text: &[u8]) -> &[u8]
    ensures { result.now ≡ without_last_comma text.now }
{
    let len = text.len();
    if len > 1 && text[len - 1] == b',' {
        &text[..len - 1]
    } else {
        text
    }
}

/// The names of a text, cut at each comma.
pub(crate) fn names_in(alloc: Global, whole: &[u8]) -> Result<NameList, Error>
    ensures { Gives (λ l. l.0.items) (names_or_fault (slice_split is_comma whole.now)) result }
{
    let mut names = Vec::new(alloc);
    let mut rest = Some(whole);
    while let Some(text) = rest {
        let (name, behind) = first_name(text);
        let name = admit(alloc, names.len(), name)?;
        names.push(name)?;
        rest = behind;
    }
    Ok(NameList(names))
}

/// What stands before the first comma, and what stands behind it, where there is one.
pub fn first_name(text: &[u8]) -> (&[u8], Option<&[u8]>)
    ensures parts { slice_split is_comma text.now ≡ result.0.now ∷ parts_behind result.1 }
    ensures shorter { IfSome result.1 (λ behind. length behind.now < length text.now) }
{
    match comma_in(text) {
        Some(at) => (&text[..at], Some(&text[at + 1..])),
        None => (text, None),
    }
}

/// Where the first comma stands.
fn comma_in(text: &[u8]) -> Option<usize>
    ensures { result ≡ position is_comma text.now }
{
    text.iter().position(|b| *b == b',')
}

/// A name that stands behind so many others.
fn admit(alloc: Global, before: usize, name: &[u8]) -> Result<Text, Error>
    ensures { Admits name.now (fault_of before name.now) result }
{
    if !is_ascii_name(name) {
        return Err(Error::SshEncoding(EncodingFault::CharacterEncoding));
    }
    if before >= NAME_LIMIT {
        return Err(Error::SshEncoding(EncodingFault::Length));
    }
    let Some(text) = utf8_of(name) else {
        unreachable!()
    };
    let text = String::from_str(alloc, text)?;
    Ok(Text::new(text))
}

/// Whether there is a character, and each is ASCII.
pub(crate) fn is_ascii_name(name: &[u8]) -> bool
    ensures { result ≡ is_name name.now }
{
    !name.is_empty() && is_ascii_text(name)
}

fn is_ascii_text(text: &[u8]) -> bool
    ensures { result ≡ list_all (λ b. nat_lt b 128) text.now }
{
    text.iter().all(|b| *b < 128)
}

/// How many bytes the names have with the commas between them.
fn joined_len(names: &[Text]) -> usize
    requires { length (joined_names names.now) < 2 ^ 32 }
    ensures { result ≡ length (joined_names names.now) }
{
    let mut size = 0;
    for (i, name) in names.iter().enumerate() {
        size += name_len(i > 0, name.as_str());
    }
    size
}

/// How many bytes a name has, with the comma before it where one is due.
pub fn name_len(is_behind: bool, name: &str) -> usize
    ensures { result ≡ length (behind_comma is_behind name.now) }
{
    if is_behind {
        name.len() + 1
    } else {
        name.len()
    }
}

/// Appends a name to a text, behind a comma where one is due. After an error the text may have grown by
/// the comma.
fn push_name(text: &mut String, is_behind: bool, name: &str) -> Result<(), Error>
    ensures ok { OnOk result (string_bytes text.new ≡ string_bytes text.old ++ behind_comma is_behind name.now) }
    ensures err { IfErr result (λ e. e ≡ Memory) }
{
    if is_behind {
        text.push(',')?;
    }
    text.push_str(name)?;
    Ok(())
}

/// Appends the names with commas between them. After an error what stood there is still the front.
fn put_names(out: &mut Vec<u8>, names: &[Text]) -> Result<(), Error>
    ensures ok { OnOk result (out.new.items ≡ out.old.items ++ joined_names names.now) }
    ensures front { OnErr result (take (length out.old.items) out.new.items ≡ out.old.items) }
    ensures err { IfErr result (λ e. e ≡ Memory) }
    ensures ready { vec_len out.old + length (joined_names names.now) ≤ vec_capacity out.old → IsOk result }
    ensures capacity { vec_capacity out.old ≤ vec_capacity out.new }
{
    for (i, name) in names.iter().enumerate() {
        put_name(out, i > 0, name.as_str())?;
    }
    Ok(())
}

/// Appends a name, behind a comma where one is due. Memory leaves `out` as it was.
pub fn put_name(out: &mut Vec<u8>, is_behind: bool, name: &str) -> Result<(), Error>
    ensures ok { OnOk result (out.new.items ≡ out.old.items ++ behind_comma is_behind name.now) }
    ensures unchanged { OnErr result (out.new.items ≡ out.old.items) }
    ensures err { IfErr result (λ e. e ≡ Memory) }
    ensures ready { vec_len out.old + length (behind_comma is_behind name.now) ≤ vec_capacity out.old → IsOk result }
    ensures capacity { vec_capacity out.old ≤ vec_capacity out.new }
{
    out.reserve(name_len(is_behind, name))?;
    if is_behind {
        out.push(b',')?;
    }
    out.extend_from_slice(name.as_bytes())?;
    Ok(())
}
