//! Extension info: the extensions that a side tells (RFC 8308 section 2.3).

ghost use Rattle.std.specs.Prelude.{◌≡◌, ◌⊎◌, ◌≤◌, ◌<◌, Err, ◌++◌, ◌∷◌, [], List, ℕ, length, OnOk, OnErr, IfErr, IfOk};
ghost use Rattle.std.specs.List.{flat_map};
ghost use Rattle.ssh_wire.specs.Messages.{Grows, ReadsFront};
ghost use Rattle.std.specs.Option.{option_map};
ghost use Rattle.ssh_service.specs.Extensions.{AreExtensions, CannotPush, IsExtension, TellsAlgorithms, extension, extension_at, extensions_at, info_at, longest_value, most_extensions, told_algorithms, value_at, value_of};
ghost use Rattle.ssh_wire.specs.Forms.{u32be};
ghost use Rattle.ssh_wire.specs.declared.error.Error.TheVariants.{Memory, SshEncoding};
ghost use Rattle.ssh_wire.specs.declared.error.EncodingFault.TheVariants.{Length};

use crate::name::{ServiceName, read_name};
use ssh_wire::{Blob, EncodingFault, Error, NameList, Reader, put_string, put_u32};
use std::alloc::Global;
use std::marker::Model;
use std::str;

/// How many extensions one message may tell.
const MOST_EXTENSIONS: usize = 16;

/// How many bytes an extension's value may have.
const LONGEST_VALUE: usize = 8192;

/// The extension whose value is a name list of the signature algorithms that a server takes (RFC 8308 section 3.1).
const SERVER_SIG_ALGS: &str = "server-sig-algs";

/// An extension: its name, and its value, whose form the name decides. `ExtInfo` takes values of at most 8192 bytes.
#[derive(Debug, Drop)]
pub struct Extension {
    pub name: ServiceName,
    pub value: Blob,
}

/// At most 16 extensions, in the order in which they are told.
#[derive(Debug, Drop)]
pub struct ExtInfo(Vec<Extension>);

impl Model for ExtInfo {
    ghost use Rattle.std.specs.Prelude.{List};
    ghost use Rattle.ssh_service.specs.declared.info.Extension.{Extension};
    ghost use Rattle.ssh_service.specs.Extensions.{AreExtensions};

    ghost Value = { List Extension };

    ghost view = { λ i. i.0.items };

    ghost invariant = { λ i. AreExtensions i.0.items };
}

impl ExtInfo {
    /// No extension.
    pub fn new(alloc: Global) -> ExtInfo
        ensures { result ≡ [] }
    {
        ExtInfo(Vec::new(alloc))
    }

    /// Adds an extension behind the others. SshEncoding(Length) where 16 are there or the value has over 8192 bytes;
    /// Memory. Both leave it as it was.
    pub fn push(&mut self, name: ServiceName, value: &[u8]) -> Result<(), Error>
        ensures pushed { OnOk result (self.new ≡ self.old ++ record { name = name; value = value.now } ∷ []) }
        ensures unchanged { OnErr result (self.new ≡ self.old) }
        ensures refused { IfErr result (CannotPush self.old value.now) }
        ensures full { (most_extensions ≤ length self.old) ⊎ (longest_value < length value.now)
            → result ≡ Err (SshEncoding Length) }
        ensures each { OnOk result (AreExtensions self.new) }
    {
        let _text = name.as_str();
        if self.0.len() >= MOST_EXTENSIONS || value.len() > LONGEST_VALUE {
            return Err(Error::SshEncoding(EncodingFault::Length));
        }
        let alloc = *self.0.allocator();
        let value = Blob::copy_of(alloc, value)?;
        self.0.push(Extension { name, value })?;
        Ok(())
    }

    /// Adds an extension that was read.
    fn add(&mut self, extension: Extension) -> Result<(), Error>
        requires few { length self.old < most_extensions }
        requires extension { IsExtension extension }
        ensures ok { OnOk result (self.new ≡ self.old ++ extension ∷ []) }
        ensures err { IfErr result (λ e. e ≡ Memory) }
    {
        self.0.push(extension)?;
        Ok(())
    }

    /// The extensions, in order.
    pub fn as_slice(&self) -> &[Extension]
        ensures items { result.now ≡ self.now }
        ensures each { AreExtensions self.now }
    {
        self.0.as_slice()
    }
}

/// Reads an extension. SshEncoding as of its name, then Length where the value is cut short or too long.
#[tactic(auto, unfolding(crate::specs::Extensions::extension_at))]
fn read_extension(alloc: Global, r: &mut Reader<'_>) -> Result<Extension, Error>
    ensures read { ReadsFront (λ e. e) (extension_at r.old) result r.new }
    ensures extension { IfOk result IsExtension }
{
    let name = read_name(alloc, r)?;
    let _text = name.as_str();
    let value = read_value(r)?;
    let value = Blob::copy_of(alloc, value)?;
    Ok(Extension { name, value })
}

/// Reads a value.
#[tactic(auto, unfolding(crate::specs::Extensions::value_at))]
fn read_value<'a>(r: &mut Reader<'a>) -> Result<&'a [u8], Error>
    ensures read { ReadsFront (λ v. v.now) (value_at r.old) result r.new }
    ensures short { IfOk result (λ v. length v.now ≤ longest_value) }
{
    let value = r.read_string()?;
    if value.len() > LONGEST_VALUE {
        return Err(Error::SshEncoding(EncodingFault::Length));
    }
    Ok(value)
}

/// Reads the number of extensions, at most 16, and then the extensions.
#[tactic(auto, unfolding(crate::specs::Extensions::info_at))]
pub(crate) fn read_info(alloc: Global, r: &mut Reader<'_>) -> Result<ExtInfo, Error>
    ensures { ReadsFront (λ i. i) (info_at r.old) result r.new }
{
    let count = r.read_u32()?;
    if count as usize > MOST_EXTENSIONS {
        return Err(Error::SshEncoding(EncodingFault::Length));
    }
    read_extensions(alloc, count, r)
}

/// Reads so many extensions.
fn read_extensions(alloc: Global, count: u32, r: &mut Reader<'_>) -> Result<ExtInfo, Error>
    requires { count ≤ most_extensions }
    ensures { ReadsFront (λ i. i) (extensions_at count r.old) result r.new }
{
    let mut info = ExtInfo::new(alloc);
    for _ in 0..count {
        let extension = read_extension(alloc, r)?;
        info.add(extension)?;
    }
    Ok(info)
}

/// Appends the extensions behind their number. After an error what stood there is still the front.
pub(crate) fn put_info(out: &mut Vec<u8>, extensions: &[Extension]) -> Result<(), Error>
    requires { AreExtensions extensions.now }
    ensures ok { OnOk result (out.new.items ≡ out.old.items
        ++ (u32be (length extensions.now) ++ flat_map extension extensions.now)) }
    ensures front { OnErr result (Grows out.old.items out.new.items) }
    ensures err { IfErr result (λ e. e ≡ Memory) }
{
    put_u32(out, extensions.len() as u32)?;
    put_extensions(out, extensions)
}

/// Appends extensions. After an error what stood there is still the front.
fn put_extensions(out: &mut Vec<u8>, extensions: &[Extension]) -> Result<(), Error>
    requires { AreExtensions extensions.now }
    ensures ok { OnOk result (out.new.items ≡ out.old.items ++ flat_map extension extensions.now) }
    ensures front { OnErr result (Grows out.old.items out.new.items) }
    ensures err { IfErr result (λ e. e ≡ Memory) }
{
    for told in extensions {
        put_extension(out, told)?;
    }
    Ok(())
}

/// Appends an extension. After an error what stood there is still the front.
fn put_extension(out: &mut Vec<u8>, told: &Extension) -> Result<(), Error>
    requires { IsExtension told.now }
    ensures ok { OnOk result (out.new.items ≡ out.old.items ++ extension told.now) }
    ensures front { OnErr result (Grows out.old.items out.new.items) }
    ensures err { IfErr result (λ e. e ≡ Memory) }
{
    put_string(out, told.name.as_str().as_bytes())?;
    put_string(out, told.value.as_slice())
}

/// The signature algorithms that a server told (RFC 8308 section 3.1): the value of the first extension
/// `server-sig-algs` as a name list. None where there is no such extension. SshEncoding(CharacterEncoding) where the
/// value isn't UTF-8, and else as `NameList::from_encoded_string`. Memory.
pub fn server_sig_algs(alloc: Global, info: &ExtInfo) -> Result<Option<NameList>, Error>
    ensures { TellsAlgorithms (told_algorithms info.now) result }
{
    let Some(value) = value_of(SERVER_SIG_ALGS.as_bytes(), info.as_slice()) else {
        return Ok(None);
    };
    let Ok(text) = str::from_utf8(value) else {
        return Err(Error::SshEncoding(EncodingFault::CharacterEncoding));
    };
    let names = NameList::from_encoded_string(alloc, text)?;
    Ok(Some(names))
}

/// The first value under a name.
fn value_of<'a>(name: &[u8], extensions: &'a [Extension]) -> Option<&'a [u8]>
    ensures { option_map (λ v. v.now) result ≡ value_of name.now extensions.now }
{
    for told in extensions {
        if told.name.as_str().as_bytes() == name {
            return Some(told.value.as_slice());
        }
    }
    None
}
