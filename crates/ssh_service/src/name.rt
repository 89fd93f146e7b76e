//! Names of services and of extensions.

ghost use Rattle.std.specs.Prelude.{◌≡◌, List, ℕ};
ghost use Rattle.std.specs.List.{list_all};
ghost use Rattle.std.specs.Prelude.{nat_lt};
ghost use Rattle.std.specs.String.{string_bytes};
ghost use Rattle.ssh_service.specs.ServiceNames.{IsServiceName, IsNamed, name_at, name_fault};
ghost use Rattle.ssh_wire.specs.Messages.{ReadsFront};

use ssh_wire::{EncodingFault, Error, Reader};
use std::alloc::Global;
use std::marker::Model;
use std::str;

/// How many bytes a name may have.
const LONGEST_NAME: usize = 255;

/// The name of a service or of an extension: 1 to 255 ASCII characters.
#[derive(Debug, Drop)]
pub struct ServiceName(String);

impl Model for ServiceName {
    ghost Value = { List ℕ };

    ghost view = { λ n. string_bytes n.0 };

    ghost invariant = { λ n. IsServiceName (string_bytes n.0) };
}

impl ServiceName {
    /// The name with this text. SshEncoding(CharacterEncoding) where it is empty or not ASCII, else SshEncoding(Length)
    /// where it has over 255 bytes. Memory.
    pub fn new(alloc: Global, text: &str) -> Result<ServiceName, Error>
        ensures { IsNamed text.now result }
    {
        name_of(alloc, text.as_bytes())
    }

    /// The name's text.
    pub fn as_str(&self) -> &str
        ensures text { result.now ≡ self.now }
        ensures name { IsServiceName self.now }
    {
        self.0.as_str()
    }
}

/// The name that stands in these bytes.
pub(crate) fn name_of(alloc: Global, bytes: &[u8]) -> Result<ServiceName, Error>
    ensures { IsNamed bytes.now result }
{
    if let Some(fault) = fault_of(bytes) {
        return Err(Error::SshEncoding(fault));
    }
    let Ok(text) = str::from_utf8(bytes) else {
        unreachable!()
    };
    Ok(ServiceName(String::from_str(alloc, text)?))
}

/// What is wrong with a name.
fn fault_of(bytes: &[u8]) -> Option<EncodingFault>
    ensures { result ≡ name_fault bytes.now }
{
    if bytes.is_empty() || !is_ascii(bytes) {
        Some(EncodingFault::CharacterEncoding)
    } else if bytes.len() > LONGEST_NAME {
        Some(EncodingFault::Length)
    } else {
        None
    }
}

fn is_ascii(bytes: &[u8]) -> bool
    ensures { result ≡ list_all (λ b. nat_lt b 128) bytes.now }
{
    bytes.iter().all(|b| *b < 128)
}

/// Reads a `string` that is a name. SshEncoding(Length) where it is cut short, then as `ServiceName::new`.
pub(crate) fn read_name(alloc: Global, r: &mut Reader<'_>) -> Result<ServiceName, Error>
    ensures { ReadsFront (λ n. n) (name_at r.old) result r.new }
{
    let text = r.read_string()?;
    name_of(alloc, text)
}
