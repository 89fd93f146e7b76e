//! Scripts of services: those that are offered, and the messages that are delivered.

ghost use Rattle.std.specs.Prelude.{◌≡◌, Ok, Some, IfOk, IfErr};
ghost use Rattle.ssh_lines.specs.Fields.{from_word, hex_of};
ghost use Rattle.ssh_lines.specs.LineFaults.{AreWrong, IsRefusal};
ghost use Rattle.ssh_service.specs.Script.{name_in, service_script};

use crate::name::{ServiceName, name_of};
use ssh_lines::{LineFault, LineForms, ScriptError, Words, hex_bytes, take_script};
use ssh_wire::{Error, Payload};
use std::alloc::Global;

const OFFER: &[u8] = b"offer";

const MESSAGE: &[u8] = b"message";

/// What a script of services says.
#[derive(Debug, Drop)]
pub struct ServiceScript {
    /// The services that are offered, in the order of their lines.
    pub offered: Vec<ServiceName>,
    /// The payloads that are delivered, in the order of their lines.
    pub payloads: Vec<Payload>,
}

/// Reads a script of services, in one pass over the text, in linear time.
///
/// A line ends in LF, or at the text's end, and a CR before that is left out. Its words stand between
/// spaces. A line without words, or whose first word begins with `#`, says nothing. Others are
/// `offer NAME`, with the name of a service, and behind all of these `message HEX`, with an even number
/// of hex digits or `-` for no bytes.
///
/// Fault names the first line that is neither, counted from 1: NotBuilt where its first word is none of
/// the forms', Malformed where the words behind it are wrong, also where `ServiceName::new` refuses the
/// name, or where a message stands before an offer. A text over 67108864 bytes is TooLong, with the line
/// 0, whatever its lines say. Memory where an allocation failed.
pub fn parse_service(alloc: Global, text: &[u8]) -> Result<ServiceScript, ScriptError>
    ensures read { IfOk result (λ script. service_script text.now ≡ Ok (record {
      offered = script.offered.items;
      payloads = script.payloads.items;
    })) }
    ensures fault { IfErr result (λ error. IsRefusal (service_script text.now) error) }
{
    let mut forms = ServiceForms {
        offered: Vec::new(alloc),
        payloads: Vec::new(alloc),
    };
    take_script(alloc, &mut forms, text)?;
    Ok(ServiceScript {
        offered: forms.offered,
        payloads: forms.payloads,
    })
}

/// The forms `offer` and `message`, with what the lines so far said.
#[derive(Drop)]
pub struct ServiceForms {
    offered: Vec<ServiceName>,
    payloads: Vec<Payload>,
}

impl LineForms for ServiceForms {
    ghost use Rattle.ssh_service.specs.Script.{ServicePlan, service_form};

    ghost Said = { ServicePlan };

    ghost form = { service_form };

    ghost said = { λ f. record { offered = f.offered.items; payloads = f.payloads.items } };

    ghost holds = { λ _. Unit {0} };

    fn take(&mut self, alloc: Global, word: &[u8], words: Words) -> Result<(), LineFault> {
        if word == OFFER {
            if !self.payloads.is_empty() {
                return Err(LineFault::Malformed);
            }
            self.offered.push(offered_name(alloc, words)?)?;
        } else if word == MESSAGE {
            self.payloads.push(delivered_payload(alloc, words)?)?;
        } else {
            return Err(LineFault::NotBuilt);
        }
        Ok(())
    }
}

/// NAME
fn offered_name(alloc: Global, mut words: Words) -> Result<ServiceName, LineFault>
    ensures ok { IfOk result (λ name. from_word name_in words.entry ≡ Some name) }
    ensures fault { IfErr result (AreWrong (from_word name_in words.entry)) }
{
    let (Some(word), None) = (words.take(), words.take()) else {
        return Err(LineFault::Malformed);
    };
    match name_of(alloc, word) {
        Ok(name) => Ok(name),
        Err(Error::Memory) => Err(LineFault::Memory),
        Err(_) => Err(LineFault::Malformed),
    }
}

/// HEX
fn delivered_payload(alloc: Global, mut words: Words) -> Result<Payload, LineFault>
    ensures ok { IfOk result (λ payload. from_word hex_of words.entry ≡ Some payload) }
    ensures fault { IfErr result (AreWrong (from_word hex_of words.entry)) }
{
    let (Some(word), None) = (words.take(), words.take()) else {
        return Err(LineFault::Malformed);
    };
    match hex_bytes(alloc, word)? {
        Some(bytes) => Ok(Payload::new(bytes)),
        None => Err(LineFault::Malformed),
    }
}
