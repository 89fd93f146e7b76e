//! The texts of a side, a refusal and a script's fault.

ghost use Rattle.std.specs.Prelude.{◌≡◌, ◌++◌, IfOk, IfErr, OnOk};
ghost use Rattle.ssh_wire.specs.declared.error.Error.TheVariants.{Memory, NoCommonAlgo};
ghost use Rattle.ssh_lines.specs.Printed.{side_name, kind_name, encoding_name, config_name, error_text, refusal_line, fault_line, script_kind_name};

use crate::print::{push_named, push_names, push_numbered, push_text};
use crate::script::{ScriptFault, ScriptKind};
use ssh_wire::{AlgorithmKind, ConfigFault, EncodingFault, Error, NameList, Side, put_u8};
use std::alloc::Global;

/// The refusal's name, and what it carries.
pub fn push_error(out: &mut Vec<u8>, error: &Error) -> Result<(), Error>
    ensures ok { OnOk result (out.new.items ≡ out.old.items ++ error_text error.now) }
    ensures err { IfErr result (λ e. e ≡ Memory) }
{
    match error {
        Error::KexInit => push_text(out, b"KexInit"),
        Error::UnknownAlgo => push_text(out, b"UnknownAlgo"),
        Error::NoCommonAlgo { kind, ours, theirs } => push_no_common(out, *kind, ours, theirs),
        Error::Version => push_text(out, b"Version"),
        Error::Kex => push_text(out, b"Kex"),
        Error::PacketAuth => push_text(out, b"PacketAuth"),
        Error::Inconsistent => push_text(out, b"Inconsistent"),
        Error::IndexOutOfBounds => push_text(out, b"IndexOutOfBounds"),
        Error::UnknownKey => push_text(out, b"UnknownKey"),
        Error::WrongServerSig => push_text(out, b"WrongServerSig"),
        Error::PacketSize(size) => push_numbered(out, b"PacketSize ", *size as u64),
        Error::Disconnect => push_text(out, b"Disconnect"),
        Error::DecryptionError => push_text(out, b"DecryptionError"),
        Error::IO => push_text(out, b"IO"),
        Error::StrictKeyExchangeViolation {
            message_type,
            sequence_number,
        } => {
            push_numbered(
                out,
                b"StrictKeyExchangeViolation ",
                u64::from(*message_type),
            )?;
            push_numbered(out, b" ", *sequence_number as u64)
        }
        Error::Signature => push_text(out, b"Signature"),
        Error::SshEncoding(fault) => push_named(out, b"SshEncoding ", name_of_encoding(*fault)),
        Error::InvalidConfig(fault) => push_named(out, b"InvalidConfig ", name_of_config(*fault)),
        Error::Memory => push_text(out, b"Memory"),
    }
}

fn push_no_common(
    out: &mut Vec<u8>,
    kind: AlgorithmKind,
    ours: &NameList,
    theirs: &NameList,
) -> Result<(), Error>
    ensures ok { OnOk result (out.new.items ≡ out.old.items ++ error_text (NoCommonAlgo kind ours.now theirs.now)) }
    ensures err { IfErr result (λ e. e ≡ Memory) }
{
    push_named(out, b"NoCommonAlgo ", name_of_kind(kind))?;
    push_text(out, b" ours ")?;
    push_names(out, ours.0.as_slice())?;
    push_text(out, b" theirs ")?;
    push_names(out, theirs.0.as_slice())
}

fn name_of_kind(kind: AlgorithmKind) -> &'static [u8]
    ensures { result.now ≡ kind_name kind }
{
    match kind {
        AlgorithmKind::Kex => b"Kex",
        AlgorithmKind::Key => b"Key",
        AlgorithmKind::Cipher => b"Cipher",
        AlgorithmKind::Compression => b"Compression",
        AlgorithmKind::Mac => b"Mac",
    }
}

fn name_of_encoding(fault: EncodingFault) -> &'static [u8]
    ensures { result.now ≡ encoding_name fault }
{
    match fault {
        EncodingFault::Length => b"Length",
        EncodingFault::CharacterEncoding => b"CharacterEncoding",
        EncodingFault::MpintEncoding => b"MpintEncoding",
        EncodingFault::TrailingData => b"TrailingData",
    }
}

fn name_of_config(fault: ConfigFault) -> &'static [u8]
    ensures { result.now ≡ config_name fault }
{
    match fault {
        ConfigFault::Id => b"Id",
        ConfigFault::Limit => b"Limit",
        ConfigFault::GroupSizes => b"GroupSizes",
        ConfigFault::KexNone => b"KexNone",
        ConfigFault::NameList => b"NameList",
        ConfigFault::HostBlob => b"HostBlob",
    }
}

/// The line that tells a refusal. Memory where there is no room for it.
pub fn print_refusal(alloc: Global, error: &Error) -> Result<Vec<u8>, Error>
    ensures text { IfOk result (λ text. text.items ≡ refusal_line error.now) }
    ensures err { IfErr result (λ e. e ≡ Memory) }
{
    let mut text = Vec::new(alloc);
    push_text(&mut text, b"refused ")?;
    push_error(&mut text, error)?;
    put_u8(&mut text, b'\n')?;
    Ok(text)
}

/// The line that tells a script's fault. Memory where there is no room for it.
pub fn print_fault(alloc: Global, fault: ScriptFault) -> Result<Vec<u8>, Error>
    ensures text { IfOk result (λ text. text.items ≡ fault_line fault) }
    ensures err { IfErr result (λ e. e ≡ Memory) }
{
    let mut text = Vec::new(alloc);
    push_numbered(&mut text, b"script ", fault.line)?;
    push_named(&mut text, b" ", name_of_script_kind(fault.kind))?;
    put_u8(&mut text, b'\n')?;
    Ok(text)
}

fn name_of_script_kind(kind: ScriptKind) -> &'static [u8]
    ensures { result.now ≡ script_kind_name kind }
{
    match kind {
        ScriptKind::NotBuilt => b"NotBuilt",
        ScriptKind::Malformed => b"Malformed",
        ScriptKind::TooLong => b"TooLong",
    }
}

/// `client` or `server`.
pub fn name_of_side(side: Side) -> &'static [u8]
    ensures { result.now ≡ side_name side }
{
    match side {
        Side::Client => b"client",
        Side::Server => b"server",
    }
}
