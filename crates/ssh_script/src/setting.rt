//! The lines `set` of a script.

ghost use Rattle.std.specs.Prelude.{◌≡◌, ◌∷◌, [], Some, IfOk, IfErr, OnOk};
ghost use Rattle.ssh_script.specs.GivenBlobs.{AreBlobsOf};
ghost use Rattle.ssh_lines.specs.LineFaults.{AreWrong};
ghost use Rattle.ssh_script.specs.RunScript.{setting_in, part_of, set_before, set_server, set_side, with_refusal, with_limits, with_key, with_certificate, host_key, host_certificate, sizes, standard_of, raw_of, algorithm_for, utf8_of, list_of};
ghost use Rattle.ssh_lines.specs.Fields.{from_word, from_two, from_three, size_of};
ghost use Rattle.ssh_lines.specs.Fields.{hex_of, number_of};

use crate::given_blobs::GivenBlobs;
use crate::name_lists::{HOST_KEY_NAMES, KEX_NAMES, named, names};
use crate::setup::{Script, SideSetup};
use ssh_kex::GexParams;
use ssh_lines::{LineFault, Words, hex_bytes, number, side, size};
use ssh_mac::mac;
use ssh_negotiate::{AsName, HostCertificate, HostKey, ServerKeys};
use ssh_packet::cipher;
use ssh_wire::{Algorithm, Blob, Side, SshId, Text};
use std::alloc::Global;

/// What a line sets.
#[derive(Clone, Copy, Debug, PartialEq, Eq)]
pub(crate) enum Setting {
    Id,
    RawId,
    Kex,
    Key,
    Certificates,
    Cipher,
    Mac,
    Limits,
    GroupSizes,
    Host,
    HostCertificate,
    Seed,
    Refuse,
    Group,
}

/// A part of a side that can refuse calls.
#[derive(Clone, Copy, Debug, PartialEq, Eq)]
pub(crate) enum Part {
    Agreement,
    Hosts,
    Groups,
}

/// What the word behind the side sets.
fn setting_named(word: &[u8]) -> Option<Setting>
    ensures { result ≡ setting_in word.now }
{
    if word == b"id".as_slice() {
        Some(Setting::Id)
    } else if word == b"rawid".as_slice() {
        Some(Setting::RawId)
    } else if word == b"kex".as_slice() {
        Some(Setting::Kex)
    } else if word == b"key".as_slice() {
        Some(Setting::Key)
    } else if word == b"cert".as_slice() {
        Some(Setting::Certificates)
    } else if word == b"cipher".as_slice() {
        Some(Setting::Cipher)
    } else if word == b"mac".as_slice() {
        Some(Setting::Mac)
    } else if word == b"limits".as_slice() {
        Some(Setting::Limits)
    } else if word == b"gex".as_slice() {
        Some(Setting::GroupSizes)
    } else if word == b"host".as_slice() {
        Some(Setting::Host)
    } else if word == b"hostcert".as_slice() {
        Some(Setting::HostCertificate)
    } else if word == b"seed".as_slice() {
        Some(Setting::Seed)
    } else if word == b"refuse".as_slice() {
        Some(Setting::Refuse)
    } else if word == b"group".as_slice() {
        Some(Setting::Group)
    } else {
        None
    }
}

/// PART
fn part_named(word: &[u8]) -> Option<Part>
    ensures { result ≡ part_of word.now }
{
    if word == b"agreement".as_slice() {
        Some(Part::Agreement)
    } else if word == b"hosts".as_slice() {
        Some(Part::Hosts)
    } else if word == b"groups".as_slice() {
        Some(Part::Groups)
    } else {
        None
    }
}

/// The words behind `set`: SIDE, what is set, and its value. No line sets anything behind a step, and none gives a blob
/// again.
pub(crate) fn set(
    alloc: Global,
    script: &mut Script,
    given: &mut GivenBlobs,
    mut words: Words,
) -> Result<(), LineFault>
    requires { AreBlobsOf script.old.server.config.host given.old }
    ensures given { OnOk result (AreBlobsOf script.new.server.config.host given.new) }
    ensures ok { OnOk result (set_before script.old.steps script.old.attack words.entry script.old ≡ Some script.new) }
    ensures fault { IfErr result (AreWrong (set_before script.old.steps script.old.attack words.entry script.old)) }
{
    if !script.steps.is_empty() || !script.attack.is_empty() {
        return Err(LineFault::Malformed);
    }
    let (Some(side_word), Some(setting_word)) = (words.take(), words.take()) else {
        return Err(LineFault::Malformed);
    };
    let (Some(side), Some(setting)) = (side(side_word), setting_named(setting_word)) else {
        return Err(LineFault::Malformed);
    };
    match side {
        Side::Client => set_side(alloc, &mut script.client, setting, words),
        Side::Server => set_server(alloc, &mut script.server, given, setting, words),
    }
}

/// What is set of the server alone, or of either side.
fn set_server(
    alloc: Global,
    setup: &mut SideSetup,
    given: &mut GivenBlobs,
    setting: Setting,
    words: Words,
) -> Result<(), LineFault>
    requires { AreBlobsOf setup.old.config.host given.old }
    ensures given { OnOk result (AreBlobsOf setup.new.config.host given.new) }
    ensures ok { OnOk result (set_server setting words.entry setup.old ≡ Some setup.new) }
    ensures fault { IfErr result (AreWrong (set_server setting words.entry setup.old)) }
{
    match setting {
        Setting::Host => add_key(alloc, &mut setup.config.host, given, words),
        Setting::HostCertificate => add_certificate(alloc, &mut setup.config.host, given, words),
        Setting::Group => {
            setup.group_bits = group_size(words)?;
            Ok(())
        }
        _ => set_side(alloc, setup, setting, words),
    }
}

/// What is set of either side, which leaves the host keys.
fn set_side(
    alloc: Global,
    setup: &mut SideSetup,
    setting: Setting,
    words: Words,
) -> Result<(), LineFault>
    ensures host { OnOk result (setup.new.config.host ≡ setup.old.config.host) }
    ensures ok { OnOk result (set_side setting words.entry setup.old ≡ Some setup.new) }
    ensures fault { IfErr result (AreWrong (set_side setting words.entry setup.old)) }
{
    let config = &mut setup.config;
    let preferred = &mut config.preferred;
    match setting {
        Setting::Id => config.id = standard_id(alloc, words)?,
        Setting::RawId => config.id = raw_id(alloc, words)?,
        Setting::Kex => preferred.kex = list(alloc, &KEX_NAMES, words)?,
        Setting::Key => preferred.key = list(alloc, &HOST_KEY_NAMES, words)?,
        Setting::Certificates => {
            preferred.host_key_certificates = list(alloc, &HOST_KEY_NAMES, words)?;
        }
        Setting::Cipher => preferred.cipher = list(alloc, &cipher::ALL_CIPHERS, words)?,
        Setting::Mac => preferred.mac = list(alloc, &mac::ALL_MAC_ALGORITHMS, words)?,
        Setting::Limits => set_limits(setup, words)?,
        Setting::GroupSizes => config.gex = group_sizes(words)?,
        Setting::Seed => setup.seed = seed(words)?,
        Setting::Refuse => set_refusal(setup, words)?,
        Setting::Host | Setting::HostCertificate | Setting::Group => {
            return Err(LineFault::Malformed);
        }
    }
    Ok(())
}

/// The one word that is left.
fn one_word<'a>(mut words: Words<'a>) -> Result<&'a [u8], LineFault>
    ensures ok { IfOk result (λ word. words.entry ≡ word.now ∷ []) }
    ensures fault { IfErr result (AreWrong (from_word (λ word. Some word) words.entry)) }
{
    match (words.take(), words.take()) {
        (Some(word), None) => Ok(word),
        _ => Err(LineFault::Malformed),
    }
}

/// LIST
fn list<T: AsName + Copy + Drop>(
    alloc: Global,
    all: &[T],
    words: Words,
) -> Result<Vec<T>, LineFault>
    ensures ok { IfOk result (λ found. from_word (list_of T.text all.now) words.entry ≡ Some found.items) }
    ensures fault { IfErr result (AreWrong (from_word (list_of T.text all.now) words.entry)) }
{
    let word = one_word(words)?;
    match names(alloc, all, word)? {
        Some(found) => Ok(found),
        None => Err(LineFault::Malformed),
    }
}

/// N
fn seed(words: Words) -> Result<u64, LineFault>
    ensures ok { IfOk result (λ n. from_word number_of words.entry ≡ Some n) }
    ensures fault { IfErr result (AreWrong (from_word number_of words.entry)) }
{
    number(one_word(words)?).ok_or(LineFault::Malformed)
}

/// N, at most 65536.
fn group_size(words: Words) -> Result<u32, LineFault>
    ensures ok { IfOk result (λ n. from_word size_of words.entry ≡ Some n) }
    ensures fault { IfErr result (AreWrong (from_word size_of words.entry)) }
{
    size(one_word(words)?).ok_or(LineFault::Malformed)
}

/// TEXT, of UTF-8.
fn standard_id(alloc: Global, words: Words) -> Result<SshId, LineFault>
    ensures ok { IfOk result (λ id. from_word standard_of words.entry ≡ Some id) }
    ensures fault { IfErr result (AreWrong (from_word standard_of words.entry)) }
{
    let word = one_word(words)?;
    let mut bytes = Vec::new(alloc);
    bytes.extend_from_slice(word)?;
    Ok(SshId::Standard(utf8_text(bytes)?))
}

/// HEX, of UTF-8.
fn raw_id(alloc: Global, words: Words) -> Result<SshId, LineFault>
    ensures ok { IfOk result (λ id. from_word raw_of words.entry ≡ Some id) }
    ensures fault { IfErr result (AreWrong (from_word raw_of words.entry)) }
{
    let word = one_word(words)?;
    let Some(bytes) = hex_bytes(alloc, word)? else {
        return Err(LineFault::Malformed);
    };
    Ok(SshId::Raw(utf8_text(bytes)?))
}

/// The text of bytes that are UTF-8.
fn utf8_text(bytes: Vec<u8>) -> Result<Text, LineFault>
    ensures ok { IfOk result (λ text. utf8_of bytes.items ≡ Some text) }
    ensures fault { IfErr result (AreWrong (utf8_of bytes.items)) }
{
    match String::from_utf8(bytes) {
        Ok(text) => Ok(Text::new(text)),
        Err(_) => Err(LineFault::Malformed),
    }
}

/// N N
fn set_limits(setup: &mut SideSetup, mut words: Words) -> Result<(), LineFault>
    ensures ok { OnOk result (from_two (with_limits setup.old) number_of number_of words.entry ≡ Some setup.new) }
    ensures fault { IfErr result (AreWrong (from_two (with_limits setup.old) number_of number_of words.entry)) }
{
    let (Some(write_word), Some(read_word), None) = (words.take(), words.take(), words.take())
    else {
        return Err(LineFault::Malformed);
    };
    let (Some(write), Some(read)) = (number(write_word), number(read_word)) else {
        return Err(LineFault::Malformed);
    };
    setup.config.limits.rekey_write_limit = write as usize;
    setup.config.limits.rekey_read_limit = read as usize;
    Ok(())
}

/// N N N
fn group_sizes(mut words: Words) -> Result<GexParams, LineFault>
    ensures ok { IfOk result (λ gex. from_three sizes size_of size_of size_of words.entry ≡ Some gex) }
    ensures fault { IfErr result (AreWrong (from_three sizes size_of size_of size_of words.entry)) }
{
    let (Some(min_word), Some(preferred_word), Some(max_word), None) = (
        words.take(),
        words.take(),
        words.take(),
        words.take(),
    ) else {
        return Err(LineFault::Malformed);
    };
    let (Some(min), Some(preferred), Some(max)) = (
        size(min_word),
        size(preferred_word),
        size(max_word),
    ) else {
        return Err(LineFault::Malformed);
    };
    Ok(GexParams {
        min_group_size: min,
        preferred_group_size: preferred,
        max_group_size: max,
    })
}

/// PART N
fn set_refusal(setup: &mut SideSetup, mut words: Words) -> Result<(), LineFault>
    ensures ok { OnOk result (from_two (with_refusal setup.old) part_of number_of words.entry ≡ Some setup.new) }
    ensures fault { IfErr result (AreWrong (from_two (with_refusal setup.old) part_of number_of words.entry)) }
{
    let (Some(part_word), Some(call_word), None) = (words.take(), words.take(), words.take()) else {
        return Err(LineFault::Malformed);
    };
    let (Some(part), Some(call)) = (part_named(part_word), number(call_word)) else {
        return Err(LineFault::Malformed);
    };
    match part {
        Part::Agreement => setup.refuse_agreement = call,
        Part::Hosts => setup.refuse_hosts = call,
        Part::Groups => setup.refuse_groups = call,
    }
    Ok(())
}

/// ALGORITHM HEX
fn add_key(
    alloc: Global,
    host: &mut ServerKeys,
    given: &mut GivenBlobs,
    words: Words,
) -> Result<(), LineFault>
    requires { AreBlobsOf host.old given.old }
    ensures given { OnOk result (AreBlobsOf host.new given.new) }
    ensures ok { OnOk result (with_key host.old (from_two host_key algorithm_for hex_of words.entry) ≡ Some host.new) }
    ensures fault { IfErr result (AreWrong (with_key host.old (from_two host_key algorithm_for hex_of words.entry))) }
{
    let key = key_in(alloc, words)?;
    if !given.add(alloc, key.blob.as_slice())? {
        return Err(LineFault::Malformed);
    }
    host.keys.push(key)?;
    Ok(())
}

fn key_in(alloc: Global, mut words: Words) -> Result<HostKey, LineFault>
    ensures ok { IfOk result (λ key. from_two host_key algorithm_for hex_of words.entry ≡ Some key) }
    ensures fault { IfErr result (AreWrong (from_two host_key algorithm_for hex_of words.entry)) }
{
    let (Some(algorithm_word), Some(blob_word), None) = (words.take(), words.take(), words.take())
    else {
        return Err(LineFault::Malformed);
    };
    let algorithm = algorithm_in(algorithm_word)?;
    let blob = blob_in(alloc, blob_word)?;
    Ok(HostKey { algorithm, blob })
}

/// ALGORITHM HEX HEX
fn add_certificate(
    alloc: Global,
    host: &mut ServerKeys,
    given: &mut GivenBlobs,
    words: Words,
) -> Result<(), LineFault>
    requires { AreBlobsOf host.old given.old }
    ensures given { OnOk result (AreBlobsOf host.new given.new) }
    ensures ok { OnOk result (with_certificate host.old (from_three host_certificate algorithm_for hex_of hex_of
        words.entry) ≡ Some host.new) }
    ensures fault { IfErr result (AreWrong (with_certificate host.old
        (from_three host_certificate algorithm_for hex_of hex_of words.entry))) }
{
    let certificate = certificate_in(alloc, words)?;
    if !given.add(alloc, certificate.blob.as_slice())? {
        return Err(LineFault::Malformed);
    }
    host.certificates.push(certificate)?;
    Ok(())
}

fn certificate_in(alloc: Global, mut words: Words) -> Result<HostCertificate, LineFault>
    ensures ok { IfOk result (λ certificate. from_three host_certificate algorithm_for hex_of hex_of words.entry ≡ Some
        certificate) }
    ensures fault { IfErr result (AreWrong (from_three host_certificate algorithm_for hex_of hex_of words.entry)) }
{
    let (Some(algorithm_word), Some(blob_word), Some(key_word), None) = (
        words.take(),
        words.take(),
        words.take(),
        words.take(),
    ) else {
        return Err(LineFault::Malformed);
    };
    let algorithm = algorithm_in(algorithm_word)?;
    let blob = blob_in(alloc, blob_word)?;
    let key_blob = blob_in(alloc, key_word)?;
    Ok(HostCertificate {
        algorithm,
        blob,
        key_blob,
    })
}

/// ALGORITHM
fn algorithm_in(word: &[u8]) -> Result<Algorithm, LineFault>
    ensures ok { IfOk result (λ algorithm. algorithm_for word.now ≡ Some algorithm) }
    ensures fault { IfErr result (AreWrong (algorithm_for word.now)) }
{
    named(&HOST_KEY_NAMES, word).ok_or(LineFault::Malformed)
}

/// HEX
fn blob_in(alloc: Global, word: &[u8]) -> Result<Blob, LineFault>
    ensures ok { IfOk result (λ blob. hex_of word.now ≡ Some blob) }
    ensures fault { IfErr result (AreWrong (hex_of word.now)) }
{
    match hex_bytes(alloc, word)? {
        Some(bytes) => Ok(Blob::new(bytes)),
        None => Err(LineFault::Malformed),
    }
}
