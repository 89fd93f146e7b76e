//! What a side prefers, its keys and certificates, and the fields of a KEXINIT, as a row gives them.

use crate::row::{Fault, Row};
use ssh_mac::mac;
use ssh_negotiate::{AsName, HostCertificate, HostKey, HostName, Preferred, kex};
use ssh_packet::{cipher, compression};
use ssh_wire::{Algorithm, Blob, NameList, put_string, put_u8, put_u32};
use std::alloc::Global;

/// A name that a row can give.
pub trait Named: AsName + Copy + Drop {
    /// The name of a text.
    fn named(text: &str) -> Option<Self>;
}

impl Named for kex::Name {
    fn named(text: &str) -> Option<kex::Name> {
        extension(text).or(kex::Name::from_str(text))
    }
}

impl Named for Algorithm {
    fn named(text: &str) -> Option<Algorithm> {
        Algorithm::from_str(text)
    }
}

impl Named for HostName {
    fn named(text: &str) -> Option<HostName> {
        match Algorithm::from_str(text) {
            Some(algorithm) => Some(HostName::Plain(algorithm)),
            None => Algorithm::new_certificate_ext(text).map(HostName::Certificate),
        }
    }
}

impl Named for cipher::Name {
    fn named(text: &str) -> Option<cipher::Name> {
        cipher::Name::from_str(text)
    }
}

impl Named for mac::Name {
    fn named(text: &str) -> Option<mac::Name> {
        mac::Name::from_str(text)
    }
}

impl Named for compression::Name {
    fn named(text: &str) -> Option<compression::Name> {
        compression::Name::from_str(text)
    }
}

/// The extension name of a text.
pub fn extension(text: &str) -> Option<kex::Name> {
    match text {
        "ext-info-c" => Some(kex::EXTENSION_SUPPORT_AS_CLIENT),
        "ext-info-s" => Some(kex::EXTENSION_SUPPORT_AS_SERVER),
        "kex-strict-c-v00@openssh.com" => Some(kex::EXTENSION_OPENSSH_STRICT_KEX_AS_CLIENT),
        "kex-strict-s-v00@openssh.com" => Some(kex::EXTENSION_OPENSSH_STRICT_KEX_AS_SERVER),
        _ => None,
    }
}

/// A text in which `COUNT*UNIT*REST` stands for so many times the unit, and the rest.
fn expanded(alloc: Global, text: &str) -> Result<String, Fault> {
    let Some((count, units)) = text.split_once('*') else {
        return Ok(String::from_str(alloc, text)?);
    };
    let (Ok(count), Some((unit, rest))) = (count.parse::<u16>(), units.split_once('*')) else {
        return Err(Fault::Malformed);
    };
    let mut expanded = String::new(alloc);
    for _ in 0..count {
        expanded.push_str(unit)?;
    }
    expanded.push_str(rest)?;
    Ok(expanded)
}

/// The names of a list, whose text stands as `expanded` has it, or as `-` for none.
pub fn texts(alloc: Global, text: &str) -> Result<NameList, Fault> {
    let text = expanded(alloc, if text == "-" { "" } else { text })?;
    Ok(NameList::from_encoded_string(alloc, text.as_str())?)
}

/// The names of a list. Malformed where one has no such name.
pub fn names<N: Named>(alloc: Global, text: &str) -> Result<Vec<N>, Fault> {
    named_all(alloc, &texts(alloc, text)?)
}

/// The names of texts. Malformed where one has no such name.
pub fn named_all<N: Named>(alloc: Global, texts: &NameList) -> Result<Vec<N>, Fault> {
    let mut names = Vec::new(alloc);
    for text in texts.0.as_slice() {
        match N::named(text.as_str()) {
            Some(name) => names.push(name)?,
            None => return Err(Fault::Malformed),
        }
    }
    Ok(names)
}

/// The next word as settings: `default` for none, or `NAME=VALUE` with `;` between them.
pub fn settings<'a>(row: &Row<'a>) -> Result<Vec<(&'a str, &'a str)>, Fault> {
    let mut settings = Vec::new(row.alloc());
    let word = row.word();
    if word == "default" {
        return Ok(settings);
    }
    for setting in word.split(';') {
        match setting.split_once('=') {
            Some(pair) => settings.push(pair)?,
            None => return Err(Fault::Malformed),
        }
    }
    Ok(settings)
}

/// The next word as preferences: the defaults, with `kex`, `key`, `cert`, `cipher`, `mac` or `compression` set.
pub fn preferred(row: &Row<'_>) -> Result<Preferred, Fault> {
    let mut preferred = Preferred::default(row.alloc())?;
    for (name, value) in settings(row)? {
        prefer(row.alloc(), &mut preferred, name, value)?;
    }
    Ok(preferred)
}

fn prefer(alloc: Global, preferred: &mut Preferred, name: &str, value: &str) -> Result<(), Fault> {
    match name {
        "kex" => preferred.kex = names(alloc, value)?,
        "key" => preferred.key = names(alloc, value)?,
        "cert" => preferred.host_key_certificates = names(alloc, value)?,
        "cipher" => preferred.cipher = names(alloc, value)?,
        "mac" => preferred.mac = names(alloc, value)?,
        "compression" => preferred.compression = names(alloc, value)?,
        _ => return Err(Fault::Malformed),
    }
    Ok(())
}

/// The bytes of pairs of hexadecimal digits.
fn blob(alloc: Global, digits: &str) -> Result<Blob, Fault> {
    match hex::decode(alloc, digits) {
        Ok(bytes) => Ok(Blob::new(bytes)),
        Err(_) => Err(Fault::Malformed),
    }
}

/// An algorithm, and what stands behind its colon.
fn marked(entry: &str) -> Result<(Algorithm, &str), Fault> {
    let Some((name, rest)) = entry.split_once(':') else {
        return Err(Fault::Malformed);
    };
    match Algorithm::from_str(name) {
        Some(algorithm) => Ok((algorithm, rest)),
        None => Err(Fault::Malformed),
    }
}

/// The next word as host keys `ALGORITHM:BLOB` with commas between them, `-` for an empty list, or `none` where no list
/// is given.
pub fn keys(row: &Row<'_>) -> Result<Option<Vec<HostKey>>, Fault> {
    let word = row.word();
    if word == "none" {
        return Ok(None);
    }
    let mut keys = Vec::new(row.alloc());
    for entry in texts(row.alloc(), word)?.0.as_slice() {
        keys.push(key_of(row.alloc(), entry.as_str())?)?;
    }
    Ok(Some(keys))
}

/// `ALGORITHM:BLOB`.
fn key_of(alloc: Global, entry: &str) -> Result<HostKey, Fault> {
    let (algorithm, digits) = marked(entry)?;
    let blob = blob(alloc, digits)?;
    Ok(HostKey { algorithm, blob })
}

/// The next word as host certificates `ALGORITHM:BLOB:BLOB_OF_THE_KEY`, as `keys`.
pub fn certificates(row: &Row<'_>) -> Result<Option<Vec<HostCertificate>>, Fault> {
    let word = row.word();
    if word == "none" {
        return Ok(None);
    }
    let mut certificates = Vec::new(row.alloc());
    for entry in texts(row.alloc(), word)?.0.as_slice() {
        certificates.push(certificate_of(row.alloc(), entry.as_str())?)?;
    }
    Ok(Some(certificates))
}

/// `ALGORITHM:BLOB:BLOB_OF_THE_KEY`.
fn certificate_of(alloc: Global, entry: &str) -> Result<HostCertificate, Fault> {
    let (algorithm, rest) = marked(entry)?;
    let Some((own, key)) = rest.split_once(':') else {
        return Err(Fault::Malformed);
    };
    let blob_of_it = blob(alloc, own)?;
    let key_blob = blob(alloc, key)?;
    Ok(HostCertificate {
        algorithm,
        blob: blob_of_it,
        key_blob,
    })
}

/// Appends a list of names as a `string`.
fn put_list(out: &mut Vec<u8>, list: &[u8]) -> Result<(), Fault> {
    if list.len() >= 1 << 24 {
        return Err(Fault::Malformed);
    }
    Ok(put_string(out, list)?)
}

/// The fields of a KEXINIT (RFC 4253 section 7.1).
#[derive(Drop)]
struct Fields<'a> {
    /// The ten lists, each as its text, as `expanded` has it.
    lists: [&'a str; 10],
    follows: u8,
    reserved: u32,
}

/// Where the lists of a name begin, and behind which place they end.
fn places(name: &str) -> Option<(usize, usize)> {
    let places = match name {
        "kex" => (0, 1),
        "key" => (1, 2),
        "cipher" => (2, 4),
        "cipher_c2s" => (2, 3),
        "cipher_s2c" => (3, 4),
        "mac" => (4, 6),
        "mac_c2s" => (4, 5),
        "mac_s2c" => (5, 6),
        "compression" => (6, 8),
        "compression_c2s" => (6, 7),
        "compression_s2c" => (7, 8),
        "language_c2s" => (8, 9),
        "language_s2c" => (9, 10),
        _ => return None,
    };
    Some(places)
}

impl<'a> Fields<'a> {
    /// One name of each kind, no languages, and that no guess follows.
    fn new() -> Fields<'a> {
        let (cipher, mac) = ("aes256-ctr", "hmac-sha2-256");
        Fields {
            lists: [
                "curve25519-sha256",
                "ssh-ed25519",
                cipher,
                cipher,
                mac,
                mac,
                "none",
                "none",
                "",
                "",
            ],
            follows: 0,
            reserved: 0,
        }
    }

    /// Sets a field.
    fn set(&mut self, name: &str, value: &'a str) -> Result<(), Fault> {
        match (name, value.parse::<u32>()) {
            ("follows", Ok(number)) if number < 256 => self.follows = number as u8,
            ("reserved", Ok(number)) => self.reserved = number,
            _ => return self.set_lists(name, value),
        }
        Ok(())
    }

    fn set_lists(&mut self, name: &str, value: &'a str) -> Result<(), Fault> {
        let Some((begin, end)) = places(name) else {
            return Err(Fault::Malformed);
        };
        for (i, list) in self.lists.iter_mut().enumerate() {
            if begin <= i && i < end {
                *list = value;
            }
        }
        Ok(())
    }

    /// The payload, whose cookie is of zeros.
    fn payload(&self, alloc: Global) -> Result<Vec<u8>, Fault> {
        let mut payload = Vec::new(alloc);
        put_u8(&mut payload, 20)?;
        payload.extend_from_slice(&[0; 16])?;
        for list in &self.lists {
            put_list(&mut payload, expanded(alloc, list)?.as_bytes())?;
        }
        put_u8(&mut payload, self.follows)?;
        put_u32(&mut payload, self.reserved)?;
        Ok(payload)
    }
}

/// The next word as a KEXINIT's payload: the fields of `Fields::new`, with those set that are given by `places`'
/// names, `follows` or `reserved`; `keep` cuts it to so many bytes, `behind` appends bytes.
pub fn kexinit(row: &Row<'_>) -> Result<Vec<u8>, Fault> {
    let mut fields = Fields::new();
    let mut kept = usize::MAX;
    let mut behind = Vec::new(row.alloc());
    for (name, value) in settings(row)? {
        match (name, value.parse::<u32>()) {
            ("keep", Ok(number)) => kept = number as usize,
            ("behind", _) => behind = blob(row.alloc(), value)?.into_vec(),
            _ => fields.set(name, value)?,
        }
    }
    let mut payload = fields.payload(row.alloc())?;
    payload.truncate(kept);
    payload.extend_from_slice(behind.as_slice())?;
    Ok(payload)
}
