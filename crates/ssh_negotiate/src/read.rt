//! How a side reads the other's KEXINIT (RFC 4253 section 7.1): field by field, the first refusal deciding.

ghost use Rattle.std.specs.Prelude.{◌≡◌, ◌&&◌, ◌||◌, not, false, filter, map, Option};
ghost use Rattle.std.specs.List.{list_any};
ghost use Rattle.std.specs.Str.{bytes_eq};
ghost use Rattle.ssh_wire.specs.Names.{names_at};
ghost use Rattle.ssh_wire.specs.Sides.{other_side};
ghost use Rattle.ssh_wire.specs.declared.error.AlgorithmKind.TheVariants.{Kex};
ghost use Rattle.ssh_negotiate.specs.Advertised.{is_foreign, mac_text, offers_with};
ghost use Rattle.ssh_negotiate.specs.Chosen.{algorithm_of, asks, is_certificate, mac_under, names_with, without_extensions};
ghost use Rattle.ssh_negotiate.specs.Parts.{GivesFront, ciphers_part, compressions_part, with_guess, hosts_part, macs_part, front_taken, with_lists, with_rest};
ghost use Rattle.ssh_negotiate.specs.Reading.{AnswersReading, IsKindRefusal, compared_kex, is_extension_text, slice_list, names_extension_info, names_read, read_fields, read_rest, select, select_mac, strict_name};
ghost use Rattle.ssh_negotiate.specs.Tables.{kex_text};

use crate::borrowed::{begins_alike, choice_of_read, refusal_of_read};
use crate::kex;
use crate::negotiation::{AsName, HostName, Names};
use crate::offers::{advertised_hosts, asks_for, comparable_kex};
use crate::preferred::{HostCertificate, HostKey, Preferred};
use crate::select::{begin_alike, choice_of, holds, texts_of};
use ssh_mac::mac;
use ssh_packet::cipher;
use ssh_packet::compression::Compression;
use ssh_wire::{Algorithm, AlgorithmKind, BorrowedNames, Error, NameList, Reader, Side, Text};
use std::alloc::Global;

/// How many bytes stand before the first list: the number and the cookie.
const FRONT_LEN: usize = 17;

/// Whether the list of key exchanges of a KEXINIT holds `ext-info-c`. A server may send SSH_MSG_EXT_INFO only to a
/// client that named it (RFC 8308 section 2.2). False if the payload has no such list, or one that reading would
/// reject. It takes no memory.
pub fn names_extension_info(payload: &[u8]) -> bool
    ensures { result ≡ names_extension_info payload.now }
{
    if payload.len() < FRONT_LEN {
        return false;
    }
    let mut reader = Reader::new(&payload[FRONT_LEN..]);
    match BorrowedNames::decode(&mut reader) {
        Ok(names) => names.holds(kex::EXTENSION_SUPPORT_AS_CLIENT.as_str()),
        Err(_error) => false,
    }
}

/// The names that a side takes from the other's KEXINIT.
pub(crate) fn names_of_kexinit(
    alloc: Global,
    side: Side,
    payload: &[u8],
    pref: &Preferred,
    keys: Option<&[HostKey]>,
    certificates: Option<&[HostCertificate]>,
    still_strict: bool,
) -> Result<Names, Error>
    ensures { AnswersReading (names_read side (offers_with side pref.now (slice_list keys.entry)
        (slice_list certificates.entry)) still_strict payload.now) result }
{
    if payload.len() < FRONT_LEN {
        return Err(Error::Inconsistent);
    }
    let hosts = advertised_hosts(alloc, side, pref, keys, certificates)?;
    names_of_fields(
        alloc,
        side,
        pref,
        hosts.as_slice(),
        still_strict,
        &payload[FRONT_LEN..],
    )
}

/// The names of the fields behind the cookie.
fn names_of_fields(
    alloc: Global,
    side: Side,
    pref: &Preferred,
    hosts: &[HostName],
    still_strict: bool,
    bytes: &[u8],
) -> Result<Names, Error>
    ensures { AnswersReading (read_fields side (with_lists pref.now (filter (λ n. not (is_foreign side n)) pref.now.kex)
        hosts.now) still_strict bytes.now) result }
{
    let mut reader = Reader::new(bytes);
    let peer = NameList::decode(alloc, &mut reader)?;
    let strict = is_strict(side, pref.kex.as_slice(), peer.0.as_slice(), still_strict);
    let kex = kex_of(alloc, side, pref.kex.as_slice(), peer)?;
    names_behind_kex(alloc, side, pref, hosts, kex, strict, &mut reader)
}

/// A choice of key exchanges, extension names aside.
fn kex_of(
    alloc: Global,
    side: Side,
    kex: &[kex::Name],
    peer: NameList,
) -> Result<(bool, kex::Name), Error>
    ensures { AnswersReading (select kex_text side Kex (without_extensions
        (filter (λ n. not (is_foreign side n)) kex.now)) (compared_kex peer.0.items)) result }
{
    let own = comparable_kex(alloc, side, kex)?;
    choice_with(
        alloc,
        side,
        AlgorithmKind::Kex,
        own.as_slice(),
        compared_kex(peer),
    )
}

/// The peer's key exchanges that are compared: all but the extension names.
#[tactic(auto, unfolding(crate::specs::Reading::compared_kex))]
fn compared_kex(peer: NameList) -> NameList
    ensures { result.0.items ≡ compared_kex peer.0.items }
{
    let NameList(mut names) = peer;
    names.retain(|name| !is_extension_text(name.as_str()));
    NameList(names)
}

/// Whether a text is an extension name.
fn is_extension_text(text: &str) -> bool
    ensures { result ≡ is_extension_text text.now }
{
    holds(&kex::EXTENSION_NAMES, text)
}

/// Whether the exchange is strict: the first one was, or both sides ask for it.
fn is_strict(side: Side, kex: &[kex::Name], peer: &[Text], still_strict: bool) -> bool
    ensures { result ≡ (still_strict || (asks (filter (λ n. not (is_foreign side n)) kex.now) (strict_name side) &&
        list_any (bytes_eq (kex_text (strict_name (other_side side)))) peer.now)) }
{
    still_strict || are_both_strict(side, kex, peer)
}

/// Whether both sides ask for strict key exchange.
fn are_both_strict(side: Side, kex: &[kex::Name], peer: &[Text]) -> bool
    ensures { result ≡ (asks (filter (λ n. not (is_foreign side n)) kex.now) (strict_name side) && list_any
        (bytes_eq (kex_text (strict_name (other_side side)))) peer.now) }
{
    asks_for(side, kex, strict_name(side)) && holds(peer, strict_name(side.other()).as_str())
}

/// The name by which a side asks for strict key exchange.
fn strict_name(side: Side) -> kex::Name
    ensures { result ≡ strict_name side }
{
    match side {
        Side::Client => kex::EXTENSION_OPENSSH_STRICT_KEX_AS_CLIENT,
        Side::Server => kex::EXTENSION_OPENSSH_STRICT_KEX_AS_SERVER,
    }
}

/// The names, from the list of host keys on.
fn names_behind_kex(
    alloc: Global,
    side: Side,
    pref: &Preferred,
    hosts: &[HostName],
    kex: (bool, kex::Name),
    strict: bool,
    r: &mut Reader<'_>,
) -> Result<Names, Error>
    ensures { AnswersReading (hosts_part side pref.now hosts.now kex strict r.old) result }
{
    let host = choice_at(alloc, side, AlgorithmKind::Key, hosts, r)?;
    names_behind_host(alloc, side, pref, kex, host, strict, r)
}

/// The names, from the lists of ciphers on. The first list's choice serves both directions.
fn names_behind_host(
    alloc: Global,
    side: Side,
    pref: &Preferred,
    kex: (bool, kex::Name),
    host: (bool, HostName),
    strict: bool,
    r: &mut Reader<'_>,
) -> Result<Names, Error>
    ensures { AnswersReading (ciphers_part side pref.now kex host strict r.old) result }
{
    let cipher = choice_at(
        alloc,
        side,
        AlgorithmKind::Cipher,
        pref.cipher.as_slice(),
        r,
    )?;
    r.read_text()?;
    names_behind_cipher(alloc, side, pref, (kex, host), cipher.1, strict, r)
}

/// The names, from the lists of MACs on.
fn names_behind_cipher(
    alloc: Global,
    side: Side,
    pref: &Preferred,
    choices: ((bool, kex::Name), (bool, HostName)),
    cipher: cipher::Name,
    strict: bool,
    r: &mut Reader<'_>,
) -> Result<Names, Error>
    ensures { AnswersReading (macs_part side pref.now choices.0 choices.1 cipher strict r.old) result }
{
    let client_mac = mac_at(alloc, side, cipher, pref.mac.as_slice(), r)?;
    let server_mac = mac_at(alloc, side, cipher, pref.mac.as_slice(), r)?;
    let (kex, host) = choices;
    let names = names_of_choices(kex.1, host.1, cipher, client_mac, server_mac, strict);
    let both_first = are_both(kex.0, host.0);
    names_behind_macs(alloc, side, pref, names, both_first, r)
}

/// The names, from the lists of compressions on.
fn names_behind_macs(
    alloc: Global,
    side: Side,
    pref: &Preferred,
    names: Names,
    both_first: bool,
    r: &mut Reader<'_>,
) -> Result<Names, Error>
    ensures { AnswersReading (compressions_part side pref.now (with_guess names both_first) r.old) result }
{
    choice_at(
        alloc,
        side,
        AlgorithmKind::Compression,
        pref.compression.as_slice(),
        r,
    )?;
    choice_at(
        alloc,
        side,
        AlgorithmKind::Compression,
        pref.compression.as_slice(),
        r,
    )?;
    let follows = guess_at_end(r)?;
    Ok(Names {
        ignore_guessed: is_wrong_guess(follows, both_first),
        ..names
    })
}

/// Whether a guess follows that isn't the first name of both lists of key exchanges and of host keys.
fn is_wrong_guess(follows: bool, both_first: bool) -> bool
    ensures { result ≡ (follows && not both_first) }
{
    follows && !both_first
}

/// Whether both hold.
fn are_both(a: bool, b: bool) -> bool
    ensures { result ≡ (a && b) }
{
    a && b
}

/// The names of these choices, before it is known whether a guess follows.
fn names_of_choices(
    kex: kex::Name,
    host: HostName,
    cipher: cipher::Name,
    client_mac: mac::Name,
    server_mac: mac::Name,
    strict: bool,
) -> Names
    ensures { result ≡ names_with kex host cipher client_mac server_mac false strict }
{
    Names {
        kex,
        key: algorithm_of(host),
        cipher,
        client_mac,
        server_mac,
        server_compression: Compression::None,
        client_compression: Compression::None,
        ignore_guessed: false,
        guessed_ignored: false,
        host_key_is_certificate: is_certificate(host),
        strict_kex: strict,
    }
}

/// The plain algorithm of a host key's name.
fn algorithm_of(host: HostName) -> Algorithm
    ensures { result ≡ algorithm_of host }
{
    match host {
        HostName::Certificate(algorithm) | HostName::Plain(algorithm) => algorithm,
    }
}

/// Whether it is a certificate's name.
fn is_certificate(host: HostName) -> bool
    ensures { result ≡ is_certificate host }
{
    match host {
        HostName::Certificate(_) => true,
        HostName::Plain(_) => false,
    }
}

/// A choice of the own list and the list that is read.
fn choice_at<A: AsName + Copy>(
    alloc: Global,
    side: Side,
    kind: AlgorithmKind,
    own: &[A],
    r: &mut Reader<'_>,
) -> Result<(bool, A), Error>
    ensures { GivesFront (front_taken (names_at r.old) (select A.text side kind own.now) with_rest) result r.new }
{
    let peer = BorrowedNames::decode(r)?;
    choice_with_read(alloc, side, kind, own, &peer)
}

/// A choice of the own list and the peer's as it was read.
fn choice_with_read<A: AsName + Copy>(
    alloc: Global,
    side: Side,
    kind: AlgorithmKind,
    own: &[A],
    peer: &BorrowedNames<'_>,
) -> Result<(bool, A), Error>
    ensures { AnswersReading (select A.text side kind own.now peer.now) result }
{
    match choice_of_read(side, own, peer) {
        Some(name) => Ok((begins_alike(own, peer), name)),
        None => Err(refusal_of_read(alloc, kind, own, peer)),
    }
}

/// A choice of the own list and the peer's, which is answered where there is none.
fn choice_with<A: AsName + Copy>(
    alloc: Global,
    side: Side,
    kind: AlgorithmKind,
    own: &[A],
    peer: NameList,
) -> Result<(bool, A), Error>
    ensures { AnswersReading (select A.text side kind own.now peer.0.items) result }
{
    match choice_of(side, own, peer.0.as_slice()) {
        Some(name) => Ok((begin_alike(own, peer.0.as_slice()), name)),
        None => Err(refusal_with(alloc, kind, own, peer)),
    }
}

/// The refusal where there is no common name, with the list that was read. Memory.
fn refusal_with<A: AsName>(alloc: Global, kind: AlgorithmKind, own: &[A], peer: NameList) -> Error
    ensures { IsKindRefusal kind (map A.text own.now) peer.0.items result }
{
    match texts_of(alloc, own) {
        Ok(ours) => Error::NoCommonAlgo {
            kind,
            ours,
            theirs: peer,
        },
        Err(_) => Error::Memory,
    }
}

/// A choice of MACs under a cipher.
fn mac_at(
    alloc: Global,
    side: Side,
    cipher: cipher::Name,
    own: &[mac::Name],
    r: &mut Reader<'_>,
) -> Result<mac::Name, Error>
    ensures { GivesFront (front_taken (names_at r.old) (select_mac side cipher own.now) with_rest) result r.new }
{
    let peer = BorrowedNames::decode(r)?;
    mac_of(alloc, side, cipher, own, &peer)
}

/// A MAC of two lists. A cipher that needs one refuses where there is no common name, and where it is `none`.
fn mac_of(
    alloc: Global,
    side: Side,
    cipher: cipher::Name,
    own: &[mac::Name],
    peer: &BorrowedNames<'_>,
) -> Result<mac::Name, Error>
    ensures { AnswersReading (select_mac side cipher own.now peer.now) result }
{
    match mac_under(cipher, choice_of_read(side, own, peer)) {
        Some(mac) => Ok(mac),
        None => Err(refusal_of_read(alloc, AlgorithmKind::Mac, own, peer)),
    }
}

/// The MAC under a cipher, from the name that is common.
#[tactic(auto, unfolding(crate::specs::Chosen::mac_under, crate::specs::Advertised::mac_text))]
fn mac_under(cipher: cipher::Name, common: Option<mac::Name>) -> Option<mac::Name>
    ensures { result ≡ mac_under cipher common }
{
    match common {
        None if cipher.needs_mac() => None,
        None => Some(mac::NONE),
        Some(mac) if cipher.needs_mac() && mac.as_str() == mac::NONE.as_str() => None,
        Some(mac) => Some(mac),
    }
}

/// Two texts of languages, whether a guess follows, a uint32 of any value, and nothing more.
fn guess_at_end(r: &mut Reader<'_>) -> Result<bool, Error>
    ensures { AnswersReading (read_rest r.old (λ follows. follows)) result }
{
    r.read_text()?;
    r.read_text()?;
    let follows = r.read_u8()?;
    r.read_u32()?;
    r.ensure_end()?;
    Ok(follows != 0)
}
