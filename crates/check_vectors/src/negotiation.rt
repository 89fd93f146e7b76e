//! Rows of negotiation (RFC 4253 section 7.1): names of key exchanges, what a side offers, its KEXINIT, one choice of
//! two lists, and what a side reads in the other's KEXINIT.

use crate::shared::{is_first_of, say_otherwise};
use bytes::Bytes;
use ssh_mac::{HashValue, mac};
use ssh_negotiate::{
    AsName, Client, HostCertificate, HostKey, HostName, KexCause, Names, Preferred, Select, Server,
    ServerKeys, can_be_advertised, is_key_compatible_with_algo, kex, server_certificate_names,
    write_kex,
};
use ssh_packet::{PacketWriter, cipher, compression};
use ssh_wire::{Algorithm, AlgorithmKind, Blob, Error, NameList, Reader, Side};
use std::alloc::Global;
use std::mem;
use vector_rows::preferences::{
    Named, certificates, extension, kexinit, keys, names, preferred, texts,
};
use vector_rows::{Fault, Found, Row, Words, words_of};

/// Answers a row of one of these kinds. False where the kind is another.
pub(crate) fn answer(kind: &str, row: &Row<'_>, found: &Found) -> bool {
    match kind {
        "kex_name" => kex_name(row, found),
        "kex_extension" => kex_extension(row, found),
        "kex_all" => say_names(found, &kex::ALL_KEX_ALGORITHMS),
        "cause" => cause(row, found),
        "is_server" => is_server(row, found),
        "signs" => signs(row, found),
        _ => return answer_of_lists(kind, row, found),
    }
    true
}

/// The same of the kinds whose words give preferences, or lists of names.
fn answer_of_lists(kind: &str, row: &Row<'_>, found: &Found) -> bool {
    let outcome = match kind {
        "preferred" => preferences(row, found),
        "signing_names" => signing_names(row, found),
        "certificate_names" => certificate_names(row, found),
        "kexinit" => kexinit_written(row, found),
        "offered" => offered(row, found),
        "select" => select(row, found),
        "choice" => choice(row, found),
        "read_kex" => read_kex(false, row, found),
        "read_lists" => read_kex(true, row, found),
        "negotiated" => negotiated(row, found),
        _ => return false,
    };
    found.note(outcome);
    true
}

/// `kex_name TEXT`: the place of the name in the table, its text, and what it says of its exchange: whether there is
/// none, whether it is a group exchange, the digest, how the secret is hashed; or `none`.
fn kex_name(row: &Row<'_>, found: &Found) {
    let Some(name) = kex::Name::from_str(row.text()) else {
        return found.say("none");
    };
    found.say_shown(
        &kex::ALL_KEX_ALGORITHMS
            .iter()
            .position(|other| *other == name),
    );
    say_kex(found, name);
}

fn say_kex(found: &Found, name: kex::Name) {
    let shape = name.shape();
    found.say(name.as_str());
    found.say_shown(&shape.skip);
    found.say_shown(&shape.gex);
    found.say_shown(&shape.digest);
    found.say_shown(&shape.form);
}

/// `kex_extension TEXT`: the text of an extension name, and what it says, as `kex_name`.
fn kex_extension(row: &Row<'_>, found: &Found) {
    match extension(row.word()) {
        Some(name) => say_kex(found, name),
        None => row.reject(),
    }
}

/// Appends a list with commas between its names, or `-` for none.
fn say_names<A: AsName>(found: &Found, names: &[A]) {
    found.say(if names.is_empty() { "-" } else { "" });
    for (i, name) in names.iter().enumerate() {
        if i > 0 {
            found.append(",");
        }
        found.append(name.as_name());
    }
}

/// The next word as a side.
fn side(row: &Row<'_>) -> Side {
    if is_first_of(row, "client", "server") {
        Side::Client
    } else {
        Side::Server
    }
}

/// `is_server SIDE`: whether the side is the server.
fn is_server(row: &Row<'_>, found: &Found) {
    found.say_shown(&match side(row) {
        Side::Client => Client::is_server(),
        Side::Server => Server::is_server(),
    });
}

/// The next word as why an exchange begins: `first`, or a later one behind a `strict` or a `plain` first one.
fn cause_with(row: &Row<'_>, session_id: HashValue) -> KexCause {
    let strict = match row.word() {
        "strict" => true,
        "plain" => false,
        "first" => return KexCause::Initial,
        _ => {
            row.reject();
            return KexCause::Initial;
        }
    };
    KexCause::Rekey { strict, session_id }
}

/// `cause HASH CAUSE`: whether the exchange follows a strict one, whether it is a later one, and the hash of the first.
fn cause(row: &Row<'_>, found: &Found) {
    let hash = row.bytes();
    if hash.len() > 64 {
        return row.reject();
    }
    let cause = cause_with(row, HashValue::of(hash));
    found.say_shown(&cause.is_strict_rekey());
    found.say_shown(&cause.is_rekey());
    match cause.session_id() {
        Some(hash) => found.say_bytes(hash.as_bytes()),
        None => found.say("none"),
    }
}

/// `preferred HOW PREFERENCES`: key exchanges, host keys, certificates, ciphers, MACs and compressions of preferences
/// as they are `given`, of a `copy`, or of the `compressed` defaults.
fn preferences(row: &Row<'_>, found: &Found) -> Result<(), Fault> {
    let how = row.word();
    let given = preferred(row)?;
    match how {
        "given" => say_preferred(found, &given),
        "copy" => return say_copy(found, &given),
        "compressed" => return say_compressed(found),
        _ => row.reject(),
    }
    Ok(())
}

fn say_copy(found: &Found, given: &Preferred) -> Result<(), Fault> {
    let copy = given.try_clone(found.alloc())?;
    say_preferred(found, &copy);
    Ok(())
}

fn say_compressed(found: &Found) -> Result<(), Fault> {
    let compressed = Preferred::compressed(found.alloc())?;
    say_preferred(found, &compressed);
    Ok(())
}

fn say_preferred(found: &Found, preferred: &Preferred) {
    say_names(found, preferred.kex.as_slice());
    say_names(found, preferred.key.as_slice());
    say_names(found, preferred.host_key_certificates.as_slice());
    say_names(found, preferred.cipher.as_slice());
    say_names(found, preferred.mac.as_slice());
    say_names(found, preferred.compression.as_slice());
}

/// `signs KEY ALGORITHM`: whether a key of an algorithm signs under another.
fn signs(row: &Row<'_>, found: &Found) {
    let (key, under) = (row.word(), row.word());
    let (Some(algorithm), Some(under)) = (Algorithm::from_str(key), Algorithm::from_str(under))
    else {
        return row.reject();
    };
    let blob = Blob::new(Vec::new(row.alloc()));
    found.say_shown(&is_key_compatible_with_algo(&HostKey { algorithm, blob }, under));
}

/// `signing_names PREFERENCES KEYS`: the preferred algorithms under which some key signs.
fn signing_names(row: &Row<'_>, found: &Found) -> Result<(), Fault> {
    let preferred = preferred(row)?;
    let keys = some(keys(row))?;
    let names = preferred.possible_host_key_algos_for_keys(row.alloc(), keys.as_slice())?;
    say_names(found, names.as_slice());
    Ok(())
}

/// What has to be given.
fn some<T: Drop>(given: Result<Option<T>, Fault>) -> Result<T, Fault> {
    match given {
        Ok(Some(given)) => Ok(given),
        Ok(None) => Err(Fault::Malformed),
        Err(fault) => Err(fault),
    }
}

/// The next words as KEYS CERTIFICATES of a server.
fn hosts(row: &Row<'_>) -> Result<ServerKeys, Fault> {
    let keys = some(keys(row))?;
    let certificates = some(certificates(row))?;
    Ok(ServerKeys { keys, certificates })
}

/// `certificate_names PREFERENCES KEYS CERTIFICATES`: the algorithms under which a server has a certificate.
fn certificate_names(row: &Row<'_>, found: &Found) -> Result<(), Fault> {
    let preferred = preferred(row)?;
    say_certificate_names(&preferred, &hosts(row)?, found)
}

fn say_certificate_names(
    preferred: &Preferred,
    hosts: &ServerKeys,
    found: &Found,
) -> Result<(), Fault> {
    let names = server_certificate_names(
        found.alloc(),
        preferred,
        hosts.certificates.as_slice(),
        hosts.keys.as_slice(),
    )?;
    say_names(found, names.as_slice());
    Ok(())
}

/// Writes the KEXINIT of a side with a cookie: of a server where there are hosts. Malformed where a list is too long.
fn write_from(
    preferred: &Preferred,
    hosts: Option<&ServerKeys>,
    alloc: Global,
    writer: &mut PacketWriter,
    cookie: &[u8],
) -> Result<Bytes, Fault> {
    let words = words_of(alloc, cookie)?;
    if !can_be_advertised(preferred, hosts) {
        return Err(Fault::Malformed);
    }
    let mut words = Words::of(words.as_slice());
    Ok(write_kex(alloc, preferred, writer, &mut words, hosts)?)
}

/// The same by the next words, as `client PREFERENCES` or `server PREFERENCES KEYS CERTIFICATES`.
fn write_by(row: &Row<'_>, writer: &mut PacketWriter, cookie: &[u8]) -> Result<Bytes, Fault> {
    let alloc = row.alloc();
    let side = side(row);
    let preferred = preferred(row)?;
    match side {
        Side::Client => write_from(&preferred, None, alloc, writer, cookie),
        Side::Server => write_from(&preferred, Some(&hosts(row)?), alloc, writer, cookie),
    }
}

/// `kexinit COOKIE SIDE..`, the side as in `write_by`: the KEXINIT's length and payload as they are answered, and
/// the length and the bytes of the packet that is sent in clear.
fn kexinit_written(row: &Row<'_>, found: &Found) -> Result<(), Fault> {
    let cookie = row.array::<16>();
    let mut writer = PacketWriter::clear(row.alloc());
    let payload = write_by(row, &mut writer, &cookie)?;
    say_sized(found, payload.as_slice());
    say_sized(found, writer.output());
    Ok(())
}

/// Appends how many bytes, and these.
fn say_sized(found: &Found, bytes: &[u8]) {
    found.say_number(bytes.len() as u64);
    found.say_bytes(bytes);
}

/// `offered SIDE..`, the side as in `write_by`: the length of the KEXINIT, its lists of names, and what stands
/// behind them.
fn offered(row: &Row<'_>, found: &Found) -> Result<(), Fault> {
    let alloc = row.alloc();
    let payload = write_by(row, &mut PacketWriter::clear(alloc), &[0; 16])?;
    found.say_number(payload.as_slice().len() as u64);
    say_lists(payload.as_slice().get(17..).unwrap_or(b""), found)
}

fn say_lists(lists: &[u8], found: &Found) -> Result<(), Fault> {
    let mut reader = Reader::new(lists);
    for _ in 0..10 {
        let list = NameList::decode(found.alloc(), &mut reader)?;
        say_names(found, list.0.as_slice());
    }
    found.say_number(u64::from(reader.read_u8()?));
    found.say_number(u64::from(reader.read_u32()?));
    found.say_number(reader.remaining_len() as u64);
    Ok(())
}

/// Appends a refusal: its name, and of one for want of a common name the kind and both lists.
fn say_refusal(found: &Found, error: &Error) {
    let Error::NoCommonAlgo { kind, ours, theirs } = error else {
        return found.say_shown(error);
    };
    found.say("NoCommonAlgo");
    found.say_shown(kind);
    say_names(found, ours.0.as_slice());
    say_names(found, theirs.0.as_slice());
}

fn say_chosen<A: AsName>(found: &Found, answer: &Result<(bool, A), Error>) {
    match answer {
        Ok((is_first, name)) => {
            found.say(name.as_name());
            found.say_shown(is_first);
        }
        Err(error) => say_refusal(found, error),
    }
}

/// `select SIDE KIND OWN PEER`: the name that a side selects from its own list and the peer's, and whether both name it
/// first; or `NoCommonAlgo KIND OWN PEER`.
fn select(row: &Row<'_>, found: &Found) -> Result<(), Fault> {
    let side = side(row);
    match row.word() {
        "kex" => select_of::<kex::Name>(side, AlgorithmKind::Kex, row, found),
        "key" => select_of::<HostName>(side, AlgorithmKind::Key, row, found),
        "cipher" => select_of::<cipher::Name>(side, AlgorithmKind::Cipher, row, found),
        "mac" => select_of::<mac::Name>(side, AlgorithmKind::Mac, row, found),
        "compression" => {
            select_of::<compression::Name>(side, AlgorithmKind::Compression, row, found)
        }
        _ => Err(Fault::Malformed),
    }
}

fn select_of<N: Named>(
    side: Side,
    kind: AlgorithmKind,
    row: &Row<'_>,
    found: &Found,
) -> Result<(), Fault> {
    let own = names::<N>(row.alloc(), row.word())?;
    let peer = texts(row.alloc(), row.word())?;
    let answer = selected(row.alloc(), side, own.as_slice(), peer.0.as_slice(), kind);
    say_chosen(found, &answer);
    Ok(())
}

fn selected<A: AsName + Copy, B: AsName>(
    alloc: Global,
    side: Side,
    own: &[A],
    peer: &[B],
    kind: AlgorithmKind,
) -> Result<(bool, A), Error> {
    match side {
        Side::Client => Client::select(alloc, own, peer, kind),
        Side::Server => Server::select(alloc, own, peer, kind),
    }
}

/// `choice KIND CLIENT SERVER`: what the client selects, as `select`, and `server` with what the server selects where
/// that is another, its lists aside.
fn choice(row: &Row<'_>, found: &Found) -> Result<(), Fault> {
    match row.word() {
        "kex" => choice_of::<kex::Name>(AlgorithmKind::Kex, row, found),
        "key" => choice_of::<HostName>(AlgorithmKind::Key, row, found),
        "algorithm" => choice_of::<Algorithm>(AlgorithmKind::Key, row, found),
        "cipher" => choice_of::<cipher::Name>(AlgorithmKind::Cipher, row, found),
        "mac" => choice_of::<mac::Name>(AlgorithmKind::Mac, row, found),
        "compression" => choice_of::<compression::Name>(AlgorithmKind::Compression, row, found),
        _ => Err(Fault::Malformed),
    }
}

fn choice_of<N: Named>(kind: AlgorithmKind, row: &Row<'_>, found: &Found) -> Result<(), Fault> {
    let client = names::<N>(row.alloc(), row.word())?;
    let server = names::<N>(row.alloc(), row.word())?;
    say_choice(kind, client.as_slice(), server.as_slice(), found);
    Ok(())
}

fn say_choice<N: Named>(kind: AlgorithmKind, client: &[N], server: &[N], found: &Found) {
    let alloc = found.alloc();
    say_chosen(found, &Client::select(alloc, client, server, kind));
    let other = Found::new(alloc);
    let mut answer = Server::select(alloc, server, client, kind);
    exchange(&mut answer);
    say_chosen(&other, &answer);
    say_otherwise(found, "server", other);
}

/// Lets the lists of a refusal change places.
fn exchange<A: Drop>(answer: &mut Result<A, Error>) {
    if let Err(error) = answer {
        match error {
            Error::NoCommonAlgo { ours, theirs, .. } => mem::swap(ours, theirs),
            _ => {}
        }
    }
}

/// Appends what was chosen, or the refusal.
fn say_read(found: &Found, answer: &Result<Names, Error>) {
    match answer {
        Ok(names) => say_all(found, names),
        Err(error) => say_refusal(found, error),
    }
}

/// Appends what was chosen: key exchange, host key, whether that is a `certificate` or a `key`, cipher, MACs and
/// compressions to the server and to the client, whether a guess is `ignored` or `kept`, and whether the exchange is
/// `strict` or `plain`. `dropped` where a guess is dropped already.
fn say_all(found: &Found, names: &Names) {
    found.say(names.kex.as_str());
    found.say(names.key.as_str());
    say_either(found, names.host_key_is_certificate, "certificate", "key");
    found.say(names.cipher.as_str());
    found.say(names.client_mac.as_str());
    found.say(names.server_mac.as_str());
    found.say_shown(&names.client_compression);
    found.say_shown(&names.server_compression);
    say_either(found, names.ignore_guessed, "ignored", "kept");
    say_either(found, names.strict_kex(), "strict", "plain");
    if names.guessed_ignored {
        found.say("dropped");
    }
}

/// Appends the first word where something is so, and else the second.
fn say_either(found: &Found, is_so: bool, first: &str, second: &str) {
    found.say(if is_so { first } else { second });
}

/// `read_kex SIDE CAUSE PREFERENCES KEYS CERTIFICATES PAYLOAD`: what a side reads in the other's KEXINIT, as
/// `say_read`. `read_lists SIDE CAUSE PREFERENCES KEYS CERTIFICATES FIELDS`: the same of a KEXINIT with these fields.
fn read_kex(are_fields: bool, row: &Row<'_>, found: &Found) -> Result<(), Fault> {
    let side = side(row);
    let cause = cause_with(row, HashValue::empty());
    let preferred = preferred(row)?;
    read_with(are_fields, side, &cause, &preferred, row, found)
}

fn read_with(
    are_fields: bool,
    side: Side,
    cause: &KexCause,
    preferred: &Preferred,
    row: &Row<'_>,
    found: &Found,
) -> Result<(), Fault> {
    let keys = keys(row)?;
    let certificates = certificates(row)?;
    let payload = if are_fields {
        kexinit(row)?
    } else {
        row.owned_bytes()
    };
    let keys = keys.as_ref().map(|keys| keys.as_slice());
    let certificates = certificates.as_ref().map(|list| list.as_slice());
    let (alloc, payload) = (row.alloc(), payload.as_slice());
    let answer = match side {
        Side::Client => Client::read_kex(alloc, payload, preferred, keys, certificates, cause),
        Side::Server => Server::read_kex(alloc, payload, preferred, keys, certificates, cause),
    };
    say_read(found, &answer);
    Ok(())
}

/// `negotiated CLIENT_PREFERENCES SERVER_PREFERENCES KEYS CERTIFICATES`: both sides write their KEXINITs and read the
/// other's. What the client reads, and `server` with what the server reads where that is another, its lists aside.
fn negotiated(row: &Row<'_>, found: &Found) -> Result<(), Fault> {
    let client = preferred(row)?;
    negotiated_by(&client, row, found)
}

fn negotiated_by(client: &Preferred, row: &Row<'_>, found: &Found) -> Result<(), Fault> {
    let server = preferred(row)?;
    say_negotiated(client, &server, &hosts(row)?, found)
}

fn say_negotiated(
    client: &Preferred,
    server: &Preferred,
    hosts: &ServerKeys,
    found: &Found,
) -> Result<(), Fault> {
    let alloc = found.alloc();
    let mut writer = PacketWriter::clear(alloc);
    let sent = write_from(client, None, alloc, &mut writer, &[0; 16])?;
    let heard = write_from(server, Some(hosts), alloc, &mut writer, &[0; 16])?;
    say_both(
        client,
        server,
        hosts,
        heard.as_slice(),
        sent.as_slice(),
        found,
    );
    Ok(())
}

/// Appends what a client and a server read in what they heard and what was sent to them.
fn say_both(
    client: &Preferred,
    server: &Preferred,
    hosts: &ServerKeys,
    heard: &[u8],
    sent: &[u8],
    found: &Found,
) {
    let (alloc, cause) = (found.alloc(), KexCause::Initial);
    let answer = Client::read_kex(alloc, heard, client, None, None, &cause);
    say_read(found, &answer);
    let (keys, certificates) = (hosts.keys.as_slice(), hosts.certificates.as_slice());
    let (keys, certificates) = (Some(keys), Some(certificates));
    let mut answer = Server::read_kex(alloc, sent, server, keys, certificates, &cause);
    exchange(&mut answer);
    let other = Found::new(alloc);
    say_read(&other, &answer);
    say_otherwise(found, "server", other);
}
