//! Rows of recorded exchanges: the machine of one side, given what the other side sent.
//!
//! Parts, configuration and machine are each made by a function of its own, which lends it on: a check lists all that a
//! value holds at each place of the function that owns it.

use crate::given::{Given, give_all, parts_drawing};
use crate::talk::{Agreed, Packet, Speaker, Talk, last_of};
use machine_rows::{Machine, Progress, config_of, side_of};
use rand_core::Rng;
use ssh_kex::{Agreement, Config, DhGroup, GexParams, GroupLookup, HostKeys, NewKeys, Parts};
use ssh_mac::HashValue;
use ssh_negotiate::{HostCertificate, HostKey, HostName, KexCause, Preferred, ServerKeys};
use ssh_packet::{Incoming, OpenKey, PacketReader, PacketWriter, clear};
use ssh_wire::{Algorithm, Blob, NameList, Reader, Side, put_string};
use std::alloc::Global;
use vector_rows::preferences::{Named, named_all};
use vector_rows::{Fault, Found, Row, words_of};

/// `agreed SIDE SECRET`: the exchange that stands before, by the machine of a side whose KEXINIT was written from its
/// own preferences: key exchange, cipher, MACs of both directions, exchange hash, session id, and the six keys in the
/// order of their letters. Before them stands `wrote` where it would have written other messages, and `unjudged` where
/// a client asked nobody for the signature. A refusal stands in their place.
pub(crate) fn answer_agreed(talk: &mut Talk, row: &Row<'_>, found: &Found) -> Result<(), Fault> {
    let side = side_of(row);
    let agreed = agreed_by(talk, row.owned_bytes())?;
    learn_agreed(talk, side, agreed, found)
}

/// Learns of an exchange by what the side's machine makes of it.
fn learn_agreed(
    talk: &mut Talk,
    side: Side,
    mut agreed: Agreed,
    found: &Found,
) -> Result<(), Fault> {
    if let Some(made) = replayed(talk, side, &agreed, found)? {
        agreed.hash = made.hash;
        if !talk.cause.is_rekey() {
            talk.cause = KexCause::Rekey {
                strict: made.strict,
                session_id: made.hash,
            };
        }
    }
    talk.agreed.push(agreed)?;
    Ok(())
}

/// What a later exchange needs of one: whether it was strict, and its hash.
#[derive(Clone, Copy)]
struct Made {
    strict: bool,
    hash: HashValue,
}

/// Appends what an exchange leaves.
fn say_keys(found: &Found, left: &NewKeys) {
    found.say(left.names.kex.as_str());
    found.say(left.names.cipher.as_str());
    found.say(left.names.client_mac.as_str());
    found.say(left.names.server_mac.as_str());
    found.say_bytes(left.hash.as_bytes());
    found.say_bytes(left.session_id.as_bytes());
    found.say_bytes(left.keys.iv_c2s.as_bytes());
    found.say_bytes(left.keys.iv_s2c.as_bytes());
    found.say_bytes(left.keys.key_c2s.as_bytes());
    found.say_bytes(left.keys.key_s2c.as_bytes());
    found.say_bytes(left.keys.mac_c2s.as_bytes());
    found.say_bytes(left.keys.mac_s2c.as_bytes());
}

/// What a side's machine makes that is given the other side's messages. Appends its keys; where a message is refused
/// there is none, and the refusal is appended.
fn replayed(
    talk: &Talk,
    side: Side,
    agreed: &Agreed,
    found: &Found,
) -> Result<Option<Made>, Fault> {
    let (own, _) = talk.sides(side);
    let words = cookie_words(found.alloc(), own)?;
    replayed_drawing(talk, side, agreed, words.as_slice(), found)
}

/// The words that a side draws for the cookie of its last KEXINIT.
fn cookie_words(alloc: Global, own: &Speaker) -> Result<Vec<u32>, Fault> {
    words_of(alloc, cookie_of(own.last_exchange()?)?)
}

/// What it makes where it draws these words.
fn replayed_drawing(
    talk: &Talk,
    side: Side,
    agreed: &Agreed,
    words: &[u32],
    found: &Found,
) -> Result<Option<Made>, Fault> {
    let mut parts = parts_drawing(found.alloc(), words);
    found.note(give_all(&mut parts, side, std::slice::from_ref(agreed)));
    replayed_by(talk, side, agreed.host.as_slice(), &mut parts, found)
}

/// What it makes by these parts, where the server presents this host.
fn replayed_by(
    talk: &Talk,
    side: Side,
    host: &[u8],
    parts: &mut Given<'_>,
    found: &Found,
) -> Result<Option<Made>, Fault> {
    let (own, _) = talk.sides(side);
    let config = exchange_set_up(found.alloc(), side, own, host)?;
    replayed_under(talk, side, &config, parts, found)
}

/// How a side was set up for the last exchange, where the server presents this host.
fn exchange_set_up(alloc: Global, side: Side, own: &Speaker, host: &[u8]) -> Result<Config, Fault> {
    set_up(alloc, side, own, own.last_exchange()?, host)
}

/// What it makes under a configuration.
fn replayed_under(
    talk: &Talk,
    side: Side,
    config: &Config,
    parts: &mut Given<'_>,
    found: &Found,
) -> Result<Option<Made>, Fault> {
    let mut machine = Machine::new(found.alloc());
    replayed_through(talk, side, config, &mut machine, parts, found)
}

/// What a machine makes that is still to begin.
fn replayed_through<'c>(
    talk: &Talk,
    side: Side,
    config: &'c Config,
    machine: &mut Machine<'c>,
    parts: &mut Given<'_>,
    found: &Found,
) -> Result<Option<Made>, Fault> {
    let alloc = found.alloc();
    let (_, peer) = talk.sides(side);
    let mut output = PacketWriter::clear(alloc);
    machine.begin(
        side,
        config,
        peer.id.as_slice(),
        talk.cause,
        &mut parts.rng,
        &mut output,
    )?;
    made_by(talk, side, machine, parts, &mut output, found)
}

/// What a machine makes that has sent its KEXINIT.
fn made_by(
    talk: &Talk,
    side: Side,
    machine: &mut Machine<'_>,
    parts: &mut Given<'_>,
    output: &mut PacketWriter,
    found: &Found,
) -> Result<Option<Made>, Fault> {
    let (own, peer) = talk.sides(side);
    drive(machine, peer.last_exchange()?, parts, output, found);
    let Some(keys) = machine.keys() else {
        return Ok(None);
    };
    if !is_written(found.alloc(), output.output(), own)? {
        found.say("wrote");
    }
    if side == Side::Client && parts.hosts.judged() != 1 {
        found.say("unjudged");
    }
    say_keys(found, keys);
    Ok(Some(Made {
        strict: keys.names.strict_kex,
        hash: keys.hash,
    }))
}

/// Gives a machine the messages of an exchange until it is done. Appends why it isn't: what is refused, or that they
/// are too few.
fn drive<A: Agreement, H: HostKeys, G: GroupLookup, R: Rng>(
    machine: &mut Machine<'_>,
    packets: &[Packet],
    parts: &mut Parts<A, H, G, R>,
    output: &mut PacketWriter,
    found: &Found,
) {
    for packet in packets {
        if packet.is_kex() {
            let input = Incoming {
                payload: packet.payload.as_slice(),
                seqn: packet.seqn,
            };
            match machine.step(parts, Some(input), output) {
                Ok(Progress::Done) => return,
                Ok(_) => {}
                Err(error) => return found.say_shown(&error),
            }
        }
    }
    found.say("unfinished");
}

/// Whether the clear packets are the messages of the last exchange that a side sent.
fn is_written(alloc: Global, output: &[u8], own: &Speaker) -> Result<bool, Fault> {
    let mut reader = PacketReader::new(alloc);
    reader.push(output)?;
    Ok(are_next(&mut reader, own.last_exchange()?))
}

/// Whether what is left of the clear packets are the messages of the exchange among these.
fn are_next(reader: &mut PacketReader, packets: &[Packet]) -> bool {
    for packet in packets {
        if packet.is_kex() {
            match reader.next(&mut OpenKey::Clear(clear::Key)) {
                Ok(Some(incoming)) if incoming.payload == packet.payload.as_slice() => {}
                _ => return false,
            }
        }
    }
    reader.waiting() == 0
}

/// What the last exchange agreed on, by its messages; its hash is still to come.
fn agreed_by(talk: &Talk, secret: Vec<u8>) -> Result<Agreed, Fault> {
    let alloc = *secret.allocator();
    let mut value = talk.client.last_message((30, 32))?;
    let mut reply = talk.server.last_message((31, 33))?;
    Ok(Agreed {
        group: group_of(alloc, talk)?,
        client: next_string(alloc, &mut value)?,
        host: next_string(alloc, &mut reply)?,
        server: next_string(alloc, &mut reply)?,
        signature: next_string(alloc, &mut reply)?,
        secret,
        hash: HashValue::empty(),
    })
}

/// A copy of the next string.
fn next_string(alloc: Global, fields: &mut Reader<'_>) -> Result<Vec<u8>, Fault> {
    Ok(Vec::from_slice(alloc, fields.read_string()?)?)
}

/// The group of the last exchange, where its client asked for one (RFC 4419 section 3).
fn group_of(alloc: Global, talk: &Talk) -> Result<Option<DhGroup>, Fault> {
    if talk.client.last_message((34, 34)).is_err() {
        return Ok(None);
    }
    let mut group = talk.server.last_message((31, 31))?;
    Ok(Some(DhGroup {
        prime: next_number(alloc, &mut group)?,
        generator: next_number(alloc, &mut group)?,
    }))
}

/// The next string as a positive number.
fn next_number(alloc: Global, fields: &mut Reader<'_>) -> Result<Blob, Fault> {
    Ok(Blob::copy_of(alloc, magnitude(fields.read_string()?))?)
}

/// The bytes of a positive number, less the zero that stands before a high first one (RFC 4251 section 5).
fn magnitude(bytes: &[u8]) -> &[u8] {
    match bytes.split_first() {
        Some((0, rest)) => rest,
        _ => bytes,
    }
}

/// The cookie of the KEXINIT that stands first.
pub(crate) fn cookie_of(packets: &[Packet]) -> Result<&[u8], Fault> {
    match packets.first() {
        Some(packet) if packet.payload.len() > 17 => Ok(&packet.payload[1..17]),
        _ => Err(Fault::Malformed),
    }
}

/// How a side was set up, by its KEXINIT, which stands first, its request of a group, and the host that it presents.
pub(crate) fn set_up(
    alloc: Global,
    side: Side,
    own: &Speaker,
    packets: &[Packet],
    host: &[u8],
) -> Result<Config, Fault> {
    let id = text_of(own.id.as_slice())?;
    let gex = sizes_of(packets)?;
    let preferred = preferences_of(alloc, packets)?;
    match keys_of(alloc, side, &preferred, host) {
        Ok(keys) => config_of(alloc, id, preferred, gex, keys),
        Err(fault) => Err(fault),
    }
}

/// The sizes that a side asks for among these packets, or some.
fn sizes_of(packets: &[Packet]) -> Result<GexParams, Fault> {
    let sizes = match last_of(packets, (34, 34)) {
        Ok(mut request) => GexParams::decode(&mut request),
        Err(_) => GexParams::new(2048, 3072, 8192),
    };
    Ok(sizes?)
}

/// The keys of a side: none of a client, and of a server those by which it presents this host.
fn keys_of(
    alloc: Global,
    side: Side,
    preferred: &Preferred,
    host: &[u8],
) -> Result<ServerKeys, Fault> {
    let mut keys = ServerKeys {
        keys: Vec::new(alloc),
        certificates: Vec::new(alloc),
    };
    if side == Side::Server {
        add_host(alloc, &mut keys, preferred, host)?;
    }
    Ok(keys)
}

/// Adds what presents a host: a key, or a certificate and the key that it contains.
fn add_host(
    alloc: Global,
    keys: &mut ServerKeys,
    preferred: &Preferred,
    host: &[u8],
) -> Result<(), Fault> {
    let Some(algorithm) = preferred.key.first() else {
        return Err(Fault::Malformed);
    };
    let mut fields = Reader::new(host);
    let name = text_of(fields.read_string()?)?;
    if Algorithm::new_certificate_ext(name).is_none() {
        return add_key(keys, *algorithm, host);
    }
    let key = certified(alloc, &mut fields)?;
    add_certificate(keys, *algorithm, host, key.as_slice())?;
    add_key(keys, *algorithm, key.as_slice())
}

/// Adds a key of this blob.
fn add_key(keys: &mut ServerKeys, algorithm: Algorithm, blob: &[u8]) -> Result<(), Fault> {
    let alloc = *keys.keys.allocator();
    keys.keys.push(HostKey {
        algorithm,
        blob: Blob::copy_of(alloc, blob)?,
    })?;
    Ok(())
}

/// Adds a certificate of this blob, and of its key's.
fn add_certificate(
    keys: &mut ServerKeys,
    algorithm: Algorithm,
    blob: &[u8],
    key_blob: &[u8],
) -> Result<(), Fault> {
    let alloc = *keys.certificates.allocator();
    keys.certificates.push(HostCertificate {
        algorithm,
        blob: Blob::copy_of(alloc, blob)?,
        key_blob: Blob::copy_of(alloc, key_blob)?,
    })?;
    Ok(())
}

/// The key's blob that an Ed25519 certificate contains, of which the name was read: a nonce and the key follow.
fn certified(alloc: Global, fields: &mut Reader<'_>) -> Result<Vec<u8>, Fault> {
    fields.read_string()?;
    let public = fields.read_string()?;
    if public.len() != 32 {
        return Err(Fault::Malformed);
    }
    let mut blob = Vec::new(alloc);
    put_string(&mut blob, b"ssh-ed25519")?;
    put_string(&mut blob, public)?;
    Ok(blob)
}

fn text_of(bytes: &[u8]) -> Result<&str, Fault> {
    match std::str::from_utf8(bytes) {
        Ok(text) => Ok(text),
        Err(_) => Err(Fault::Malformed),
    }
}

/// What a side prefers, as its KEXINIT has it; both directions have the same.
fn preferences_of(alloc: Global, packets: &[Packet]) -> Result<Preferred, Fault> {
    let mut preferred = Preferred {
        kex: Vec::new(alloc),
        key: Vec::new(alloc),
        host_key_certificates: Vec::new(alloc),
        cipher: Vec::new(alloc),
        mac: Vec::new(alloc),
        compression: Vec::new(alloc),
    };
    match packets.first() {
        Some(packet) if packet.payload.len() > 17 => {
            prefer(&mut preferred, &mut Reader::new(&packet.payload[17..]))?;
        }
        _ => return Err(Fault::Malformed),
    }
    Ok(preferred)
}

/// Sets what is preferred, by the lists of a KEXINIT.
fn prefer(preferred: &mut Preferred, lists: &mut Reader<'_>) -> Result<(), Fault> {
    read_list(lists, &mut preferred.kex)?;
    let mut hosts = Vec::new(*preferred.kex.allocator());
    read_list(lists, &mut hosts)?;
    split(
        hosts.as_slice(),
        &mut preferred.key,
        &mut preferred.host_key_certificates,
    )?;
    read_both(lists, &mut preferred.cipher)?;
    read_both(lists, &mut preferred.mac)?;
    read_list(lists, &mut preferred.compression)
}

/// Appends the algorithms of keys among these names, and those of certificates.
fn split(
    hosts: &[HostName],
    keys: &mut Vec<Algorithm>,
    certificates: &mut Vec<Algorithm>,
) -> Result<(), Fault> {
    for host in hosts {
        match host {
            HostName::Plain(algorithm) => keys.push(*algorithm)?,
            HostName::Certificate(algorithm) => certificates.push(*algorithm)?,
        }
    }
    Ok(())
}

/// Sets names to those of the next list.
fn read_list<N: Named>(lists: &mut Reader<'_>, names: &mut Vec<N>) -> Result<(), Fault> {
    let alloc = *names.allocator();
    *names = named_all(alloc, &NameList::decode(alloc, lists)?)?;
    Ok(())
}

/// Sets names to those of the next list, and passes over that of the other direction.
fn read_both<N: Named>(lists: &mut Reader<'_>, names: &mut Vec<N>) -> Result<(), Fault> {
    read_list(lists, names)?;
    NameList::decode(*names.allocator(), lists)?;
    Ok(())
}
