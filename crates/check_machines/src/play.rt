//! Rows of both machines, each given the other's packets.
//!
//! Configurations, machines and parts are each made by a function of its own, which lends them on: a check lists all
//! that a value holds at each place of the function that owns it.

use crate::without::Without;
use machine_rows::{Machine, Progress, config_of, keys_of, trusted_by};
use ssh_kex::{Config, GexParams, NewKeys, Parts};
use ssh_mac::HashValue;
use ssh_negotiate::{KexCause, ServerKeys, kex};
use ssh_packet::{Incoming, OpenKey, PacketReader, PacketWriter, clear};
use ssh_vectors::{Refusing, TestAgreement, TestGroups, TestHosts, TrustedHost};
use ssh_wire::Side;
use std::alloc::Global;
use vector_rows::preferences::{certificates, keys, preferred, settings};
use vector_rows::{Fault, Found, Row, Words};

const CLIENT_ID: &str = "SSH-2.0-client";

const SERVER_ID: &str = "SSH-2.0-server";

/// More than an exchange has, on each side.
const TURNS: usize = 8;

type Handed = Parts<
    Without<Refusing<TestAgreement>>,
    Refusing<TestHosts>,
    Refusing<TestGroups>,
    Words<'static>,
>;

/// `play PREFERENCES PREFERENCES KEYS CERTIFICATES CAUSE SETTINGS MESSAGES..`: what each step of both machines writes
/// and leads to, the client's first, where each is given the other's packets in turn. The first message goes to the
/// client.
pub(crate) fn answer(row: &Row<'_>, found: &Found) -> Result<(), Fault> {
    let mut client = client_of(row)?;
    play_client_row(&mut client, row, found)
}

/// How a client is set up, by the next word.
fn client_of(row: &Row<'_>) -> Result<Config, Fault> {
    let none = ServerKeys {
        keys: Vec::new(row.alloc()),
        certificates: Vec::new(row.alloc()),
    };
    config_of(row.alloc(), CLIENT_ID, preferred(row)?, sizes(), none)
}

/// How a server is set up, by the next words.
fn server_of(row: &Row<'_>) -> Result<Config, Fault> {
    let prefers = preferred(row)?;
    match host_of(row) {
        Ok(host) => config_of(row.alloc(), SERVER_ID, prefers, sizes(), host),
        Err(fault) => Err(fault),
    }
}

/// The keys and certificates of the next words.
fn host_of(row: &Row<'_>) -> Result<ServerKeys, Fault> {
    match (keys(row)?, certificates(row)?) {
        (Some(keys), Some(certificates)) => Ok(ServerKeys { keys, certificates }),
        _ => Err(Fault::Malformed),
    }
}

/// The sizes of groups where none are set.
fn sizes() -> GexParams {
    GexParams {
        min_group_size: 2048,
        preferred_group_size: 3072,
        max_group_size: 8192,
    }
}

/// Lets a client speak with a server that the next words set up.
fn play_client_row(client: &mut Config, row: &Row<'_>, found: &Found) -> Result<(), Fault> {
    let mut server = server_of(row)?;
    play_row(client, &mut server, row, found)
}

/// Lets a client and a server speak by the words that are left, once these have set what else they set.
fn play_row(
    client: &mut Config,
    server: &mut Config,
    row: &Row<'_>,
    found: &Found,
) -> Result<(), Fault> {
    let cause = cause_of(row);
    let settings = Settings::of(row)?;
    let given = given_of(row)?;
    if settings.blob > 0 {
        server.host.keys = keys_of(row.alloc(), settings.blob)?;
    }
    client.gex = settings.gex;
    server.gex = settings.gex;
    let setup = Setup {
        client,
        server,
        cause,
        settings,
    };
    setup.play(given.as_slice(), found)
}

/// How both sides are set up.
#[derive(Drop)]
struct Setup<'s> {
    client: &'s Config,
    server: &'s Config,
    cause: KexCause,
    settings: Settings,
}

impl Setup<'_> {
    /// The hosts that the client trusts.
    fn trusted(&self, alloc: Global) -> Result<Vec<TrustedHost>, Fault> {
        if self.settings.trusts {
            trusted_by(alloc, &self.server.host)
        } else {
            Ok(Vec::new(alloc))
        }
    }

    /// Lets both machines speak.
    fn play(&self, given: &[Given], found: &Found) -> Result<(), Fault> {
        let mut client = Machine::new(found.alloc());
        self.play_client(&mut client, given, found)
    }

    /// Lets them speak, the client by this machine.
    fn play_client<'c>(
        &'c self,
        machine: &mut Machine<'c>,
        given: &[Given],
        found: &Found,
    ) -> Result<(), Fault> {
        let trusted = self.trusted(found.alloc())?;
        let mut parts = self.settings.handed(&self.settings.client, trusted);
        self.play_client_with(machine, &mut parts, given, found)
    }

    /// Lets them speak, the client with these parts.
    fn play_client_with<'c>(
        &'c self,
        machine: &mut Machine<'c>,
        parts: &mut Handed,
        given: &[Given],
        found: &Found,
    ) -> Result<(), Fault> {
        let mut client = Seat::new(found.alloc(), "client", machine, parts);
        client.begin(Side::Client, self.client, SERVER_ID, self.cause)?;
        self.play_against(&mut client, given, found)
    }

    /// Lets a server speak with a client that has sent its KEXINIT.
    fn play_against(
        &self,
        client: &mut Seat<'_, '_>,
        given: &[Given],
        found: &Found,
    ) -> Result<(), Fault> {
        let mut server = Machine::new(found.alloc());
        self.play_server(client, &mut server, given, found)
    }

    /// Lets it speak by this machine.
    fn play_server<'c>(
        &'c self,
        client: &mut Seat<'_, '_>,
        machine: &mut Machine<'c>,
        given: &[Given],
        found: &Found,
    ) -> Result<(), Fault> {
        let none = Vec::new(found.alloc());
        let mut parts = self.settings.handed(&self.settings.server, none);
        self.play_server_with(client, machine, &mut parts, given, found)
    }

    /// Lets it speak with these parts.
    fn play_server_with<'c>(
        &'c self,
        client: &mut Seat<'_, '_>,
        machine: &mut Machine<'c>,
        parts: &mut Handed,
        given: &[Given],
        found: &Found,
    ) -> Result<(), Fault> {
        let mut server = Seat::new(found.alloc(), "server", machine, parts);
        server.begin(Side::Server, self.server, CLIENT_ID, self.cause)?;
        spoken(client, &mut server, given, found);
        Ok(())
    }
}

/// What both say, and whether they agree where none is refused.
fn spoken(client: &mut Seat<'_, '_>, server: &mut Seat<'_, '_>, given: &[Given], found: &Found) {
    if played(client, server, given, found) {
        say_end(found, client, server);
    }
}

/// The next word as why the exchange begins: `first`, or a later one behind a first that was strict or not,
/// `strict:HASH` or `plain:HASH`.
fn cause_of(row: &Row<'_>) -> KexCause {
    let word = row.word();
    if word == "first" {
        return KexCause::Initial;
    }
    let (order, digits) = row.expect(word.split_once(':'), ("", ""));
    let bytes = row.bytes_of(digits);
    if bytes.len() > 64 || (order != "strict" && order != "plain") {
        row.reject();
        return KexCause::Initial;
    }
    KexCause::Rekey {
        strict: order == "strict",
        session_id: HashValue::of(bytes.as_slice()),
    }
}

/// Which call of each part of a side is refused, 0 for none; and which key exchange its agreement lacks.
#[derive(Clone, Copy)]
struct Refused {
    agreement: u64,
    hosts: u64,
    groups: u64,
    without: kex::Name,
}

/// What a row sets besides.
#[derive(Clone, Copy)]
struct Settings {
    gex: GexParams,
    bits: u32,
    blob: u32,
    trusts: bool,
    client: Refused,
    server: Refused,
}

impl Settings {
    /// The next word: `default`, or in its place settings of the client's sizes `least`, `wanted`, `most`, of the
    /// looked-up group's `bits`, of `blob`, as one host key whose blob has so many bytes, of `trust`, which is `none`
    /// where the client trusts no host, of the numbers of calls that are refused, such as `client_hosts`, and of the
    /// key exchange that a side's agreement lacks, such as `client_without`.
    fn of(row: &Row<'_>) -> Result<Settings, Fault> {
        let none = Refused {
            agreement: 0,
            hosts: 0,
            groups: 0,
            without: kex::NONE,
        };
        let mut given = Settings {
            gex: sizes(),
            bits: 0,
            blob: 0,
            trusts: true,
            client: none,
            server: none,
        };
        for (name, value) in settings(row)? {
            if !given.set(name, value) {
                row.reject();
            }
        }
        Ok(given)
    }

    /// Sets what a name says. False where it or the value is none.
    fn set(&mut self, name: &str, value: &str) -> bool {
        if name == "trust" && value == "none" {
            self.trusts = false;
            return true;
        }
        match name {
            "client_without" => set_name(&mut self.client.without, value),
            "server_without" => set_name(&mut self.server.without, value),
            _ => match value.parse::<u32>() {
                Ok(number) => self.set_number(name, number),
                Err(_) => false,
            },
        }
    }

    fn set_number(&mut self, name: &str, number: u32) -> bool {
        match name {
            "least" => self.gex.min_group_size = number,
            "wanted" => self.gex.preferred_group_size = number,
            "most" => self.gex.max_group_size = number,
            "bits" => self.bits = number,
            "blob" => self.blob = number,
            "client_agreement" => self.client.agreement = u64::from(number),
            "client_hosts" => self.client.hosts = u64::from(number),
            "server_agreement" => self.server.agreement = u64::from(number),
            "server_hosts" => self.server.hosts = u64::from(number),
            "server_groups" => self.server.groups = u64::from(number),
            _ => return false,
        }
        true
    }

    /// The parts of a side.
    fn handed(&self, refused: &Refused, trusted: Vec<TrustedHost>) -> Handed {
        Parts {
            agreement: Without {
                inner: refusing(TestAgreement::new(), refused.agreement),
                name: refused.without,
            },
            hosts: refusing(TestHosts::new(trusted), refused.hosts),
            groups: refusing(TestGroups { bits: self.bits }, refused.groups),
            rng: Words::of(&[]),
        }
    }
}

/// Sets the name of a key exchange. False where the value is none.
fn set_name(name: &mut kex::Name, value: &str) -> bool {
    match kex::Name::from_str(value) {
        Some(named) => {
            *name = named;
            true
        }
        None => false,
    }
}

fn refusing<T: Drop>(inner: T, refuse_at: u64) -> Refusing<T> {
    Refusing {
        inner,
        refuse_at,
        calls: 0,
        refusals: [0; 3],
    }
}

/// What is given in place of the message of a number, counted from 1 over both sides.
#[derive(Drop)]
struct Given {
    at: usize,
    how: How,
}

#[derive(Drop)]
enum How {
    /// No message.
    Nothing,
    /// The message itself.
    Itself,
    /// The message under another number.
    Numbered(u32),
    /// Another message under its number.
    Payload(Vec<u8>),
}

impl How {
    /// What is given in place of a message.
    fn instead<'i>(&'i self, incoming: Incoming<'i>) -> Option<Incoming<'i>> {
        match self {
            How::Nothing => None,
            How::Itself => Some(incoming),
            How::Numbered(seqn) => Some(Incoming {
                payload: incoming.payload,
                seqn: *seqn,
            }),
            How::Payload(payload) => Some(Incoming {
                payload: payload.as_slice(),
                seqn: incoming.seqn,
            }),
        }
    }
}

/// The words that are left, as `AT:none`, `AT:same`, `AT:#NUMBER` or `AT:PAYLOAD`. Of several for one message each is
/// given, in order.
fn given_of(row: &Row<'_>) -> Result<Vec<Given>, Fault> {
    let mut given = Vec::new(row.alloc());
    for _ in 0..row.left() {
        given.push(next_given(row))?;
    }
    Ok(given)
}

/// The next word as what is given.
fn next_given(row: &Row<'_>) -> Given {
    let word = row.word();
    let (at, how) = row.expect(word.split_once(':'), ("", ""));
    let at = number_of(row, at);
    if at > 1 << 24 {
        row.reject();
    }
    Given {
        at: at as usize,
        how: how_of(row, how),
    }
}

/// A part of a word as a number below 2^32.
fn number_of(row: &Row<'_>, digits: &str) -> u32 {
    row.expect(digits.parse::<u32>().ok(), 0)
}

fn how_of(row: &Row<'_>, how: &str) -> How {
    match how {
        "none" => How::Nothing,
        "same" => How::Itself,
        _ => match how.split_once('#') {
            Some((_, digits)) => How::Numbered(number_of(row, digits)),
            None => How::Payload(row.bytes_of(how)),
        },
    }
}

/// A side: its machine, what was handed in, and what it has written.
#[derive(Drop)]
struct Seat<'s, 'c> {
    name: &'static str,
    machine: &'s mut Machine<'c>,
    parts: &'s mut Handed,
    output: PacketWriter,
}

impl<'s, 'c> Seat<'s, 'c> {
    /// One that has sent nothing.
    fn new(
        alloc: Global,
        name: &'static str,
        machine: &'s mut Machine<'c>,
        parts: &'s mut Handed,
    ) -> Seat<'s, 'c> {
        Seat {
            name,
            machine,
            parts,
            output: PacketWriter::clear(alloc),
        }
    }

    /// Sends its KEXINIT.
    fn begin(
        &mut self,
        side: Side,
        config: &'c Config,
        peer_id: &str,
        cause: KexCause,
    ) -> Result<(), Fault> {
        self.machine.begin(
            side,
            config,
            peer_id.as_bytes(),
            cause,
            &mut self.parts.rng,
            &mut self.output,
        )
    }

    /// Gives its machine a message, or none. False where it is refused.
    fn give(&mut self, input: Option<Incoming<'_>>, found: &Found) -> bool {
        if !self.machine.runs() {
            found.fail(Fault::Malformed);
            return false;
        }
        let before = self.output.output().len();
        found.say(self.name);
        match self.machine.step(self.parts, input, &mut self.output) {
            Ok(progress) => {
                say_progress(found, progress, self.written(before));
                true
            }
            Err(error) => {
                found.say_shown(&error);
                false
            }
        }
    }

    /// What it has written behind its first bytes.
    fn written(&self, before: usize) -> &[u8] {
        match self.output.output().split_at_checked(before) {
            Some((_, written)) => written,
            None => &[],
        }
    }
}

/// Appends what a step leads to: how many bytes it wrote, or these where the machine is done.
fn say_progress(found: &Found, progress: Progress, written: &[u8]) {
    if progress == Progress::Done {
        found.say("done");
        return found.say_bytes(written);
    }
    found.say_number(written.len() as u64);
    if progress == Progress::Resets {
        found.say("reset");
    }
}

/// Gives both machines each other's packets in turn, until none is left. False where one is refused.
fn played(
    client: &mut Seat<'_, '_>,
    server: &mut Seat<'_, '_>,
    given: &[Given],
    found: &Found,
) -> bool {
    let mut to_client = PacketReader::new(found.alloc());
    let mut to_server = PacketReader::new(found.alloc());
    let mut taken = 0;
    for _ in 0..TURNS {
        if !turn(
            &mut to_client,
            &mut server.output,
            client,
            &mut taken,
            given,
            found,
        ) || !turn(
            &mut to_server,
            &mut client.output,
            server,
            &mut taken,
            given,
            found,
        ) {
            return false;
        }
    }
    true
}

/// Gives a side the other's next packet, or what is given in its place; nothing where there is none, or where the side
/// is done. False where that is refused.
fn turn(
    reader: &mut PacketReader,
    other: &mut PacketWriter,
    seat: &mut Seat<'_, '_>,
    taken: &mut usize,
    given: &[Given],
    found: &Found,
) -> bool {
    if !seat.machine.runs() {
        return true;
    }
    let n = other.output().len();
    if reader.push(other.output()).is_err() {
        found.fail(Fault::Memory);
    }
    other.consume_output(n);
    match reader.next(&mut OpenKey::Clear(clear::Key)) {
        Ok(Some(incoming)) => {
            *taken = taken.saturating_add(1);
            is_taken(seat, incoming, *taken, given, found)
        }
        _ => true,
    }
}

/// Gives a side the message of this number, or what is given in its place. False where that is refused.
fn is_taken(
    seat: &mut Seat<'_, '_>,
    incoming: Incoming<'_>,
    number: usize,
    given: &[Given],
    found: &Found,
) -> bool {
    let mut is_given = false;
    for one in given {
        if one.at == number {
            is_given = true;
            if !seat.give(one.how.instead(incoming), found) {
                return false;
            }
        }
    }
    is_given || seat.give(Some(incoming), found)
}

/// Appends whether both sides have the same, how long the hash is, and the session id, or `own` where it is the hash.
fn say_end(found: &Found, client: &Seat<'_, '_>, server: &Seat<'_, '_>) {
    match (client.machine.keys(), server.machine.keys()) {
        (Some(client), Some(server)) => say_same(found, client, server),
        _ => found.say("open"),
    }
}

/// The same of the keys of both.
fn say_same(found: &Found, client: &NewKeys, server: &NewKeys) {
    found.say(if are_same(client, server) {
        "same"
    } else {
        "other"
    });
    found.say_number(client.hash.as_bytes().len() as u64);
    if client.session_id == client.hash {
        found.say("own");
    } else {
        found.say_bytes(client.session_id.as_bytes());
    }
}

/// Whether hash, session id and keys are the others'.
fn are_same(one: &NewKeys, other: &NewKeys) -> bool {
    one.hash == other.hash
        && one.session_id == other.session_id
        && one.keys.iv_c2s == other.keys.iv_c2s
        && one.keys.iv_s2c == other.keys.iv_s2c
        && one.keys.key_c2s == other.keys.key_c2s
        && one.keys.key_s2c == other.keys.key_s2c
        && one.keys.mac_c2s == other.keys.mac_c2s
        && one.keys.mac_s2c == other.keys.mac_s2c
}
