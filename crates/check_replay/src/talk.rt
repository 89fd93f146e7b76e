//! What both sides of a recorded connection sent, and what was agreed.

use crate::place::{Place, Places};
use ssh_kex::DhGroup;
use ssh_mac::HashValue;
use ssh_negotiate::KexCause;
use ssh_wire::{Reader, Side};
use std::alloc::Global;
use vector_rows::{Fault, Row};

/// A packet: its message, its number plus one, its padding where that was drawn, and where it stands on the wire.
#[derive(Drop)]
pub(crate) struct Packet {
    pub payload: Vec<u8>,
    pub seqn: u32,
    pub padding: Vec<u8>,
    pub place: Place,
}

impl Packet {
    /// The message's type; 0 where it is empty.
    pub(crate) fn message_type(&self) -> u8 {
        match self.payload.first() {
            Some(message_type) => *message_type,
            None => 0,
        }
    }

    /// Whether it is a payload that is handed up.
    pub(crate) fn is_payload(&self) -> bool {
        matches!(self.message_type(), 5..=7 | 50..)
    }

    /// Whether it is a message of an exchange.
    pub(crate) fn is_kex(&self) -> bool {
        matches!(self.message_type(), 20 | 21 | 30..=34)
    }
}

/// What a side sent: its version line's text, all its bytes, its packets, and how far these reach on the wire.
#[derive(Drop)]
pub(crate) struct Speaker {
    pub id: Vec<u8>,
    pub wire: Vec<u8>,
    pub packets: Vec<Packet>,
    places: Places,
}

impl Speaker {
    fn new(alloc: Global) -> Speaker {
        Speaker {
            id: Vec::new(alloc),
            wire: Vec::new(alloc),
            packets: Vec::new(alloc),
            places: Places::new(),
        }
    }

    /// Learns of the next packet: its number plus one, its payload, its padding. Malformed where it isn't on the wire.
    fn push(&mut self, seqn: u32, payload: Vec<u8>, padding: Vec<u8>) -> Result<(), Fault> {
        let place = self
            .places
            .next_place(self.wire.as_slice(), payload.len(), padding.len())?;
        self.packets.push(Packet {
            payload,
            seqn,
            padding,
            place,
        })?;
        Ok(())
    }

    /// Learns of a row: its bytes, its keys, a packet.
    fn learn(&mut self, kind: &str, row: &Row<'_>, wanted: &str) -> Result<(), Fault> {
        if kind == "keys" {
            self.places.set_tag(row);
            return Ok(());
        }
        let bytes = row.owned_bytes();
        let (number, told) = told_by(row.alloc(), wanted)?;
        if row.is_malformed() {
            return Err(Fault::Malformed);
        }
        if kind == "wire" {
            self.begin(number, told, bytes);
            return Ok(());
        }
        self.push(number, told, bytes)
    }

    /// Learns of all its bytes, and of its version line: how many bytes that has, and its text.
    fn begin(&mut self, line: u32, id: Vec<u8>, wire: Vec<u8>) {
        self.id = id;
        self.wire = wire;
        self.places.begin(line);
    }

    /// The packets from the last KEXINIT on.
    pub(crate) fn last_exchange(&self) -> Result<&[Packet], Fault> {
        let mut start = None;
        for (i, packet) in self.packets.iter().enumerate() {
            if packet.message_type() == 20 {
                start = Some(i);
            }
        }
        match start {
            Some(start) => match self.packets.as_slice().split_at_checked(start) {
                Some((_, exchange)) => Ok(exchange),
                None => Err(Fault::Malformed),
            },
            None => Err(Fault::Malformed),
        }
    }

    /// The fields of the last message from the last KEXINIT on that has one of two types.
    pub(crate) fn last_message(&self, types: (u8, u8)) -> Result<Reader<'_>, Fault> {
        last_of(self.last_exchange()?, types)
    }
}

/// The number and the bytes that a row has as its answer.
fn told_by(alloc: Global, wanted: &str) -> Result<(u32, Vec<u8>), Fault> {
    let told = Row::of(alloc, wanted)?;
    let (number, bytes) = (told.number32(), told.owned_bytes());
    if told.is_malformed() {
        return Err(Fault::Malformed);
    }
    Ok((number, bytes))
}

/// The fields of the last of the packets whose message has one of two types.
pub(crate) fn last_of(packets: &[Packet], types: (u8, u8)) -> Result<Reader<'_>, Fault> {
    let mut last = Err(Fault::Malformed);
    for packet in packets {
        match packet.payload.as_slice().split_first() {
            Some((first, fields)) if *first == types.0 || *first == types.1 => {
                last = Ok(Reader::new(fields));
            }
            _ => {}
        }
    }
    last
}

/// What an exchange agreed on: its group where one was looked up, its values, its secret, its signature, and its hash.
#[derive(Drop)]
pub(crate) struct Agreed {
    pub group: Option<DhGroup>,
    pub client: Vec<u8>,
    pub server: Vec<u8>,
    pub host: Vec<u8>,
    pub signature: Vec<u8>,
    pub secret: Vec<u8>,
    pub hash: HashValue,
}

/// Both speakers, what their exchanges agreed on, and why the next one begins.
#[derive(Drop)]
pub(crate) struct Talk {
    pub client: Speaker,
    pub server: Speaker,
    pub agreed: Vec<Agreed>,
    pub cause: KexCause,
    alloc: Global,
}

impl Talk {
    /// Nothing was sent.
    pub(crate) fn new(alloc: Global) -> Talk {
        Talk {
            client: Speaker::new(alloc),
            server: Speaker::new(alloc),
            agreed: Vec::new(alloc),
            cause: KexCause::Initial,
            alloc,
        }
    }

    /// A side, and its peer.
    pub(crate) fn sides(&self, side: Side) -> (&Speaker, &Speaker) {
        match side {
            Side::Client => (&self.client, &self.server),
            Side::Server => (&self.server, &self.client),
        }
    }

    /// Learns of a row of a connection: its begin, a side's bytes, its keys, a packet. False where the kind is another.
    pub(crate) fn learn(&mut self, kind: &str, row: &Row<'_>, wanted: &str) -> Result<bool, Fault> {
        match kind {
            "connection" => {
                self.forget();
                return Ok(true);
            }
            "wire" | "keys" | "packet" | "padded" => {}
            _ => return Ok(false),
        }
        let speaker = if row.word() == "c2s" {
            &mut self.client
        } else {
            &mut self.server
        };
        speaker.learn(kind, row, wanted)?;
        if row.is_malformed() {
            return Err(Fault::Malformed);
        }
        Ok(true)
    }

    /// Begins anew.
    fn forget(&mut self) {
        *self = Talk::new(self.alloc);
    }
}
