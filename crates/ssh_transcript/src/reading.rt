//! Both recorded wires, exchange by exchange.

ghost use Rattle.std.specs.Prelude.{◌≡◌, ℕ, suc, List, [], length, slice_get, IfOk, IfErr, IfSome, IsTrue, None, Some, Ok, OnOk, false};
ghost use Rattle.std.specs.Option.{option_copied};
ghost use Rattle.ssh_rules.specs.Headline.{first_hash};
ghost use Rattle.ssh_record.specs.Recordings.{JudgedRecord, config_in, wire_in};
ghost use Rattle.ssh_record.specs.declared.report.AuditEnd.TheVariants.{Fault, Memory};
ghost use Rattle.ssh_record.specs.declared.report.AuditFault.TheVariants.{Packet as PacketFault, Secrets};
ghost use Rattle.ssh_wire.specs.declared.side.Side.TheVariants.{Client as client_side, Server as server_side};
ghost use Rattle.ssh_transcript.specs.Ends.{IsLaterEnd, IsLaterFault};
ghost use Rattle.ssh_transcript.specs.Making.{session_or};
ghost use Rattle.ssh_transcript.specs.Reading.{AreGoodWires, AreOpen, AreRead, FromBlocks, FromBoth, FromEnds, HaveEnded, HaveNone, IsMadeNext, IsOneMore, IsOpen, IsPacketFault, IsReadingEnd, IsSetting, judged_under, kept_of};

use crate::exchange::{Made, exchange_made};
use crate::packet::Packet;
use crate::setting::Setting;
use crate::wire::WireReader;
use ssh_blocks::values_of;
use ssh_kex::FinishedExchange;
use ssh_mac::HashValue;
use ssh_record::{AuditEnd, AuditFault, Transcript};
use ssh_rules::link::Step;
use ssh_wire::{Blob, Payload, Side, SshId};
use std::alloc::{AllocError, Global};

/// Two wires, and the exchanges that stand whole on both.
#[derive(Drop)]
pub struct ReadWires<'w> {
    client: WireReader<'w>,
    server: WireReader<'w>,
    exchanges: Vec<FinishedExchange>,
}

/// Reads both wires of a record, as far as exchanges stand on both. Secrets where one stands whole on both and no
/// secret is given for it; Memory.
pub fn read_wires<'w>(
    alloc: Global,
    setting: &'w Setting<'_>,
    transcript: &'w Transcript,
) -> Result<ReadWires<'w>, AuditEnd>
    requires { IsSetting setting.now }
    ensures read { IfOk result (AreRead (judged_under setting.now transcript.now)) }
    ensures refused { IfErr result (IsReadingEnd (judged_under setting.now transcript.now)) }
    ensures later { IfErr result IsLaterEnd }
{
    let secrets = secrets_of(transcript);
    let mut wires = ReadWires::new(alloc, setting, transcript)?;
    for _ in 0..secrets.len() + 1 {
        if !wires.read_exchange(alloc, setting, secrets)? {
            return Ok(wires);
        }
    }
    Ok(wires)
}

/// The secrets of a record.
fn secrets_of(transcript: &Transcript) -> &[Blob]
    ensures { result.now ≡ transcript.now.secrets }
{
    transcript.secrets.as_slice()
}

/// The version of a side, its wire, and the steps.
fn parts_of<'w>(
    setting: &'w Setting<'_>,
    transcript: &'w Transcript,
    side: Side,
) -> (&'w SshId, &'w [u8], &'w [Step])
    ensures id { result.0.now ≡ (config_in side (judged_under setting.now transcript.now)).id }
    ensures wire { result.1.now ≡ wire_in side (judged_under setting.now transcript.now) }
    ensures steps { result.2.now ≡ transcript.now.steps }
{
    let steps = transcript.steps.as_slice();
    match side {
        Side::Client => (&setting.client.id, transcript.client.as_slice(), steps),
        Side::Server => (&setting.server.id, transcript.server.as_slice(), steps),
    }
}

/// A wire of a record of which nothing is read yet. Memory.
fn unread<'w>(
    alloc: Global,
    setting: &'w Setting<'_>,
    transcript: &'w Transcript,
    side: Side,
) -> Result<WireReader<'w>, AuditEnd>
    requires { IsSetting setting.now }
    ensures open { IfOk result (IsOpen side (judged_under setting.now transcript.now) []) }
    ensures memory { IfErr result (λ e. e ≡ Memory) }
{
    let rules = setting.rules(side);
    let (id, wire, steps) = parts_of(setting, transcript, side);
    match WireReader::new(alloc, id, wire, rules, steps) {
        Ok(reader) => Ok(reader),
        Err(_) => Err(AuditEnd::Memory),
    }
}

impl<'w> ReadWires<'w> {
    /// Both wires, of which nothing is read yet. Memory.
    fn new(
        alloc: Global,
        setting: &'w Setting<'_>,
        transcript: &'w Transcript,
    ) -> Result<ReadWires<'w>, AuditEnd>
        requires { IsSetting setting.now }
        ensures open { IfOk result (AreOpen (judged_under setting.now transcript.now)) }
        ensures none { IfOk result (λ w. w.exchanges.items ≡ []) }
        ensures memory { IfErr result (λ e. e ≡ Memory) }
    {
        let client = unread(alloc, setting, transcript, Side::Client)?;
        let server = unread(alloc, setting, transcript, Side::Server)?;
        Ok(ReadWires {
            client,
            server,
            exchanges: Vec::new(alloc),
        })
    }

    /// Reads both wires up to the end of the next exchange, and makes it. Whether there was one.
    fn read_exchange(
        &mut self,
        alloc: Global,
        setting: &Setting<'_>,
        secrets: &[Blob],
    ) -> Result<bool, AuditEnd>
        requires { IsSetting setting.now }
        ensures more { IfOk result (λ more. IsTrue more
            → FromBoth self.old setting.now secrets.now (λ j. IsOneMore j self.old self.new)) }
        ensures last { result ≡ Ok false → FromBoth self.old setting.now secrets.now (λ j. AreRead j self.new) }
        ensures stops { IfErr result (λ e. FromBoth self.old setting.now secrets.now (λ j. IsReadingEnd j e)) }
    {
        let ended = self.read_epochs()?;
        if !ended {
            return Ok(false);
        }
        self.take_next(alloc, setting, secrets)
    }

    /// Reads both wires to the end of the epoch. Whether it ended on both. Memory.
    fn read_epochs(&mut self) -> Result<bool, AllocError>
        ensures ended { IfOk result (λ ended. IsTrue ended → (j : JudgedRecord) → AreOpen j self.old
            → HaveEnded j self.new) }
        ensures over { result ≡ Ok false → (j : JudgedRecord) → AreOpen j self.old → AreRead j self.new }
        ensures exchanges { self.new.exchanges ≡ self.old.exchanges }
    {
        let client_ended = self.client.read_epoch()?;
        let server_ended = self.server.read_epoch()?;
        if !client_ended {
            return Ok(false);
        }
        Ok(server_ended)
    }

    /// Makes the exchange of two epochs that ended, and goes on under its keys. Whether there was one.
    fn take_next(
        &mut self,
        alloc: Global,
        setting: &Setting<'_>,
        secrets: &[Blob],
    ) -> Result<bool, AuditEnd>
        requires { IsSetting setting.now }
        ensures more { IfOk result (λ more. IsTrue more
            → FromEnds self.old setting.now secrets.now (λ j. IsOneMore j self.old self.new)) }
        ensures last { result ≡ Ok false → FromEnds self.old setting.now secrets.now (λ j. AreRead j self.new) }
        ensures stops { IfErr result (λ e. FromEnds self.old setting.now secrets.now (λ j. IsReadingEnd j e)) }
    {
        match self.made(alloc, setting, secrets)? {
            None => Ok(false),
            Some(made) => {
                self.take(made)?;
                Ok(true)
            }
        }
    }

    /// The exchange that the open blocks make, where both are whole and their values can be read.
    fn made(
        &self,
        alloc: Global,
        setting: &Setting<'_>,
        secrets: &[Blob],
    ) -> Result<Option<Made>, AuditEnd>
        requires { IsSetting setting.now }
        ensures made { IfOk result (λ m. IfSome m (λ x. FromEnds self.now setting.now secrets.now
            (λ j. IsMadeNext j self.now.exchanges.items x))) }
        ensures none { result ≡ Ok None → FromEnds self.now setting.now secrets.now
            (λ j. HaveNone j self.now.exchanges.items) }
        ensures stops { IfErr result (λ e. FromEnds self.now setting.now secrets.now (λ j. IsReadingEnd j e)) }
    {
        match self.client.whole_block() {
            None => Ok(None),
            Some(client) => match self.server.whole_block() {
                None => Ok(None),
                Some(server) => self.made_of(alloc, setting, secrets, client, server),
            },
        }
    }

    /// The exchange of two whole blocks, where their values can be read.
    fn made_of(
        &self,
        alloc: Global,
        setting: &Setting<'_>,
        secrets: &[Blob],
        client: &[Payload],
        server: &[Payload],
    ) -> Result<Option<Made>, AuditEnd>
        requires { IsSetting setting.now }
        ensures made { IfOk result (λ m. IfSome m (λ x. FromBlocks self.now setting.now secrets.now client.now
            server.now (λ j. IsMadeNext j self.now.exchanges.items x))) }
        ensures none { result ≡ Ok None → FromBlocks self.now setting.now secrets.now client.now server.now
            (λ j. HaveNone j self.now.exchanges.items) }
        ensures stops { IfErr result (λ e. FromBlocks self.now setting.now secrets.now client.now server.now
            (λ j. IsReadingEnd j e)) }
    {
        match values_of(client, server, setting.kind()) {
            None => Ok(None),
            Some(values) => match secret_behind(secrets, self.exchanges.as_slice()) {
                None => Err(self.lacking()),
                Some(secret) => {
                    let session_id = session_of(self.exchanges.as_slice());
                    match exchange_made(alloc, setting, &values, secret.as_slice(), session_id) {
                        Ok(made) => Ok(Some(made)),
                        Err(_) => Err(AuditEnd::Memory),
                    }
                }
            },
        }
    }

    /// One exchange more stands whole than there are secrets.
    fn lacking(&self) -> AuditEnd
        ensures { result ≡ Fault (Secrets (suc (length self.now.exchanges.items))) }
    {
        AuditEnd::Fault(AuditFault::Secrets {
            blocks: (self.exchanges.as_slice().len() as u64).saturating_add(1),
        })
    }

    /// Both wires go on under the keys of an exchange. Memory.
    fn take(&mut self, made: Made) -> Result<(), AuditEnd>
        ensures next { OnOk result ((j : JudgedRecord) → HaveEnded j self.old
            → IsMadeNext j self.old.exchanges.items made → IsOneMore j self.old self.new) }
        ensures memory { IfErr result (λ e. e ≡ Memory) }
    {
        let is_strict = made.exchange.names.strict_kex;
        self.client.take_keys(made.directions.client, is_strict);
        self.server.take_keys(made.directions.server, is_strict);
        self.exchanges.push(made.exchange)?;
        Ok(())
    }

    /// The first packet that isn't good, of the client's wire, or where that is good of the server's.
    pub fn first_bad(&self) -> Option<AuditFault>
        ensures none { result ≡ None → (j : JudgedRecord) → AreRead j self.now → AreGoodWires j self.now }
        ensures some { IfSome result (λ f. (j : JudgedRecord) → AreRead j self.now → IsPacketFault j f) }
        ensures later { IfSome result IsLaterFault }
    {
        first_fault(self.client.first_bad(), self.server.first_bad())
    }

    /// The packets of a side's wire.
    pub fn packets(&self, side: Side) -> &[Packet]
        ensures { result.now ≡ kept_of side self.now }
    {
        match side {
            Side::Client => self.client.packets(),
            Side::Server => self.server.packets(),
        }
    }

    /// The exchanges.
    pub fn into_exchanges(self) -> Vec<FinishedExchange>
        ensures { result.items ≡ self.entry.exchanges.items }
    {
        self.exchanges
    }
}

/// The fault of the client's packets, or where they have none of the server's.
fn first_fault(client: Option<u64>, server: Option<u64>) -> Option<AuditFault>
    ensures later { IfSome result IsLaterFault }
    ensures client { (place : ℕ) → client ≡ Some place → result ≡ Some (PacketFault client_side place) }
    ensures server { (place : ℕ) → client ≡ None → server ≡ Some place
        → result ≡ Some (PacketFault server_side place) }
    ensures none { client ≡ None → server ≡ None → result ≡ None }
{
    match (client, server) {
        (Some(place), _) => Some(AuditFault::Packet {
            side: Side::Client,
            place,
        }),
        (None, Some(place)) => Some(AuditFault::Packet {
            side: Side::Server,
            place,
        }),
        (None, None) => None,
    }
}

/// The secret of the exchange behind these, where it is given.
fn secret_behind<'s>(secrets: &'s [Blob], exchanges: &[FinishedExchange]) -> Option<&'s Blob>
    ensures { option_copied result ≡ slice_get secrets.now (length exchanges.now) }
{
    secrets.get(exchanges.len())
}

/// The hash of the first exchange.
fn session_of(exchanges: &[FinishedExchange]) -> Option<HashValue>
    ensures { (hash : List ℕ) → session_or result hash ≡ first_hash exchanges.now hash }
{
    match exchanges {
        [first, ..] => Some(first.hash),
        [] => None,
    }
}
