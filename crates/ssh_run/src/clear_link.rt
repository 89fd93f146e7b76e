//! A client and a server that send clear packets to one another.

ghost use Rattle.std.specs.Prelude.{◌≡◌, ◌≤◌, ◌⊎◌, length, OnOk, IfOk, IfErr};
ghost use Rattle.ssh_wire.specs.declared.error.Error.TheVariants.{Memory};
ghost use Rattle.ssh_packet.specs.Sealing.{Clear};

use crate::receiver::Receiver;
use rand_core::Rng;
use ssh_packet::PacketWriter;
use ssh_script::{ClearReport, ClearSide, ClearStep};
use ssh_wire::{Blob, Error, PayloadList, Side, SshId};
use std::alloc::Global;
use std::mem;

/// One side of a clear link.
#[derive(Debug, Drop)]
pub struct ClearEnd {
    pub writer: PacketWriter,
    pub receiver: Receiver,
    /// How many bytes of the other's wire it took.
    pub taken: usize,
}

impl ClearEnd {
    ghost use Rattle.ssh_run.specs.ClearLink.{IsFresh, Submits, CannotSubmit, Delivers, CannotDeliver};

    /// A side that has sent its id line.
    pub fn new(alloc: Global, id: &SshId) -> Result<ClearEnd, Error>
        ensures fresh { IfOk result (IsFresh id.now) }
        ensures err { IfErr result (λ e. e ≡ Memory) }
    {
        let mut writer = PacketWriter::clear(alloc);
        writer.buffer().send_ssh_id(id)?;
        Ok(ClearEnd {
            writer,
            receiver: Receiver::new(alloc),
            taken: 0,
        })
    }

    /// Seals a payload behind what was sent.
    fn submit<R: Rng>(&mut self, rng: &mut R, payload: &[u8]) -> Result<(), Error>
        requires { self.old.writer.sealing ≡ Clear }
        ensures sent { OnOk result (Submits self.old payload.now self.new) }
        ensures cause { IfErr result (CannotSubmit payload.now) }
    {
        if payload.is_empty() {
            return Err(Error::PacketSize(0));
        }
        self.writer.packet_raw(rng, payload)
    }

    /// Takes so many bytes of the other's wire, or all that wait where fewer do.
    fn deliver(&mut self, alloc: Global, wire: &[u8], count: u64) -> Result<(), Error>
        requires { self.old.taken ≤ length wire.now }
        ensures taken { OnOk result (Delivers self.old wire.now count self.new) }
        ensures cause { IfErr result (CannotDeliver self.old wire.now count) }
    {
        let waiting = wire.len() - self.taken;
        let count = count.min(waiting as u64) as usize;
        self.receiver
            .take(alloc, &wire[self.taken..self.taken + count])?;
        self.taken += count;
        Ok(())
    }

    /// What the side did.
    fn report(self, alloc: Global) -> ClearSide
        ensures wire { result.wire ≡ self.writer.output }
        ensures taken { result.taken ≡ self.taken }
        ensures delivered { result.delivered ≡ self.receiver.delivered.items }
    {
        let mut writer = self.writer;
        let buffer = writer.buffer();
        let wire = mem::replace(&mut buffer.buffer, Vec::new(alloc));
        ClearSide {
            wire: Blob::new(wire),
            taken: self.taken as u64,
            delivered: PayloadList::new(self.receiver.delivered),
        }
    }
}

/// Both sides.
#[derive(Debug, Drop)]
pub struct ClearLink {
    pub client: ClearEnd,
    pub server: ClearEnd,
}

impl ClearLink {
    ghost use Rattle.ssh_run.specs.ClearLink.{IsFresh, StepsOn, CannotStep, TakesWithin};

    /// Two sides that have sent their id lines.
    pub fn new(alloc: Global, client_id: &SshId, server_id: &SshId) -> Result<ClearLink, Error>
        ensures client { IfOk result (λ link. IsFresh client_id.now link.client) }
        ensures server { IfOk result (λ link. IsFresh server_id.now link.server) }
        ensures err { IfErr result (λ e. e ≡ Memory) }
    {
        Ok(ClearLink {
            client: ClearEnd::new(alloc, client_id)?,
            server: ClearEnd::new(alloc, server_id)?,
        })
    }

    /// Carries out one step.
    pub fn step<R: Rng>(
        &mut self,
        alloc: Global,
        rng: &mut R,
        step: &ClearStep,
    ) -> Result<(), Error>
        requires { TakesWithin self.old }
        ensures step { OnOk result (StepsOn self.old step.now self.new) }
        ensures cause { IfErr result (CannotStep self.old step.now) }
    {
        match step {
            ClearStep::Submit(Side::Client, payload) => self.client.submit(rng, payload.as_slice()),
            ClearStep::Submit(Side::Server, payload) => self.server.submit(rng, payload.as_slice()),
            ClearStep::Deliver(Side::Client, count) => {
                self.client
                    .deliver(alloc, self.server.writer.output(), *count)
            }
            ClearStep::Deliver(Side::Server, count) => {
                self.server
                    .deliver(alloc, self.client.writer.output(), *count)
            }
        }
    }

    /// What both sides did.
    pub fn report(self, alloc: Global) -> ClearReport
        ensures client_wire { result.client.wire ≡ self.client.writer.output }
        ensures client_taken { result.client.taken ≡ self.client.taken }
        ensures client_delivered { result.client.delivered ≡ self.client.receiver.delivered.items }
        ensures server_wire { result.server.wire ≡ self.server.writer.output }
        ensures server_taken { result.server.taken ≡ self.server.taken }
        ensures server_delivered { result.server.delivered ≡ self.server.receiver.delivered.items }
    {
        ClearReport {
            client: self.client.report(alloc),
            server: self.server.report(alloc),
        }
    }
}
