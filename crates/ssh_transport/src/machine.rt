//! The machine of an exchange, of either side.

ghost use Rattle.std.specs.Prelude.{◌≡◌, ◌+◌, ◌≤◌, ◌<◌, ◌^◌, [], Some, IfErr, IfOk, OnErr, OnOk, length, is_some};
ghost use Rattle.ssh_kex.specs.Refusals.{IsCreated};
ghost use Rattle.ssh_kex.specs.Stages.{Created, is_strict, names_in_stage, has_ignored};
ghost use Rattle.ssh_transport.specs.Kexinits.{setting_between};
ghost use Rattle.ssh_transport.specs.SessionCalls.{SaysKexinit, StepsMachine};
ghost use Rattle.ssh_transport.specs.Usable.{IsUsable};
ghost use Rattle.ssh_wire.specs.declared.error.Error.TheVariants.{Memory};
ghost use Rattle.ssh_wire.specs.declared.side.Side.TheVariants.{Client as client_side, Server as server_side};

use crate::calls::Calling;
use rand_core::Rng;
use ssh_client_kex::ClientKex;
use ssh_kex::{Agreement, Config, GroupLookup, Handed, HostKeys, KexProgress, Parts};
use ssh_negotiate::KexCause;
use ssh_packet::{Incoming, PacketWriter};
use ssh_server_kex::ServerKex;
use ssh_wire::{Error, Side};
use std::alloc::Global;
use std::marker::Model;

#[derive(Drop)]
enum SideKex<'c> {
    Client(ClientKex<'c>),
    Server(ServerKex<'c>),
}

/// An exchange's machine, a client's or a server's.
#[derive(Drop)]
pub(crate) struct SessionKex<'c> {
    side: SideKex<'c>,
}

impl<'c> Model for SessionKex<'c> {
    ghost use Rattle.ssh_kex.specs.Stages.{Machine};
    ghost use Rattle.ssh_transport.specs.Machines.{IsOfSide, machine_in};

    ghost Value = { Machine };

    ghost view = { λ k. machine_in k.side };

    ghost invariant = { λ k. IsOfSide k.side };
}

impl<'c> SessionKex<'c> {
    /// A side's machine of the exchange that the cause begins, with this text of the peer's version line, before its
    /// KEXINIT. Memory.
    pub(crate) fn new(
        alloc: Global,
        side: Side,
        config: &'c Config,
        peer_id: &[u8],
        cause: KexCause,
    ) -> Result<SessionKex<'c>, Error>
        requires usable { IsUsable side config.now }
        requires short { length peer_id.now < 2 ^ 31 }
        ensures ok { IfOk result (λ k. k ≡ record {
          setting = setting_between side config.now peer_id.now cause;
          stage = Created [];
        }) }
        ensures err { IfErr result (λ e. e ≡ Memory) }
    {
        match side {
            Side::Client => {
                let kex = ClientKex::new(alloc, config, &config.id, peer_id, cause)?;
                Ok(SessionKex {
                    side: SideKex::Client(kex),
                })
            }
            Side::Server => {
                let kex = ServerKex::new(alloc, config, peer_id, &config.id, cause)?;
                Ok(SessionKex {
                    side: SideKex::Server(kex),
                })
            }
        }
    }

    /// Sends the own KEXINIT. Memory, and then machine and writer are as they were.
    pub(crate) fn kexinit<R: Rng>(
        &mut self,
        rng: &mut R,
        output: &mut PacketWriter,
    ) -> Result<(), Error>
        requires { IsCreated self.old.stage }
        ensures { SaysKexinit self.old output.old (R.stream rng.old) result self.new output.new (R.stream rng.new) }
    {
        match &mut self.side {
            SideKex::Client(kex) => client_kexinit(kex, rng, output),
            SideKex::Server(kex) => server_kexinit(kex, rng, output),
        }
    }

    /// Whether the peer's KEXINIT was read.
    pub(crate) fn peer_kexinit_received(&self) -> bool
        ensures { result ≡ is_some (names_in_stage self.now.stage) }
    {
        match &self.side {
            SideKex::Client(kex) => kex.peer_kexinit_received(),
            SideKex::Server(kex) => kex.peer_kexinit_received(),
        }
    }

    /// Whether the exchange is strict, as far as the peer's KEXINIT was read.
    pub(crate) fn strict_kex(&self) -> bool
        ensures { result ≡ is_strict (names_in_stage self.now.stage) }
    {
        match &self.side {
            SideKex::Client(kex) => kex.strict_kex(),
            SideKex::Server(kex) => kex.strict_kex(),
        }
    }

    /// Whether a wrong guess of the peer was dropped.
    pub(crate) fn guess_ignored(&self) -> bool
        ensures { result ≡ has_ignored (names_in_stage self.now.stage) }
    {
        match &self.side {
            SideKex::Client(kex) => kex.guess_ignored(),
            SideKex::Server(kex) => kex.guess_ignored(),
        }
    }

    /// One message of the peer. A refusal leaves no machine.
    pub(crate) fn step<A: Agreement, H: HostKeys, G: GroupLookup, R: Rng>(
        self,
        parts: &mut Parts<A, H, G, R>,
        incoming: Incoming<'_>,
        output: &mut PacketWriter,
    ) -> Result<KexProgress<SessionKex<'c>>, Error>
        requires { length incoming.payload.now < 2 ^ 31 }
        ensures { StepsMachine (⟦<Parts<A, H, G, R> as Calling>⟧.call parts.old parts.new) self.entry incoming.entry
            output.old result output.new }
    {
        match self.side {
            SideKex::Client(kex) => Ok(client_progress(kex.step(parts, Some(incoming), output)?)),
            SideKex::Server(kex) => Ok(server_progress(kex.step(parts, Some(incoming), output)?)),
        }
    }
}

fn client_kexinit<'c, R: Rng>(
    kex: &mut ClientKex<'c>,
    rng: &mut R,
    output: &mut PacketWriter,
) -> Result<(), Error>
    requires created { IsCreated kex.old.stage }
    requires side { kex.old.setting.side ≡ client_side }
    ensures { SaysKexinit kex.old output.old (R.stream rng.old) result kex.new output.new (R.stream rng.new) }
{
    kex.kexinit(rng, output)
}

fn server_kexinit<'c, R: Rng>(
    kex: &mut ServerKex<'c>,
    rng: &mut R,
    output: &mut PacketWriter,
) -> Result<(), Error>
    requires created { IsCreated kex.old.stage }
    requires side { kex.old.setting.side ≡ server_side }
    ensures { SaysKexinit kex.old output.old (R.stream rng.old) result kex.new output.new (R.stream rng.new) }
{
    kex.kexinit(rng, output)
}

fn client_progress<'c>(progress: KexProgress<ClientKex<'c>>) -> KexProgress<SessionKex<'c>>
    ensures { result ≡ progress.entry }
{
    match progress {
        KexProgress::NeedsReply { kex, reset_seqn } => KexProgress::NeedsReply {
            kex: SessionKex {
                side: SideKex::Client(kex),
            },
            reset_seqn,
        },
        KexProgress::Done {
            server_host,
            newkeys,
        } => KexProgress::Done {
            server_host,
            newkeys,
        },
    }
}

fn server_progress<'c>(progress: KexProgress<ServerKex<'c>>) -> KexProgress<SessionKex<'c>>
    ensures { result ≡ progress.entry }
{
    match progress {
        KexProgress::NeedsReply { kex, reset_seqn } => KexProgress::NeedsReply {
            kex: SessionKex {
                side: SideKex::Server(kex),
            },
            reset_seqn,
        },
        KexProgress::Done {
            server_host,
            newkeys,
        } => KexProgress::Done {
            server_host,
            newkeys,
        },
    }
}
