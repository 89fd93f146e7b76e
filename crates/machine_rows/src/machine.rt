//! The machine of either side.

ghost use Rattle.std.specs.Prelude.{◌^◌, ◌<◌, All, IsTrue, IfOk, IfSome, length};
ghost use Rattle.ssh_kex.specs.Refusals.{IsCreated};
ghost use Rattle.ssh_server_kex.specs.ServerRows.{AreShortBlobs};
ghost use Rattle.ssh_negotiate.specs.declared.preferred.HostCertificate.{HostCertificate};
ghost use Rattle.ssh_negotiate.specs.declared.preferred.HostKey.{HostKey};

use rand_core::Rng;
use ssh_client_kex::ClientKex;
use ssh_kex::{Agreement, Config, GroupLookup, HostKeys, KexProgress, NewKeys, Parts};
use ssh_negotiate::{HostCertificate, HostKey, KexCause, ServerKeys, can_be_advertised};
use ssh_packet::{Incoming, PacketWriter};
use ssh_server_kex::ServerKex;
use ssh_wire::{Error, Side};
use std::alloc::Global;
use vector_rows::Fault;

/// The machine of either side while it runs, and the keys once it is done; neither once it refused a message.
///
/// It stays where it is made, and its calls lend it: a check lists all that it holds anew wherever a function moves it.
#[derive(Drop)]
pub struct Machine<'c> {
    alloc: Global,
    client: Option<ClientKex<'c>>,
    server: Option<ServerKex<'c>>,
    keys: Option<NewKeys>,
}

/// What a step leads to.
#[derive(Clone, Copy, PartialEq, Eq)]
pub enum Progress {
    /// Another message is awaited.
    Waits,
    /// The same, and the numbers of the own packets begin again.
    Resets,
    Done,
}

impl Progress {
    fn waits(reset_seqn: bool) -> Progress {
        if reset_seqn {
            Progress::Resets
        } else {
            Progress::Waits
        }
    }
}

impl<'c> Machine<'c> {
    /// One that doesn't run yet.
    pub fn new(alloc: Global) -> Machine<'c> {
        Machine {
            alloc,
            client: None,
            server: None,
            keys: None,
        }
    }

    /// Begins as a side that sends its KEXINIT, with this text of the peer's version line.
    pub fn begin<R: Rng>(
        &mut self,
        side: Side,
        config: &'c Config,
        peer_id: &[u8],
        cause: KexCause,
        rng: &mut R,
        output: &mut PacketWriter,
    ) -> Result<(), Fault> {
        match side {
            Side::Client => {
                begin_client(
                    self.alloc,
                    config,
                    peer_id,
                    cause,
                    rng,
                    output,
                    &mut self.client,
                )
            }
            Side::Server => {
                begin_server(
                    self.alloc,
                    config,
                    peer_id,
                    cause,
                    rng,
                    output,
                    &mut self.server,
                )
            }
        }
    }

    /// Whether it awaits a message.
    pub fn runs(&self) -> bool {
        self.client.is_some() || self.server.is_some()
    }

    /// The keys once it is done.
    pub fn keys(&self) -> Option<&NewKeys> {
        self.keys.as_ref()
    }

    /// Gives it a message, or none. PacketSize for one of 2^31 bytes or more, which the machine isn't given;
    /// Inconsistent where it doesn't run.
    pub fn step<A: Agreement, H: HostKeys, G: GroupLookup, R: Rng>(
        &mut self,
        parts: &mut Parts<A, H, G, R>,
        input: Option<Incoming<'_>>,
        output: &mut PacketWriter,
    ) -> Result<Progress, Error> {
        if input.is_some_and(|incoming| incoming.payload.len() >= 1 << 31) {
            return Err(Error::PacketSize(0));
        }
        if self.server.is_some() {
            self.step_of_server(parts, input, output)
        } else {
            self.step_of_client(parts, input, output)
        }
    }

    fn step_of_client<A: Agreement, H: HostKeys, G: GroupLookup, R: Rng>(
        &mut self,
        parts: &mut Parts<A, H, G, R>,
        input: Option<Incoming<'_>>,
        output: &mut PacketWriter,
    ) -> Result<Progress, Error>
        requires { IfSome input (λ i. length i.payload.now < 2 ^ 31) }
    {
        let Some(kex) = self.client.take() else {
            return Err(Error::Inconsistent);
        };
        match kex.step(parts, input, output) {
            Ok(progress) => Ok(self.keep_client(progress)),
            Err(error) => Err(error),
        }
    }

    /// Keeps what a step of a client leads to.
    fn keep_client(&mut self, progress: KexProgress<ClientKex<'c>>) -> Progress {
        match progress {
            KexProgress::NeedsReply { kex, reset_seqn } => {
                self.client = Some(kex);
                Progress::waits(reset_seqn)
            }
            KexProgress::Done { newkeys, .. } => {
                self.keys = Some(newkeys);
                Progress::Done
            }
        }
    }

    fn step_of_server<A: Agreement, H: HostKeys, G: GroupLookup, R: Rng>(
        &mut self,
        parts: &mut Parts<A, H, G, R>,
        input: Option<Incoming<'_>>,
        output: &mut PacketWriter,
    ) -> Result<Progress, Error>
        requires { IfSome input (λ i. length i.payload.now < 2 ^ 31) }
    {
        let Some(kex) = self.server.take() else {
            return Err(Error::Inconsistent);
        };
        match kex.step(parts, input, output) {
            Ok(progress) => Ok(self.keep_server(progress)),
            Err(error) => Err(error),
        }
    }

    /// Keeps what a step of a server leads to.
    fn keep_server(&mut self, progress: KexProgress<ServerKex<'c>>) -> Progress {
        match progress {
            KexProgress::NeedsReply { kex, reset_seqn } => {
                self.server = Some(kex);
                Progress::waits(reset_seqn)
            }
            KexProgress::Done { newkeys, .. } => {
                self.keys = Some(newkeys);
                Progress::Done
            }
        }
    }
}

/// Makes a client that sends its KEXINIT, and puts it in its place.
fn begin_client<'c, R: Rng>(
    alloc: Global,
    config: &'c Config,
    peer_id: &[u8],
    cause: KexCause,
    rng: &mut R,
    output: &mut PacketWriter,
    place: &mut Option<ClientKex<'c>>,
) -> Result<(), Fault> {
    let mut kex = client_of(alloc, config, peer_id, cause)?;
    let sent = kex.kexinit(rng, output);
    *place = Some(kex);
    Ok(sent?)
}

/// The same of a server.
fn begin_server<'c, R: Rng>(
    alloc: Global,
    config: &'c Config,
    peer_id: &[u8],
    cause: KexCause,
    rng: &mut R,
    output: &mut PacketWriter,
    place: &mut Option<ServerKex<'c>>,
) -> Result<(), Fault> {
    let mut kex = server_of(alloc, config, peer_id, cause)?;
    let sent = kex.kexinit(rng, output);
    *place = Some(kex);
    Ok(sent?)
}

/// A client before its KEXINIT. Malformed where what it would hash or offer is too long.
#[tactic(auto, unfolding(ssh_negotiate::specs::Advertised::offers_with))]
fn client_of<'c>(
    alloc: Global,
    config: &'c Config,
    peer_id: &[u8],
    cause: KexCause,
) -> Result<ClientKex<'c>, Fault>
    ensures { IfOk result (λ k. IsCreated k.stage) }
{
    if !is_short(config.id.as_kex_hash_bytes())
        || !is_short(peer_id)
        || !can_be_advertised(&config.preferred, None)
    {
        return Err(Fault::Malformed);
    }
    Ok(ClientKex::new(alloc, config, &config.id, peer_id, cause)?)
}

/// A server before its KEXINIT. Malformed where what it would hash or offer is too long.
fn server_of<'c>(
    alloc: Global,
    config: &'c Config,
    peer_id: &[u8],
    cause: KexCause,
) -> Result<ServerKex<'c>, Fault>
    ensures { IfOk result (λ k. IsCreated k.stage) }
{
    if !is_short(config.id.as_kex_hash_bytes())
        || !is_short(peer_id)
        || !are_short(&config.host)
        || !can_be_advertised(&config.preferred, Some(&config.host))
    {
        return Err(Fault::Malformed);
    }
    Ok(ServerKex::new(alloc, config, peer_id, &config.id, cause)?)
}

/// Whether there are under 2^31 bytes.
fn is_short(bytes: &[u8]) -> bool
    ensures { IsTrue result → length bytes.now < 2 ^ 31 }
{
    bytes.len() < 1 << 31
}

/// Whether no blob has 2^31 bytes or more.
fn are_short(host: &ServerKeys) -> bool
    ensures { IsTrue result → AreShortBlobs host.now }
{
    host.keys
        .iter()
        .all(|key| key.blob.as_slice().len() < 1 << 31)
        && host
            .certificates
            .iter()
            .all(|certificate| certificate.blob.as_slice().len() < 1 << 31)
}
