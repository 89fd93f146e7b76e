//! A request and its answer over a channel.

ghost use Rattle.std.specs.Prelude.{◌≡◌, ◌≤◌, ◌&&◌, ◌⊎◌, [], false, true, length, Err, IfErr, IfOk, OnOk, List, ℕ};
ghost use Rattle.ssh_wire.specs.declared.side.Side.{Side};
ghost use Rattle.ssh_wire.specs.declared.side.Side.TheVariants.{Client as client_side, Server as server_side};
ghost use Rattle.ssh_channels.specs.Asking.{ReceivesAll, RefusesOneOf};
ghost use Rattle.ssh_channels.specs.Laws.{AreSettings};
ghost use Rattle.ssh_channels.specs.Muxes.{is_within};
ghost use Rattle.ssh_channels.specs.declared.config.MuxConfig.{MuxConfig as config_of};
ghost use Rattle.ssh_channels.specs.declared.fault.MuxFault.TheVariants.{Memory};
ghost use Rattle.uses_above.specs.declared.asked.AskFault.TheVariants.{Channel, Config};
ghost use Rattle.uses_above.specs.Asked.{IsChannel, IsFlow, IsRead, Place, Settles, flows, place_at};

use ssh_channels::{Mux, MuxConfig, MuxFault};
use ssh_talks::{channels_come, channels_flow, no_payload_refused};
use std::alloc::{AllocError, Global};

/// The number of the first channel that a side grants.
const FIRST: u32 = 0;

/// Both sides of a channel, its number on the client's side, and what each side read of what the other one wrote.
#[derive(Debug, Drop)]
pub struct Asked {
    pub client: Mux,
    pub server: Mux,
    pub number: u32,
    pub request: Vec<u8>,
    pub answer: Vec<u8>,
}

/// Why a request isn't answered.
#[derive(Clone, Copy, Debug, PartialEq, Eq)]
pub enum AskFault {
    /// A window or a largest packet is out of its bounds.
    Config,
    /// A side refused a call or a message, or its memory ran out.
    Channel(MuxFault),
}

impl From<MuxFault> for AskFault {
    ghost from_gives = { λ fault f. f ≡ Channel fault };

    fn from(fault: MuxFault) -> AskFault {
        AskFault::Channel(fault)
    }
}

impl From<AllocError> for AskFault {
    ghost from_gives = { λ _ f. f ≡ Channel Memory };

    fn from(_value: AllocError) -> AskFault {
        AskFault::Channel(MuxFault::Memory)
    }
}

/// A client asks a server over one channel: it writes the request, the server reads it and writes the answer, and the
/// client reads that (RFC 4254 sections 5.1 to 5.3). Each message is carried once, in its order. Whatever windows in
/// their bounds both sides have, each side reads all that the other one wrote, and no call or message is refused. Both
/// sides stand as the messages between them left them (`channel`). How many messages that takes isn't said. Config
/// where a number of either side is out of its bounds. Else Channel with Memory.
pub fn ask(
    alloc: Global,
    client: &MuxConfig,
    server: &MuxConfig,
    request: &[u8],
    answer: &[u8],
) -> Result<Asked, AskFault>
    ensures request { IfOk result (λ a. a.request.items ≡ request.now) }
    ensures answer { IfOk result (λ a. a.answer.items ≡ answer.now) }
    ensures channel { IfOk result (λ a. IsChannel client.now server.now server_side a.server a.client
        (place_at 0 answer.now a.request.items) (place_at a.number request.now a.answer.items)) }
    ensures config { (is_within client.now.window client.now.largest && is_within server.now.window server.now.largest)
        ≡ false → result ≡ Err Config }
    ensures fault { IfErr result (λ f. ((f ≡ Config) × ((is_within client.now.window client.now.largest
        && is_within server.now.window server.now.largest) ≡ false)) ⊎ (f ≡ Channel Memory)) }
{
    channels_flow();
    if !client.is_within() || !server.is_within() {
        return Err(AskFault::Config);
    }
    let (mut asking, mut asked, number) = opened(alloc, client, server, request)?;
    let got = read_all(alloc, &mut asking, &mut asked, FIRST, request.len())?;
    asked.write(FIRST, answer)?;
    let back = read_all(alloc, &mut asked, &mut asking, number, answer.len())?;
    Ok(Asked {
        client: asking,
        server: asked,
        number,
        request: got,
        answer: back,
    })
}

/// A client and a server. The client asked for a channel and wrote the request to it, and the server granted it. The
/// third is the channel's number on the client's side.
fn opened(
    alloc: Global,
    client: &MuxConfig,
    server: &MuxConfig,
    request: &[u8],
) -> Result<(Mux, Mux, u32), MuxFault>
    requires client { is_within client.now.window client.now.largest ≡ true }
    requires server { is_within server.now.window server.now.largest ≡ true }
    ensures flow { IfOk result (λ o. IsFlow client.now server.now client_side o.0 o.1 (place_at o.2 request.now [])
        (place_at 0 [] []) flows flows) }
    ensures err { IfErr result (λ f. f ≡ Memory) }
{
    no_payload_refused();
    let mut asking = Mux::new(alloc, client);
    let mut asked = Mux::new(alloc, server);
    let number = asking.start()?;
    asking.write(number, request)?;
    deliver(&mut asking, &mut asked)?;
    Ok((asking, asked, number))
}

/// Reads so many bytes on a channel that the other side wrote to. Each read lets the other side send more.
fn read_all(
    alloc: Global,
    writer: &mut Mux,
    reader: &mut Mux,
    channel: u32,
    count: usize,
) -> Result<Vec<u8>, AskFault>
    requires { IsRead writer.old reader.old channel count }
    ensures err { IfErr result (λ f. f ≡ Channel Memory) }
    ensures count { IfOk result (λ got. count ≤ length got.items) }
    ensures read { (client server : config_of) (side : Side) (number : ℕ) (written read back : List ℕ)
        → AreSettings client.window client.largest server.window server.largest
        → IsFlow client server side writer.old reader.old (place_at number written read) (place_at channel back [])
        flows flows
        → IfOk result (λ got. IsFlow client server side writer.new reader.new (place_at number written read)
        (place_at channel back got.items) flows flows) }
{
    no_payload_refused();
    channels_come();
    let mut got = Vec::new(alloc);
    while got.len() < count {
        settle(writer, reader)?;
        let piece = reader.read(channel, u64::MAX)?;
        got.extend_from_slice(piece.as_slice())?;
    }
    Ok(got)
}

/// Carries what both sides made, until nothing is on the way.
fn settle(writer: &mut Mux, reader: &mut Mux) -> Result<(), MuxFault>
    ensures ok { OnOk result (Settles writer.old reader.old writer.new reader.new) }
    ensures err { (client server : config_of) (side : Side) (own other : Place)
        → AreSettings client.window client.largest server.window server.largest
        → IsFlow client server side writer.old reader.old own other flows flows → IfErr result (λ f. f ≡ Memory) }
{
    no_payload_refused();
    deliver(reader, writer)?;
    deliver(writer, reader)?;
    deliver(reader, writer)
}

/// Delivers what a side made to the other side: each message once, in their order.
fn deliver(from: &mut Mux, to: &mut Mux) -> Result<(), MuxFault>
    ensures ok { OnOk result (ReceivesAll from.old.made to.old to.new) }
    ensures side { from.new.side ≡ from.old.side }
    ensures made { from.new.made ≡ [] }
    ensures refused { IfErr result (λ f. RefusesOneOf from.old.made to.old f) }
{
    let made = from.take_output();
    for payload in made.as_slice() {
        to.receive(payload.as_slice())?;
    }
    Ok(())
}
