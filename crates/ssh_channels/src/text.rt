//! The texts of the messages (RFC 4254 sections 5.1 to 5.3), all numbers as `uint32`.

ghost use Rattle.std.specs.Prelude.{◌≡◌, ◌++◌, ◌<◌, ◌^◌, [], ◌∷◌, Some, None, length, IfOk, OnOk};
ghost use Rattle.ssh_wire.specs.Forms.{u32be, string};
ghost use Rattle.ssh_channels.specs.Formats.{text_of};
ghost use Rattle.ssh_channels.specs.Phases.{Open, Confirmation, Failure, Adjust, Data, Eof, Close};

use ssh_wire::{Payload, msg};
use std::alloc::{AllocError, Global};

/// What a side tells of itself, and the number of its channel.
#[derive(Clone, Copy, Debug)]
pub(crate) struct Telling {
    pub own: u32,
    pub window: u32,
    pub most: u32,
}

/// A channel is asked for: its type `session`, its number, the window and the largest packet.
pub(crate) fn open_text(alloc: Global, telling: &Telling) -> Result<Payload, AllocError>
    ensures { IfOk result (λ p. p ≡ text_of None telling.now.own (Open telling.now.window telling.now.most)) }
{
    let mut out = Vec::new(alloc);
    out.push(msg::CHANNEL_OPEN)?;
    put_bytes(&mut out, b"session")?;
    put_telling(&mut out, telling)?;
    Ok(Payload::new(out))
}

/// A channel is granted: the recipient's number, the sender's, the window and the largest packet.
pub(crate) fn confirmation_text(
    alloc: Global,
    peer: u32,
    telling: &Telling,
) -> Result<Payload, AllocError>
    ensures { IfOk result (λ p. p ≡ text_of (Some peer) telling.now.own
        (Confirmation telling.now.window telling.now.most)) }
{
    let mut out = Vec::new(alloc);
    out.push(msg::CHANNEL_OPEN_CONFIRMATION)?;
    put_number(&mut out, peer)?;
    put_telling(&mut out, telling)?;
    Ok(Payload::new(out))
}

/// A channel isn't granted, since there are too many: the recipient's number, reason 4, `Resource shortage`, and an
/// empty language tag.
pub(crate) fn failure_text(alloc: Global, peer: u32) -> Result<Payload, AllocError>
    ensures { IfOk result (λ p. p ≡ text_of (Some peer) 0 Failure) }
{
    let mut out = Vec::new(alloc);
    out.push(msg::CHANNEL_OPEN_FAILURE)?;
    put_number(&mut out, peer)?;
    put_number(&mut out, msg::SSH_OPEN_RESOURCE_SHORTAGE)?;
    put_bytes(&mut out, b"Resource shortage")?;
    put_bytes(&mut out, b"")?;
    Ok(Payload::new(out))
}

/// So many bytes more may be sent.
pub(crate) fn adjust_text(alloc: Global, peer: u32, count: u32) -> Result<Payload, AllocError>
    ensures { IfOk result (λ p. p ≡ text_of (Some peer) 0 (Adjust count)) }
{
    let mut out = Vec::new(alloc);
    out.push(msg::CHANNEL_WINDOW_ADJUST)?;
    put_number(&mut out, peer)?;
    put_number(&mut out, count)?;
    Ok(Payload::new(out))
}

/// Data.
pub(crate) fn data_text(alloc: Global, peer: u32, bytes: &[u8]) -> Result<Payload, AllocError>
    requires { length bytes.now < 2 ^ 32 }
    ensures { IfOk result (λ p. p ≡ text_of (Some peer) 0 (Data bytes.now)) }
{
    let mut out = Vec::new(alloc);
    out.reserve(9 + bytes.len())?;
    out.push(msg::CHANNEL_DATA)?;
    put_number(&mut out, peer)?;
    put_bytes(&mut out, bytes)?;
    Ok(Payload::new(out))
}

/// No data follows.
pub(crate) fn eof_text(alloc: Global, peer: u32) -> Result<Payload, AllocError>
    ensures { IfOk result (λ p. p ≡ text_of (Some peer) 0 Eof) }
{
    let mut out = Vec::new(alloc);
    out.push(msg::CHANNEL_EOF)?;
    put_number(&mut out, peer)?;
    Ok(Payload::new(out))
}

/// Nothing follows.
pub(crate) fn close_text(alloc: Global, peer: u32) -> Result<Payload, AllocError>
    ensures { IfOk result (λ p. p ≡ text_of (Some peer) 0 Close) }
{
    let mut out = Vec::new(alloc);
    out.push(msg::CHANNEL_CLOSE)?;
    put_number(&mut out, peer)?;
    Ok(Payload::new(out))
}

/// Appends a number, the most significant byte first.
fn put_number(out: &mut Vec<u8>, n: u32) -> Result<(), AllocError>
    ensures { OnOk result (out.new.items ≡ out.old.items ++ u32be n) }
{
    out.extend_from_slice(&n.to_be_bytes())
}

/// Appends a string: its length, and its bytes.
fn put_bytes(out: &mut Vec<u8>, bytes: &[u8]) -> Result<(), AllocError>
    requires { length bytes.now < 2 ^ 32 }
    ensures { OnOk result (out.new.items ≡ out.old.items ++ string bytes.now) }
{
    put_number(out, bytes.len() as u32)?;
    out.extend_from_slice(bytes)
}

/// Appends what a side tells of itself.
fn put_telling(out: &mut Vec<u8>, telling: &Telling) -> Result<(), AllocError>
    ensures { OnOk result (out.new.items ≡ out.old.items ++ (u32be telling.now.own
        ++ (u32be telling.now.window ++ u32be telling.now.most))) }
{
    put_number(out, telling.own)?;
    put_number(out, telling.window)?;
    put_number(out, telling.most)
}
