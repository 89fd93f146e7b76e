//! Payloads sealed by a writer and opened by a reader: what comes out is what went in.

ghost use Rattle.std.specs.Prelude.{◌≡◌, ◌<◌, ◌≤◌, IfOk, IfErr, OnOk, length};
ghost use Rattle.ssh_wire.specs.declared.error.Error.TheVariants.{Memory};
ghost use Rattle.ssh_packet.specs.Keys.{opening_of};
ghost use Rattle.ssh_packet.specs.Sealing.{longest_payload};
ghost use Rattle.ssh_packet.specs.Writing.{IsSizeOrMemory};
ghost use Rattle.uses.specs.InStep.{IsInStep};

use rand_core::Rng;
use ssh_mac::mac;
use ssh_packet::compression::Compress;
use ssh_packet::{OpenKey, PacketReader, PacketWriter, cipher, front_whole, one_packet};
use ssh_wire::Error;
use std::alloc::Global;

/// Seals a payload, and opens it. Writer and reader are in step again. PacketSize where the payload is over 262157
/// bytes; Memory.
pub fn carry<R: Rng>(
    alloc: Global,
    writer: &mut PacketWriter,
    rng: &mut R,
    reader: &mut PacketReader,
    key: &mut OpenKey,
    payload: &[u8],
) -> Result<Vec<u8>, Error>
    requires some { 0 < length payload.now }
    requires before { IsInStep writer.old reader.old (opening_of key.old) }
    ensures same { IfOk result (λ opened. opened.items ≡ payload.now) }
    ensures after { OnOk result (IsInStep writer.new reader.new (opening_of key.new)) }
    ensures causes { IfErr result (IsSizeOrMemory (length payload.now)) }
{
    one_packet();
    front_whole();
    writer.packet_raw(rng, payload)?;
    reader.push(writer.output())?;
    let sent = writer.output().len();
    writer.consume_output(sent);
    match reader.next(key)? {
        Some(incoming) => Ok(Vec::from_slice(alloc, incoming.payload)?),
        None => Err(Error::Inconsistent),
    }
}

/// Seals three payloads under `aes256-gcm@openssh.com`, and opens them. Payloads of at most 262157 bytes fail for want
/// of memory alone.
pub fn carry_three<R: Rng>(
    alloc: Global,
    rng: &mut R,
    key: &[u8; 32],
    nonce: &[u8; 12],
    a: &[u8],
    b: &[u8],
    c: &[u8],
) -> Result<(Vec<u8>, Vec<u8>, Vec<u8>), Error>
    requires first { 0 < length a.now }
    requires second { 0 < length b.now }
    requires third { 0 < length c.now }
    ensures first { IfOk result (λ opened. opened.0.items ≡ a.now) }
    ensures second { IfOk result (λ opened. opened.1.items ≡ b.now) }
    ensures third { IfOk result (λ opened. opened.2.items ≡ c.now) }
    ensures causes { length a.now ≤ longest_payload → length b.now ≤ longest_payload → length c.now ≤ longest_payload
        → IfErr result (λ e. e ≡ Memory) }
{
    let sealing = cipher::AES_256_GCM.make_sealing_key(key, nonce, &[], mac::NONE);
    let mut opening = cipher::AES_256_GCM.make_opening_key(key, nonce, &[], mac::NONE);
    let mut writer = PacketWriter::new(alloc, sealing, Compress::None);
    let mut reader = PacketReader::new(alloc);
    let first = carry(alloc, &mut writer, rng, &mut reader, &mut opening, a)?;
    let second = carry(alloc, &mut writer, rng, &mut reader, &mut opening, b)?;
    let third = carry(alloc, &mut writer, rng, &mut reader, &mut opening, c)?;
    Ok((first, second, third))
}
