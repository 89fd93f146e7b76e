//! The KEXINIT that a side writes (RFC 4253 section 7.1).

ghost use Rattle.std.specs.Prelude.{◌≡◌, ◌++◌, ◌∷◌, [], ◌≤◌, ◌<◌, length, map, IfOk, IfErr, OnOk, OnErr, Option};
ghost use Rattle.std.specs.Option.{option_copied};
ghost use Rattle.ssh_packet.specs.Sealing.{IsAdmissible, IsPadded, item_of, longest_payload, stream_after};
ghost use Rattle.ssh_packet.specs.Writing.{Sends, SameButRoom};
ghost use Rattle.ssh_wire.specs.Forms.{AreBytes, joined_names, name_list, u32be};
ghost use Rattle.ssh_wire.specs.Names.{name_list_limit};
ghost use Rattle.ssh_wire.specs.declared.error.Error.TheVariants.{Memory};
ghost use Rattle.ssh_negotiate.specs.Advertised.{kexinit, kexinit_end, name_lists};
ghost use Rattle.ssh_negotiate.specs.Laws.{AreShort};
ghost use Rattle.ssh_negotiate.specs.Reading.{behind_cookie, cookie_from, kexinit_drawn, offered_by};
ghost use Rattle.ssh_negotiate.specs.Parts.{with_lists};

use crate::kex;
use crate::negotiation::{AsName, HostName};
use crate::offers::{hosts_to_write, kex_to_write};
use crate::preferred::{Preferred, ServerKeys};
use bytes::Bytes;
use rand_core::Rng;
use ssh_packet::PacketWriter;
use ssh_wire::{Error, msg, name_len, put_name, put_u8, put_u32};
use std::alloc::Global;

/// How many bytes are drawn for a KEXINIT.
const COOKIE_LEN: usize = 16;

/// Writes a KEXINIT with 16 drawn bytes as cookie, and answers its payload. It is a server's where the keys are given.
/// Memory leaves the writer as it was.
pub fn write_kex<R: Rng>(
    alloc: Global,
    prefs: &Preferred,
    writer: &mut PacketWriter,
    rng: &mut R,
    server_config: Option<&ServerKeys>,
) -> Result<Bytes, Error>
    requires { AreShort (offered_by prefs.now (option_copied server_config)) }
    ensures answer { IfOk result (λ b. b ≡ kexinit_drawn prefs.now (option_copied server_config.entry)
        (R.stream rng.old)) }
    ensures sent { OnOk result (Sends writer.old (kexinit_drawn prefs.now (option_copied server_config.entry)
        (R.stream rng.old))
        (behind_cookie (R.stream rng.old)) writer.new) }
    ensures stream { OnOk result (R.stream rng.new ≡ stream_after writer.old.sealing
        (kexinit_drawn prefs.now (option_copied server_config.entry) (R.stream rng.old))
        (behind_cookie (R.stream rng.old))) }
    ensures admissible { OnOk result (IsAdmissible writer.old.sealing (item_of writer.old.sealing
        (kexinit_drawn prefs.now (option_copied server_config.entry) (R.stream rng.old))
        (behind_cookie (R.stream rng.old)))) }
    ensures padded { OnOk result (IsPadded writer.old.sealing (item_of writer.old.sealing
        (kexinit_drawn prefs.now (option_copied server_config.entry) (R.stream rng.old))
        (behind_cookie (R.stream rng.old)))) }
    ensures cookie { OnOk result (length (cookie_from (R.stream rng.old)) ≡ 16) }
    ensures bytes { OnOk result (AreBytes (cookie_from (R.stream rng.old))) }
    ensures unchanged { OnErr result (SameButRoom writer.old writer.new) }
    ensures err { IfErr result (λ e. e ≡ Memory) }
{
    let kex = kex_to_write(alloc, prefs, server_config)?;
    let hosts = hosts_to_write(alloc, prefs, server_config)?;
    let mut cookie = [0; COOKIE_LEN];
    rng.fill_bytes(&mut cookie);
    let payload = kexinit_payload(alloc, prefs, kex.as_slice(), hosts.as_slice(), &cookie)?;
    send_payload(writer, rng, payload)
}

/// Sends a payload, and answers it. Memory leaves the writer as it was.
fn send_payload<R: Rng>(
    writer: &mut PacketWriter,
    rng: &mut R,
    payload: Vec<u8>,
) -> Result<Bytes, Error>
    requires some { 0 < length payload.items }
    requires short { length payload.items < longest_payload }
    ensures answer { IfOk result (λ b. b ≡ payload.items) }
    ensures sent { OnOk result (Sends writer.old payload.items (R.stream rng.old) writer.new) }
    ensures stream { OnOk result (R.stream rng.new ≡ stream_after writer.old.sealing payload.items (R.stream rng.old)) }
    ensures admissible { OnOk result (IsAdmissible writer.old.sealing
        (item_of writer.old.sealing payload.items (R.stream rng.old))) }
    ensures padded { OnOk result (IsPadded writer.old.sealing (item_of writer.old.sealing payload.items
        (R.stream rng.old))) }
    ensures unchanged { OnErr result (SameButRoom writer.old writer.new) }
    ensures err { IfErr result (λ e. e ≡ Memory) }
{
    let bytes = Bytes::from_vec(payload)?;
    writer.packet_raw(rng, bytes.as_slice())?;
    Ok(bytes)
}

/// The payload of a KEXINIT. Memory.
fn kexinit_payload(
    alloc: Global,
    prefs: &Preferred,
    kex: &[kex::Name],
    hosts: &[HostName],
    cookie: &[u8],
) -> Result<Vec<u8>, Error>
    requires { AreShort (with_lists prefs.now kex.now hosts.now) }
    ensures ok { IfOk result (λ v. v.items ≡ kexinit (with_lists prefs.now kex.now hosts.now) cookie.now) }
    ensures err { IfErr result (λ e. e ≡ Memory) }
    ensures bytes { AreBytes cookie.now }
{
    let mut out = Vec::new(alloc);
    put_u8(&mut out, msg::KEXINIT)?;
    out.extend_from_slice(cookie)?;
    put_list(&mut out, kex)?;
    put_list(&mut out, hosts)?;
    put_twice(&mut out, prefs.cipher.as_slice())?;
    put_twice(&mut out, prefs.mac.as_slice())?;
    put_twice(&mut out, prefs.compression.as_slice())?;
    put_end(&mut out)?;
    Ok(out)
}

/// Appends a list of names once for each direction. After an error the bytes may have grown.
fn put_twice<A: AsName>(out: &mut Vec<u8>, names: &[A]) -> Result<(), Error>
    requires { length (joined_names (map A.text names.now)) ≤ name_list_limit }
    ensures ok { OnOk result (out.new.items ≡ (out.old.items ++ name_list (map A.text names.now)) ++ name_list
        (map A.text names.now)) }
    ensures err { IfErr result (λ e. e ≡ Memory) }
{
    put_list(out, names)?;
    put_list(out, names)
}

/// Appends a list of names. After an error the bytes may have grown.
fn put_list<A: AsName>(out: &mut Vec<u8>, names: &[A]) -> Result<(), Error>
    requires { length (joined_names (map A.text names.now)) ≤ name_list_limit }
    ensures ok { OnOk result (out.new.items ≡ out.old.items ++ name_list (map A.text names.now)) }
    ensures err { IfErr result (λ e. e ≡ Memory) }
{
    put_u32(out, joined_len(names) as u32)?;
    put_names(out, names)
}

/// How many bytes the names have with the commas between them.
fn joined_len<A: AsName>(names: &[A]) -> usize
    requires { length (joined_names (map A.text names.now)) ≤ name_list_limit }
    ensures { result ≡ length (joined_names (map A.text names.now)) }
{
    let mut size = 0;
    for (i, name) in names.iter().enumerate() {
        size += name_len(i > 0, name.as_name());
    }
    size
}

/// Appends the names with commas between them. After an error the bytes may have grown.
fn put_names<A: AsName>(out: &mut Vec<u8>, names: &[A]) -> Result<(), Error>
    ensures ok { OnOk result (out.new.items ≡ out.old.items ++ joined_names (map A.text names.now)) }
    ensures err { IfErr result (λ e. e ≡ Memory) }
{
    for (i, name) in names.iter().enumerate() {
        put_name(out, i > 0, name.as_name())?;
    }
    Ok(())
}

/// Appends two empty lists of languages, that no guess follows, and a uint32 of nothing.
fn put_end(out: &mut Vec<u8>) -> Result<(), Error>
    ensures ok { OnOk result (out.new.items ≡ out.old.items ++ kexinit_end) }
    ensures err { IfErr result (λ e. e ≡ Memory) }
{
    put_u32(out, 0)?;
    put_u32(out, 0)?;
    put_u8(out, 0)?;
    put_u32(out, 0)
}
