//! The own KEXINIT (RFC 4253 section 7.1).

ghost use Rattle.std.specs.Prelude.{◌≡◌, ◌<◌, ◌^◌, length, IfOk, IfErr, OnOk, OnErr};
ghost use Rattle.std.specs.Option.{option_copied};
ghost use Rattle.ssh_negotiate.specs.Laws.{AreShort};
ghost use Rattle.ssh_negotiate.specs.Reading.{behind_cookie, cookie_from, kexinit_drawn, offered_by};
ghost use Rattle.ssh_packet.specs.Sealing.{IsAdmissible, IsPadded, item_of, stream_after};
ghost use Rattle.ssh_packet.specs.Writing.{SameButRoom, Sends};
ghost use Rattle.ssh_wire.specs.Forms.{AreBytes};
ghost use Rattle.ssh_wire.specs.declared.error.Error.TheVariants.{Memory};

use rand_core::Rng;
use ssh_negotiate::{Preferred, ServerKeys, write_kex};
use ssh_packet::PacketWriter;
use ssh_wire::{Blob, Error};
use std::alloc::Global;

/// A KEXINIT whose lists may be sent is shorter.
const LONGEST_KEXINIT: usize = 262156;

/// Sends a KEXINIT, and answers a copy of its payload, for which there is room before it is sent. It is a server's
/// where the keys are given. Memory leaves the writer as it was.
pub fn send_kexinit<R: Rng>(
    alloc: Global,
    prefs: &Preferred,
    server_config: Option<&ServerKeys>,
    rng: &mut R,
    output: &mut PacketWriter,
) -> Result<Blob, Error>
    requires { AreShort (offered_by prefs.now (option_copied server_config)) }
    ensures ok { IfOk result (λ b. b ≡ kexinit_drawn prefs.now (option_copied server_config.entry) (R.stream rng.old)) }
    ensures short { IfOk result (λ b. length b < 2 ^ 31) }
    ensures sent { OnOk result (Sends output.old (kexinit_drawn prefs.now (option_copied server_config.entry)
        (R.stream rng.old))
        (behind_cookie (R.stream rng.old)) output.new) }
    ensures stream { OnOk result (R.stream rng.new ≡ stream_after output.old.sealing
        (kexinit_drawn prefs.now (option_copied server_config.entry) (R.stream rng.old)) (behind_cookie
        (R.stream rng.old))) }
    ensures admissible { OnOk result (IsAdmissible output.old.sealing (item_of output.old.sealing
        (kexinit_drawn prefs.now (option_copied server_config.entry) (R.stream rng.old)) (behind_cookie
        (R.stream rng.old)))) }
    ensures padded { OnOk result (IsPadded output.old.sealing (item_of output.old.sealing
        (kexinit_drawn prefs.now (option_copied server_config.entry) (R.stream rng.old)) (behind_cookie
        (R.stream rng.old)))) }
    ensures cookie { OnOk result (length (cookie_from (R.stream rng.old)) ≡ 16) }
    ensures bytes { OnOk result (AreBytes (cookie_from (R.stream rng.old))) }
    ensures unchanged { OnErr result (SameButRoom output.old output.new) }
    ensures err { IfErr result (λ e. e ≡ Memory) }
{
    let mut copy = Vec::new(alloc);
    copy.reserve(LONGEST_KEXINIT)?;
    let payload = write_kex(alloc, prefs, output, rng, server_config)?;
    copy.extend_from_slice(payload.as_slice())?;
    Ok(Blob::new(copy))
}
