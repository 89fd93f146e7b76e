//! Messages of an exchange: their types, and packets of them.

ghost use Rattle.std.specs.Prelude.{◌≡◌, ◌==◌, ◌<◌, ◌≤◌, ◌+◌, [], ◌∷◌, false, IfErr, IsOk, OnErr, OnOk, length};
ghost use Rattle.ssh_packet.specs.Sealing.{longest_payload};
ghost use Rattle.ssh_packet.specs.Stream.{message_type as message_type_of};
ghost use Rattle.ssh_packet.specs.Writing.{IsSizeOrMemory, SameButRoom, room_for};
ghost use Rattle.ssh_kex.specs.Drawing.{SendsAll, is_kexinit};
ghost use Rattle.ssh_kex.specs.Stepping.{Puts, PutsAll};

use rand_core::Rng;
use ssh_packet::PacketWriter;
use ssh_wire::Error;

/// Whether a message has the type, which is its first byte; one of no bytes has type 0.
pub fn has_type(payload: &[u8], message_type: u8) -> bool
    ensures { result ≡ (message_type_of payload.now == message_type) }
{
    match payload.first() {
        Some(first) => *first == message_type,
        None => message_type == 0,
    }
}

/// Appends one packet of a message. PacketSize where it is over 262157 bytes; Memory. A refusal leaves the output as it
/// was.
pub fn put_message<R: Rng>(
    output: &mut PacketWriter,
    rng: &mut R,
    message: &[u8],
) -> Result<(), Error>
    requires { 0 < length message.now }
    ensures puts { OnOk result (Puts output.old message.now output.new) }
    ensures drawn { OnOk result (is_kexinit message.now ≡ false → SendsAll output.old (message.now ∷ [])
        (R.stream rng.old) output.new (R.stream rng.new)) }
    ensures unchanged { OnErr result (SameButRoom output.old output.new) }
    ensures causes { IfErr result (IsSizeOrMemory (length message.now)) }
    ensures room { length message.now ≤ longest_payload
        → room_for output.old.sealing (length message.now) 1 ≤ output.old.room → IsOk result }
    ensures spare { output.old.room + length output.old.output ≤ output.new.room + length output.new.output }
{
    output.packet_raw(rng, message)
}

/// Appends the packets of two messages. PacketSize where the first is over 262157 bytes; Memory. Room for both is made
/// before the first is written, so a refusal leaves the output as it was.
pub fn put_both<R: Rng>(
    output: &mut PacketWriter,
    rng: &mut R,
    first: &[u8],
    second: &[u8],
) -> Result<(), Error>
    requires first { 0 < length first.now }
    requires second { 0 < length second.now }
    requires short { length second.now ≤ longest_payload }
    ensures puts { OnOk result (PutsAll output.old (first.now ∷ second.now ∷ []) output.new) }
    ensures drawn { OnOk result (is_kexinit first.now ≡ false → is_kexinit second.now ≡ false → SendsAll output.old
        (first.now ∷ second.now ∷ []) (R.stream rng.old) output.new (R.stream rng.new)) }
    ensures unchanged { OnErr result (SameButRoom output.old output.new) }
    ensures causes { IfErr result (IsSizeOrMemory (length first.now)) }
{
    output.reserve_output(first.len() + second.len(), 2)?;
    put_message(output, rng, first)?;
    put_message(output, rng, second)
}
