//! A server's answer to the sizes that a client asks for.

ghost use Rattle.std.specs.Prelude.{◌≡◌, ◌==◌, ◌+◌, ◌≤◌, ◌<◌, ◌^◌, ◌-◌, ◌++◌, ◌∷◌, ℕ, List, length, drop, false, true, Ok, IfOk, IfErr, OnOk, OnErr};
ghost use Rattle.ssh_packet.specs.Sealing.{longest_payload};
ghost use Rattle.ssh_packet.specs.Writing.{IsSizeOrMemory, SameButRoom};
ghost use Rattle.ssh_wire.specs.Outside.{Rose};
ghost use Rattle.ssh_wire.specs.declared.error.Error.TheVariants.{Memory};
ghost use Rattle.ssh_kex.specs.Drawing.{StepDraws};
ghost use Rattle.ssh_kex.specs.Messages.{IsCanonical, group_message, request_message};
ghost use Rattle.ssh_kex.specs.Parts.{Answers, Setup};
ghost use Rattle.ssh_kex.specs.Fields.{sizes_in};
ghost use Rattle.ssh_kex.specs.Members.{GroupsKept};
ghost use Rattle.ssh_server_kex.specs.ServerRows.{AnswersRequest, RefusesRequest, RefusesSizes};
ghost use Rattle.ssh_kex.specs.Stepping.{Puts};
ghost use Rattle.ssh_kex.specs.Unasked.{is_early};

use rand_core::Rng;
use ssh_kex::message::{has_type, put_message};
use ssh_kex::{DhGroup, GexChosen, GexParams, GroupLookup, Refusal};
use ssh_packet::PacketWriter;
use ssh_wire::{Error, Reader, encode_mpint, msg, put_u8};
use std::alloc::Global;

/// The sizes that a client asks for. KexInit where it is another message; SshEncoding.
fn read_request(payload: &[u8]) -> Result<GexParams, Error>
    ensures ok { IfOk result (λ g. (payload.now ≡ request_message g) × (sizes_in (drop 1 payload.now) ≡ Ok g)) }
    ensures err { IfErr result (RefusesSizes payload.now) }
{
    if !has_type(payload, msg::KEX_DH_GEX_REQUEST) {
        return Err(Error::KexInit);
    }
    let mut reader = Reader::new(&payload[1..]);
    let sizes = match GexParams::decode(&mut reader) {
        Ok(sizes) => sizes,
        Err(error) => return Err(error),
    };
    match reader.ensure_end() {
        Ok(()) => Ok(sizes),
        Err(error) => Err(error),
    }
}

/// Message 31: the group's prime and generator. Memory.
fn group_message(alloc: Global, group: &DhGroup) -> Result<Vec<u8>, Error>
    requires prime { length group.now.prime < 2 ^ 31 }
    requires generator { length group.now.generator < 2 ^ 31 }
    ensures ok { IfOk result (λ v. v.items ≡ group_message group.now) }
    ensures err { IfErr result (λ e. e ≡ Memory) }
{
    let mut message = Vec::new(alloc);
    put_u8(&mut message, msg::KEX_DH_GEX_GROUP)?;
    encode_mpint(group.prime.as_slice(), &mut message)?;
    encode_mpint(group.generator.as_slice(), &mut message)?;
    Ok(message)
}

/// Answers the sizes that a client asks for with the group of them. KexInit where it is another message; SshEncoding;
/// Kex where the lookup refused, and counted it; PacketSize where the answer is over 262157 bytes; Memory. Nothing is
/// written by a refusal.
pub(crate) fn answer_request<G: GroupLookup, R: Rng>(
    alloc: Global,
    groups: &mut G,
    rng: &mut R,
    payload: &[u8],
    output: &mut PacketWriter,
) -> Result<GexChosen, Error>
    ensures keeps { GroupsKept G.GroupLookup groups.old groups.new }
    ensures calls { G.calls groups.new ≤ G.calls groups.old + 1 }
    ensures answers { OnOk result (Answers G.answered 1 groups.old groups.new) }
    ensures ok { IfOk result (AnswersRequest (λ sizes q. (s : Setup) → G.lawful groups.old s
        → (q ≡ G.group groups.old sizes) × IsCanonical q) payload.now output.old output.new) }
    ensures causes { IfErr result (RefusesRequest (λ sizes q. (s : Setup) → G.lawful groups.old s
        → (q ≡ G.group groups.old sizes) × IsCanonical q) (λ sizes. Rose (G.refusals groups.old) (G.refusals groups.new)
        × ((s : Setup) → G.obliging groups.old groups.new s → ⊥)) payload.now) }
    ensures drawn { OnOk result (StepDraws (λ behind. behind ≡ R.stream rng.old) output.old output.new
        (R.stream rng.new)) }
    ensures unchanged { OnErr result (SameButRoom output.old output.new) }
    ensures unasked { IfErr result (λ e. is_early false e ≡ true → groups.new ≡ groups.old) }
{
    let params = read_request(payload)?;
    let group = match groups.lookup_dh_gex_group(alloc, &params) {
        Ok(group) => group,
        Err(Refusal::Refused) => return Err(Error::Kex),
        Err(Refusal::Memory) => return Err(Error::Memory),
    };
    let message = group_message(alloc, &group)?;
    match put_message(output, rng, message.as_slice()) {
        Ok(()) => Ok(GexChosen { params, group }),
        Err(error) => Err(error),
    }
}
