//! The end of an exchange: what is kept of it, and NEWKEYS (RFC 4253 section 7.3).

ghost use Rattle.std.specs.Prelude.{◌≡◌, [], ◌∷◌, None, IfOk, IfErr, OnErr, OnOk};
ghost use Rattle.ssh_packet.specs.Writing.{SameButRoom};
ghost use Rattle.ssh_wire.specs.declared.error.Error.TheVariants.{Memory};
ghost use Rattle.ssh_kex.specs.Drawing.{SendsAll};
ghost use Rattle.ssh_kex.specs.Exchange.{side_if};
ghost use Rattle.ssh_kex.specs.Messages.{newkeys};
ghost use Rattle.ssh_kex.specs.Setting.{kept_of};
ghost use Rattle.ssh_kex.specs.Views.{EndsAtOnce, HasKeys, Lasts};

use crate::algorithm::KexAlgorithm;
use crate::base::KexBase;
use crate::exchange::{Exchange, FinishedExchange, NewKeys, ServerHost};
use crate::message::put_message;
use crate::progress::KexProgress;
use rand_core::Rng;
use ssh_mac::HashValue;
use ssh_negotiate::{KexCause, Names};
use ssh_packet::{CipherPair, PacketWriter};
use ssh_wire::{EncodingFault, Error, msg};
use std::alloc::Global;

/// The peer's NEWKEYS, which is the end. Kex where it is another message, SshEncoding(TrailingData) where more follows.
pub fn last<K>(
    exchange: Exchange,
    host: Option<ServerHost>,
    made: FinishedExchange,
    cipher: Box<CipherPair>,
    payload: &[u8],
) -> Result<KexProgress<K>, Error>
    ensures { Lasts exchange host made cipher payload.now result }
{
    match payload {
        [21] => Ok(KexProgress::Done {
            server_host: host,
            newkeys: NewKeys {
                exchange,
                names: made.names,
                hash: made.hash,
                session_id: made.session_id,
                keys: made.keys,
                cipher,
            },
        }),
        [21, ..] => Err(Error::SshEncoding(EncodingFault::TrailingData)),
        _ => Err(Error::Kex),
    }
}

/// The end of an exchange of no values: NEWKEYS is sent, and the hash is empty. Memory leaves the output as it was.
pub fn end_at_once<K, R: Rng>(
    base: KexBase<'_>,
    algorithm: &KexAlgorithm,
    names: Names,
    is_server: bool,
    rng: &mut R,
    output: &mut PacketWriter,
) -> Result<KexProgress<K>, Error>
    requires name { algorithm.now.name ≡ names.kex }
    requires secret { algorithm.now.secret ≡ None }
    ensures ok { IfOk result (λ p. EndsAtOnce (side_if is_server) base.entry.cause base.entry.exchange names p
        output.old output.new) }
    ensures drawn { OnOk result (SendsAll output.old (newkeys ∷ []) (R.stream rng.old) output.new (R.stream rng.new)) }
    ensures err { IfErr result (λ e. e ≡ Memory) }
    ensures unchanged { OnErr result (SameButRoom output.old output.new) }
{
    let KexBase {
        alloc,
        cause,
        exchange,
        ..
    } = base;
    let (made, cipher) = finish(
        alloc,
        algorithm,
        &cause,
        names,
        HashValue::empty(),
        is_server,
    )?;
    match put_message(output, rng, &[msg::NEWKEYS]) {
        Ok(()) => Ok(KexProgress::Done {
            server_host: None,
            newkeys: NewKeys {
                exchange,
                names,
                hash: made.hash,
                session_id: made.session_id,
                keys: made.keys,
                cipher,
            },
        }),
        Err(error) => Err(error),
    }
}

/// What is kept of an exchange whose hash is known, and what is sealed and opened with behind it. Memory.
pub fn finish(
    alloc: Global,
    algorithm: &KexAlgorithm,
    cause: &KexCause,
    names: Names,
    hash: HashValue,
    is_server: bool,
) -> Result<(FinishedExchange, Box<CipherPair>), Error>
    requires { algorithm.now.name ≡ names.kex }
    ensures made { IfOk result (λ r. r.0 ≡ kept_of cause.now names algorithm.now.secret hash) }
    ensures keys { IfOk result (λ r. HasKeys (side_if is_server) r.0 r.1) }
    ensures err { IfErr result (λ e. e ≡ Memory) }
{
    let session_id = match cause {
        KexCause::Initial => hash,
        KexCause::Rekey { session_id, .. } => *session_id,
    };
    let new = algorithm.compute_keys(&session_id, &hash, &names, is_server);
    let made = FinishedExchange {
        names,
        hash,
        session_id,
        keys: new.keys,
    };
    Ok((made, Box::new(alloc, new.cipher)?))
}
