//! Rows of small tables: message orders, reasons, signals, failures, algorithms, limits and texts of errors.

use crate::shared::{byte, is_first_of, say_other, say_text};
use ssh_packet::OpenError;
use ssh_wire::{
    Algorithm, AlgorithmKind, Blob, ChannelOpenFailure, ChannelOpenHandleInner, ConfigFault,
    Disconnect, EncodingFault, Error, HashAlg, IdError, Limits, NameList, Payload, PayloadList,
    SendError, Sig, is_kex_msg, validate_client_msg_strict_kex, validate_server_msg_strict_kex,
};
use std::alloc::Global;
use std::fmt;
use vector_rows::{Fault, Found, Row};

/// Answers a row of one of these kinds. False where the kind is another.
pub(crate) fn answer(kind: &str, row: &Row<'_>, found: &Found) -> bool {
    match kind {
        "kex_message" => found.say_shown(&is_kex_msg(byte(row))),
        "strict" => strict(row, found),
        "limits" => limits(row, found),
        "reason" => reason(row, found),
        "handle" => handle(row, found),
        "algorithm" => say_algorithm(found, Algorithm::from_str(row.text())),
        "certificate" => say_algorithm(found, Algorithm::new_certificate_ext(row.text())),
        "hashed_by" => hashed_by(row, found),
        "error" => error(row, found),
        _ => return answer_copied(kind, row, found),
    }
    true
}

/// The same of the kinds whose values are copied or joined.
fn answer_copied(kind: &str, row: &Row<'_>, found: &Found) -> bool {
    let outcome = match kind {
        "signal" => signal(row, found),
        "failure" => failure(row, found),
        "blob" => blob(row, found),
        "open_error" => open_error(row, found),
        "id_error" => id_error(row, found),
        _ => return false,
    };
    found.note(outcome);
    true
}

/// `strict SENDER MESSAGE PLACE`: whether a message may stand at a place of the strict key exchange.
fn strict(row: &Row<'_>, found: &Found) {
    let is_client = is_first_of(row, "client", "server");
    let message = byte(row);
    let place = row.count();
    let answer = if is_client {
        validate_client_msg_strict_kex(message, place)
    } else {
        validate_server_msg_strict_kex(message, place)
    };
    match answer {
        Ok(()) => found.say("ok"),
        Err(error) => found.say_shown(&error),
    }
}

/// `limits` and `limits WRITE READ TIME`: limits that hold without a configuration, or these.
fn limits(row: &Row<'_>, found: &Found) {
    if row.left() == 0 {
        return say_limits(found, &Limits::default());
    }
    let (write, read, time) = (row.count(), row.count(), row.number());
    if write == 0 || read == 0 || write > 1 << 30 || read > 1 << 30 {
        return row.reject();
    }
    say_limits(found, &Limits::new(write, read, time));
}

fn say_limits(found: &Found, limits: &Limits) {
    found.say_number(limits.rekey_write_limit as u64);
    found.say_number(limits.rekey_read_limit as u64);
    found.say_number(limits.rekey_time_limit);
}

/// `reason CODE`: the reason of a disconnection, and its code.
fn reason(row: &Row<'_>, found: &Found) {
    match Disconnect::try_from(row.number32()) {
        Ok(reason) => {
            found.say_shown(&reason);
            found.say_number(u64::from(reason.code()));
        }
        Err(error) => found.say_shown(&error),
    }
}

/// `signal NAME`: a signal as `Debug` shows it, its name, and that of its copy.
fn signal(row: &Row<'_>, found: &Found) -> Result<(), Fault> {
    let signal = Sig::from_name(row.alloc(), row.text())?;
    found.say_shown(&signal);
    found.say(signal.name());
    found.say(signal.try_clone(row.alloc())?.name());
    Ok(())
}

/// `failure CODE`: the code again, whether a copy is equal, and the text.
fn failure(row: &Row<'_>, found: &Found) -> Result<(), Fault> {
    let failure = ChannelOpenFailure::from_u32(row.alloc(), row.number32())?;
    found.say_number(u64::from(failure.code()));
    let copy = failure.try_clone(row.alloc())?;
    found.say_shown(&(copy == failure));
    found.say(failure.description());
    Ok(())
}

/// `handle NUMBER HOW`: what a channel that is opened or refused keeps, and the answer.
fn handle(row: &Row<'_>, found: &Found) {
    let number = row.number();
    let is_accepted = is_first_of(row, "accept", "reject");
    let handle = ChannelOpenHandleInner::new(number);
    let (kept, answer) = if is_accepted {
        handle.accept()
    } else {
        handle.reject(ChannelOpenFailure::ConnectFailed)
    };
    found.say_number(kept);
    found.say_shown(&answer);
}

/// Of `algorithm NAME` and `certificate NAME`, the algorithm of a name or of a certificate's: its name, the name of its
/// certificates and its hash, or `none`.
fn say_algorithm(found: &Found, algorithm: Option<Algorithm>) {
    match algorithm {
        Some(algorithm) => {
            found.say(algorithm.as_str());
            found.say(algorithm.to_certificate_type());
            found.say_shown(&algorithm.hash_alg());
        }
        None => found.say("none"),
    }
}

/// `hashed_by NAME HASH`: the algorithm of a name with another hash.
fn hashed_by(row: &Row<'_>, found: &Found) {
    let algorithm = Algorithm::from_str(row.text());
    let hash = match row.word() {
        "none" => None,
        "sha256" => Some(HashAlg::Sha256),
        "sha512" => Some(HashAlg::Sha512),
        _ => return row.reject(),
    };
    match algorithm {
        Some(algorithm) => say_algorithm(found, Some(algorithm.with_hash_alg(hash))),
        None => row.reject(),
    }
}

/// `blob BYTES`: the bytes of a blob, of a payload, and of a list of that payload.
fn blob(row: &Row<'_>, found: &Found) -> Result<(), Fault> {
    let blob = Blob::new(row.owned_bytes());
    found.say_bytes(blob.as_slice());
    let payload = Payload::new(blob.into_vec());
    found.say_bytes(payload.as_slice());
    let mut payloads = Vec::new(row.alloc());
    payloads.push(payload)?;
    say_payloads(found, PayloadList::new(payloads));
    Ok(())
}

fn say_payloads(found: &Found, list: PayloadList) {
    for payload in list.as_slice() {
        found.say_bytes(payload.as_slice());
    }
    found.say_number(list.into_vec().len() as u64);
}

/// `error NAME`: the text of an error.
fn error(row: &Row<'_>, found: &Found) {
    let name = row.word();
    if name == "SendError" {
        return say_text(found, &SendError);
    }
    match &error_named(row.alloc(), name) {
        Some(error) => say_text(found, error),
        None => row.reject(),
    }
}

/// The error of a name, as `Debug` shows it, or the beginning of that.
fn error_named(alloc: Global, name: &str) -> Option<Error> {
    let error = match name {
        "NoCommonAlgo" => Error::NoCommonAlgo {
            kind: AlgorithmKind::Cipher,
            ours: NameList(Vec::new(alloc)),
            theirs: NameList(Vec::new(alloc)),
        },
        "PacketSize(7)" => Error::PacketSize(7),
        "StrictKeyExchangeViolation(30,2)" => Error::StrictKeyExchangeViolation {
            message_type: 30,
            sequence_number: 2,
        },
        "SshEncoding(TrailingData)" => Error::SshEncoding(EncodingFault::TrailingData),
        "InvalidConfig(Id)" => Error::InvalidConfig(ConfigFault::Id),
        _ => return refusal(name),
    };
    Some(error)
}

fn refusal(name: &str) -> Option<Error> {
    let error = match name {
        "KexInit" => Error::KexInit,
        "UnknownAlgo" => Error::UnknownAlgo,
        "Version" => Error::Version,
        "Kex" => Error::Kex,
        "PacketAuth" => Error::PacketAuth,
        "Inconsistent" => Error::Inconsistent,
        "IndexOutOfBounds" => Error::IndexOutOfBounds,
        "UnknownKey" => Error::UnknownKey,
        "WrongServerSig" => Error::WrongServerSig,
        "Disconnect" => Error::Disconnect,
        "DecryptionError" => Error::DecryptionError,
        "IO" => Error::IO,
        "Signature" => Error::Signature,
        "Memory" => Error::Memory,
        _ => return None,
    };
    Some(error)
}

/// `open_error NAME`: the error that a reader's refusal is, its text, and `itself` with the refusal's own text where
/// that is another.
fn open_error(row: &Row<'_>, found: &Found) -> Result<(), Fault> {
    let refusal = match row.word() {
        "PacketSize(7)" => OpenError::PacketSize(7),
        "IndexOutOfBounds" => OpenError::IndexOutOfBounds,
        "PacketAuth" => OpenError::PacketAuth,
        "DecryptionError" => OpenError::DecryptionError,
        "Disconnect" => OpenError::Disconnect,
        _ => return Err(Fault::Malformed),
    };
    say_error(found, &Error::from(refusal), &refusal)
}

/// `id_error NAME`: the same of the refusal of a version line.
fn id_error(row: &Row<'_>, found: &Found) -> Result<(), Fault> {
    let refusal = match row.word() {
        "Version" => IdError::Version,
        "Disconnect" => IdError::Disconnect,
        "IO" => IdError::IO,
        _ => return Err(Fault::Malformed),
    };
    say_error(found, &Error::from(refusal), &refusal)
}

fn say_error<E: fmt::Display>(found: &Found, error: &Error, refusal: &E) -> Result<(), Fault> {
    let own = format!(in found.alloc(); "{refusal}")?;
    let text = format!(in found.alloc(); "{error}")?;
    found.say_shown(error);
    found.say(text.as_str());
    say_other(
        found,
        "itself",
        own.as_str().as_bytes(),
        text.as_str().as_bytes(),
    );
    Ok(())
}
