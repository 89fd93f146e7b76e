//! How a side is set up, and the hosts that it trusts.

use ssh_kex::{Config, GexParams};
use ssh_negotiate::{HostKey, Preferred, ServerKeys};
use ssh_vectors::TrustedHost;
use ssh_wire::{Algorithm, Blob, Limits, Side, SshId, Text};
use std::alloc::Global;
use vector_rows::{Fault, Row};

/// The next word as a side.
pub fn side_of(row: &Row<'_>) -> Side {
    let side = match row.word() {
        "client" => Some(Side::Client),
        "server" => Some(Side::Server),
        _ => None,
    };
    row.expect(side, Side::Client)
}

/// How a side is set up.
pub fn config_of(
    alloc: Global,
    id: &str,
    preferred: Preferred,
    gex: GexParams,
    host: ServerKeys,
) -> Result<Config, Fault> {
    Ok(Config {
        id: SshId::Standard(Text::new(String::from_str(alloc, id)?)),
        preferred,
        limits: Limits::new(1 << 30, 1 << 30, 3600),
        gex,
        host,
    })
}

/// The hosts of a server's keys and certificates.
pub fn trusted_by(alloc: Global, host: &ServerKeys) -> Result<Vec<TrustedHost>, Fault> {
    let mut trusted = Vec::new(alloc);
    for key in host.keys.as_slice() {
        trusted.push(TrustedHost {
            blob: Blob::copy_of(alloc, key.blob.as_slice())?,
            key_blob: Blob::copy_of(alloc, key.blob.as_slice())?,
        })?;
    }
    for certificate in host.certificates.as_slice() {
        trusted.push(TrustedHost {
            blob: Blob::copy_of(alloc, certificate.blob.as_slice())?,
            key_blob: Blob::copy_of(alloc, certificate.key_blob.as_slice())?,
        })?;
    }
    Ok(trusted)
}

/// A value so many times.
pub fn times<T: Copy>(alloc: Global, value: T, n: u32) -> Result<Vec<T>, Fault> {
    let mut values = Vec::new(alloc);
    for _ in 0..n {
        values.push(value)?;
    }
    Ok(values)
}

/// One host key whose blob has so many bytes, all zeros.
pub fn keys_of(alloc: Global, bytes: u32) -> Result<Vec<HostKey>, Fault> {
    key_of(alloc, Blob::new(times(alloc, 0, bytes)?))
}

/// One host key of this blob.
pub fn key_of(alloc: Global, blob: Blob) -> Result<Vec<HostKey>, Fault> {
    let mut keys = Vec::new(alloc);
    keys.push(HostKey {
        algorithm: Algorithm::Ed25519,
        blob,
    })?;
    Ok(keys)
}
