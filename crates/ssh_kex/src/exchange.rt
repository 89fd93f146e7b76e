//! What an exchange knows and what it makes.

ghost use Rattle.std.specs.Prelude.{◌≡◌, ◌↔◌, ◌<◌, ◌-◌, ◌^◌, [], length, codes, None, Some, IfOk, IfErr, IsTrue};
ghost use Rattle.ssh_wire.specs.declared.error.Error.TheVariants.{Memory};
ghost use Rattle.ssh_kex.specs.Agreeing.{IsWhole};
ghost use Rattle.ssh_kex.specs.Exchange.{bytes_in};
ghost use Rattle.ssh_kex.specs.Shown.{secret_form};
ghost use Rattle.ssh_kex.specs.declared.exchange.SharedSecret.TheVariants.{Mpint, Str};

use crate::group::{DhGroup, GexParams};
use ssh_mac::HashValue;
use ssh_negotiate::{Names, kex};
use ssh_packet::CipherPair;
use ssh_wire::{Algorithm, Blob, Error};
use std::alloc::Global;
use std::fmt;

/// A shared secret, as the number that its bytes spell (most significant first) or as a string.
#[derive(Drop)]
pub enum SharedSecret {
    Mpint(Blob),
    Str(Blob),
}

impl SharedSecret {
    /// The number that the bytes spell, the most significant first. Memory.
    pub fn from_mpint(alloc: Global, bytes: &[u8]) -> Result<SharedSecret, Error>
        requires { length bytes.now < 2 ^ 32 - 1 }
        ensures ok { IfOk result (λ s. s ≡ Mpint bytes.now) }
        ensures err { IfErr result (λ e. e ≡ Memory) }
    {
        Ok(SharedSecret::Mpint(Blob::copy_of(alloc, bytes)?))
    }

    /// A string of the bytes. Memory.
    pub fn from_string(alloc: Global, bytes: &[u8]) -> Result<SharedSecret, Error>
        requires { length bytes.now < 2 ^ 32 - 1 }
        ensures ok { IfOk result (λ s. s ≡ Str bytes.now) }
        ensures err { IfErr result (λ e. e ≡ Memory) }
    {
        Ok(SharedSecret::Str(Blob::copy_of(alloc, bytes)?))
    }

    /// The bytes, without a length.
    pub fn as_bytes(&self) -> &[u8]
        ensures { result.now ≡ bytes_in self.now }
    {
        match self {
            SharedSecret::Mpint(bytes) | SharedSecret::Str(bytes) => bytes.as_slice(),
        }
    }
}

/// Shows the form alone, and no byte of the secret.
impl fmt::Debug for SharedSecret {
    ghost debug_output = { λ s. Some (secret_form s) };

    fn fmt<W: fmt::Write>(&self, f: &mut fmt::Formatter<W>) -> fmt::Result {
        f.write_str(match self {
            SharedSecret::Mpint(_) => "Mpint",
            SharedSecret::Str(_) => "Str",
        })
    }
}

/// The six keys of an exchange (RFC 4253 section 7.2): first nonce, cipher key and MAC key of each direction, each as
/// long as the negotiated algorithm wants it.
#[derive(Clone, Copy)]
pub struct Keys {
    pub iv_c2s: HashValue,
    pub iv_s2c: HashValue,
    pub key_c2s: HashValue,
    pub key_s2c: HashValue,
    pub mac_c2s: HashValue,
    pub mac_s2c: HashValue,
}

/// Shows no byte of a key.
impl fmt::Debug for Keys {
    ghost debug_output = { λ k. Some (codes "Keys") };

    fn fmt<W: fmt::Write>(&self, f: &mut fmt::Formatter<W>) -> fmt::Result {
        f.write_str("Keys")
    }
}

/// Keys, and what one side seals and opens with under them.
#[derive(Debug, Drop)]
pub struct NewCiphers {
    pub keys: Keys,
    pub cipher: CipherPair,
}

/// The sizes that were asked for, and the group that was found for them (RFC 4419 section 3).
#[derive(Debug, Drop)]
pub struct GexChosen {
    pub params: GexParams,
    pub group: DhGroup,
}

/// What both sides of an exchange know, but for the host's blob and the secret: the texts of both version lines without
/// their ending, both KEXINIT payloads, both public values, and in a group exchange the group.
#[derive(Debug, Drop)]
pub struct Exchange {
    pub client_id: Blob,
    pub server_id: Blob,
    pub client_kex_init: Blob,
    pub server_kex_init: Blob,
    pub client_ephemeral: Blob,
    pub server_ephemeral: Blob,
    pub gex: Option<GexChosen>,
}

impl Exchange {
    /// An exchange between these two, with all else empty. Memory.
    pub fn new(alloc: Global, client_id: &[u8], server_id: &[u8]) -> Result<Exchange, Error>
        ensures ok { IfOk result (λ x. x ≡ record {
          client_id = client_id.now;
          server_id = server_id.now;
          client_kex_init = [];
          server_kex_init = [];
          client_ephemeral = [];
          server_ephemeral = [];
          gex = None;
        }) }
        ensures err { IfErr result (λ e. e ≡ Memory) }
    {
        Ok(Exchange {
            client_id: Blob::copy_of(alloc, client_id)?,
            server_id: Blob::copy_of(alloc, server_id)?,
            client_kex_init: Blob::new(Vec::new(alloc)),
            server_kex_init: Blob::new(Vec::new(alloc)),
            client_ephemeral: Blob::new(Vec::new(alloc)),
            server_ephemeral: Blob::new(Vec::new(alloc)),
            gex: None,
        })
    }

    /// Whether a hash can be made of it and of a host's blob by a key exchange: each of its byte strings and the blob
    /// have under 2^31 bytes, and there is a group exactly where the name is a group exchange.
    pub(crate) fn can_be_hashed(&self, name: kex::Name, host_blob: &[u8]) -> bool
        ensures { IsTrue result ↔ IsWhole name host_blob.now self.now }
    {
        let strings_fit = is_short(host_blob)
            && is_short(self.client_id.as_slice())
            && is_short(self.server_id.as_slice())
            && is_short(self.client_kex_init.as_slice())
            && is_short(self.server_kex_init.as_slice())
            && is_short(self.client_ephemeral.as_slice())
            && is_short(self.server_ephemeral.as_slice());
        let gex_fits = match &self.gex {
            Some(gex) => {
                name.shape().gex
                    && is_short(gex.group.prime.as_slice())
                    && is_short(gex.group.generator.as_slice())
            }
            None => !name.shape().gex,
        };
        strings_fit && gex_fits
    }
}

/// Whether there are under 2^31 bytes.
fn is_short(bytes: &[u8]) -> bool
    ensures { IsTrue result ↔ length bytes.now < 2 ^ 31 }
{
    bytes.len() < 1 << 31
}

/// What an exchange leaves.
#[derive(Debug, Drop)]
pub struct NewKeys {
    pub exchange: Exchange,
    pub names: Names,
    pub hash: HashValue,
    pub session_id: HashValue,
    pub keys: Keys,
    /// Boxed, so that a machine and what it hands out are short to move.
    pub cipher: Box<CipherPair>,
}

/// What is kept of an exchange.
#[derive(Clone, Copy, Debug)]
pub struct FinishedExchange {
    pub names: Names,
    pub hash: HashValue,
    pub session_id: HashValue,
    pub keys: Keys,
}

/// The host that a server presents: a key, or a certificate of one. The blob isn't parsed here.
#[derive(Debug, Drop)]
pub struct ServerHost {
    pub algorithm: Algorithm,
    pub is_certificate: bool,
    pub blob: Blob,
}
