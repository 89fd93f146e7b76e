//! How a side is set up.

ghost use Rattle.std.specs.Prelude.{◌≡◌, ◌∷◌, ◌≤◌, ◌^◌, [], IfErr, IfOk, MatchOption};
ghost use Rattle.ssh_wire.specs.declared.error.Error.TheVariants.{Memory};
ghost use Rattle.ssh_pipe.specs.Setup.{pipe_config, pipe_preferences, rsa_host};
ghost use Rattle.rand_chacha.specs.ChaCha.{of_seed};

use rand_chacha::ChaCha20Rng;
use rand_core::SeedableRng;
use ssh_kex::{Config, GexParams, Parts};
use ssh_mac::mac;
use ssh_modp::{FieldAgreement, ModpGroups, RsaHosts, RsaKey};
use ssh_negotiate::{HostKey, Preferred, ServerKeys, kex};
use ssh_packet::{cipher, compression};
use ssh_wire::{Algorithm, Blob, Error, HashAlg, Limits, SshId, Text};
use std::alloc::{AllocError, Global};

/// The version line (RFC 4253 section 4.2).
const VERSION_LINE: &str = "SSH-2.0-sshpipe";

/// How many seconds may go by under the same keys; a field alone, which starts nothing.
const SECONDS: u64 = 3600;

/// The parts that a side is handed.
pub type PipeParts = Parts<FieldAgreement, RsaHosts, ModpGroups, ChaCha20Rng>;

/// The configuration of a side. A server has the blob of its key. Memory.
pub fn config_of(alloc: Global, key: Option<&[u8]>, limit: usize) -> Result<Config, Error>
    requires some { 1 ≤ limit }
    requires most { limit ≤ 2 ^ 30 }
    ensures made { IfOk result (λ config. MatchOption key.entry (config ≡ pipe_config [] limit)
        (λ blob. config ≡ pipe_config (blob.now ∷ []) limit)) }
    ensures memory { IfErr result (λ e. e ≡ Memory) }
{
    let keys = host_keys(alloc, key)?;
    let preferred = preferred_of(alloc)?;
    let gex = GexParams::new(2048, 3072, 8192)?;
    let id = String::from_str(alloc, VERSION_LINE)?;
    Ok(Config {
        id: SshId::Standard(Text::new(id)),
        preferred,
        limits: Limits::new(limit, limit, SECONDS),
        gex,
        host: ServerKeys {
            keys,
            certificates: Vec::new(alloc),
        },
    })
}

fn host_keys(alloc: Global, key: Option<&[u8]>) -> Result<Vec<HostKey>, AllocError>
    ensures { IfOk result (λ keys. MatchOption key.entry (keys.items ≡ [])
        (λ blob. keys.items ≡ rsa_host blob.now ∷ [])) }
{
    let mut keys = Vec::new(alloc);
    if let Some(blob) = key {
        let blob = Blob::copy_of(alloc, blob)?;
        keys.push(HostKey {
            algorithm: Algorithm::Rsa(None),
            blob,
        })?;
    }
    Ok(keys)
}

/// What is offered: what the parts can do, and each cipher and MAC that isn't broken, the strongest first.
#[tactic(auto, unfolding(crate::specs::Setup::pipe_preferences))]
fn preferred_of(alloc: Global) -> Result<Preferred, AllocError>
    ensures { IfOk result (λ p. p ≡ pipe_preferences) }
{
    let key = vec![in alloc;
        Algorithm::Rsa(Some(HashAlg::Sha512)),
        Algorithm::Rsa(Some(HashAlg::Sha256)),
    ]?;
    let compression = vec![in alloc; compression::NONE]?;
    Ok(Preferred {
        kex: exchanges(alloc)?,
        key,
        host_key_certificates: Vec::new(alloc),
        cipher: ciphers(alloc)?,
        mac: macs(alloc)?,
        compression,
    })
}

/// The key exchanges of `FieldAgreement`, and the names of extension info and strict key exchange.
#[tactic(auto, unfolding(crate::specs::Setup::pipe_preferences))]
fn exchanges(alloc: Global) -> Result<Vec<kex::Name>, AllocError>
    ensures { IfOk result (λ v. v.items ≡ pipe_preferences.kex) }
{
    Ok(Vec::from_array(
        alloc,
        [
            kex::DH_GEX_SHA256,
            kex::DH_G16_SHA512,
            kex::DH_G15_SHA512,
            kex::DH_G14_SHA256,
            kex::EXTENSION_SUPPORT_AS_CLIENT,
            kex::EXTENSION_SUPPORT_AS_SERVER,
            kex::EXTENSION_OPENSSH_STRICT_KEX_AS_CLIENT,
            kex::EXTENSION_OPENSSH_STRICT_KEX_AS_SERVER,
        ],
    )?)
}

#[tactic(auto, unfolding(crate::specs::Setup::pipe_preferences))]
fn ciphers(alloc: Global) -> Result<Vec<cipher::Name>, AllocError>
    ensures { IfOk result (λ v. v.items ≡ pipe_preferences.cipher) }
{
    Ok(Vec::from_array(
        alloc,
        [
            cipher::AES_256_GCM,
            cipher::AES_128_GCM,
            cipher::AES_256_CTR,
            cipher::AES_192_CTR,
            cipher::AES_128_CTR,
            cipher::AES_256_CBC,
            cipher::AES_192_CBC,
            cipher::AES_128_CBC,
        ],
    )?)
}

#[tactic(auto, unfolding(crate::specs::Setup::pipe_preferences))]
fn macs(alloc: Global) -> Result<Vec<mac::Name>, AllocError>
    ensures { IfOk result (λ v. v.items ≡ pipe_preferences.mac) }
{
    Ok(Vec::from_array(
        alloc,
        [
            mac::HMAC_SHA512_ETM,
            mac::HMAC_SHA256_ETM,
            mac::HMAC_SHA512,
            mac::HMAC_SHA256,
            mac::HMAC_SHA1_ETM,
            mac::HMAC_SHA1,
        ],
    )?)
}

/// What the transport is handed: a server's key, or the blob that a client knows, and a seed.
pub fn parts_of(key: Option<RsaKey>, known: Vec<Blob>, seed: [u8; 32]) -> PipeParts
    ensures key { result.hosts.key ≡ key }
    ensures known { result.hosts.known ≡ known.items }
    ensures rng { result.rng ≡ of_seed seed }
{
    Parts {
        agreement: FieldAgreement::new(),
        hosts: RsaHosts::new(key, known),
        groups: ModpGroups,
        rng: ChaCha20Rng::from_seed(seed),
    }
}
