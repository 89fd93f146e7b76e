//! An exchange, made of the values of its blocks and of its secret.

ghost use Rattle.std.specs.Prelude.{◌≡◌, ℕ, List, false, Some, IfOk};
ghost use Rattle.std.specs.Option.{option_copied, option_map};
ghost use Rattle.ssh_kex.specs.Exchange.{exchange_hash};
ghost use Rattle.ssh_negotiate.specs.Tables.{shape_of};
ghost use Rattle.ssh_wire.specs.declared.side.Side.TheVariants.{Client as client_side, Server as server_side};
ghost use Rattle.ssh_transcript.specs.Reading.{AreKeysOf, IsSetting};
ghost use Rattle.ssh_transcript.specs.Making.{IsHashed, IsKeptWith, exchange_between, group_given, session_or};

use crate::direction::Directions;
use crate::given::GivenSecret;
use crate::setting::Setting;
use rand_chacha::ChaCha20Rng;
use rand_core::SeedableRng;
use ssh_blocks::{BlockValues, GroupValues};
use ssh_kex::{DhGroup, Exchange, FinishedExchange, GexChosen, KexAlgorithm};
use ssh_mac::HashValue;
use ssh_wire::Blob;
use std::alloc::{AllocError, Global};

/// An exchange, and what its keys open.
#[derive(Drop)]
pub struct Made {
    pub exchange: FinishedExchange,
    pub directions: Directions,
}

/// The exchange that two blocks of these values and this secret make (RFC 4253 sections 7.2 and 8). `session_id` is the
/// hash of the first exchange, where this isn't it. Memory, also where the secret has 2^31 bytes or more.
pub fn exchange_made(
    alloc: Global,
    setting: &Setting<'_>,
    values: &BlockValues<'_>,
    secret: &[u8],
    session_id: Option<HashValue>,
) -> Result<Made, AllocError>
    requires { IsSetting setting.now }
    ensures hashed { IfOk result (λ m. IsHashed setting.now values.now secret.now session_id m.exchange) }
    ensures client { IfOk result (λ m. AreKeysOf client_side m.exchange m.directions.client) }
    ensures server { IfOk result (λ m. AreKeysOf server_side m.exchange m.directions.server) }
{
    let algorithm = algorithm_with(alloc, setting, secret)?;
    let hash = hash_of(alloc, setting, values, &algorithm)?;
    let session = session_or(session_id, hash);
    Ok(kept(setting, &algorithm, hash, session))
}

/// The exchange hash of the values. Memory.
fn hash_of(
    alloc: Global,
    setting: &Setting<'_>,
    values: &BlockValues<'_>,
    algorithm: &KexAlgorithm,
) -> Result<HashValue, AllocError>
    ensures { IfOk result (λ h. h ≡ exchange_hash algorithm.now.name (exchange_between setting.now values.now)
        values.now.reply.host.now algorithm.now.secret) }
{
    let exchange = exchange_of(alloc, setting, values)?;
    if !algorithm.can_hash(values.reply.host, &exchange) {
        return Err(AllocError);
    }
    Ok(algorithm.compute_exchange_hash(values.reply.host, &exchange))
}

/// The hash of the first exchange, or this one where it is the first.
fn session_or(first: Option<HashValue>, hash: HashValue) -> HashValue
    ensures { result ≡ session_or first hash }
{
    match first {
        Some(first) => first,
        None => hash,
    }
}

/// What is kept of an exchange of this hash, and its keys.
fn kept(
    setting: &Setting<'_>,
    algorithm: &KexAlgorithm,
    hash: HashValue,
    session_id: HashValue,
) -> Made
    ensures kept { (secret : List ℕ) → algorithm.now.secret ≡ Some secret → algorithm.now.name ≡ setting.now.names.kex
        → IsKeptWith setting.now.names secret hash session_id result.exchange }
    ensures client { AreKeysOf client_side result.exchange result.directions.client }
    ensures server { AreKeysOf server_side result.exchange result.directions.server }
{
    let client = algorithm.compute_keys(&session_id, &hash, &setting.names, false);
    let server = algorithm.compute_keys(&session_id, &hash, &setting.names, true);
    Made {
        exchange: FinishedExchange {
            names: setting.names,
            hash,
            session_id,
            keys: client.keys,
        },
        directions: Directions::of(client, server),
    }
}

/// A key exchange of the negotiated name that has the secret.
fn algorithm_with(
    alloc: Global,
    setting: &Setting<'_>,
    secret: &[u8],
) -> Result<KexAlgorithm, AllocError>
    ensures name { (shape_of setting.now.names.kex).skip ≡ false → IfOk result (λ k. k.name ≡ setting.now.names.kex) }
    ensures secret { (shape_of setting.now.names.kex).skip ≡ false → IfOk result (λ k. k.secret ≡ Some secret.now) }
{
    let mut algorithm = KexAlgorithm::new(alloc, setting.names.kex);
    let mut handed = secret_exchange(alloc, secret)?;
    let mut rng = ChaCha20Rng::from_seed([0; 32]);
    match algorithm.server_dh(&mut GivenSecret, &mut rng, &mut handed) {
        Ok(()) => Ok(algorithm),
        Err(_) => Err(AllocError),
    }
}

/// An exchange whose client's value is the secret.
fn secret_exchange(alloc: Global, secret: &[u8]) -> Result<Exchange, AllocError>
    ensures { IfOk result (λ x. x.client_ephemeral ≡ secret.now) }
{
    let client_ephemeral = Blob::copy_of(alloc, secret)?;
    Ok(Exchange {
        client_id: Blob::new(Vec::new(alloc)),
        server_id: Blob::new(Vec::new(alloc)),
        client_kex_init: Blob::new(Vec::new(alloc)),
        server_kex_init: Blob::new(Vec::new(alloc)),
        client_ephemeral,
        server_ephemeral: Blob::new(Vec::new(alloc)),
        gex: None,
    })
}

/// The exchange of the values.
fn exchange_of(
    alloc: Global,
    setting: &Setting<'_>,
    values: &BlockValues<'_>,
) -> Result<Exchange, AllocError>
    ensures { IfOk result (λ x. x ≡ exchange_between setting.now values.now) }
{
    Ok(Exchange {
        client_id: Blob::copy_of(alloc, setting.client.id.as_kex_hash_bytes())?,
        server_id: Blob::copy_of(alloc, setting.server.id.as_kex_hash_bytes())?,
        client_kex_init: Blob::copy_of(alloc, values.client_kexinit)?,
        server_kex_init: Blob::copy_of(alloc, values.server_kexinit)?,
        client_ephemeral: Blob::copy_of(alloc, values.client_value)?,
        server_ephemeral: Blob::copy_of(alloc, values.reply.value)?,
        gex: group_of(alloc, values.group.as_ref())?,
    })
}

/// The group, where there is one.
fn group_of(alloc: Global, group: Option<&GroupValues<'_>>) -> Result<Option<GexChosen>, AllocError>
    ensures { IfOk result (λ g. g ≡ option_map group_given (option_copied group.entry)) }
{
    match group {
        None => Ok(None),
        Some(group) => Ok(Some(GexChosen {
            params: group.sizes,
            group: DhGroup {
                prime: Blob::copy_of(alloc, group.numbers.prime)?,
                generator: Blob::copy_of(alloc, group.numbers.generator)?,
            },
        })),
    }
}
