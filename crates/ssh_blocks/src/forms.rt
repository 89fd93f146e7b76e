//! What stands in a message of an exchange, where it is spelled as such a message is.

ghost use Rattle.std.specs.Prelude.{◌≡◌, ◌++◌, ◌∷◌, ◌<◌, ◌^◌, ◌-◌, ℕ, List, length, IfSome, None, Some};
ghost use Rattle.ssh_wire.specs.Forms.{magnitude, mpint, string};
ghost use Rattle.ssh_kex.specs.Messages.{sizes_text};
ghost use Rattle.ssh_kex.specs.declared.group.GexParams.{GexParams};
ghost use Rattle.ssh_blocks.specs.Forms.{AreSizes, IsFound};

use ssh_kex::GexParams;
use ssh_wire::Reader;

/// The three strings of a reply: the host's blob, the value, the signature.
#[derive(Drop)]
pub struct Reply<'a> {
    pub host: &'a [u8],
    pub value: &'a [u8],
    pub signature: &'a [u8],
}

/// The two numbers of a group, each the bytes that spell it, the most significant first.
#[derive(Drop)]
pub struct Numbers<'a> {
    pub prime: &'a [u8],
    pub generator: &'a [u8],
}

/// A reader of what stands behind a message's type; none where it has another type.
fn behind_type(payload: &[u8], message_type: u8) -> Option<Reader<'_>>
    ensures some { IfSome result (λ fields. payload.now ≡ message_type ∷ fields) }
    ensures none { result ≡ None → (fields : List ℕ) → payload.now ≡ message_type ∷ fields → ⊥ }
{
    match payload.split_first() {
        Some((first, fields)) => {
            if *first == message_type {
                Some(Reader::new(fields))
            } else {
                None
            }
        }
        None => None,
    }
}

/// The one string of a message behind its type; none where it isn't one string.
pub fn one_string(payload: &[u8], message_type: u8) -> Option<&[u8]>
    ensures spelled { IfSome result (λ v. payload.now ≡ message_type ∷ string v.now) }
    ensures again { (value : List ℕ) → length value < 2 ^ 32 → payload.now ≡ message_type ∷ string value
        → IsFound (λ v. v.now ≡ value) result }
{
    let mut reader = behind_type(payload, message_type)?;
    let value = match reader.read_string() {
        Ok(value) => value,
        Err(_) => return None,
    };
    match reader.ensure_end() {
        Ok(()) => Some(value),
        Err(_) => None,
    }
}

/// The three strings of a message behind its type; none where they aren't three.
pub fn three_strings(payload: &[u8], message_type: u8) -> Option<Reply<'_>>
    ensures spelled { IfSome result (λ r. payload.now
        ≡ message_type ∷ (string r.host.now ++ (string r.value.now ++ string r.signature.now))) }
    ensures again { (host value signature : List ℕ) → length host < 2 ^ 32 → length value < 2 ^ 32
        → length signature < 2 ^ 32 → payload.now ≡ message_type ∷ (string host ++ (string value ++ string signature))
        → IsFound (λ r. (r.host.now ≡ host) × (r.value.now ≡ value) × (r.signature.now ≡ signature)) result }
{
    let mut reader = behind_type(payload, message_type)?;
    let host = match reader.read_string() {
        Ok(host) => host,
        Err(_) => return None,
    };
    let value = match reader.read_string() {
        Ok(value) => value,
        Err(_) => return None,
    };
    let signature = match reader.read_string() {
        Ok(signature) => signature,
        Err(_) => return None,
    };
    match reader.ensure_end() {
        Ok(()) => Some(Reply {
            host,
            value,
            signature,
        }),
        Err(_) => None,
    }
}

/// The two numbers of a message behind its type; none where they aren't two mpints.
pub fn two_numbers(payload: &[u8], message_type: u8) -> Option<Numbers<'_>>
    ensures spelled { IfSome result (λ n. payload.now ≡ message_type ∷ (mpint n.prime.now ++ mpint n.generator.now)) }
    ensures canonical { IfSome result (λ n. (magnitude n.prime.now ≡ n.prime.now)
        × (magnitude n.generator.now ≡ n.generator.now)) }
    ensures again { (prime generator : List ℕ) → length prime < 2 ^ 32 - 1 → length generator < 2 ^ 32 - 1
        → payload.now ≡ message_type ∷ (mpint prime ++ mpint generator)
        → IsFound (λ n. (n.prime.now ≡ magnitude prime) × (n.generator.now ≡ magnitude generator)) result }
{
    let mut reader = behind_type(payload, message_type)?;
    let prime = match reader.read_mpint() {
        Ok(prime) => prime,
        Err(_) => return None,
    };
    let generator = match reader.read_mpint() {
        Ok(generator) => generator,
        Err(_) => return None,
    };
    match reader.ensure_end() {
        Ok(()) => Some(Numbers { prime, generator }),
        Err(_) => None,
    }
}

/// The three sizes of a message behind its type; none where they aren't three.
pub fn three_sizes(payload: &[u8], message_type: u8) -> Option<GexParams>
    ensures spelled { IfSome result (λ g. payload.now ≡ message_type ∷ sizes_text g) }
    ensures small { IfSome result AreSizes }
    ensures again { (g : GexParams) → AreSizes g → payload.now ≡ message_type ∷ sizes_text g → result ≡ Some g }
{
    let mut reader = behind_type(payload, message_type)?;
    let sizes = match GexParams::decode(&mut reader) {
        Ok(sizes) => sizes,
        Err(_) => return None,
    };
    see_sizes(&sizes);
    match reader.ensure_end() {
        Ok(()) => Some(sizes),
        Err(_) => None,
    }
}

/// What the type of sizes says.
pub(crate) fn see_sizes(sizes: &GexParams)
    ensures { AreSizes sizes.now }
{
    let _least = sizes.min_group_size;
    let _wanted = sizes.preferred_group_size;
    let _most = sizes.max_group_size;
}
