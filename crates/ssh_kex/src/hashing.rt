//! A text that is hashed, taken in form by form. No memory is taken.

ghost use Rattle.std.specs.Prelude.{◌≡◌, ◌<◌, ◌-◌, ◌^◌, length};
ghost use Rattle.std.specs.Option.{option_copied};
ghost use Rattle.ssh_mac.specs.Digests.{digest_of};
ghost use Rattle.ssh_wire.specs.Forms.{string, mpint, u32be};
ghost use Rattle.ssh_kex.specs.Exchange.{IsShortGex, IsShortSecret, group_text, hashed_text, secret_text};
ghost use Rattle.ssh_kex.specs.Hashing.{HasShortValues, TakesIn};

use crate::exchange::{Exchange, GexChosen, SharedSecret};
use ssh_mac::{DigestKind, HashValue, Hasher};
use ssh_wire::mpint_parts;

/// Takes in a `uint32`.
fn take_u32(text: &mut Hasher, value: u32)
    ensures { TakesIn text.old text.new (u32be value) }
{
    text.update(&value.to_be_bytes());
}

/// Takes in a `string` of the bytes.
fn take_string(text: &mut Hasher, bytes: &[u8])
    requires { length bytes.now < 2 ^ 32 }
    ensures { TakesIn text.old text.new (string bytes.now) }
{
    take_u32(text, bytes.len() as u32);
    text.update(bytes);
}

/// Takes in an `mpint` of the number that the bytes spell.
fn take_mpint(text: &mut Hasher, bytes: &[u8])
    requires { length bytes.now < 2 ^ 32 - 1 }
    ensures { TakesIn text.old text.new (mpint bytes.now) }
{
    let (sign, digits) = mpint_parts(bytes);
    take_u32(text, (sign.len() + digits.len()) as u32);
    text.update(sign);
    text.update(digits);
}

/// Takes in the secret in its form; nothing where there is none.
#[tactic(auto, unfolding(crate::specs::Exchange::secret_text), using(crate::proofs::Taking::takes_none))]
pub(crate) fn take_secret(text: &mut Hasher, secret: Option<&SharedSecret>)
    requires { IsShortSecret (option_copied secret) }
    ensures { TakesIn text.old text.new (secret_text (option_copied secret.entry)) }
{
    match secret {
        Some(SharedSecret::Mpint(bytes)) => take_mpint(text, bytes.as_slice()),
        Some(SharedSecret::Str(bytes)) => take_string(text, bytes.as_slice()),
        None => {}
    }
}

/// Takes in the sizes that were asked for and the group of them; nothing where there is none.
fn take_group(text: &mut Hasher, gex: Option<&GexChosen>)
    requires { IsShortGex (option_copied gex) }
    ensures { TakesIn text.old text.new (group_text (option_copied gex.entry)) }
{
    if let Some(gex) = gex {
        take_u32(text, gex.params.min_group_size);
        take_u32(text, gex.params.preferred_group_size);
        take_u32(text, gex.params.max_group_size);
        take_mpint(text, gex.group.prime.as_slice());
        take_mpint(text, gex.group.generator.as_slice());
    }
}

/// The digest of the values of an exchange, the host's blob and the secret (RFC 4253 section 8, RFC 4419 section 3).
pub(crate) fn hash_of(
    digest: DigestKind,
    exchange: &Exchange,
    host: &[u8],
    secret: Option<&SharedSecret>,
) -> HashValue
    requires values { HasShortValues host.now exchange.now }
    requires secret { IsShortSecret (option_copied secret) }
    ensures { result ≡ digest_of digest (hashed_text exchange.now host.now (secret_text (option_copied secret.entry))) }
{
    let mut text = Hasher::new(digest);
    take_string(&mut text, exchange.client_id.as_slice());
    take_string(&mut text, exchange.server_id.as_slice());
    take_string(&mut text, exchange.client_kex_init.as_slice());
    take_string(&mut text, exchange.server_kex_init.as_slice());
    take_string(&mut text, host);
    take_group(&mut text, exchange.gex.as_ref());
    take_string(&mut text, exchange.client_ephemeral.as_slice());
    take_string(&mut text, exchange.server_ephemeral.as_slice());
    take_secret(&mut text, secret);
    text.finalize()
}
