//! What both ends of an exchange seal and open with.

ghost use Rattle.std.specs.Option.{option_copied};
ghost use Rattle.std.specs.Prelude.{◌≡◌};
ghost use Rattle.ssh_kex.specs.Exchange.{IsShortSecret, keys_of, secret_text};
ghost use Rattle.ssh_kex.specs.Laws.{AreCiphersOf, Meet};
ghost use Rattle.ssh_wire.specs.declared.side.Side.TheVariants.{Client, Server};

use ssh_kex::{NewCiphers, SharedSecret, compute_keys};
use ssh_mac::{DigestKind, HashValue};
use ssh_negotiate::Names;

/// What a client and a server make of one secret. Both have the keys of RFC 4253 section 7.2, and each opens with what
/// the other seals under.
#[tactic(auto, using(ssh_kex::proofs::Lemmas::ciphers_meet))]
pub fn ciphers_of_both(
    digest: DigestKind,
    secret: Option<&SharedSecret>,
    session_id: &HashValue,
    exchange_hash: &HashValue,
    names: &Names,
) -> (NewCiphers, NewCiphers)
    requires { IsShortSecret (option_copied secret) }
    ensures meet { Meet result.0.cipher result.1.cipher }
    ensures keys { result.0.keys ≡ keys_of digest (secret_text (option_copied secret.entry)) exchange_hash.now
        session_id.now names.now }
    ensures one { result.1.keys ≡ result.0.keys }
    ensures client { AreCiphersOf Client names.now result.0.keys result.0.cipher }
    ensures server { AreCiphersOf Server names.now result.1.keys result.1.cipher }
{
    let client = compute_keys(digest, secret, session_id, exchange_hash, names, false);
    let server = compute_keys(digest, secret, session_id, exchange_hash, names, true);
    (client, server)
}
