//! The values that a client's and a server's block hold.

ghost use Rattle.std.specs.Prelude.{◌≡◌, ◌∷◌, [], ℕ, List, None, IfSome, false, true};
ghost use Rattle.ssh_kex.specs.declared.config.Config.{Config};
ghost use Rattle.ssh_kex.specs.declared.exchange.Exchange.{Exchange};
ghost use Rattle.ssh_record.specs.Exchanges.{BlocksHold};
ghost use Rattle.ssh_blocks.specs.Blocks.{AreShort, exchange_in};

use crate::forms::{Numbers, Reply, one_string, three_sizes, three_strings, two_numbers};
use ssh_kex::GexParams;
use ssh_wire::{Payload, msg};

/// What two blocks of one exchange hold. Nothing is read of a KEXINIT but its bytes.
#[derive(Drop)]
pub struct BlockValues<'b> {
    pub client_kexinit: &'b [u8],
    pub server_kexinit: &'b [u8],
    pub client_value: &'b [u8],
    pub reply: Reply<'b>,
    /// The group of a group exchange.
    pub group: Option<GroupValues<'b>>,
}

/// The sizes that a client asked for, and the group that the server answered.
#[derive(Drop)]
pub struct GroupValues<'b> {
    pub sizes: GexParams,
    pub numbers: Numbers<'b>,
}

/// The values of two whole blocks of messages, the first message of each first; none where a message isn't spelled as
/// its type is. `kind` says whether they are of a group exchange.
pub fn values_of<'b>(
    client: &'b [Payload],
    server: &'b [Payload],
    kind: bool,
) -> Option<BlockValues<'b>>
    ensures held { IfSome result (λ v. (c s : Config) → AreShort client.now → AreShort server.now
        → BlocksHold c s kind client.now server.now (exchange_in c s v) v.reply.host.now) }
    ensures none { result ≡ None → (c s : Config) (e : Exchange) (host : List ℕ)
        → BlocksHold c s kind client.now server.now e host → ⊥ }
{
    if kind {
        group_values(client, server)
    } else {
        plain_values(client, server)
    }
}

/// Those of an exchange in a fixed group, or on a curve.
fn plain_values<'b>(client: &'b [Payload], server: &'b [Payload]) -> Option<BlockValues<'b>>
    ensures held { IfSome result (λ v. (c s : Config) → AreShort client.now → AreShort server.now
        → BlocksHold c s false client.now server.now (exchange_in c s v) v.reply.host.now) }
    ensures none { result ≡ None → (c s : Config) (e : Exchange) (host : List ℕ)
        → BlocksHold c s false client.now server.now e host → ⊥ }
{
    let (client_kexinit, value) = two_of_three(client)?;
    let (server_kexinit, reply) = two_of_three(server)?;
    let client_value = one_string(value, msg::KEX_ECDH_INIT)?;
    let reply = three_strings(reply, msg::KEX_ECDH_REPLY)?;
    Some(BlockValues {
        client_kexinit,
        server_kexinit,
        client_value,
        reply,
        group: None,
    })
}

/// Those of a group exchange.
fn group_values<'b>(client: &'b [Payload], server: &'b [Payload]) -> Option<BlockValues<'b>>
    ensures held { IfSome result (λ v. (c s : Config) → AreShort client.now → AreShort server.now
        → BlocksHold c s true client.now server.now (exchange_in c s v) v.reply.host.now) }
    ensures none { result ≡ None → (c s : Config) (e : Exchange) (host : List ℕ)
        → BlocksHold c s true client.now server.now e host → ⊥ }
{
    let (client_kexinit, request, value) = three_of_four(client)?;
    let (server_kexinit, group, reply) = three_of_four(server)?;
    let client_value = one_string(value, msg::KEX_DH_GEX_INIT)?;
    let reply = three_strings(reply, msg::KEX_DH_GEX_REPLY)?;
    let sizes = three_sizes(request, msg::KEX_DH_GEX_REQUEST)?;
    let numbers = two_numbers(group, msg::KEX_DH_GEX_GROUP)?;
    Some(BlockValues {
        client_kexinit,
        server_kexinit,
        client_value,
        reply,
        group: Some(GroupValues { sizes, numbers }),
    })
}

/// The first two messages of three.
fn two_of_three(block: &[Payload]) -> Option<(&[u8], &[u8])>
    ensures some { IfSome result (λ m. (last : List ℕ) × (block.now ≡ m.0.now ∷ m.1.now ∷ last ∷ [])) }
    ensures none { result ≡ None → (a b last : List ℕ) → block.now ≡ a ∷ b ∷ last ∷ [] → ⊥ }
{
    match block {
        [first, second, _] => Some((first.as_slice(), second.as_slice())),
        _ => None,
    }
}

/// The first three messages of four.
fn three_of_four(block: &[Payload]) -> Option<(&[u8], &[u8], &[u8])>
    ensures some { IfSome result (λ m. (last : List ℕ)
        × (block.now ≡ m.0.now ∷ m.1.now ∷ m.2.now ∷ last ∷ [])) }
    ensures none { result ≡ None → (a b c last : List ℕ) → block.now ≡ a ∷ b ∷ c ∷ last ∷ [] → ⊥ }
{
    match block {
        [first, second, third, _] => {
            Some((first.as_slice(), second.as_slice(), third.as_slice()))
        }
        _ => None,
    }
}
