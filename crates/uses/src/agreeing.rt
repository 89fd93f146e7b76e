//! A client and a server that agree on a secret, whatever the types of their parts are.

ghost use Rattle.std.specs.Option.{option_copied};
ghost use Rattle.std.specs.Prelude.{◌≡◌, ◌≤◌, codes, true, IfOk, OnOk, Some};
ghost use Rattle.ssh_kex.specs.Messages.{bit_size, is_gex};
ghost use Rattle.ssh_kex.specs.Parts.{Answers, HasItsGroup, IsRefused, Presents, Setup};
ghost use Rattle.ssh_negotiate.specs.declared.preferred.HostKey.{HostKey};
ghost use Rattle.uses.specs.DrawnSecret.{IsDrawnSecret};

use rand_core::Rng;
use ssh_kex::{Agreement, DhGroup, GexParams, GroupLookup, HostKeys, Parts, Refusal, ServerHost};
use ssh_negotiate::kex;
use ssh_wire::Blob;
use std::alloc::Global;
use std::fmt;

/// The secrets that a client and a server hold.
#[derive(Drop)]
pub struct Secrets {
    pub client: Blob,
    pub server: Blob,
}

/// Shows no byte of a secret.
impl fmt::Debug for Secrets {
    ghost debug_output = { λ s. Some (codes "Secrets") };

    fn fmt<W: fmt::Write>(&self, f: &mut fmt::Formatter<W>) -> fmt::Result {
        f.write_str("Secrets")
    }
}

/// Draws a value on each side, and makes the secret on each side. They are one where both agreements are lawful under
/// some setup. Nothing is refused where both are obliging in the group, offer the name, and a group is handed over in a
/// group exchange alone.
pub fn agree<A: Agreement, R: Rng>(
    alloc: Global,
    client: &mut A,
    server: &mut A,
    name: kex::Name,
    group: Option<&DhGroup>,
    client_rng: &mut R,
    server_rng: &mut R,
) -> Result<Secrets, Refusal>
    ensures one { (s : Setup) → A.lawful client.old s → A.lawful server.old s
        → IfOk result (λ v. v.client ≡ v.server) }
    ensures drawn { IfOk result (λ v. IsDrawnSecret A.client_draws A.server_draws name (option_copied group.entry)
        (R.stream client_rng.old) (R.stream client_rng.new) (R.stream server_rng.old) (R.stream server_rng.new)
        v.server) }
    ensures client_answers { OnOk result (Answers A.answered 2 client.old client.new) }
    ensures server_answers { OnOk result (Answers A.answered 1 server.old server.new) }
    ensures never { (s : Setup) → A.obliging client.old client.new s (option_copied group.entry)
        → A.obliging server.old server.new s (option_copied group.entry)
        → HasItsGroup name (option_copied group.entry) → A.offered client.old name ≡ true
        → A.offered server.old name ≡ true → IsRefused result → ⊥ }
{
    let started = client.client_start(alloc, name, group, client_rng)?;
    let agreed = server.server_agree(alloc, name, group, started.public.as_slice(), server_rng)?;
    let secret = client.client_agree(
        alloc,
        name,
        group,
        started.local.as_slice(),
        agreed.public.as_slice(),
    )?;
    Ok(Secrets {
        client: secret,
        server: agreed.secret,
    })
}

/// Looks up a group on the server's side, judges the host on the client's, and agrees in that group. Where both
/// agreements are lawful under some setup the secrets are one. Where all parts are obliging under a setup whose server
/// presents the host, the agreements in the group that the lookup finds, and the name is a group exchange's, nothing is
/// refused; where the sizes are its client's the group is within them.
pub fn agree_in_group<A: Agreement, H: HostKeys, G: GroupLookup, R: Rng>(
    alloc: Global,
    client: &mut Parts<A, H, G, R>,
    server: &mut Parts<A, H, G, R>,
    name: kex::Name,
    sizes: &GexParams,
    host: &ServerHost,
) -> Result<(DhGroup, Secrets), Refusal>
    ensures one { (s : Setup) → A.lawful client.old.agreement s → A.lawful server.old.agreement s
        → IfOk result (λ v. v.1.client ≡ v.1.server) }
    ensures drawn { IfOk result (λ v. IsDrawnSecret A.client_draws A.server_draws name (Some v.0)
        (R.stream client.old.rng) (R.stream client.new.rng) (R.stream server.old.rng) (R.stream server.new.rng)
        v.1.server) }
    ensures trusted { OnOk result (H.trusts client.old.hosts host.now ≡ true) }
    ensures fitting { (later : G) (s : Setup) → G.obliging server.old.groups later s → s.client.gex ≡ sizes.now
        → IfOk result (λ v. (sizes.now.min_group_size ≤ bit_size v.0.prime)
        × (bit_size v.0.prime ≤ sizes.now.max_group_size)) }
    ensures never { (s : Setup) (key : HostKey)
        → A.obliging client.old.agreement client.new.agreement s (Some (G.group server.old.groups sizes.now))
        → A.obliging server.old.agreement server.new.agreement s (Some (G.group server.old.groups sizes.now))
        → is_gex name ≡ true
        → H.judges client.old.hosts client.new.hosts s → G.obliging server.old.groups server.new.groups s
        → A.offered client.old.agreement name ≡ true → A.offered server.old.agreement name ≡ true
        → Presents s.server host.now key host.now.algorithm → IsRefused result → ⊥ }
{
    let group = server.groups.lookup_dh_gex_group(alloc, sizes)?;
    client.hosts.check(alloc, host)?;
    let secrets = agree(
        alloc,
        &mut client.agreement,
        &mut server.agreement,
        name,
        Some(&group),
        &mut client.rng,
        &mut server.rng,
    )?;
    Ok((group, secrets))
}
