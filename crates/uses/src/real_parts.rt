//! A link over real parts: no part of a test is left in it.

ghost use Rattle.std.specs.Prelude.{◌≡◌, IfErr, IfOk, true};
ghost use Rattle.ssh_kex.specs.Parts.{between};
ghost use Rattle.ssh_rules.specs.AnyParts.{IsReadLink};
ghost use Rattle.ssh_rules.specs.Headline.{IsInGroup, IsLink, chosen_by, kind_by};
ghost use Rattle.ssh_rules.specs.RunLaws.{config_of};
ghost use Rattle.ssh_run.specs.RunCauses.{IsValidRun, offered_on};
ghost use Rattle.ssh_modp.specs.Fields.{AgreesInField, MakesPublic, ServerPublic, is_field_name};
ghost use Rattle.ssh_modp.specs.Groups.{AllowsGroup, modp_group};
ghost use Rattle.ssh_modp.specs.Hosts.{KnowsAll, SignsAll, is_known};
ghost use Rattle.ssh_modp.specs.Rsa.{rsa_accepts};
ghost use Rattle.ssh_wire.specs.declared.error.Error.TheVariants.{Memory};

use rand_core::Rng;
use ssh_kex::{Config, Parts};
use ssh_modp::{FieldAgreement, ModpGroups, RsaHosts};
use ssh_rules::link::{LinkReport, Step};
use ssh_run::run_link;
use ssh_wire::Error;
use std::alloc::Global;

/// Runs a link between a client and a server that agree in finite fields (RFC 4253 section 8, RFC 4419) and prove hosts
/// by RSA (RFC 8332). Its report is one of a link, whatever the keys, the known hosts and the generators are. What the
/// client recorded was signed by hosts that it knows.
///
/// Only want of memory keeps the report back where both configurations pass and give an exchange that the agreements
/// have, each payload may be submitted, the client knows each host that the server presents, the server's key signs for
/// each, and in a group exchange the client's sizes allow the group.
///
/// As `run_link`; Memory.
pub fn run_real_link<R: Rng>(
    alloc: Global,
    client: &Config,
    server: &Config,
    client_parts: &mut Parts<FieldAgreement, RsaHosts, ModpGroups, R>,
    server_parts: &mut Parts<FieldAgreement, RsaHosts, ModpGroups, R>,
    steps: &[Step],
) -> Result<LinkReport, Error>
    ensures link { IfOk result (IsLink MakesPublic ServerPublic AgreesInField client.now server.now steps.now) }
    ensures group { IfOk result (IsInGroup server.now (modp_group client.now.gex)) }
    ensures complete { IsValidRun (config_of (between client.now server.now)) (offered_on is_field_name is_field_name)
        steps.now → KnowsAll client_parts.old.hosts.known server.now → SignsAll server_parts.old.hosts.key server.now
        → (kind_by (chosen_by client.now server.now) ≡ true → AllowsGroup client.now.gex)
        → IfErr result (λ e. e ≡ Memory) }
    ensures read { IfOk result (IsReadLink rsa_accepts (is_known client_parts.old.hosts.known) client.now server.now) }
{
    run_link(alloc, client, server, client_parts, server_parts, steps)
}
