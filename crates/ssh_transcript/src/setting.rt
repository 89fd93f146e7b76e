//! Two configurations that pass, and what they choose.

ghost use Rattle.std.specs.Prelude.{◌≡◌, ◌⊎◌, None, Ok, IfOk, IfErr, OnOk};
ghost use Rattle.std.specs.Option.{option_copied};
ghost use Rattle.ssh_wire.specs.declared.side.Side.TheVariants.{Client as client_side, Server as server_side};
ghost use Rattle.ssh_negotiate.specs.Reading.{offered_by};
ghost use Rattle.ssh_negotiate.specs.declared.negotiation.Names.{Names};
ghost use Rattle.ssh_kex.specs.Messages.{is_gex};
ghost use Rattle.ssh_kex.specs.Setting.{offers_of};
ghost use Rattle.ssh_rules.specs.Headline.{chosen_by};
ghost use Rattle.ssh_rules.specs.Headline as valid_host;
ghost use Rattle.ssh_rules.specs.Valid as valid;
ghost use Rattle.ssh_record.specs.declared.report.AuditEnd.TheVariants.{Fault, Memory};
ghost use Rattle.ssh_record.specs.declared.report.AuditFault.TheVariants.{Config as config_refused};
ghost use Rattle.ssh_record.specs.Packets.{host_recorded};
ghost use Rattle.ssh_record.specs.Recordings.{Recording, config_in};
ghost use Rattle.ssh_blocks.specs.Judging.{IsRulesOf};
ghost use Rattle.ssh_transcript.specs.Reading.{IsSetting, judged_under};
ghost use Rattle.ssh_transcript.specs.Choosing.{ChooseNone, IsKexinitOf, IsSettingOf, TakesNames};

use rand_chacha::ChaCha20Rng;
use rand_core::SeedableRng;
use ssh_blocks::{WireRules, blob_shown};
use ssh_kex::Config;
use ssh_negotiate::{
    Client, KexCause, Names, Preferred, Select, ServerKeys, can_be_advertised, write_kex,
};
use ssh_packet::PacketWriter;
use ssh_record::{AuditEnd, AuditFault};
use ssh_transport::first_config_fault;
use ssh_wire::{Blob, Error, Side};
use std::alloc::{AllocError, Global};

/// Both configurations of a link, the names that they choose, and a KEXINIT of each side with some cookie.
#[derive(Drop)]
pub struct Setting<'c> {
    pub client: &'c Config,
    pub server: &'c Config,
    pub names: Names,
    pub client_kexinit: Blob,
    pub server_kexinit: Blob,
}

/// The setting of two configurations. Config where one is refused, or where they have no names in common; Memory.
pub fn setting_for<'c>(
    alloc: Global,
    client: &'c Config,
    server: &'c Config,
) -> Result<Setting<'c>, AuditEnd>
    ensures setting { IfOk result (IsSettingOf client.now server.now) }
    ensures refused { IfErr result (λ e. (e ≡ Memory)
        ⊎ ((e ≡ Fault config_refused) × ChooseNone client.now server.now)) }
{
    tested(client, server)?;
    let client_kexinit = client_kexinit(alloc, client)?;
    let server_kexinit = server_kexinit(alloc, server)?;
    let names = chosen(
        alloc,
        client,
        server,
        client_kexinit.as_slice(),
        server_kexinit.as_slice(),
    )?;
    Ok(Setting {
        client,
        server,
        names,
        client_kexinit,
        server_kexinit,
    })
}

/// Tests both configurations. Config where one is refused.
fn tested(client: &Config, server: &Config) -> Result<(), AuditEnd>
    ensures valid { OnOk result (valid.first_config_fault (valid.config_fault client_side client.now)
        (valid.config_fault server_side server.now) ≡ None) }
    ensures refused { IfErr result (λ e. (e ≡ Memory)
        ⊎ ((e ≡ Fault config_refused) × ChooseNone client.now server.now)) }
{
    match first_config_fault(client, server) {
        None => Ok(()),
        Some(_fault) => Err(AuditEnd::Fault(AuditFault::Config)),
    }
}

/// The names that both configurations choose, of which these are KEXINITs. Config where there are none; Memory.
fn chosen(
    alloc: Global,
    client: &Config,
    server: &Config,
    client_kexinit: &[u8],
    server_kexinit: &[u8],
) -> Result<Names, AuditEnd>
    requires client { IsKexinitOf (offers_of client_side client.now) client_kexinit.now }
    requires server { IsKexinitOf (offers_of server_side server.now) server_kexinit.now }
    ensures chosen { IfOk result (λ n. chosen_by client.now server.now ≡ Ok n) }
    ensures refused { IfErr result (λ e. (e ≡ Memory)
        ⊎ ((e ≡ Fault config_refused) × ChooseNone client.now server.now)) }
{
    match names_of(alloc, client, server_kexinit) {
        Ok(names) => Ok(names),
        Err(end) => Err(end),
    }
}

/// A KEXINIT of a client. Memory.
#[tactic(auto, unfolding(ssh_negotiate::specs::Advertised::offers_with))]
fn client_kexinit(alloc: Global, config: &Config) -> Result<Blob, AllocError>
    ensures { IfOk result (IsKexinitOf (offers_of client_side config.now)) }
{
    kexinit_of(alloc, &config.preferred, None)
}

/// A KEXINIT of a server. Memory.
fn server_kexinit(alloc: Global, config: &Config) -> Result<Blob, AllocError>
    ensures { IfOk result (IsKexinitOf (offers_of server_side config.now)) }
{
    kexinit_of(alloc, &config.preferred, Some(&config.host))
}

/// A KEXINIT of these preferences. It is a server's where the keys are given. Memory, also where a list can't be sent.
fn kexinit_of(
    alloc: Global,
    preferred: &Preferred,
    keys: Option<&ServerKeys>,
) -> Result<Blob, AllocError>
    ensures { IfOk result (IsKexinitOf (offered_by preferred.now (option_copied keys.entry))) }
{
    if !can_be_advertised(preferred, keys) {
        return Err(AllocError);
    }
    let mut rng = ChaCha20Rng::from_seed([0; 32]);
    let mut writer = PacketWriter::clear(alloc);
    match write_kex(alloc, preferred, &mut writer, &mut rng, keys) {
        Ok(payload) => Blob::copy_of(alloc, payload.as_slice()),
        Err(_) => Err(AllocError),
    }
}

/// The names that a client takes from a server's KEXINIT. Config where it takes none; Memory.
fn names_of(alloc: Global, client: &Config, kexinit: &[u8]) -> Result<Names, AuditEnd>
    ensures taken { IfOk result (TakesNames client.now kexinit.now) }
    ensures refused { IfErr result (λ e. (e ≡ Memory)
        ⊎ ((e ≡ Fault config_refused) × ((n : Names) → TakesNames client.now kexinit.now n → ⊥))) }
{
    let keys = Some(client.host.keys.as_slice());
    let certificates = Some(client.host.certificates.as_slice());
    let read = Client::read_kex(
        alloc,
        kexinit,
        &client.preferred,
        keys,
        certificates,
        &KexCause::Initial,
    );
    match read {
        Ok(names) => Ok(names),
        Err(Error::Memory) => Err(AuditEnd::Memory),
        Err(_) => Err(AuditEnd::Fault(AuditFault::Config)),
    }
}

impl<'c> Setting<'c> {
    /// Whether exchanges are group exchanges.
    pub fn kind(&self) -> bool
        ensures { result ≡ is_gex self.now.names.kex }
    {
        self.names.kex.shape().gex
    }

    /// What a side's messages are measured by.
    pub fn rules(&self, side: Side) -> WireRules<'_>
        requires { IsSetting self.now }
        ensures { (r : Recording) → IsRulesOf side (config_in side (judged_under self.now r))
            (is_gex self.now.names.kex) (host_recorded side (judged_under self.now r)) result }
    {
        match side {
            Side::Client => self.client_rules(),
            Side::Server => self.server_rules(),
        }
    }

    /// What a client's messages are measured by.
    fn client_rules(&self) -> WireRules<'_>
        requires { IsSetting self.now }
        ensures { IsRulesOf client_side self.now.client.now (is_gex self.now.names.kex) None result }
    {
        WireRules {
            side: Side::Client,
            kind: self.kind(),
            kexinit: self.client_kexinit.as_slice(),
            sizes: self.client.gex,
            host: None,
        }
    }

    /// What a server's messages are measured by.
    fn server_rules(&self) -> WireRules<'_>
        requires { IsSetting self.now }
        ensures { IsRulesOf server_side self.now.server.now (is_gex self.now.names.kex)
            (valid_host.blob_shown self.now.server.now self.now.names) result }
    {
        WireRules {
            side: Side::Server,
            kind: self.kind(),
            kexinit: self.server_kexinit.as_slice(),
            sizes: self.server.gex,
            host: blob_shown(self.server, &self.names),
        }
    }
}
