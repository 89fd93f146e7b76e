//! What a script asks for: how both sides are set up, and what they do.

ghost use Rattle.std.specs.Prelude.{◌≡◌, IfOk, IfErr, OnOk};
ghost use Rattle.ssh_wire.specs.declared.error.Error.TheVariants.{Memory};
ghost use Rattle.ssh_script.specs.RunScript.{first_setup, first_plan, with_default_key};

use ssh_kex::{Config, GexParams};
use ssh_negotiate::{HostKey, Preferred, ServerKeys};
use ssh_rules::link::{AttackStep, Step};
use ssh_wire::{Algorithm, Blob, Error, Limits, SshId, Text};
use std::alloc::{AllocError, Global};
use std::marker::Model;

/// How one side is set up, and what its parts do.
#[derive(Debug, Drop)]
pub struct SideSetup {
    pub config: Config,
    /// The seed of its generator.
    pub seed: u64,
    /// Which call of its agreement is refused, counted from 1; 0 for none.
    pub refuse_agreement: u64,
    /// Which call of its host keys is refused, counted from 1; 0 for none.
    pub refuse_hosts: u64,
    /// Which call of its group lookup is refused, counted from 1; 0 for none.
    pub refuse_groups: u64,
    /// The size of the group that is looked up, in bits; 0 for the preferred size.
    pub group_bits: u32,
}

/// A script of the command `run` or `attack`.
#[derive(Debug, Drop)]
pub struct Script {
    pub client: SideSetup,
    pub server: SideSetup,
    /// The steps of a script of `run`.
    pub steps: Vec<Step>,
    /// The steps of a script of `attack`.
    pub attack: Vec<AttackStep>,
}

impl Model for Script {
    ghost use Rattle.ssh_script.specs.Plans.{Plan};

    ghost Value = { Plan };

    ghost view = { λ s. record {
      client = s.client;
      server = s.server;
      steps = s.steps.items;
      attack = s.attack.items;
    } };
}

/// The blob of the server's host key where a script names none.
const HOST_BLOB: &[u8] = b"sshlink-test-key";

impl Script {
    /// A script without lines, whose server has no host key yet. Memory.
    pub(crate) fn new(alloc: Global) -> Result<Script, Error>
        ensures ok { IfOk result (λ script. script ≡ first_plan) }
        ensures err { IfErr result (λ e. e ≡ Memory) }
    {
        Ok(Script {
            client: SideSetup::new(alloc, "SSH-2.0-sshlink_client", 1)?,
            server: SideSetup::new(alloc, "SSH-2.0-sshlink_server", 2)?,
            steps: Vec::new(alloc),
            attack: Vec::new(alloc),
        })
    }

    /// Gives the server its one host key where no line gave it another. Memory.
    pub(crate) fn complete(&mut self, alloc: Global) -> Result<(), AllocError>
        ensures { OnOk result (self.new ≡ with_default_key self.old) }
    {
        let keys = &mut self.server.config.host.keys;
        if keys.is_empty() {
            keys.push(HostKey {
                algorithm: Algorithm::Ed25519,
                blob: Blob::copy_of(alloc, HOST_BLOB)?,
            })?;
        }
        Ok(())
    }
}

impl SideSetup {
    /// A side as it is where a script says nothing of it, without host keys. Memory.
    fn new(alloc: Global, id: &str, seed: u64) -> Result<SideSetup, Error>
        ensures ok { IfOk result (λ setup. setup ≡ first_setup id.now seed) }
        ensures err { IfErr result (λ e. e ≡ Memory) }
    {
        Ok(SideSetup {
            config: default_config(alloc, id)?,
            seed,
            refuse_agreement: 0,
            refuse_hosts: 0,
            refuse_groups: 0,
            group_bits: 0,
        })
    }
}

/// The configuration of a side with this version line, without host keys. Memory.
fn default_config(alloc: Global, id: &str) -> Result<Config, Error>
    ensures ok { IfOk result (λ config. config ≡ (first_setup id.now 0).config) }
    ensures err { IfErr result (λ e. e ≡ Memory) }
{
    Ok(Config {
        id: SshId::Standard(Text::new(String::from_str(alloc, id)?)),
        preferred: Preferred::default(alloc)?,
        limits: Limits::default(),
        gex: GexParams {
            min_group_size: 2048,
            preferred_group_size: 3072,
            max_group_size: 8192,
        },
        host: ServerKeys {
            keys: Vec::new(alloc),
            certificates: Vec::new(alloc),
        },
    })
}
