//! What the types of values say, where a proof asks for it.

ghost use Rattle.std.specs.Prelude.{◌≡◌, ◌<◌, ◌^◌, length, true};
ghost use Rattle.std.specs.Str.{is_utf8};
ghost use Rattle.ssh_rules.specs.Valid.{HasSizes};
ghost use Rattle.ssh_run.specs.Carrying.{text_of_id};

use ssh_kex::Config;
use ssh_rules::link::Step;
use ssh_rules::sizes_are_u32;
use ssh_wire::SshId;

/// A configuration's sizes are u32, and its version line is UTF-8.
pub(crate) fn see_config(config: &Config)
    ensures sizes { HasSizes config.now }
    ensures text { is_utf8 (text_of_id config.now.id) ≡ true }
{
    sizes_are_u32(config);
    let text = id_text(&config.id);
    let _length = text.len();
}

fn id_text(id: &SshId) -> &str
    ensures text { result.now ≡ text_of_id id.now }
{
    match id {
        SshId::Standard(text) => text.as_str(),
        SshId::Raw(text) => text.as_str(),
    }
}

/// Fewer than 2^63 steps are held.
pub(crate) fn see_steps(steps: &[Step])
    ensures few { length steps.now < 2 ^ 64 }
    ensures fewer { length steps.now < 2 ^ 63 }
{
    let _count = steps.len();
}
