//! What contracts say of a whole run over these parts.

ghost use Rattle.std.specs.Prelude.{List, ℕ};
ghost use Rattle.ssh_wire.specs.declared.side.Side.{Side};
ghost use Rattle.ssh_pipe.specs.Runs.{IsRun, IsRunWithKey, Ports};

use rand_chacha::ChaCha20Rng;
use ssh_kex::{Handed, Parts};
use ssh_modp::{FieldAgreement, ModpGroups, RsaHosts};
use ssh_rules::Asked;

/// What runs over such parts do. It has no functions.
pub trait RunTold {
    // What words lead to: `IsRun`.
    ghost runs: { List (List ℕ) → Ports → Ports → ℕ → Type 0 };

    // What a command of a side and a limit leads to, by its key file's text and a seed: `IsRunWithKey`.
    ghost runs_with_key: { Side → ℕ → List ℕ → List ℕ → Ports → Ports → ℕ → Type 0 };
}

impl RunTold for Parts<FieldAgreement, RsaHosts, ModpGroups, ChaCha20Rng> {
    ghost runs = { λ words before now status. IsRun
        (λ config parts. ⟦<Parts<FieldAgreement, RsaHosts, ModpGroups, ChaCha20Rng> as Handed>⟧.says config parts)
        (λ parts left. ⟦<Parts<FieldAgreement, RsaHosts, ModpGroups, ChaCha20Rng> as Handed>⟧.denies parts left)
        (λ parts left. ⟦<Parts<FieldAgreement, RsaHosts, ModpGroups, ChaCha20Rng> as Asked>⟧.distrusts parts left)
        words before now status };

    ghost runs_with_key = { λ side limit text seed before now status. IsRunWithKey
        (λ config parts. ⟦<Parts<FieldAgreement, RsaHosts, ModpGroups, ChaCha20Rng> as Handed>⟧.says config parts)
        (λ parts left. ⟦<Parts<FieldAgreement, RsaHosts, ModpGroups, ChaCha20Rng> as Handed>⟧.denies parts left)
        (λ parts left. ⟦<Parts<FieldAgreement, RsaHosts, ModpGroups, ChaCha20Rng> as Asked>⟧.distrusts parts left)
        side limit text seed before now status };
}
