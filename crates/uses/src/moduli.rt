//! Groups out of a list of moduli.

ghost use Rattle.std.specs.Prelude.{◌≡◌, IfOk, IfErr};
ghost use Rattle.ssh_kex.specs.Parts.{IsValue};
ghost use Rattle.ssh_kex.specs.declared.parts.Refusal.TheVariants.{Memory};

use ssh_kex::{DhGroup, Refusal, copy_of_group};
use std::alloc::Global;

/// A copy of a group, to be answered. Memory, also where a number is too long for a part's value.
pub(crate) fn answer_of(alloc: Global, group: &DhGroup) -> Result<DhGroup, Refusal>
    ensures same { IfOk result (λ g. g ≡ group.now) }
    ensures values { IfOk result (λ g. IsValue g.prime × IsValue g.generator) }
    ensures err { IfErr result (λ e. e ≡ Memory) }
{
    if group.prime.as_slice().len() >= 1 << 31 || group.generator.as_slice().len() >= 1 << 31 {
        return Err(Refusal::Memory);
    }
    match copy_of_group(alloc, group) {
        Ok(copy) => Ok(copy),
        Err(_) => Err(Refusal::Memory),
    }
}
