//! A lookup of one group, which was drawn from a table of moduli.

ghost use Rattle.std.specs.Prelude.{◌≡◌, ◌<◌, ◌%◌, [], length, slice_get, option_map, All, IfOk, IfErr, IfSome};
ghost use Rattle.rand_core.specs.Stream.{next_u64};
ghost use Rattle.ssh_kex.specs.Parts.{IsValue};
ghost use Rattle.ssh_kex.specs.declared.group.GexParams.{GexParams};
ghost use Rattle.ssh_kex.specs.declared.parts.Refusal.TheVariants.{Memory};
ghost use Rattle.ssh_wire.specs.declared.error.Error.TheVariants as errors;
ghost use Rattle.uses.specs.Moduli.{FitsSizes};
ghost use Rattle.uses.specs.declared.drawn_group.DrawnGroup.{DrawnGroup};

use crate::moduli::answer_of;
use rand_core::Rng;
use ssh_kex::{DhGroup, GexParams, GroupLookup, Refusal, copy_of_group};
use ssh_wire::Error;
use std::alloc::Global;

/// Answers one group of a table of moduli, which was drawn when the lookup was made. So its group is settled before the
/// first call, as a lookup's must be. It refuses no call: a group outside the sizes is for the exchange to refuse.
#[derive(Debug, Drop)]
pub struct DrawnGroup {
    pub group: DhGroup,
}

impl DrawnGroup {
    /// Draws one entry of the table: that at the remainder of the generator's next word, 64 bits, by the table's
    /// length. None, and nothing is drawn, where the table is empty. Memory.
    pub fn draw<R: Rng>(
        alloc: Global,
        rng: &mut R,
        table: &[DhGroup],
    ) -> Result<Option<DrawnGroup>, Error>
        ensures entry { let index = (next_u64 (R.stream rng.old)).0 % length table.now in
            IfOk result (λ drawn. option_map (λ (d : DrawnGroup). d.group) drawn ≡ slice_get table.now index) }
        ensures fits { (sizes : GexParams) → All (FitsSizes sizes) table.now
            → IfOk result (λ drawn. IfSome drawn (λ d. FitsSizes sizes d.group)) }
        ensures moved { 0 < length table.now → R.stream rng.new ≡ (next_u64 (R.stream rng.old)).1 }
        ensures unmoved { table.now ≡ [] → R.stream rng.new ≡ R.stream rng.old }
        ensures err { IfErr result (λ e. e ≡ errors.Memory) }
    {
        if table.is_empty() {
            return Ok(None);
        }
        let index = rng.next_u64() % table.len() as u64;
        let group = copy_of_group(alloc, &table[index as usize])?;
        Ok(Some(DrawnGroup { group }))
    }
}

impl GroupLookup for DrawnGroup {
    ghost use Rattle.std.specs.Prelude.{◌≡◌, true};
    ghost use Rattle.uses.specs.Moduli.{FitsSizes, IsLawfulGroup};

    ghost group = { λ v sizes. v.group };

    // The group has no leading zeros, and both numbers are small.
    ghost lawful = { λ v s. IsLawfulGroup v.group };

    // And its size is one that the client allows.
    ghost obliging = { λ v later s. FitsSizes s.client.gex v.group };

    ghost refusals = { λ v. 0 };

    ghost calls = { λ v. 0 };

    ghost answered = { λ v known n. true };

    ghost canonical = { λ v s sizes l. l.canonical };

    ghost small = { λ v s l. (l.prime, l.generator) };

    ghost fitting = { λ v later s o. (o.least, o.most) };

    ghost obliging_lawful = { λ v later s o. o.lawful };

    fn lookup_dh_gex_group(
        &mut self,
        alloc: Global,
        _gex_params: &GexParams,
    ) -> Result<DhGroup, Refusal>
        ensures exact { IfOk result (λ g. g ≡ self.old.group) }
        ensures values { IfOk result (λ g. IsValue g.prime × IsValue g.generator) }
        ensures same { self.new.group ≡ self.old.group }
        ensures err { IfErr result (λ e. e ≡ Memory) }
    {
        answer_of(alloc, &self.group)
    }
}
