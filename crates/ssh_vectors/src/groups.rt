//! Groups of a chosen size, which are no good for anything.

ghost use Rattle.std.specs.Prelude.{◌≡◌, ◌∷◌, [], IfOk, IfErr, true};
ghost use Rattle.ssh_kex.specs.Parts.{IsValue};
ghost use Rattle.ssh_kex.specs.declared.parts.Refusal.TheVariants.{Memory};
ghost use Rattle.ssh_vectors.specs.Primes.{group_for, prime_of};

use ssh_kex::{DhGroup, GexParams, GroupLookup, Refusal};
use ssh_wire::Blob;
use std::alloc::{AllocError, Global};

/// Gives a number of `bits` bits as prime, or of the preferred size where `bits` is 0: the first and the last bit set,
/// the others clear. The generator is 2. It refuses no call, and counts none.
#[derive(Debug, Drop)]
pub struct TestGroups {
    pub bits: u32,
}

impl GroupLookup for TestGroups {
    ghost use Rattle.std.specs.Prelude.{◌≡◌, refl};
    ghost use Rattle.ssh_vectors.specs.Primes.{bits_for, group_for, IsLawful, IsObliging};
    ghost use Rattle.ssh_vectors.specs.PrimeSizes.{prime_canonical, lawful_small, obliging_fits};

    ghost group = { λ v sizes. group_for v.bits sizes };

    ghost lawful = { λ v s. IsLawful v.bits s.client.gex };

    ghost obliging = { λ v later s. IsObliging v.bits s.client.gex };

    ghost refusals = { λ v. 0 };

    ghost calls = { λ v. 0 };

    ghost answered = { λ v known n. true };

    ghost canonical = { λ v s sizes l. record { prime = prime_canonical (bits_for v.bits sizes); generator = refl } };

    ghost small = { λ v s l. lawful_small v.bits s.client.gex l };

    ghost fitting = { λ v later s o. obliging_fits v.bits s.client.gex o };

    ghost obliging_lawful = { λ v later s o. o.lawful };

    fn lookup_dh_gex_group(
        &mut self,
        alloc: Global,
        gex_params: &GexParams,
    ) -> Result<DhGroup, Refusal>
        ensures exact { IfOk result (λ g. g ≡ group_for self.old.bits gex_params.now) }
        ensures values { IfOk result (λ g. IsValue g.prime × IsValue g.generator) }
        ensures same { self.new ≡ self.old }
        ensures err { IfErr result (λ e. e ≡ Memory) }
    {
        let bits = if self.bits == 0 {
            gex_params.preferred_group_size
        } else {
            self.bits
        };
        let Ok(prime) = prime(alloc, bits) else {
            return Err(Refusal::Memory);
        };
        let Ok(generator) = two(alloc) else {
            return Err(Refusal::Memory);
        };
        Ok(DhGroup { prime, generator })
    }
}

/// The bytes of a number of so many bits. Memory.
#[tactic(auto, unfolding(crate::specs::Primes::prime_of))]
fn prime(alloc: Global, bits: u32) -> Result<Blob, AllocError>
    ensures prime { IfOk result (λ b. b ≡ prime_of bits) }
    ensures value { IfOk result (λ b. IsValue b) }
{
    let mut bytes = Vec::new(alloc);
    if bits == 0 {
        return Ok(Blob::new(bytes));
    }
    let first = 1u8 << ((bits - 1) % 8);
    if bits <= 8 {
        bytes.push(if bits == 1 { 1 } else { first + 1 })?;
        return Ok(Blob::new(bytes));
    }
    bytes.push(first)?;
    bytes.resize(((bits - 1) / 8) as usize, 0)?;
    bytes.push(1)?;
    Ok(Blob::new(bytes))
}

/// The generator. Memory.
fn two(alloc: Global) -> Result<Blob, AllocError>
    ensures { IfOk result (λ b. b ≡ 2 ∷ []) }
{
    let mut bytes = Vec::new(alloc);
    bytes.push(2)?;
    Ok(Blob::new(bytes))
}
