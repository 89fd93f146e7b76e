//! A lookup of the groups of RFC 3526.

ghost use Rattle.std.specs.Prelude.{◌≡◌, [], ◌∷◌, IfOk, IfErr, true};
ghost use Rattle.ssh_kex.specs.Parts.{IsValue};
ghost use Rattle.ssh_kex.specs.declared.parts.Refusal.TheVariants.{Memory};
ghost use Rattle.ssh_modp.specs.Fields.{IsTaken};
ghost use Rattle.ssh_modp.specs.Groups.{modp_group, prime_for};

use crate::primes::{prime_14, prime_15, prime_16};
use ssh_kex::{DhGroup, GexParams, GroupLookup, Refusal};
use ssh_wire::Blob;
use std::alloc::{AllocError, Global};

/// Finds the group 14, 15 or 16 of RFC 3526: the smallest of at least the preferred size, or else the largest within
/// the most, or else group 14. It refuses nothing: a group outside the sizes is for the exchange to refuse.
#[derive(Clone, Copy, Debug)]
pub struct ModpGroups;

impl GroupLookup for ModpGroups {
    ghost use Rattle.std.specs.Prelude.{◌≡◌};
    ghost use Rattle.ssh_modp.specs.Groups.{AllowsGroup, modp_group};
    ghost use Rattle.ssh_modp.specs.PrimeSizes.{modp_canonical, modp_fits, modp_small};

    ghost group = { λ v sizes. modp_group sizes };

    ghost lawful = { λ v s. Unit {0} };

    ghost obliging = { λ v later s. AllowsGroup s.client.gex };

    ghost refusals = { λ v. 0 };

    ghost calls = { λ v. 0 };

    ghost answered = { λ v known n. true };

    ghost canonical = { λ v s sizes l. modp_canonical sizes };

    ghost small = { λ v s l. modp_small s.client.gex };

    ghost fitting = { λ v later s o. modp_fits s.client.gex o };

    ghost obliging_lawful = { λ v later s o. tt };

    fn lookup_dh_gex_group(
        &mut self,
        alloc: Global,
        gex_params: &GexParams,
    ) -> Result<DhGroup, Refusal>
        ensures exact { IfOk result (λ g. g ≡ modp_group gex_params.now) }
        ensures taken { IfOk result (λ g. IsTaken g) }
        ensures values { IfOk result (λ g. IsValue g.prime × IsValue g.generator) }
        ensures err { IfErr result (λ e. e ≡ Memory) }
    {
        match group_of(alloc, prime_for(gex_params)) {
            Ok(group) => Ok(group),
            Err(_) => Err(Refusal::Memory),
        }
    }
}

/// The prime that is chosen.
fn prime_for(sizes: &GexParams) -> &'static [u8]
    ensures { result.now ≡ prime_for sizes.now }
{
    if sizes.preferred_group_size <= 2048 || sizes.max_group_size < 3072 {
        prime_14()
    } else if sizes.preferred_group_size <= 3072 || sizes.max_group_size < 4096 {
        prime_15()
    } else {
        prime_16()
    }
}

/// A group of a prime, with 2 as its generator. Memory.
fn group_of(alloc: Global, prime: &[u8]) -> Result<DhGroup, AllocError>
    ensures { IfOk result (λ g. g ≡ record { prime = prime.now; generator = 2 ∷ [] }) }
{
    Ok(DhGroup {
        prime: Blob::new(Vec::from_slice(alloc, prime)?),
        generator: Blob::new(Vec::from_slice(alloc, &[2])?),
    })
}
