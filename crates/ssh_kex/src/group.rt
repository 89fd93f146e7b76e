//! The sizes and the group of a group exchange (RFC 4419 section 3).

ghost use Rattle.std.specs.Prelude.{◌≡◌, ◌⊎◌, ◌++◌, ◌≤◌, ◌<◌, ◌-◌, ◌^◌, min, ℕ, List, length, Ok, Err, IfOk, IfErr, OnOk, OnErr, IsOk, ◌+◌, vec_len, vec_capacity};
ghost use Rattle.ssh_wire.specs.Fields.{TakesForm};
ghost use Rattle.ssh_wire.specs.declared.error.Error.TheVariants.{Memory, InvalidConfig};
ghost use Rattle.ssh_wire.specs.declared.error.ConfigFault.TheVariants.{GroupSizes};
ghost use Rattle.ssh_kex.specs.Messages.{bit_size, byte_digits, sizes_text};
ghost use Rattle.ssh_kex.specs.Fields.{sizes_front};

use ssh_wire::{Blob, ConfigFault, EncodingFault, Error, Reader, mpint_parts, put_u32};
use std::alloc::Global;

/// The length of three sizes, in bytes.
const SIZES_LEN: usize = 12;

/// The sizes of a group that a client asks for, in bits: the least, the one that it wants, the most.
#[derive(Clone, Copy, Debug, PartialEq, Eq)]
pub struct GexParams {
    pub min_group_size: u32,
    pub preferred_group_size: u32,
    pub max_group_size: u32,
}

impl GexParams {
    /// Sizes that don't fall. InvalidConfig(GroupSizes) where the preferred size is below the least or above the most.
    pub fn new(
        min_group_size: u32,
        preferred_group_size: u32,
        max_group_size: u32,
    ) -> Result<GexParams, Error>
        ensures ok { min_group_size ≤ preferred_group_size → preferred_group_size ≤ max_group_size
            → result ≡ Ok (record {
              min_group_size = min_group_size;
              preferred_group_size = preferred_group_size;
              max_group_size = max_group_size;
            }) }
        ensures err { ((preferred_group_size < min_group_size) ⊎ (max_group_size < preferred_group_size))
            → result ≡ Err (InvalidConfig GroupSizes) }
    {
        if preferred_group_size < min_group_size || max_group_size < preferred_group_size {
            return Err(Error::InvalidConfig(ConfigFault::GroupSizes));
        }
        Ok(GexParams {
            min_group_size,
            preferred_group_size,
            max_group_size,
        })
    }

    /// Appends the three sizes, each a `uint32`. Memory leaves `out` as it was.
    pub fn encode(&self, out: &mut Vec<u8>) -> Result<(), Error>
        ensures ok { OnOk result (out.new.items ≡ out.old.items ++ sizes_text self.now) }
        ensures unchanged { OnErr result (out.new.items ≡ out.old.items) }
        ensures err { IfErr result (λ e. e ≡ Memory) }
        ensures ready { vec_len out.old + 12 ≤ vec_capacity out.old → IsOk result }
    {
        out.reserve(SIZES_LEN)?;
        put_u32(out, self.min_group_size)?;
        put_u32(out, self.preferred_group_size)?;
        put_u32(out, self.max_group_size)
    }

    /// Reads three `uint32`, whatever they are. SshEncoding(Length) where fewer than 12 bytes are left. A refusal takes
    /// nothing.
    pub fn decode(r: &mut Reader<'_>) -> Result<GexParams, Error>
        ensures exact { TakesForm (λ g. g) (sizes_front r.old) r.old result r.new }
        ensures spelled { IfOk result (λ g. r.old ≡ sizes_text g ++ r.new) }
    {
        if r.remaining_len() < SIZES_LEN {
            return Err(Error::SshEncoding(EncodingFault::Length));
        }
        Ok(GexParams {
            min_group_size: r.read_u32()?,
            preferred_group_size: r.read_u32()?,
            max_group_size: r.read_u32()?,
        })
    }
}

/// A group: a prime and a generator, each the bytes of a number, the most significant first.
#[derive(Debug, Drop)]
pub struct DhGroup {
    pub prime: Blob,
    pub generator: Blob,
}

impl DhGroup {
    /// How many binary digits the prime has, 0 for zero. 2^64 - 1 stands for all numbers that the type doesn't hold.
    pub fn bit_size(&self) -> u64
        ensures value { result ≡ min (bit_size self.now.prime) (2 ^ 64 - 1) }
        ensures exact { length self.now.prime < 2 ^ 61 → result ≡ bit_size self.now.prime }
    {
        let (_, digits) = mpint_parts(self.prime.as_slice());
        match digits {
            [first, rest @ ..] => (rest.len() as u64)
                .saturating_mul(8)
                .saturating_add(digits_of(*first)),
            [] => 0,
        }
    }
}

/// How many binary digits a byte has, 0 for zero.
fn digits_of(byte: u8) -> u64
    ensures { result ≡ byte_digits byte }
{
    u64::from(u8::BITS - byte.leading_zeros())
}

/// A group of the same numbers. Memory.
pub fn copy_of_group(alloc: Global, group: &DhGroup) -> Result<DhGroup, Error>
    ensures ok { IfOk result (λ g. g ≡ group.now) }
    ensures err { IfErr result (λ e. e ≡ Memory) }
{
    Ok(DhGroup {
        prime: Blob::copy_of(alloc, group.prime.as_slice())?,
        generator: Blob::copy_of(alloc, group.generator.as_slice())?,
    })
}
