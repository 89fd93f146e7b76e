//! Names, to be found fast.

ghost use Rattle.std.specs.Prelude.{◌≡◌, ◌||◌, ℕ, Bool, List, IfOk, OnOk, OnErr, false};
ghost use Rattle.std.specs.Str.{bytes_eq};
ghost use Rattle.ssh_service.specs.NameSets.{AreIn, is_in};

use crate::name::ServiceName;
use std::alloc::{AllocError, Global};
use std::collections::BTreeSet;

/// Names of services, each once. To find one takes the logarithm of their number.
#[derive(Debug, Drop)]
pub(crate) struct NameSet {
    names: BTreeSet<Vec<u8>>,
}

impl NameSet {
    /// None.
    pub(crate) fn new(alloc: Global) -> NameSet
        ensures { (name : List ℕ) → is_in result name ≡ false }
    {
        NameSet {
            names: BTreeSet::new(alloc),
        }
    }

    /// All of these. Memory.
    pub(crate) fn of(alloc: Global, names: &[ServiceName]) -> Result<NameSet, AllocError>
        ensures { IfOk result (λ set. AreIn set names.now) }
    {
        let mut set = NameSet::new(alloc);
        for name in names {
            set.add(alloc, name.as_str().as_bytes())?;
        }
        Ok(set)
    }

    /// Whether it is among them.
    pub(crate) fn has(&self, name: &[u8]) -> bool
        ensures { result ≡ is_in self.now name.now }
    {
        self.names.contains(name)
    }

    /// Takes one up. Memory, which leaves them as they were.
    pub(crate) fn add(&mut self, alloc: Global, name: &[u8]) -> Result<(), AllocError>
        ensures added { OnOk result ((other : List ℕ) → is_in self.new other
            ≡ (bytes_eq name.now other || is_in self.old other)) }
        ensures unchanged { OnErr result (self.new.names.keys ≡ self.old.names.keys) }
    {
        let copy = copied(alloc, name)?;
        self.insert(copy)
    }

    fn insert(&mut self, name: Vec<u8>) -> Result<(), AllocError>
        ensures added { OnOk result ((other : List ℕ) → is_in self.new other
            ≡ (bytes_eq name.items other || is_in self.old other)) }
        ensures unchanged { OnErr result (self.new.names.keys ≡ self.old.names.keys) }
    {
        self.names.insert(name)?;
        Ok(())
    }
}

/// The same bytes. Memory.
fn copied(alloc: Global, bytes: &[u8]) -> Result<Vec<u8>, AllocError>
    ensures { IfOk result (λ copy. copy.items ≡ bytes.now) }
{
    let mut copy = Vec::with_capacity(alloc, bytes.len())?;
    copy.extend_from_slice(bytes)?;
    Ok(copy)
}
