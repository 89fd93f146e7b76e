//! Which blobs the lines of a script gave the server.

ghost use Rattle.std.specs.Prelude.{◌≡◌, ◌||◌, ℕ, Bool, List, IfOk, OnOk, false, not};
ghost use Rattle.std.specs.Str.{bytes_eq};
ghost use Rattle.ssh_script.specs.GivenBlobs.{is_given};

use std::alloc::{AllocError, Global};
use std::collections::BTreeSet;

/// The blobs of the server's host keys and certificates so far, to tell one that is given again.
#[derive(Drop)]
pub(crate) struct GivenBlobs {
    blobs: BTreeSet<Vec<u8>>,
}

impl GivenBlobs {
    /// None.
    pub(crate) fn new(alloc: Global) -> GivenBlobs
        ensures { (blob : List ℕ) → is_given result blob ≡ false }
    {
        GivenBlobs {
            blobs: BTreeSet::new(alloc),
        }
    }

    /// Takes one up. False where it was given before. Memory.
    pub(crate) fn add(&mut self, alloc: Global, blob: &[u8]) -> Result<bool, AllocError>
        ensures added { IfOk result (λ added. added ≡ not (is_given self.old blob.now)) }
        ensures given { OnOk result ((other : List ℕ) → is_given self.new other
            ≡ (bytes_eq blob.now other || is_given self.old other)) }
    {
        self.insert(copied(alloc, blob)?)
    }

    fn insert(&mut self, blob: Vec<u8>) -> Result<bool, AllocError>
        ensures added { IfOk result (λ added. added ≡ not (is_given self.old blob.items)) }
        ensures given { OnOk result ((other : List ℕ) → is_given self.new other
            ≡ (bytes_eq blob.items other || is_given self.old other)) }
    {
        Ok(self.blobs.insert(blob)?)
    }
}

/// The same bytes. Memory.
fn copied(alloc: Global, bytes: &[u8]) -> Result<Vec<u8>, AllocError>
    ensures { IfOk result (λ copy. copy.items ≡ bytes.now) }
{
    let mut copy = Vec::with_capacity(alloc, bytes.len())?;
    copy.extend_from_slice(bytes)?;
    Ok(copy)
}
