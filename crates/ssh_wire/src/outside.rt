//! Where bytes come from and where they go.
//!
//! A fault is counted by the source or the sink itself, so that a caller's contract can say that it
//! answers a fault only where there was one.

ghost use Rattle.std.specs.Prelude.{◌≡◌, ◌<◌, ◌≤◌, ℕ, List, Option, take, length, Ok, IfOk, IfErr, OnOk, OnErr};
ghost use Rattle.ssh_wire.specs.Outside.{Rose, TakesNext, IsAtEnd, Appends, IsPartOf};

/// A fault of a source or a sink, which has counted it.
#[derive(Clone, Copy, Debug, PartialEq, Eq, Hash)]
pub enum Failed {
    Failed,
}

/// Where bytes come from.
pub trait Source {
    /// How many faults there were; it never falls.
    ghost faults: { Self → ℕ };

    /// The bytes that are left, where they are told.
    ghost left: { Self → Option (List ℕ) };

    /// Reads into the front of `out`, and answers how many bytes. 0 for an `out` that isn't empty is
    /// the end. What stands in `out` behind these bytes is left open. On `Failed` nothing was taken.
    fn read(&mut self, out: &mut [u8]) -> Result<usize, Failed>
        ensures within { IfOk result (λ n. n ≤ length out.old) }
        ensures next { IfOk result (λ n. TakesNext n out.new (left self.old) (left self.new)) }
        ensures end { result ≡ Ok 0 → 0 < length out.old → IsAtEnd (left self.old) }
        ensures nothing { OnErr result (left self.new ≡ left self.old) }
        ensures cause { OnErr result (Rose (faults self.old) (faults self.new)) }
        ensures unfailed { OnOk result (faults self.new ≡ faults self.old) }
        ensures count { faults self.old ≤ faults self.new };
}

/// Where bytes go.
pub trait Sink {
    /// How many faults there were; it never falls.
    ghost faults: { Self → ℕ };

    /// The bytes that it holds, where they are told.
    ghost held: { Self → Option (List ℕ) };

    /// Writes the front of `bytes`, and answers how many: at least one of a piece that isn't empty. On
    /// `Failed` nothing was taken.
    fn write(&mut self, bytes: &[u8]) -> Result<usize, Failed>
        ensures part { IfOk result (λ n. IsPartOf (length bytes.now) n) }
        ensures appended { IfOk result (λ n. Appends (take n bytes.now) (held self.old) (held self.new)) }
        ensures nothing { OnErr result (held self.new ≡ held self.old) }
        ensures cause { OnErr result (Rose (faults self.old) (faults self.new)) }
        ensures unfailed { OnOk result (faults self.new ≡ faults self.old) }
        ensures count { faults self.old ≤ faults self.new };
}

/// Writes all bytes out, at least one a turn. Where the sink fails, the error is how many went out before.
pub fn write_all<K: Sink>(sink: &mut K, bytes: &[u8]) -> Result<(), usize>
    ensures all { OnOk result (Appends bytes.now (K.held sink.old) (K.held sink.new)) }
    ensures within { IfErr result (λ n. n < length bytes.now) }
    ensures front { IfErr result (λ n. Appends (take n bytes.now) (K.held sink.old) (K.held sink.new)) }
    ensures failed { OnErr result (Rose (K.faults sink.old) (K.faults sink.new)) }
    ensures unfailed { OnOk result (K.faults sink.new ≡ K.faults sink.old) }
    ensures count { K.faults sink.old ≤ K.faults sink.new }
{
    let mut written = 0;
    while written < bytes.len() {
        match sink.write(&bytes[written..]) {
            Ok(n) => written += n,
            Err(_) => return Err(written),
        }
    }
    Ok(())
}
