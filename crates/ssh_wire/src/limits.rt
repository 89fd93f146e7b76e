//! When keys are to be exchanged again (RFC 4253 section 9).

ghost use Rattle.std.specs.Prelude.{◌≡◌, ◌≤◌, ◌^◌};

/// How much may go by under the same keys.
#[derive(Clone, Copy, Debug)]
pub struct Limits {
    /// Bytes written.
    pub rekey_write_limit: usize,
    /// Bytes read.
    pub rekey_read_limit: usize,
    /// Seconds; a field alone, which starts nothing.
    pub rekey_time_limit: u64,
}

/// One gigabyte (RFC 4253 section 9).
const MOST_BYTES: usize = 1 << 30;

/// One hour (RFC 4253 section 9).
const MOST_SECONDS: u64 = 3600;

impl Limits {
    /// Limits of so many bytes written, bytes read and seconds.
    pub fn new(write_limit: usize, read_limit: usize, time_limit: u64) -> Limits
        requires write_some { 1 ≤ write_limit }
        requires write_most { write_limit ≤ 2 ^ 30 }
        requires read_some { 1 ≤ read_limit }
        requires read_most { read_limit ≤ 2 ^ 30 }
        ensures { result ≡ record {
          rekey_write_limit = write_limit;
          rekey_read_limit = read_limit;
          rekey_time_limit =
              time_limit;
        } }
    {
        Limits {
            rekey_write_limit: write_limit,
            rekey_read_limit: read_limit,
            rekey_time_limit: time_limit,
        }
    }
}

impl Default for Limits {
    ghost is_default = { λ l. (l.rekey_write_limit ≡ 2 ^ 30) × (l.rekey_read_limit ≡ 2 ^ 30)
        × (l.rekey_time_limit ≡ 3600) };

    fn default() -> Limits {
        Limits::new(MOST_BYTES, MOST_BYTES, MOST_SECONDS)
    }
}
