//! What a side tells of itself.

/// What a side tells of itself to each channel of its own.
#[derive(Clone, Copy, Debug, PartialEq, Eq)]
pub struct MuxConfig {
    /// How many bytes of data it takes before it has read any: 1 to 2^30.
    pub window: u32,
    /// How many bytes of data it takes in one message: 1 to 32768.
    pub largest: u32,
}

impl MuxConfig {
    ghost use Rattle.std.specs.Prelude.{◌≡◌};
    ghost use Rattle.ssh_channels.specs.Muxes.{is_within};

    /// Whether both numbers are within their bounds.
    pub fn is_within(&self) -> bool
        ensures { result ≡ is_within self.now.window self.now.largest }
    {
        1 <= self.window && self.window <= 1 << 30 && 1 <= self.largest && self.largest <= 32768
    }
}
