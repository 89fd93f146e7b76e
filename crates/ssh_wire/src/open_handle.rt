//! The answer to a channel that the peer wants opened (RFC 4254 section 5.1).

ghost use Rattle.std.specs.Prelude.{◌≡◌, Ok, Err};

use crate::open_failure::ChannelOpenFailure;
use std::marker::Model;

/// A channel that waits for its answer, seen as what is kept of it. It can't be dropped: it is spent by
/// `accept` or `reject`.
#[derive(Debug)]
pub struct ChannelOpenHandleInner<P> {
    pending: P,
}

impl<P> Model for ChannelOpenHandleInner<P> {
    ghost Value = { P };

    ghost view = { λ h. h.pending };
}

impl<P> ChannelOpenHandleInner<P> {
    /// A channel of which so much is kept.
    pub fn new(pending: P) -> Self
        ensures { result ≡ pending }
    {
        ChannelOpenHandleInner { pending }
    }

    /// The channel is to be opened.
    pub fn accept(self) -> (P, Result<(), ChannelOpenFailure>)
        ensures { result ≡ (self, Ok tt) }
    {
        let ChannelOpenHandleInner { pending } = self;
        (pending, Ok(()))
    }

    /// The channel isn't opened, for this reason.
    pub fn reject(self, reason: ChannelOpenFailure) -> (P, Result<(), ChannelOpenFailure>)
        ensures { result ≡ (self, Err reason) }
    {
        let ChannelOpenHandleInner { pending } = self;
        (pending, Err(reason))
    }
}
