//! What a step of a key exchange leads to.

use crate::exchange::{NewKeys, ServerHost};

/// What a step of a key exchange leads to.
#[derive(Debug, Drop)]
pub enum KexProgress<K> {
    /// A message of the peer is awaited; where told, the sequence numbers of the own packets begin again at 0.
    NeedsReply {
        kex: K,
        reset_seqn: bool,
    },
    /// The exchange is over; a client knows the server's host.
    Done {
        server_host: Option<ServerHost>,
        newkeys: NewKeys,
    },
}
