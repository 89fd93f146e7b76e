//! Where packets stand on a side's wire.

use ssh_mac::mac;
use ssh_packet::cipher;
use vector_rows::{Fault, Row};

/// The length of a tag of Galois counter mode (RFC 5647 section 6.3).
const GCM_TAG: usize = 16;

/// Where a packet stands: from its length to the end of its padding, and behind that its tag, which is empty in clear.
#[derive(Clone, Copy)]
pub(crate) struct Place {
    pub start: usize,
    pub padding: usize,
    pub tag: usize,
    pub end: usize,
}

impl Place {
    /// How many bytes it has, with its tag.
    pub(crate) fn size(self) -> usize {
        self.end.saturating_sub(self.start)
    }
}

/// How far the packets reach that were met, and how long the tags are of those that follow: none in clear.
#[derive(Clone, Copy)]
pub(crate) struct Places {
    at: usize,
    tag: Option<usize>,
}

impl Places {
    /// Nothing was met.
    pub(crate) fn new() -> Places {
        Places { at: 0, tag: None }
    }

    /// Begins behind a version line of so many bytes.
    pub(crate) fn begin(&mut self, line: u32) {
        self.at = line as usize;
    }

    /// Takes the cipher and the MAC of what follows. A tag of a MAC is as long as its key (RFC 4253 section 6.4).
    pub(crate) fn set_tag(&mut self, row: &Row<'_>) {
        let cipher = cipher::Name::from_str(row.word());
        let mac = mac::Name::from_str(row.word());
        match (cipher, mac) {
            (Some(cipher), _) if !cipher.needs_mac() => self.tag = Some(GCM_TAG),
            (Some(_), Some(mac)) => self.tag = Some(mac.key_len()),
            _ => row.reject(),
        }
    }

    /// The place of the next packet on a wire, by the lengths of its payload and of its padding; in clear the wire
    /// tells how long all is. Malformed where there aren't so many bytes.
    pub(crate) fn next_place(
        &mut self,
        wire: &[u8],
        payload: usize,
        padding: usize,
    ) -> Result<Place, Fault> {
        let front = 5usize.saturating_add(payload);
        let (size, tag) = match self.tag {
            Some(tag) => (front.saturating_add(padding), tag),
            None => (clear_size(wire, self.at)?, 0),
        };
        let start = self.at;
        let place = Place {
            start,
            padding: start.saturating_add(front),
            tag: start.saturating_add(size),
            end: start.saturating_add(size).saturating_add(tag),
        };
        if place.padding >= place.tag || place.end > wire.len() {
            return Err(Fault::Malformed);
        }
        self.at = place.end;
        Ok(place)
    }
}

/// How many bytes the packet in clear has that stands here, by its packet length.
fn clear_size(wire: &[u8], at: usize) -> Result<usize, Fault> {
    match wire.get(at..) {
        Some([a, b, c, d, ..]) => {
            Ok((u32::from_be_bytes([*a, *b, *c, *d]) as usize).saturating_add(4))
        }
        _ => Err(Fault::Malformed),
    }
}
