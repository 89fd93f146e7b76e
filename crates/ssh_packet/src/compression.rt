//! Compression (RFC 4253 section 6.2), of which there is none.

ghost use Rattle.std.specs.Prelude.{◌≡◌, ◌↔◌};

/// The name of a compression.
#[derive(Clone, Copy, Debug, PartialEq, Eq, Hash)]
pub enum Name {
    None,
}

pub const NONE: Name = Name::None;

/// How a direction is compressed.
#[derive(Clone, Copy, Debug, PartialEq, Eq)]
pub enum Compression {
    None,
}

/// What compresses the payloads that are sent.
#[derive(Clone, Copy, Debug, PartialEq, Eq)]
pub enum Compress {
    None,
}

/// What decompresses the payloads that were received.
#[derive(Clone, Copy, Debug, PartialEq, Eq)]
pub enum Decompress {
    None,
}

impl Name {
    ghost use Rattle.ssh_packet.specs.Names.{compression_name};
    ghost use Rattle.ssh_packet.specs.declared.compression.Name.{Name};

    /// The text of the name, as it stands in a name list.
    pub fn as_str(self) -> &'static str
        ensures { result.now ≡ compression_name self }
    {
        match self {
            Name::None => "none",
        }
    }

    /// The name of a text, where it has one.
    pub fn from_str(s: &str) -> Option<Name>
        ensures { (name : Name) → (result ≡ Some name) ↔ (s.now ≡ compression_name name) }
    {
        match s {
            "none" => Some(Name::None),
            _ => None,
        }
    }
}
