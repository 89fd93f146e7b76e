//! What seals and opens packets, and the names of ciphers (RFC 4253 section 6.3, RFC 4344 section 4,
//! RFC 5647 section 6).

ghost use Rattle.std.specs.Prelude.{◌≡◌, ◌↔◌, ◌+◌, ◌<◌, ◌≤◌, ◌^◌, ◌++◌, take, drop, length, IsOk, IfOk, OnOk, OnErr, IfErr};
ghost use Rattle.std.specs.Int.{w32, from_be_bytes};
ghost use Rattle.ssh_packet.specs.Errors.{error_of, open_error};
ghost use Rattle.ssh_packet.specs.Front.{length_in, opened_past, packet_of, refused_past, refused_text};
ghost use Rattle.ssh_packet.specs.Front.{tag_behind, tag_fault, tag_for, text_in};
ghost use Rattle.ssh_packet.specs.Sealing.{Sealing, sealed_text, padding_drawn, longest_padding, longest_tag, moved_past};
ghost use Rattle.ssh_packet.specs.Sealing.{padding_length, probe_length, shortest_packet, tag_size};

use crate::error::OpenError;
use rand_core::Rng;
use ssh_wire::Error;

/// The first four bytes.
pub(crate) fn first_four(bytes: &[u8]) -> [u8; 4]
    requires { 4 ≤ length bytes.now }
    ensures { result ≡ take 4 bytes.now }
{
    let mut first = [0; 4];
    first.copy_from_slice(&bytes[..4]);
    first
}

/// What a writer seals packets with.
pub trait SealingKey {
    // What the direction is sealed under.
    ghost sealing: { Self → Sealing };

    /// How many bytes of padding stand behind a payload.
    fn padding_length(&self, payload: &[u8]) -> usize
        ensures value { result ≡ padding_length (sealing self.now) (length payload.now) }
        ensures short { result ≤ longest_padding };

    /// Writes padding: zeros under the clear key, which draws nothing, and else drawn bytes.
    fn fill_padding<R: Rng>(&self, rng: &mut R, padding_out: &mut [u8])
        ensures { (padding_out.new, R.stream rng.new)
            ≡ padding_drawn (sealing self.now) (length padding_out.old) (R.stream rng.old) };

    /// The length of a tag in bytes.
    fn tag_len(&self) -> usize
        ensures value { result ≡ tag_size (sealing self.now) }
        ensures short { result ≤ longest_tag };

    /// Seals a packet in place: packet length, padding length, payload and padding. Writes its tag.
    fn seal(&mut self, seqn: u32, plaintext_in_ciphertext_out: &mut [u8], tag_out: &mut [u8])
        requires headed { 4 ≤ length plaintext_in_ciphertext_out.old }
        requires short { length plaintext_in_ciphertext_out.old < 2 ^ 32 + 4 }
        requires tag { length tag_out.old ≡ tag_size (sealing self.old) }
        ensures text { plaintext_in_ciphertext_out.new ++ tag_out.new
            ≡ sealed_text (sealing self.old) seqn plaintext_in_ciphertext_out.old }
        ensures size { length plaintext_in_ciphertext_out.new ≡ length plaintext_in_ciphertext_out.old }
        ensures state { sealing self.new ≡ moved_past (sealing self.old) plaintext_in_ciphertext_out.old };
}

/// What a reader opens packets with.
pub trait OpeningKey {
    // What the direction is opened with.
    ghost opening: { Self → Sealing };

    /// How many bytes show the packet length: 4, or 16 where a block cipher encrypts it.
    fn packet_length_to_read_for_block_length(&self) -> usize
        ensures { result ≡ probe_length (opening self.now) };

    /// The packet length, four bytes high byte first, of the first bytes of a packet.
    fn decrypt_packet_length(&self, seqn: u32, encrypted_packet_length: &[u8]) -> [u8; 4]
        requires { length encrypted_packet_length.now ≡ probe_length (opening self.now) }
        ensures { from_be_bytes w32 result ≡ length_in (opening self.now) encrypted_packet_length.now };

    /// The length of a tag in bytes.
    fn tag_len(&self) -> usize
        ensures value { result ≡ tag_size (opening self.now) }
        ensures short { result ≤ longest_tag };

    /// How many bytes the shortest packet has without its tag: 4, or 16 where chaining mode encrypts the
    /// packet length.
    fn shortest_packet(&self) -> usize
        ensures value { result ≡ shortest_packet (opening self.now) }
        ensures short { result ≤ 16 };

    /// Opens a packet in place, its tag beside it. PacketAuth where the tag of an HMAC is another,
    /// DecryptionError where that of Galois counter mode is. A packet of a wrong tag stays as it
    /// came; under a MAC over the packet in clear it has been decrypted, and the key has run on past it.
    fn open_in_place(&mut self, seqn: u32, packet: &mut [u8], tag: &[u8]) -> Result<(), OpenError>
        requires headed { 4 ≤ length packet.old }
        requires short { length packet.old < 2 ^ 32 + 4 }
        requires tag { length tag.now ≡ tag_size (opening self.old) }
        ensures right { IsOk result ↔ tag.now ≡ tag_for (opening self.old) seqn packet.old }
        ensures causes { IfErr result (λ e. e ≡ open_error (tag_fault (opening self.old))) }
        ensures text { OnOk result (packet.new ≡ text_in (opening self.old) packet.old) }
        ensures state { OnOk result (opening self.new ≡ opened_past (opening self.old) packet.old) }
        ensures refused_text { OnErr result (packet.new ≡ refused_text (opening self.old) packet.old) }
        ensures refused_state { OnErr result (opening self.new ≡ refused_past (opening self.old) packet.old) };

    /// Opens a packet that its tag stands behind, and answers what follows its length: padding length,
    /// payload and padding. The errors are those of `open_in_place`. No clause says what a refusal leaves of the
    /// bytes, since they are lent: that of `open_in_place` does.
    fn open<'a>(&mut self, seqn: u32, ciphertext_and_tag: &'a mut [u8]) -> Result<&'a [u8], Error>
        requires headed { 4 + tag_size (opening self.old) ≤ length ciphertext_and_tag.old }
        requires short { length ciphertext_and_tag.old < 2 ^ 32 + 4 + tag_size (opening self.old) }
        ensures right { IsOk result ↔ tag_behind (opening self.old) ciphertext_and_tag.old
            ≡ tag_for (opening self.old) seqn (packet_of (opening self.old) ciphertext_and_tag.old) }
        ensures causes { IfErr result (λ e. e ≡ error_of (open_error (tag_fault (opening self.old)))) }
        ensures text { IfOk result (λ body. body.now
            ≡ drop 4 (text_in (opening self.old) (packet_of (opening self.old) ciphertext_and_tag.old))) }
        ensures state { OnOk result (opening self.new
            ≡ opened_past (opening self.old) (packet_of (opening self.old) ciphertext_and_tag.old)) }
        ensures refused_state { OnErr result (opening self.new
            ≡ refused_past (opening self.old) (packet_of (opening self.old) ciphertext_and_tag.old)) }
    {
        let end = ciphertext_and_tag.len() - self.tag_len();
        let (packet, tag) = ciphertext_and_tag.split_at_mut(end);
        self.open_in_place(seqn, packet, tag)?;
        Ok(&packet[4..])
    }
}

/// The name of a cipher.
#[derive(Clone, Copy, Debug, PartialEq, Eq, Hash)]
pub enum Name {
    Clear,
    NoCipher,
    Aes128Ctr,
    Aes192Ctr,
    Aes256Ctr,
    Aes128Gcm,
    Aes256Gcm,
    Aes128Cbc,
    Aes192Cbc,
    Aes256Cbc,
}

pub const CLEAR: Name = Name::Clear;

pub const NONE: Name = Name::NoCipher;

pub const AES_128_CTR: Name = Name::Aes128Ctr;

pub const AES_192_CTR: Name = Name::Aes192Ctr;

pub const AES_256_CTR: Name = Name::Aes256Ctr;

pub const AES_128_GCM: Name = Name::Aes128Gcm;

pub const AES_256_GCM: Name = Name::Aes256Gcm;

pub const AES_128_CBC: Name = Name::Aes128Cbc;

pub const AES_192_CBC: Name = Name::Aes192Cbc;

pub const AES_256_CBC: Name = Name::Aes256Cbc;

/// Each name once.
pub const ALL_CIPHERS: [Name; 10] = [
    Name::Clear,
    Name::NoCipher,
    Name::Aes128Ctr,
    Name::Aes192Ctr,
    Name::Aes256Ctr,
    Name::Aes128Gcm,
    Name::Aes256Gcm,
    Name::Aes128Cbc,
    Name::Aes192Cbc,
    Name::Aes256Cbc,
];

impl Name {
    ghost use Rattle.ssh_packet.specs.Names.{cipher_name, wants_mac, cipher_key_length, nonce_length};
    ghost use Rattle.ssh_packet.specs.declared.cipher.Name.{Name};

    /// The text of the name, as it stands in a name list.
    pub fn as_str(self) -> &'static str
        ensures { result.now ≡ cipher_name self }
    {
        match self {
            Name::Clear => "clear",
            Name::NoCipher => "none",
            Name::Aes128Ctr => "aes128-ctr",
            Name::Aes192Ctr => "aes192-ctr",
            Name::Aes256Ctr => "aes256-ctr",
            Name::Aes128Gcm => "aes128-gcm@openssh.com",
            Name::Aes256Gcm => "aes256-gcm@openssh.com",
            Name::Aes128Cbc => "aes128-cbc",
            Name::Aes192Cbc => "aes192-cbc",
            Name::Aes256Cbc => "aes256-cbc",
        }
    }

    /// The name of a text, where it has one.
    pub fn from_str(s: &str) -> Option<Name>
        ensures { (name : Name) → (result ≡ Some name) ↔ (s.now ≡ cipher_name name) }
    {
        match s {
            "clear" => Some(Name::Clear),
            "none" => Some(Name::NoCipher),
            "aes128-ctr" => Some(Name::Aes128Ctr),
            "aes192-ctr" => Some(Name::Aes192Ctr),
            "aes256-ctr" => Some(Name::Aes256Ctr),
            "aes128-gcm@openssh.com" => Some(Name::Aes128Gcm),
            "aes256-gcm@openssh.com" => Some(Name::Aes256Gcm),
            "aes128-cbc" => Some(Name::Aes128Cbc),
            "aes192-cbc" => Some(Name::Aes192Cbc),
            "aes256-cbc" => Some(Name::Aes256Cbc),
            _ => None,
        }
    }

    /// Whether packets under it need a MAC: under counter mode and chaining mode. Galois counter mode has a
    /// tag of its own, of 16 bytes.
    pub fn needs_mac(self) -> bool
        ensures { result ≡ wants_mac self }
    {
        match self {
            Name::Clear | Name::NoCipher | Name::Aes128Gcm | Name::Aes256Gcm => false,
            Name::Aes128Ctr
            | Name::Aes192Ctr
            | Name::Aes256Ctr
            | Name::Aes128Cbc
            | Name::Aes192Cbc
            | Name::Aes256Cbc => true,
        }
    }

    /// The length of the key in bytes: 0, 16, 24 or 32.
    pub fn key_len(self) -> usize
        ensures { result ≡ cipher_key_length self }
    {
        match self {
            Name::Clear | Name::NoCipher => 0,
            Name::Aes128Ctr | Name::Aes128Gcm | Name::Aes128Cbc => 16,
            Name::Aes192Ctr | Name::Aes192Cbc => 24,
            Name::Aes256Ctr | Name::Aes256Gcm | Name::Aes256Cbc => 32,
        }
    }

    /// The length of the first counter block, chaining block or nonce in bytes: 0, 12 or 16.
    pub fn nonce_len(self) -> usize
        ensures { result ≡ nonce_length self }
    {
        match self {
            Name::Clear | Name::NoCipher => 0,
            Name::Aes128Gcm | Name::Aes256Gcm => 12,
            Name::Aes128Ctr
            | Name::Aes192Ctr
            | Name::Aes256Ctr
            | Name::Aes128Cbc
            | Name::Aes192Cbc
            | Name::Aes256Cbc => 16,
        }
    }
}
