//! The form that each message of a side's exchange has.

ghost use Rattle.std.specs.Prelude.{◌≡◌, ◌≢◌, ◌<◌, ◌^◌, ◌∷◌, ℕ, List, Option, false, length, drop, slice_get, IsTrue, Some, option_copied};
ghost use Rattle.ssh_packet.specs.Stream.{message_type as message_type_of};
ghost use Rattle.ssh_wire.specs.declared.side.Side.TheVariants.{Client as client_side, Server as server_side};
ghost use Rattle.ssh_kex.specs.Messages.{sizes_text};
ghost use Rattle.ssh_kex.specs.declared.config.Config.{Config};
ghost use Rattle.ssh_rules.specs.MessageTypes.{order};
ghost use Rattle.ssh_blocks.specs.Forms.{AreTwoNumbers, IsOneString, IsReplyOf, IsSameKexinit};
ghost use Rattle.ssh_blocks.specs.Judging.{IsMessageAt, IsRulesOf};

use crate::forms::{one_string, see_sizes, three_sizes, three_strings, two_numbers};
use crate::order::type_of;
use ssh_kex::GexParams;
use ssh_wire::{Side, msg};

/// What a side's messages are measured by.
#[derive(Clone, Copy, Drop)]
pub struct WireRules<'r> {
    pub side: Side,
    /// Whether its exchanges are group exchanges.
    pub kind: bool,
    /// A KEXINIT of the side, with some cookie.
    pub kexinit: &'r [u8],
    /// The sizes that a client asks for.
    pub sizes: GexParams,
    /// The blob that a server presents.
    pub host: Option<&'r [u8]>,
}

/// Where the cookie of a KEXINIT ends; it begins behind the type.
const COOKIE_END: usize = 17;

impl<'r> WireRules<'r> {
    /// Whether the message of this place in its block, from 0, has its form. The type was tested.
    pub fn has_form(&self, place: usize, payload: &[u8]) -> bool
        ensures form { IsTrue result → (config : Config) (host : Option (List ℕ))
            → IsRulesOf self.now.side config self.now.kind host self.now
            → slice_get (order self.now.side self.now.kind) place ≡ Some (message_type_of payload.now)
            → IsMessageAt self.now.side config self.now.kind host place payload.now }
        ensures formless { result ≡ false → (config : Config) (host : Option (List ℕ))
            → IsRulesOf self.now.side config self.now.kind host self.now → length payload.now < 2 ^ 32
            → IsMessageAt self.now.side config self.now.kind host place payload.now → ⊥ }
    {
        if place == 0 {
            return is_same_kexinit(self.kexinit, payload);
        }
        if type_of(payload) == msg::NEWKEYS {
            return payload.len() == 1;
        }
        match self.side {
            Side::Client => self.has_client_form(place, payload),
            Side::Server => self.has_server_form(place, payload),
        }
    }

    /// Whether a client's message behind its KEXINIT is its request or its value.
    fn has_client_form(&self, place: usize, payload: &[u8]) -> bool
        ensures form { IsTrue result → (config : Config) (host : Option (List ℕ))
            → IsRulesOf client_side config self.now.kind host self.now
            → slice_get (order client_side self.now.kind) place ≡ Some (message_type_of payload.now)
            → IsMessageAt client_side config self.now.kind host place payload.now }
        ensures formless { result ≡ false → (config : Config) (host : Option (List ℕ))
            → IsRulesOf client_side config self.now.kind host self.now → 0 < place
            → message_type_of payload.now ≢ 21 → length payload.now < 2 ^ 32
            → IsMessageAt client_side config self.now.kind host place payload.now → ⊥ }
    {
        if !self.kind {
            return is_one_string(payload, msg::KEX_ECDH_INIT);
        }
        if place == 1 {
            return self.is_request(payload);
        }
        is_one_string(payload, msg::KEX_DH_GEX_INIT)
    }

    /// Whether a server's message behind its KEXINIT is its group or its reply.
    fn has_server_form(&self, place: usize, payload: &[u8]) -> bool
        ensures form { IsTrue result → (config : Config) (host : Option (List ℕ))
            → IsRulesOf server_side config self.now.kind host self.now
            → slice_get (order server_side self.now.kind) place ≡ Some (message_type_of payload.now)
            → IsMessageAt server_side config self.now.kind host place payload.now }
        ensures formless { result ≡ false → (config : Config) (host : Option (List ℕ))
            → IsRulesOf server_side config self.now.kind host self.now → 0 < place
            → message_type_of payload.now ≢ 21 → length payload.now < 2 ^ 32
            → IsMessageAt server_side config self.now.kind host place payload.now → ⊥ }
    {
        if !self.kind {
            return self.is_reply(payload, msg::KEX_ECDH_REPLY);
        }
        if place == 1 {
            return are_two_numbers(payload, msg::KEX_DH_GEX_GROUP);
        }
        self.is_reply(payload, msg::KEX_DH_GEX_REPLY)
    }

    /// Whether a message asks for the sizes.
    fn is_request(&self, payload: &[u8]) -> bool
        ensures request { IsTrue result → payload.now ≡ 34 ∷ sizes_text self.now.sizes }
        ensures other { result ≡ false → payload.now ≢ 34 ∷ sizes_text self.now.sizes }
    {
        see_sizes(&self.sizes);
        match three_sizes(payload, msg::KEX_DH_GEX_REQUEST) {
            Some(sizes) => sizes == self.sizes,
            None => false,
        }
    }

    /// Whether a message is a reply that presents the host.
    fn is_reply(&self, payload: &[u8], message_type: u8) -> bool
        ensures reply { IsTrue result → IsReplyOf (option_copied self.now.host) message_type payload.now }
        ensures other { result ≡ false → length payload.now < 2 ^ 32
            → IsReplyOf (option_copied self.now.host) message_type payload.now → ⊥ }
    {
        match three_strings(payload, message_type) {
            Some(reply) => self.presents(reply.host),
            None => false,
        }
    }

    /// Whether a host is the one that is presented.
    fn presents(&self, host: &[u8]) -> bool
        ensures shown { IsTrue result → option_copied self.now.host ≡ Some host.now }
        ensures other { result ≡ false → option_copied self.now.host ≢ Some host.now }
    {
        match self.host {
            Some(shown) => shown == host,
            None => false,
        }
    }
}

/// Whether a message is a KEXINIT that differs from another in its cookie alone.
fn is_same_kexinit(kexinit: &[u8], payload: &[u8]) -> bool
    ensures same { IsTrue result → IsSameKexinit kexinit.now payload.now }
    ensures other { result ≡ false → IsSameKexinit kexinit.now payload.now → ⊥ }
{
    if payload.len() != kexinit.len() {
        return false;
    }
    if type_of(payload) != msg::KEXINIT {
        return false;
    }
    behind_cookie(payload) == behind_cookie(kexinit)
}

/// What stands behind the cookie of a KEXINIT.
fn behind_cookie(message: &[u8]) -> &[u8]
    ensures { result.now ≡ drop 17 message.now }
{
    if message.len() < COOKIE_END {
        return &[];
    }
    &message[COOKIE_END..]
}

/// Whether a message is one string behind its type.
fn is_one_string(payload: &[u8], message_type: u8) -> bool
    ensures one { IsTrue result → IsOneString message_type payload.now }
    ensures other { result ≡ false → length payload.now < 2 ^ 32 → IsOneString message_type payload.now → ⊥ }
{
    match one_string(payload, message_type) {
        Some(_) => true,
        None => false,
    }
}

/// Whether a message is two mpints behind its type.
fn are_two_numbers(payload: &[u8], message_type: u8) -> bool
    ensures two { IsTrue result → AreTwoNumbers message_type payload.now }
    ensures other { result ≡ false → length payload.now < 2 ^ 32 → AreTwoNumbers message_type payload.now → ⊥ }
{
    match two_numbers(payload, message_type) {
        Some(_) => true,
        None => false,
    }
}
