//! Numbers of channels (RFC 4254 section 5.1).

ghost use Rattle.std.specs.Prelude.{◌≡◌, ◌++◌, ◌+◌, ◌<◌, ◌≤◌, ◌^◌, vec_len, vec_capacity, IsOk, List, ℕ, OnOk, OnErr, IfOk, IfErr};
ghost use Rattle.ssh_wire.specs.Forms.{u32be};
ghost use Rattle.ssh_wire.specs.Fields.{u32_at, TakesForm, IsRead};
ghost use Rattle.ssh_wire.specs.declared.error.Error.TheVariants.{Memory};

use crate::encoding::put_u32;
use crate::error::Error;
use crate::reader::Reader;
use std::fmt;
use std::marker::Model;

/// The number of a channel, seen as that number.
#[derive(Clone, Copy, Debug, PartialEq, Eq, PartialOrd, Ord, Hash)]
pub struct ChannelId(u32);

impl Model for ChannelId {
    ghost Value = { ℕ };

    ghost view = { λ c. c.0 };

    ghost inverse = { λ n. record { 0 = n } };
}

impl ChannelId {
    /// The number.
    pub fn number(&self) -> u32
        ensures { result ≡ self.now }
    {
        self.0
    }

    /// Appends the number as a `uint32`. Memory leaves `out` as it was.
    pub fn encode(&self, out: &mut Vec<u8>) -> Result<(), Error>
        ensures ok { OnOk result (out.new.items ≡ out.old.items ++ u32be self.now) }
        ensures unchanged { OnErr result (out.new.items ≡ out.old.items) }
        ensures err { IfErr result (λ e. e ≡ Memory) }
        ensures ready { vec_len out.old + 4 ≤ vec_capacity out.old → IsOk result }
        ensures capacity { vec_capacity out.old ≤ vec_capacity out.new }
    {
        put_u32(out, self.0)
    }

    /// Reads a `uint32`. SshEncoding(Length) where fewer than four bytes are left; a refusal takes nothing.
    pub fn decode(r: &mut Reader<'_>) -> Result<ChannelId, Error>
        ensures exact { TakesForm (λ c. c) (u32_at r.old) r.old result r.new }
        ensures spelled { IfOk result (λ c. r.old ≡ u32be c ++ r.new) }
        ensures again { (n : ℕ) (rest : List ℕ) → n < 2 ^ 32 → r.old ≡ u32be n ++ rest → IsRead (λ x. x) n rest result
            r.new }
    {
        match r.read_u32() {
            Ok(number) => Ok(ChannelId(number)),
            Err(error) => Err(error),
        }
    }
}

impl From<ChannelId> for u32 {
    ghost from_gives = { λ id n. n ≡ id };

    fn from(id: ChannelId) -> u32 {
        id.number()
    }
}

impl fmt::Display for ChannelId {
    ghost use Rattle.std.specs.Prelude.{Some, decimal};

    ghost output = { λ id. Some (decimal id) };

    fn fmt<W: fmt::Write>(&self, f: &mut fmt::Formatter<W>) -> fmt::Result {
        let number = self.0;
        write!(f, "{number}")
    }
}
