//! The peer's version line, read from a source.

ghost use Rattle.std.specs.Prelude.{◌≡◌, ◌≤◌, [], slice_range, true, false, IfOk, IfErr, OnOk, OnErr, IfSome};
ghost use Rattle.ssh_wire.specs.Lines.{longest_line};
ghost use Rattle.ssh_wire.specs.Reading.{Waiting, IsShort};
ghost use Rattle.ssh_wire.specs.FromSource.{IdRead, UnlessHeard};

use crate::error::IdError;
use crate::from_source::read_until_id;
use crate::line::LONGEST_LINE;
use crate::outside::Source;
use crate::read_id::ReadSshIdBuffer;
use std::marker::Model;

/// A source, and what was read of it so far. It takes no memory.
#[derive(Drop)]
pub struct SshRead<R: Source> {
    pub r: R,
    id: ReadSshIdBuffer,
    piece: [u8; LONGEST_LINE],
    start: usize,
    end: usize,
}

impl<R: Source> Model for SshRead<R> {
    ghost Value = { IdRead R };

    ghost view = { λ s. record { source = s.r; id = s.id; behind = slice_range s.piece s.start s.end } };

    ghost invariant = { λ s. IsShort s.id × (s.start ≤ s.end) × (s.end ≤ longest_line)
        × UnlessHeard s.id (s.start ≡ s.end) };
}

impl<R: Source> SshRead<R> {
    ghost use Rattle.std.specs.Borrow.{sem};
    ghost use Rattle.std.specs.Io.BufRead.{Rests};
    ghost use Rattle.ssh_wire.specs.FromSource.{FindsId, GivesNoId, CountsFault, StandsAfter, WhileWaiting, Repeats, HearsText, HasId, RefusesId};
    ghost use Rattle.ssh_wire.specs.contracts.ssh_read.SshRead.{the_row};

    /// A source of which nothing was read.
    pub fn new(r: R) -> SshRead<R>
        ensures { result ≡ record { source = r; id = Waiting [] 0; behind = [] } }
    {
        SshRead {
            r,
            id: ReadSshIdBuffer::new(),
            piece: [0; LONGEST_LINE],
            start: 0,
            end: 0,
        }
    }

    /// Reads the peer's version line, where other lines may stand before it. Version where no id line came,
    /// Disconnect where the source ended first, IO on a fault. After an id or Version the answer is the
    /// same, and nothing is read.
    pub fn read_ssh_id(&mut self) -> Result<&[u8], IdError>
        ensures text { IfOk result (λ id. IfSome (R.left self.old.source)
            (λ bytes. HasId true self.old.id bytes id.now)) }
        ensures refused { IfErr result (λ e. IfSome (R.left self.old.source)
            (λ bytes. RefusesId true self.old.id bytes e)) }
        ensures* after_borrow { sem 𝓛 (Rests (the_row R.row R.Source) self.entry
            (λ new. HearsText R.left R.faults true self.old result new)) }
    {
        match self.hear(true) {
            Ok(()) => Ok(self.id.id()),
            Err(error) => Err(error),
        }
    }

    /// The same of a client's version line, before which no other line may stand.
    pub fn read_client_ssh_id(&mut self) -> Result<&[u8], IdError>
        ensures text { IfOk result (λ id. IfSome (R.left self.old.source)
            (λ bytes. HasId false self.old.id bytes id.now)) }
        ensures refused { IfErr result (λ e. IfSome (R.left self.old.source)
            (λ bytes. RefusesId false self.old.id bytes e)) }
        ensures* after_borrow { sem 𝓛 (Rests (the_row R.row R.Source) self.entry
            (λ new. HearsText R.left R.faults false self.old result new)) }
    {
        match self.hear(false) {
            Ok(()) => Ok(self.id.id()),
            Err(error) => Err(error),
        }
    }

    /// Reads until a line decides, where other lines may stand before the id line or not. Version where no
    /// id line came, Disconnect where the source ended first, IO on a fault. After an id or Version the
    /// answer is the same, and nothing is read. Of a source that tells its bytes, none behind the piece
    /// that decides is taken, and with what waited at most 21 lines of 255 bytes.
    pub fn hear(&mut self, allow: bool) -> Result<(), IdError>
        ensures found { WhileWaiting self.old.id (IfSome (R.left self.old.source)
            (λ bytes. OnOk result (FindsId allow self.old.id bytes (R.left self.new.source) self.new.id
            self.new.behind))) }
        ensures refused { WhileWaiting self.old.id (IfSome (R.left self.old.source)
            (λ bytes. IfErr result (λ e. GivesNoId allow self.old.id bytes (R.left self.new.source) e self.new.id))) }
        ensures repeats { Repeats self.old.id self.old result self.new }
        ensures kept { OnErr result (self.new.behind ≡ self.old.behind) }
        ensures stands { StandsAfter result self.new.id }
        ensures fault { CountsFault result (R.faults self.old.source) (R.faults self.new.source) }
        ensures count { R.faults self.old.source ≤ R.faults self.new.source }
    {
        if let Some(outcome) = self.id.outcome() {
            return outcome;
        }
        match read_until_id(&mut self.r, &mut self.id, &mut self.piece, allow) {
            Ok((start, end)) => {
                self.start = start;
                self.end = end;
                Ok(())
            }
            Err(error) => Err(error),
        }
    }

    /// What was read behind the id line; none before it.
    pub fn rest(&self) -> &[u8]
        ensures value { result.now ≡ self.now.behind }
        ensures none { UnlessHeard self.now.id (result.now ≡ []) }
    {
        &self.piece[self.start..self.end]
    }
}
