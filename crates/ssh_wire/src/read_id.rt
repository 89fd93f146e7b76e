//! Reading the peer's version line in pieces (RFC 4253 section 4.2).

ghost use Rattle.std.specs.Prelude.{◌≡◌, ◌≤◌, ◌<◌, ◌+◌, ◌++◌, IfOk, IfSome, None, length, [], take};
ghost use Rattle.ssh_wire.specs.Lines.{line_end};

use crate::error::{Error, IdError};
use crate::line::{LONGEST_LINE, first_lf_end, first_line_end, id_text_len};
use std::marker::Model;

/// How many other lines may stand before the version line.
pub(crate) const OTHER_LINE_LIMIT: usize = 20;

/// How far the version line has come.
#[derive(Clone, Copy, Debug, PartialEq, Eq)]
pub enum IdProgress {
    /// No line decides yet.
    NotYet,
    /// The line is read; so many bytes of the piece belong to it.
    Id { used: usize },
}

#[derive(Clone, Copy, Debug, PartialEq, Eq)]
enum Stage {
    Reading,
    Heard,
    Failed,
}

/// What the first line of a piece is, and how many bytes of the piece belong to it.
#[derive(Clone, Copy, Debug)]
enum LineRead {
    Unfinished,
    IdLine(usize),
    OtherLine(usize),
    TooLong,
}

/// A version line, and other lines before it, that are read in pieces. It takes no memory.
#[derive(Debug, Drop)]
pub struct ReadSshIdBuffer {
    line: [u8; LONGEST_LINE],
    len: usize,
    others: usize,
    stage: Stage,
}

impl Model for ReadSshIdBuffer {
    ghost use Rattle.ssh_wire.specs.Reading.{IdReading};

    ghost Value = { IdReading };

    ghost use Rattle.ssh_wire.specs.Stage.{reading_of, IsKept};

    ghost view = { reading_of };

    ghost invariant = { IsKept };
}

impl ReadSshIdBuffer {
    ghost use Rattle.ssh_wire.specs.Reading.{Waiting, Feeds, used_in, text_heard, waiting_length, outcome_of, end_answer, IsShort};
    ghost use Rattle.ssh_wire.specs.Stepping.{ReadsLine, PassesOther, read_in};

    /// A buffer that has read nothing.
    pub fn new() -> ReadSshIdBuffer
        ensures { result ≡ Waiting [] 0 }
    {
        ReadSshIdBuffer {
            line: [0; LONGEST_LINE],
            len: 0,
            others: 0,
            stage: Stage::Reading,
        }
    }

    /// Takes the next piece of what the peer sent, where other lines may end in it or not. Version where
    /// 255 bytes hold no line end, where a line is longer, at the 21st other line, and at the first that
    /// isn't allowed; it is answered again from then on. Lines that earlier calls let pass count. After an
    /// id the answer is `Id { used: 0 }`. With one flag the result depends on the bytes and not on their
    /// cuts.
    pub fn feed(&mut self, piece: &[u8], allow_pre_banner_lines: bool) -> Result<IdProgress, Error>
        ensures fed { Feeds allow_pre_banner_lines self.old piece.now result self.new }
        ensures within { IfOk result (λ progress. used_in progress ≤ length piece.now) }
        ensures short { IsShort self.new }
    {
        let mut used = 0;
        'lines: loop {
            match self.read_line(&piece[used..]) {
                LineRead::Unfinished => return Ok(IdProgress::NotYet),
                LineRead::IdLine(more) => return Ok(IdProgress::Id { used: used + more }),
                LineRead::OtherLine(more) => {
                    if !self.pass_other(allow_pre_banner_lines) {
                        return Err(Error::Version);
                    }
                    used += more;
                }
                LineRead::TooLong => return Err(Error::Version),
            }
        }
    }

    /// The id's text without its line ending, empty before it was read.
    pub fn id(&self) -> &[u8]
        ensures { result.now ≡ text_heard self.now }
    {
        match self.stage {
            Stage::Heard => &self.line[..self.len],
            _ => &[],
        }
    }

    /// How many bytes of a line that hasn't ended are held; none after an id or Version.
    pub fn waiting(&self) -> usize
        ensures { result ≡ waiting_length self.now }
    {
        match self.stage {
            Stage::Reading => self.len,
            _ => 0,
        }
    }

    /// What stays answered after an id or Version.
    pub(crate) fn outcome(&self) -> Option<Result<(), IdError>>
        ensures { result ≡ outcome_of self.now }
    {
        match self.stage {
            Stage::Reading => None,
            Stage::Heard => Some(Ok(())),
            Stage::Failed => Some(Err(IdError::Version)),
        }
    }

    /// What is answered where nothing more comes: nothing after an id, Version after Version, else
    /// Disconnect.
    pub fn finish(&self) -> Result<(), Error>
        ensures { result ≡ end_answer self.now }
    {
        match self.stage {
            Stage::Reading => Err(Error::Disconnect),
            Stage::Heard => Ok(()),
            Stage::Failed => Err(Error::Version),
        }
    }

    /// Reads the first line of a piece.
    fn read_line(&mut self, piece: &[u8]) -> LineRead
        ensures read { ReadsLine self.old piece.now result self.new }
        ensures within { read_in result ≤ length piece.now }
        ensures short { IsShort self.new }
    {
        match self.stage {
            Stage::Heard => return LineRead::IdLine(0),
            Stage::Failed => return LineRead::TooLong,
            Stage::Reading => {}
        }
        let had = self.len;
        match line_end_in(&self.line[..had], piece) {
            Some(end) if end <= LONGEST_LINE => {
                write_at(&mut self.line, had, &piece[..end - had]);
                match id_text_len(&self.line[..end]) {
                    Some(text) => {
                        self.len = text;
                        self.stage = Stage::Heard;
                        LineRead::IdLine(end - had)
                    }
                    None => {
                        self.len = 0;
                        LineRead::OtherLine(end - had)
                    }
                }
            }
            None if piece.len() < LONGEST_LINE - had => {
                write_at(&mut self.line, had, piece);
                self.len = had + piece.len();
                LineRead::Unfinished
            }
            _ => {
                self.stage = Stage::Failed;
                LineRead::TooLong
            }
        }
    }

    /// Counts an other line that was read, or fails where it isn't allowed.
    fn pass_other(&mut self, allow: bool) -> bool
        ensures passed { PassesOther allow self.old result self.new }
        ensures short { IsShort self.new }
    {
        match self.stage {
            Stage::Reading if allow && self.others < OTHER_LINE_LIMIT => {
                self.others += 1;
                true
            }
            _ => {
                self.stage = Stage::Failed;
                false
            }
        }
    }
}

/// Where the first line ends, of which these bytes have come before the piece.
fn line_end_in(waiting: &[u8], piece: &[u8]) -> Option<usize>
    requires short { length waiting.now ≤ LONGEST_LINE }
    requires unfinished { line_end waiting.now ≡ None }
    ensures end { result ≡ line_end (waiting.now ++ piece.now) }
    ensures beyond { IfSome result (λ end. length waiting.now < end) }
    ensures within { IfSome result (λ end. end ≤ length waiting.now + length piece.now) }
{
    if waiting.is_empty() {
        first_line_end(piece)
    } else {
        first_lf_end(waiting.len(), piece)
    }
}

/// Writes the piece over the bytes from `at` on.
fn write_at(line: &mut [u8], at: usize, piece: &[u8])
    requires { at + length piece.now ≤ length line.old }
    ensures { take (at + length piece.now) line.new ≡ take at line.old ++ piece.now }
{
    line[at..at + piece.len()].copy_from_slice(piece);
}
