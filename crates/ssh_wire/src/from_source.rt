//! Reading a version line from a source, piece by piece.

ghost use Rattle.std.specs.Prelude.{◌≡◌, ◌<◌, ◌≤◌, true, IfOk, IfErr, IfSome, length, slice_range};
ghost use Rattle.ssh_wire.specs.Outside.{TakesNext};
ghost use Rattle.ssh_wire.specs.Reading.{IsShort, waits};
ghost use Rattle.ssh_wire.specs.FromSource.{FindsId, GivesNoId, CountsFault, StandsAfter, TakesNone};

use crate::error::IdError;
use crate::line::LONGEST_LINE;
use crate::outside::{Failed, Source};
use crate::read_id::{IdProgress, ReadSshIdBuffer};

/// Takes the next bytes into the front of the buffer, at most so many, and answers how many. Disconnect at
/// the end, IO on a fault.
fn take_some<R: Source>(source: &mut R, buffer: &mut [u8], most: usize) -> Result<usize, IdError>
    requires buffer { 0 < length buffer.old }
    requires most { 0 < most }
    ensures some { IfOk result (λ n. 0 < n) }
    ensures most { IfOk result (λ n. n ≤ most) }
    ensures within { IfOk result (λ n. n ≤ length buffer.new) }
    ensures next { IfOk result (λ n. TakesNext n buffer.new (R.left source.old) (R.left source.new)) }
    ensures none { IfErr result (λ e. TakesNone buffer.new (R.left source.old) (R.left source.new) e) }
    ensures fault { CountsFault result (R.faults source.old) (R.faults source.new) }
    ensures count { R.faults source.old ≤ R.faults source.new }
{
    let room = buffer.len().min(most);
    match source.read(&mut buffer[..room]) {
        Ok(0) => Err(IdError::Disconnect),
        Ok(n) => Ok(n),
        Err(Failed::Failed) => Err(IdError::IO),
    }
}

/// Reads until a line decides, and no byte behind the piece that decides. The answer is where the bytes
/// behind the id line stand in the buffer. Version where no id line came, Disconnect at the end, IO on a
/// fault.
pub fn read_until_id<R: Source>(
    source: &mut R,
    id: &mut ReadSshIdBuffer,
    buffer: &mut [u8],
    allow: bool,
) -> Result<(usize, usize), IdError>
    requires waits { waits id.old ≡ true }
    requires short { IsShort id.old }
    requires buffer { 0 < length buffer.old }
    ensures found { IfSome (R.left source.old) (λ bytes. IfOk result
        (λ place. FindsId allow id.old bytes (R.left source.new) id.new (slice_range buffer.new place.0 place.1))) }
    ensures refused { IfSome (R.left source.old) (λ bytes. IfErr result
        (λ e. GivesNoId allow id.old bytes (R.left source.new) e id.new)) }
    ensures fault { CountsFault result (R.faults source.old) (R.faults source.new) }
    ensures count { R.faults source.old ≤ R.faults source.new }
    ensures stands { StandsAfter result id.new }
    ensures short { IsShort id.new }
    ensures ordered { IfOk result (λ place. place.0 ≤ place.1) }
    ensures within { IfOk result (λ place. place.1 ≤ length buffer.new) }
{
    'turns: loop {
        let taken = take_some(source, buffer, LONGEST_LINE - id.waiting())?;
        match id.feed(&buffer[..taken], allow) {
            Ok(IdProgress::Id { used }) => return Ok((used, taken)),
            Ok(IdProgress::NotYet) => {}
            Err(_) => return Err(IdError::Version),
        }
    }
}
