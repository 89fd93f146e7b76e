//! How a talk ends, and the exit status of each end.

ghost use Rattle.std.specs.Prelude.{◌≡◌};
ghost use Rattle.ssh_pipe.specs.Ends.{end_status};

use ssh_program::{REPORT_WRITTEN, RUN_REFUSED, SINK_FAILED, SOURCE_FAILED, WANT_OF_MEMORY};
use ssh_wire::Error;

/// How a talk ended.
#[derive(Debug, Drop)]
pub enum TalkEnd {
    /// The source has no more bytes.
    InputEnded,
    /// The other side sent DISCONNECT.
    Disconnected,
    /// The service that a client asked for was granted.
    Granted,
    /// What the other side sent was refused, or memory ran out.
    Refused(Error),
    /// The other side asked for a service that isn't offered, or for one twice.
    NotServed,
    /// The source failed.
    SourceFailed,
    /// The sink failed.
    SinkFailed,
    /// 2^64 - 1 pieces were read.
    Exhausted,
}

/// The exit status: 0 behind the input's end, DISCONNECT and a service that was granted.
pub fn status_of(end: &TalkEnd) -> u8
    ensures { result ≡ end_status end.now }
{
    match end {
        TalkEnd::InputEnded | TalkEnd::Disconnected | TalkEnd::Granted => REPORT_WRITTEN,
        TalkEnd::Refused(Error::Memory) => WANT_OF_MEMORY,
        TalkEnd::Refused(_) | TalkEnd::NotServed | TalkEnd::Exhausted => RUN_REFUSED,
        TalkEnd::SourceFailed => SOURCE_FAILED,
        TalkEnd::SinkFailed => SINK_FAILED,
    }
}
