//! Whether the lengths of a record fit its steps and its wires.

ghost use Rattle.std.specs.Prelude.{◌↔◌, IsTrue};
ghost use Rattle.ssh_record.specs.Answers.{FitsSent};

use ssh_record::Transcript;

/// Whether there is one pair of lengths more than steps, and the last pair is the lengths of the wires.
pub(crate) fn fits_sent(transcript: &Transcript) -> bool
    ensures exact { IsTrue result ↔ FitsSent transcript.now }
{
    let steps = transcript.steps.len();
    if transcript.sent.len().checked_sub(1) != Some(steps) {
        return false;
    }
    match transcript.sent.get(steps) {
        Some(last) => {
            last.client == transcript.client.as_slice().len() as u64
                && last.server == transcript.server.as_slice().len() as u64
        }
        None => false,
    }
}
