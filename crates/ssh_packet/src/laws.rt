//! Laws of packets and of streams of packets, for proofs above to cite.

ghost use Rattle.ssh_packet.specs.Laws.{OnePacket, FrontWhole, FrontSound, OpensAgain, PairOpens, StatesAgree, FrontStays};
ghost use Rattle.ssh_packet.specs.Laws.{NeverMemory, OneReading, PlainReading, ReadsByType, ReadsWhatWasWritten, PaddingFills};

use crate::cipher::{OpeningKey, SealingKey};

/// State, number and bytes determine a packet, whatever follows it.
#[tactic(auto, using(crate::proofs::Lemmas::one_packet))]
pub fn one_packet()
    ensures { OnePacket }
{}

/// Opening undoes sealing.
#[tactic(auto, using(crate::proofs::Lemmas::front_whole))]
pub fn front_whole()
    ensures { FrontWhole }
{}

/// What a reader finds was sealed: an admissible packet, whose bytes stand at the front.
pub fn front_sound()
    ensures { FrontSound }
{}

/// At one key state and number, opening what was sealed gives what was sealed, and both leave one state.
pub fn opens_again()
    ensures { OpensAgain }
{}

/// So do a sealing key and an opening key of whatever types.
pub fn pair_opens<S: SealingKey, O: OpeningKey>()
    ensures { PairOpens S.sealing O.opening }
{}

/// Behind a packet that was sealed, what a reader opens with is what the writer seals under.
#[tactic(auto, using(crate::proofs::Lemmas::states_agree))]
pub fn states_agree()
    ensures { StatesAgree }
{}

/// What a reader finds stays what it is when bytes come behind.
#[tactic(auto, using(crate::proofs::Lemmas::front_stays_whole, crate::proofs::Lemmas::front_stays_refused))]
pub fn front_stays()
    ensures { FrontStays }
{}

/// Two readings of the same bytes are one, whatever test says where epochs end.
pub fn one_reading()
    ensures { OneReading }
{}

/// Where the test says of each packet what its type says, a reading is the one by types.
pub fn plain_reading()
    ensures { PlainReading }
{}

/// A reading by types is one by the test of types.
#[tactic(auto, using(crate::proofs::Lemmas::reads_by_type))]
pub fn reads_by_type()
    ensures { ReadsByType }
{}

/// What a reader takes off a front of what was written is what was written, through the epochs whose openings agree.
pub fn reads_what_was_written()
    ensures { ReadsWhatWasWritten }
{}

/// Padding is 4 to 19 bytes. With it a packet in clear is a multiple of 8 bytes, and what is encrypted of the
/// others a multiple of 16.
#[tactic(auto, using(crate::proofs::Lemmas::padding_fills))]
pub fn padding_fills()
    ensures { PaddingFills }
{}

/// Whatever a reader refuses, it is never for want of memory: `next` takes none.
#[tactic(auto, using(crate::proofs::Lemmas::never_memory))]
pub fn never_memory()
    ensures { NeverMemory }
{}
