//! Laws of the block cipher and of its modes, for proofs above to cite.

ghost use Rattle.ssh_aes.specs.Examples.{SubstitutionExample, InversesExample, BlockExamples, SealedExamples};
ghost use Rattle.ssh_aes.specs.Laws.{BlocksUndone, BlocksRedone, FrontsKept, RunsWell, OpensWell, ClosesWell, GcmWell, GcmClosesWell, StreamsUndone, NumberSpelled, TwelveBytes};
ghost use Rattle.ssh_aes.specs.Modes.{Running};
ghost use Rattle.std.specs.Prelude.{ℕ, List};

use crate::runs::BlockStreamCipher;

/// The worked examples of the standards are what the definitions give.
pub fn worked_examples()
    ensures substitution { SubstitutionExample }
    ensures inverses { InversesExample }
    ensures blocks { BlockExamples }
    ensures sealed { SealedExamples }
{}

/// Decryption undoes encryption, under every key.
#[tactic(auto, using(crate::proofs::Lemmas::blocks_undone))]
pub fn blocks_undone()
    ensures { BlocksUndone }
{}

/// Encryption undoes decryption, under every key.
#[tactic(auto, using(crate::proofs::Lemmas::blocks_redone))]
pub fn blocks_redone()
    ensures { BlocksRedone }
{}

/// Masking keeps the length, tells texts apart, and shows a text's front at the front.
#[tactic(auto, using(crate::proofs::Lemmas::runs_well))]
pub fn runs_well()
    ensures { (r : Running) → RunsWell r }
{}

/// A front of whole blocks of a masked text is the masked front.
#[tactic(auto, using(crate::proofs::Lemmas::fronts_kept))]
pub fn fronts_kept()
    ensures { FrontsKept }
{}

/// Opening undoes masking, whatever the length.
#[tactic(auto, using(crate::proofs::Lemmas::opens_well))]
pub fn opens_well()
    ensures { (r : Running) → OpensWell r }
{}

/// Masking undoes opening of whatever bytes, and leaves the same state.
#[tactic(auto, using(crate::proofs::Lemmas::closes_well))]
pub fn closes_well()
    ensures { (r : Running) → ClosesWell r }
{}

/// Two ciphers at equal states undo each other, whatever the length, and are at equal states again.
#[tactic(auto, using(crate::proofs::Lemmas::streams_undone))]
pub fn streams_undone<C: BlockStreamCipher>()
    ensures { StreamsUndone C.running }
{}

/// Sealing in Galois counter mode keeps the length, makes a tag of 16 bytes, and is undone.
#[tactic(auto, using(crate::proofs::Lemmas::gcm_well))]
pub fn gcm_well()
    ensures { (key nonce : List ℕ) → GcmWell key nonce }
{}

/// Galois counter mode seals what it opened from whatever bytes to those bytes, and to their tag.
#[tactic(auto, using(crate::proofs::Lemmas::gcm_closes_well))]
pub fn gcm_closes_well()
    ensures { (key nonce : List ℕ) → GcmClosesWell key nonce }
{}

/// The sixteen bytes of a number, the highest first, spell it.
#[tactic(auto, using(crate::proofs::Lemmas::number_spelled))]
pub fn number_spelled()
    ensures { NumberSpelled }
{}

/// A number below 2^96 has twelve bytes.
#[tactic(auto, using(crate::proofs::Lemmas::twelve_bytes))]
pub fn twelve_bytes()
    ensures { TwelveBytes }
{}
