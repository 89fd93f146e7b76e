//! Laws of digests and tags, for proofs above to cite.

ghost use Rattle.ssh_mac.specs.Laws.{DigestsHaveLength, TagsHaveLength, TagsAreShort, OwnTagTaken, TakenIsTag};

/// A digest has as many bytes as its hash function says.
#[tactic(auto, using(crate::proofs::Lemmas::digests_have_length))]
pub fn digests_have_length()
    ensures { DigestsHaveLength }
{}

/// A tag has as many bytes as its MAC says.
#[tactic(auto, using(crate::proofs::Lemmas::tags_have_length))]
pub fn tags_have_length()
    ensures { TagsHaveLength }
{}

/// No tag has more than 64 bytes.
#[tactic(auto, using(crate::proofs::Lemmas::tags_are_short))]
pub fn tags_are_short()
    ensures { TagsAreShort }
{}

/// The tag that was computed is accepted.
#[tactic(auto, using(crate::proofs::Lemmas::own_tag_taken))]
pub fn own_tag_taken()
    ensures { OwnTagTaken }
{}

/// Of the texts that are as long as the tag no other is accepted.
#[tactic(auto, using(crate::proofs::Lemmas::taken_is_tag))]
pub fn taken_is_tag()
    ensures { TakenIsTag }
{}
