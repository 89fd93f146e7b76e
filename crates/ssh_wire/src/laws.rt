//! Laws of the forms and of version lines, for proofs above to cite.

ghost use Rattle.ssh_wire.specs.Laws.{IdStays, LessThanALine, FedTwice, FedMore, MpintNumber, OneMpint, EqualMpints, JoinedRead, ReadSpelled, JoinedUtf8};

/// An id line that was found stays found when bytes come behind.
pub fn id_stays()
    ensures { IdStays }
{}

/// Less than a whole id line decides nothing.
pub fn less_than_a_line()
    ensures { LessThanALine }
{}

/// What stands in an mpint spells the number.
#[tactic(auto, using(crate::proofs::Lemmas::mpint_number))]
pub fn mpint_number()
    ensures { MpintNumber }
{}

/// An mpint depends on the number alone.
#[tactic(auto, using(crate::proofs::Lemmas::one_mpint))]
pub fn one_mpint()
    ensures { OneMpint }
{}

/// Equal mpints are of equal numbers.
#[tactic(auto, using(crate::proofs::Lemmas::equal_mpints))]
pub fn equal_mpints()
    ensures { EqualMpints }
{}

/// Reading the names that were joined gives them again.
#[tactic(auto, using(crate::proofs::Lemmas::joined_read))]
pub fn joined_read()
    ensures { JoinedRead }
{}

/// Names that were read are the text, but for one comma at its end.
#[tactic(auto, using(crate::proofs::Lemmas::read_spelled))]
pub fn read_spelled()
    ensures { ReadSpelled }
{}

/// Names that were joined are UTF-8.
#[tactic(auto, using(crate::proofs::Lemmas::joined_utf8))]
pub fn joined_utf8()
    ensures { JoinedUtf8 }
{}

/// Two pieces, of which the first decides nothing, are read as one.
#[tactic(auto, using(crate::proofs::Lemmas::fed_twice))]
pub fn fed_twice()
    ensures { FedTwice }
{}

/// A piece that decides is read the same with bytes behind it.
#[tactic(auto, using(crate::proofs::Lemmas::fed_more))]
pub fn fed_more()
    ensures { FedMore }
{}
