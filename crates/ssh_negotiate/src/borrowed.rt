//! One choice of the own list and a list of the peer's that stays where it was read (RFC 4253 section 7.1).

ghost use Rattle.std.specs.Prelude.{◌≡◌, find, map};
ghost use Rattle.std.specs.List.{list_any};
ghost use Rattle.std.specs.Str.{bytes_eq};
ghost use Rattle.ssh_wire.specs.Naming.{parts_behind};
ghost use Rattle.ssh_wire.specs.declared.side.Side.TheVariants.{Client as client, Server as server};
ghost use Rattle.ssh_negotiate.specs.Reading.{IsKindRefusal, common, same_first};

use crate::negotiation::AsName;
use crate::select::texts_of;
use ssh_wire::{AlgorithmKind, BorrowedNames, Error, Side, first_name};
use std::alloc::Global;

/// The choice of a side: the first name of the client's list that the server's list holds.
pub(crate) fn choice_of_read<A: AsName + Copy>(
    side: Side,
    own: &[A],
    peer: &BorrowedNames<'_>,
) -> Option<A>
    ensures { result ≡ common A.text side own.now peer.now }
{
    match side {
        Side::Client => client_choice(own, peer),
        Side::Server => server_choice(own, peer.text()),
    }
}

/// The first name of the own list that the peer's list holds.
#[tactic(auto, unfolding(crate::specs::Reading::common))]
fn client_choice<A: AsName + Copy>(own: &[A], peer: &BorrowedNames<'_>) -> Option<A>
    ensures { result ≡ common A.text client own.now peer.now }
{
    own.iter().copied().find(|x| peer.holds(x.as_name()))
}

/// The first name of a text that the own list holds, as the own list has it.
fn server_choice<A: AsName + Copy>(own: &[A], text: Option<&[u8]>) -> Option<A>
    ensures { result ≡ common A.text server own.now (parts_behind text.entry) }
{
    let mut rest = text;
    while let Some(names) = rest {
        let (name, behind) = first_name(names);
        let found = own_name(own, name);
        if found.is_some() {
            return found;
        }
        rest = behind;
    }
    None
}

/// The own name with a text.
fn own_name<A: AsName + Copy>(own: &[A], name: &[u8]) -> Option<A>
    ensures { result ≡ find (λ x. bytes_eq name.now (A.text x)) own.now }
{
    own.iter().copied().find(|x| name == x.as_name().as_bytes())
}

/// Whether both lists begin with one name.
pub(crate) fn begins_alike<A: AsName>(own: &[A], peer: &BorrowedNames<'_>) -> bool
    ensures { result ≡ same_first (map A.text own.now) peer.now }
{
    match (own.first(), peer.text()) {
        (Some(x), Some(text)) => x.as_name().as_bytes() == first_name(text).0,
        _ => false,
    }
}

/// The refusal where there is no common name, with both lists. Memory.
pub(crate) fn refusal_of_read<A: AsName>(
    alloc: Global,
    kind: AlgorithmKind,
    own: &[A],
    peer: &BorrowedNames<'_>,
) -> Error
    ensures { IsKindRefusal kind (map A.text own.now) peer.now result }
{
    let Ok(ours) = texts_of(alloc, own) else {
        return Error::Memory;
    };
    let Ok(theirs) = peer.to_list(alloc) else {
        return Error::Memory;
    };
    Error::NoCommonAlgo { kind, ours, theirs }
}
