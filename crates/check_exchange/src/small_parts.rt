//! Rows of small parts: host keys of one key, groups of a list, and a group that is drawn of a table.

use crate::forms::kex_of;
use crate::handed::{group_of, hash_of, say_answer, say_blob, say_group, sizes_of};
use ssh_kex::{Agreement, DhGroup, GexParams, GroupLookup, HostKeys};
use ssh_negotiate::HostKey;
use ssh_vectors::{TestAgreement, TestHosts};
use ssh_wire::{Algorithm, Blob};
use uses::{DrawnGroup, ListedAgreement, ListedGroups, OneKey};
use vector_rows::{Fault, Found, Row, Words, words_of};

/// Answers a row of one of these kinds. False where the kind is another.
pub(crate) fn answer(kind: &str, row: &Row<'_>, found: &Found) -> bool {
    let outcome = match kind {
        "one_key" => {
            one_key(row, found);
            Ok(())
        }
        "listed_groups" => listed_groups(row, found),
        "listed_agreement" => listed_agreement(row, found),
        "drawn_group" => drawn_group(row, found),
        _ => return false,
    };
    found.note(outcome);
    true
}

/// The next word as groups: PRIME:GENERATOR with commas between them, or `-` for none.
fn groups_of(row: &Row<'_>) -> Result<Vec<DhGroup>, Fault> {
    let mut groups = Vec::new(row.alloc());
    let word = row.text();
    for pair in word.split(',').filter(|pair| !pair.is_empty()) {
        let (prime, generator) = row.expect(pair.split_once(':'), ("", ""));
        groups.push(DhGroup {
            prime: Blob::new(row.bytes_of(prime)),
            generator: Blob::new(row.bytes_of(generator)),
        })?;
    }
    Ok(groups)
}

/// `one_key OWN ASKED HASH`: the signature by host keys whose one key has the blob OWN, under a key of the blob ASKED;
/// how many calls they refused, and how many the inner ones were asked.
fn one_key(row: &Row<'_>, found: &Found) {
    let blob = Blob::new(row.owned_bytes());
    let key = HostKey {
        algorithm: Algorithm::Ed25519,
        blob: Blob::new(row.owned_bytes()),
    };
    let hash = hash_of(row);
    let mut part = OneKey {
        inner: TestHosts::new(Vec::new(row.alloc())),
        blob,
        refused: 0,
    };
    say_blob(
        found,
        &part.sign(row.alloc(), &key, Algorithm::Ed25519, &hash),
    );
    found.say_number(part.refused);
    found.say_number(part.inner.calls());
}

/// `listed_groups GROUPS LEAST PREFERRED MOST`: how many bytes the prime of the group has that is found in the list,
/// the prime, the generator; how many calls there were, and how many were refused.
fn listed_groups(row: &Row<'_>, found: &Found) -> Result<(), Fault> {
    let mut part = ListedGroups {
        groups: groups_of(row)?,
        calls: 0,
        refused: 0,
    };
    let sizes = sizes_of(row);
    say_group(found, &part.lookup_dh_gex_group(row.alloc(), &sizes));
    found.say_number(part.calls);
    found.say_number(part.refused);
    Ok(())
}

/// `listed_agreement GROUPS NAME GROUP`: what an agreement of these groups answers a client's start, a server and a
/// client in this group; how many calls it refused, and how many the inner one was asked.
fn listed_agreement(row: &Row<'_>, found: &Found) -> Result<(), Fault> {
    let mut part = ListedAgreement {
        inner: TestAgreement::new(),
        groups: groups_of(row)?,
        refused: 0,
    };
    ask_in_group(row, found, &mut part);
    found.say_number(part.refused);
    found.say_number(part.inner.calls());
    Ok(())
}

/// Appends what an agreement answers in the group of the next words.
fn ask_in_group<A: Agreement>(row: &Row<'_>, found: &Found, part: &mut A) {
    let alloc = row.alloc();
    let name = kex_of(row);
    let group = group_of(row);
    let value = [0; 32];
    let mut rng = Words::of(&[]);
    say_answer(
        found,
        &part.client_start(alloc, name, group.as_ref(), &mut rng),
    );
    say_answer(
        found,
        &part.server_agree(alloc, name, group.as_ref(), &value, &mut rng),
    );
    say_answer(
        found,
        &part.client_agree(alloc, name, group.as_ref(), &value, &value),
    );
}

/// `drawn_group GROUPS BYTES`: how many bytes the prime of the group has that is drawn of the table by these bytes, the
/// prime, the generator, or `none`; and how many words were left undrawn.
fn drawn_group(row: &Row<'_>, found: &Found) -> Result<(), Fault> {
    let groups = groups_of(row)?;
    let bytes = row.bytes();
    let words = words_of(row.alloc(), bytes)?;
    say_drawn(groups.as_slice(), words.as_slice(), found)
}

/// Appends the group of the table that these words draw.
fn say_drawn(groups: &[DhGroup], words: &[u32], found: &Found) -> Result<(), Fault> {
    let mut rng = Words::of(words);
    match DrawnGroup::draw(found.alloc(), &mut rng, groups)? {
        Some(mut part) => {
            let sizes = GexParams {
                min_group_size: 0,
                preferred_group_size: 0,
                max_group_size: 0,
            };
            say_group(found, &part.lookup_dh_gex_group(found.alloc(), &sizes));
        }
        None => found.say("none"),
    }
    found.say_number(rng.left() as u64);
    Ok(())
}
