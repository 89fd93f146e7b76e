//! The parts of a side that answer what was agreed.

use crate::talk::Agreed;
use ssh_kex::{DhGroup, Parts};
use ssh_wire::{Blob, Side};
use std::alloc::Global;
use uses::{GivenAgreement, GivenGroups, GivenHosts};
use vector_rows::{Fault, Words};

pub(crate) type Given<'w> = Parts<GivenAgreement, GivenHosts, GivenGroups, Words<'w>>;

/// Parts that answer nothing yet, and draw these words.
pub(crate) fn parts_drawing<'w>(alloc: Global, words: &'w [u32]) -> Given<'w> {
    Parts {
        agreement: GivenAgreement::new(alloc),
        hosts: GivenHosts::new(alloc),
        groups: GivenGroups::new(alloc),
        rng: Words::of(words),
    }
}

/// Lets parts answer what these exchanges agreed on, one after the other.
pub(crate) fn give_all(
    parts: &mut Given<'_>,
    side: Side,
    exchanges: &[Agreed],
) -> Result<(), Fault> {
    for agreed in exchanges {
        give_values(&mut parts.agreement, side, agreed)?;
        give_signature(&mut parts.hosts, agreed)?;
        give_group(&mut parts.groups, agreed)?;
    }
    Ok(())
}

/// Lets an agreement answer the side's value and the secret.
fn give_values(agreement: &mut GivenAgreement, side: Side, agreed: &Agreed) -> Result<(), Fault> {
    let alloc = *agreed.secret.allocator();
    let public = match side {
        Side::Client => agreed.client.as_slice(),
        Side::Server => agreed.server.as_slice(),
    };
    agreement.push(
        Vec::from_slice(alloc, public)?,
        Vec::from_slice(alloc, agreed.secret.as_slice())?,
    )?;
    Ok(())
}

/// Lets host keys answer the signature.
fn give_signature(hosts: &mut GivenHosts, agreed: &Agreed) -> Result<(), Fault> {
    let alloc = *agreed.secret.allocator();
    hosts.push(Vec::from_slice(alloc, agreed.signature.as_slice())?)?;
    Ok(())
}

/// Lets a lookup answer the group, where one was looked up.
fn give_group(groups: &mut GivenGroups, agreed: &Agreed) -> Result<(), Fault> {
    let alloc = *agreed.secret.allocator();
    if let Some(group) = &agreed.group {
        groups.push(DhGroup {
            prime: Blob::copy_of(alloc, group.prime.as_slice())?,
            generator: Blob::copy_of(alloc, group.generator.as_slice())?,
        })?;
    }
    Ok(())
}
