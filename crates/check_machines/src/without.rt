//! An agreement that lacks one key exchange.

use rand_core::Rng;
use ssh_kex::{Agreed, Agreement, DhGroup, Refusal, Started};
use ssh_negotiate::kex;
use ssh_wire::Blob;
use std::alloc::Global;

/// Offers what another agreement offers, but for one name, and answers as that one. It keeps the laws that the other
/// keeps. Where the name is `none`, which no exchange of values has, nothing else is left out.
#[derive(Drop)]
pub(crate) struct Without<A> {
    pub(crate) inner: A,
    pub(crate) name: kex::Name,
}

impl<A: Agreement> Agreement for Without<A> {
    ghost use Rattle.std.specs.Prelude.{◌&&◌, not};
    ghost use Rattle.std.specs.Str.{bytes_eq};
    ghost use Rattle.ssh_negotiate.specs.Tables.{kex_text};

    ghost offered = { λ v name. not (bytes_eq (kex_text name) (kex_text v.name)) && A.offered v.inner name };

    ghost client_makes = { A.client_makes };

    ghost server_makes = { A.server_makes };

    ghost agrees = { A.agrees };

    ghost client_draws = { A.client_draws };

    ghost server_draws = { A.server_draws };

    ghost lawful = { λ v. A.lawful v.inner };

    ghost obliging = { λ v later. A.obliging v.inner later.inner };

    ghost refusals = { λ v. A.refusals v.inner };

    ghost calls = { λ v. A.calls v.inner };

    ghost answered = { λ v. A.answered v.inner };

    ghost one_secret = { λ v s. A.one_secret v.inner s };

    ghost obliging_lawful = { λ v later s. A.obliging_lawful v.inner later.inner s };

    fn offers(&self, name: kex::Name) -> bool {
        name.as_str() != self.name.as_str() && self.inner.offers(name)
    }

    fn client_start<R: Rng>(
        &mut self,
        alloc: Global,
        name: kex::Name,
        group: Option<&DhGroup>,
        rng: &mut R,
    ) -> Result<Started, Refusal> {
        self.inner.client_start(alloc, name, group, rng)
    }

    fn server_agree<R: Rng>(
        &mut self,
        alloc: Global,
        name: kex::Name,
        group: Option<&DhGroup>,
        client_public: &[u8],
        rng: &mut R,
    ) -> Result<Agreed, Refusal> {
        self.inner
            .server_agree(alloc, name, group, client_public, rng)
    }

    fn client_agree(
        &mut self,
        alloc: Global,
        name: kex::Name,
        group: Option<&DhGroup>,
        local: &[u8],
        server_public: &[u8],
    ) -> Result<Blob, Refusal> {
        self.inner
            .client_agree(alloc, name, group, local, server_public)
    }
}
