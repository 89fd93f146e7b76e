//! What calls on a link do by what the parts of both sides say, so that a clause names it once.

ghost use Rattle.ssh_mux.specs.Linking.{TakesSteps};
ghost use Rattle.ssh_mux.specs.Stopping.{RefusesOn};
ghost use Rattle.ssh_run.specs.Stepping.{LinkState};
ghost use Rattle.ssh_wire.specs.declared.error.Error.{Error};

use ssh_kex::{Agreement, GroupLookup, Handed, HostKeys, Parts};
use ssh_run::Told;

/// What a link goes through by what the parts of both sides say, the client's before the server's.
pub(crate) trait Linked {
    // Steps were carried out, and nothing else.
    ghost goes_on: { LinkState → Self → Self → LinkState → Type 0 };

    // Steps were carried out, and the next one was refused for this error.
    ghost refuses_on: { LinkState → Self → Self → Self → Self → Error → Type 0 };
}

impl<A: Agreement, H: HostKeys, G: GroupLookup, R> Linked for Parts<A, H, G, R> {
    ghost goes_on = { λ l p q l'. TakesSteps
        (⟦<Parts<A, H, G, R> as Handed>⟧.says l.carried.client.transport.config p)
        (⟦<Parts<A, H, G, R> as Handed>⟧.says l.carried.server.transport.config q) l l' };

    ghost refuses_on = { λ l p p' q q' e. RefusesOn (λ a b. ⟦<Parts<A, H, G, R> as Handed>⟧.keeps a b)
        (λ config a b. ⟦<Parts<A, H, G, R> as Told>⟧.telling config a b) l p p' q q' e };
}
