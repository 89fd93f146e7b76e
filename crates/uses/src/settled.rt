//! What a run of a link that ends with a settle delivered.

ghost use Rattle.uses.specs.Settled.{SettledDelivers};

use ssh_kex::Agreement;

/// Each side of a link whose last step is a settle was delivered all that the other one submitted, in order.
pub fn settled_delivers<A: Agreement>()
    ensures { SettledDelivers A.client_makes A.server_makes A.agrees }
{}
