//! Two sides of a connection, without a socket: what a caller of a transport does with each.

ghost use Rattle.std.specs.Prelude.{◌≡◌, [], Err, IfErr, IfOk, OnErr, OnOk, false, true};
ghost use Rattle.ssh_rules.specs.Refusing.{RefusesPieceAsking};
ghost use Rattle.ssh_transport.specs.Submitting.{AnswersAlone};
ghost use Rattle.ssh_wire.specs.declared.error.Error.TheVariants.{Disconnect};
ghost use Rattle.uses.specs.TwoSides.{HandsOver};

use rand_core::Rng;
use ssh_kex::{Agreement, GroupLookup, Handed, HostKeys, Parts};
use ssh_rules::Asked;
use ssh_transport::Transport;
use ssh_wire::{Error, PayloadList};

/// Carries all that one side has to send to the other, and takes what that delivers. Where the other side refuses, its
/// connection is over, and nothing of what is to be sent is dropped. It is refused as `feed` is.
pub fn hand_over<A: Agreement, H: HostKeys, G: GroupLookup, R: Rng>(
    from: &mut Transport<'_>,
    to: &mut Transport<'_>,
    parts: &mut Parts<A, H, G, R>,
) -> Result<PayloadList, Error>
    ensures sent { OnOk result (from.new ≡ record from.old { output = [] }) }
    ensures took { IfOk result (λ taken. HandsOver (⟦<Parts<A, H, G, R> as Handed>⟧.says to.old.config parts.old)
        to.old from.old.output taken to.new) }
    ensures kept { OnErr result (from.new ≡ from.old) }
    ensures lives { to.old.failed ≡ false → OnOk result (to.new.failed ≡ false) }
    ensures keeps { ⟦<Parts<A, H, G, R> as Handed>⟧.keeps parts.old parts.new }
    ensures dead { to.old.failed ≡ true → AnswersAlone (Err Disconnect) result to.old to.new parts.old parts.new }
    ensures refused { to.old.failed ≡ false → IfErr result
        (λ e. RefusesPieceAsking (⟦<Parts<A, H, G, R> as Handed>⟧.says to.old.config parts.old)
        (⟦<Parts<A, H, G, R> as Handed>⟧.denies parts.old parts.new)
        (⟦<Parts<A, H, G, R> as Asked>⟧.distrusts parts.old parts.new) to.old from.old.output e to.new
        (⟦<Parts<A, H, G, R> as Asked>⟧.calls parts.old) (⟦<Parts<A, H, G, R> as Asked>⟧.calls parts.new)) }
{
    to.feed(parts, from.output())?;
    let sent = from.output().len();
    from.consume_output(sent);
    Ok(to.take_delivered())
}
