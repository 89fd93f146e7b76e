//! The payloads that the steps of a link submit.

ghost use Rattle.std.specs.Prelude.{◌≡◌, ◌∷◌, [], List, None, IfSome, option_copied};
ghost use Rattle.ssh_wire.specs.Sides.{same_side};
ghost use Rattle.ssh_rules.specs.Headline.{submitted_by};
ghost use Rattle.ssh_rules.specs.declared.link.Step as steps_of;
ghost use Rattle.ssh_blocks.specs.Submits.{with_submit};

use ssh_rules::link::Step;
use ssh_wire::Side;

/// Whether two sides are one.
fn is_same(a: Side, b: Side) -> bool
    ensures { result ≡ same_side a b }
{
    match (a, b) {
        (Side::Client, Side::Client) => true,
        (Side::Client, Side::Server) => false,
        (Side::Server, Side::Client) => false,
        (Side::Server, Side::Server) => true,
    }
}

/// The payload that a step submits to a side, if it does.
pub fn submitted_in(step: &Step, side: Side) -> Option<&[u8]>
    ensures { (behind : List steps_of.Step)
        → submitted_by side (step.now ∷ behind) ≡ with_submit (option_copied result) (submitted_by side behind) }
{
    match step {
        Step::Submit(of, payload) => {
            if is_same(*of, side) {
                Some(payload.as_slice())
            } else {
                None
            }
        }
        Step::Deliver(_, _) => None,
        Step::Rekey(_) => None,
        Step::Settle => None,
    }
}

/// The first payload that steps submit to a side, and the steps behind it.
pub fn next_submit<'s>(steps: &'s [Step], side: Side) -> Option<(&'s [u8], &'s [Step])>
    ensures first { IfSome result (λ f. submitted_by side steps.now ≡ f.0.now ∷ submitted_by side f.1.now) }
    ensures none { result ≡ None → submitted_by side steps.now ≡ [] }
{
    let mut rest = steps;
    while let Some((step, behind)) = rest.split_first() {
        if let Some(payload) = submitted_in(step, side) {
            return Some((payload, behind));
        }
        rest = behind;
    }
    None
}
