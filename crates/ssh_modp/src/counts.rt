//! Counts that stop at their end.

ghost use Rattle.std.specs.Prelude.{◌≡◌};
ghost use Rattle.ssh_wire.specs.Outside.{next_count};

/// One more.
pub(crate) fn one_more(count: u64) -> u64
    ensures { result ≡ next_count count }
{
    count.saturating_add(1)
}
