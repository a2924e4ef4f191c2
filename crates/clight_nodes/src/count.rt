//! Counts that stand at their end.

ghost use Rattle.std.specs.Prelude.{◌≡◌};
ghost use Rattle.clight_nodes.specs.Counted.{counted};

/// So many more; a count that would pass its greatest value stays there.
pub fn add(count: &mut usize, more: usize)
    ensures { count.new ≡ counted count.old more }
{
    *count = count.saturating_add(more);
}
