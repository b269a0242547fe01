// The alive threshold of a lent record. The work is `shrink_rules`'s, by value; this form alters the record through the loan.
#![tactic(auto)]

ghost use Rattle.std.specs.Prelude.{◌≡◌};
ghost use Rattle.counters.specs.Maintenance.{adjusted};

use counters::{CounterMaintenance, ShrinkSettings};

// After an alive shrink that saved some bytes, under some settings: of the lent record only the threshold moves.
pub fn adjust_shrink_threshold(
    m: &mut CounterMaintenance,
    settings: ShrinkSettings,
    bytes_saved: u64,
)
    ensures { m.new ≡ adjusted settings bytes_saved m.old }
{
    *m = shrink_rules::adjust_shrink_threshold(*m, settings, bytes_saved);
}
