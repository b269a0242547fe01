// The rules of shrinking, over numbers alone: the ranges of the settings, whether so many removals call for it, and the alive threshold after it.
#![tactic(auto)]

ghost use Rattle.std.specs.Prelude.{◌≡◌};
ghost use Rattle.counters.specs.Maintenance.{in_range, should_shrink, adjust_shrink_threshold, adjusted};

use counters::{CounterMaintenance, ShrinkSettings};

// Whether the base is from 1 to the maximum. The maximum and the good save are any.
#[tactic(auto, unfolding(counters::specs::Maintenance::in_range))]
pub fn in_range(settings: ShrinkSettings) -> bool
    ensures { result ≡ in_range settings }
{
    settings.base != 0 && settings.base <= settings.max
}

// Whether to shrink what holds alive items: at least a third of them were removed, and no fewer than the least number, or none are left. Three
// times the removed may be past the largest number, and so past alive too.
#[tactic(auto, unfolding(counters::specs::Maintenance::should_shrink))]
pub fn should_shrink(alive: u64, removed_since_shrink: u64, min_removed: u64) -> bool
    ensures { result ≡ should_shrink alive removed_since_shrink min_removed }
{
    removed_since_shrink != 0
        && (alive == 0
            || min_removed <= removed_since_shrink
                && alive <= removed_since_shrink.saturating_mul(3))
}

// The alive threshold after a shrink that saved some bytes: the base after a good save, else twice itself, to the maximum at most.
#[tactic(auto, unfolding(counters::specs::Maintenance::adjust_shrink_threshold))]
pub fn threshold_after(settings: ShrinkSettings, threshold: u64, saved: u64) -> u64
    ensures { result ≡ adjust_shrink_threshold settings saved threshold }
{
    if settings.good_save <= saved {
        settings.base
    } else {
        threshold.saturating_mul(2).min(settings.max)
    }
}

// After an alive shrink that saved some bytes: only the threshold moves.
pub fn adjust_shrink_threshold(
    mut after: CounterMaintenance,
    settings: ShrinkSettings,
    bytes_saved: u64,
) -> CounterMaintenance
    ensures { result ≡ adjusted settings bytes_saved after }
{
    after.min_alive_removed_before_shrink = threshold_after(
        settings,
        after.min_alive_removed_before_shrink,
        bytes_saved,
    );
    after
}
