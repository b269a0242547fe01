// Maintenance: what shrinks, by the rules of `shrink_rules`, and what is left of the removal counts.
#![tactic(auto)]

ghost use Rattle.std.specs.Prelude.{◌≡◌, true, ◌*◌, ◌≤◌, length};
ghost use Rattle.base.specs.Logic.{pick};
ghost use Rattle.rows.specs.Table.{rows_of};
ghost use Rattle.counters.specs.Counts as counts;
ghost use Rattle.counters.specs.Layout.{count_row};
ghost use Rattle.counters.specs.Layout as layout;
ghost use Rattle.counters.specs.Returned.{as_shrunk};
ghost use Rattle.counters.specs.Calls.{shrink_call};
ghost use Rattle.counters.specs.Maintenance.{set_minimum, should_shrink, sets_shrink, reset_where, shrunk};

use base::Refusal;
use counters::{CounterMaintenance, Counters, ShrinkSettings, Shrunk};

// A set doesn't shrink before so many removals.
const SET_MINIMUM: u64 = 65_536;

// Whether set k shrinks. Where nothing was removed it doesn't, and its members aren't counted.
#[tactic(auto, unfolding(counters::specs::Maintenance::should_shrink))]
fn should_shrink_set(t: &[u64], n: usize, k: u32, removed: u64) -> bool
    requires { n * 2 ≤ length t.now }
    ensures { result ≡ should_shrink (length (counts.members k (rows_of count_row n t.now))) removed set_minimum }
{
    removed != 0
        && shrink_rules::should_shrink(counter_sets::members(t, n, k), removed, SET_MINIMUM)
}

// Which of the eight sets shrink, by their removal counts.
fn sets_shrink(t: &[u64], n: usize, removed: [u64; 8]) -> [bool; 8]
    requires { n * 2 ≤ length t.now }
    ensures { result ≡ sets_shrink (rows_of count_row n t.now) removed }
{
    let mut small = [false; 8];
    for k in 0..8 {
        small[k] = should_shrink_set(t, n, k as u32, removed[k]);
    }
    small
}

// A removal count after a decision: a yes sets it to 0.
fn left_after(yes: bool, removed: u64) -> u64
    ensures { result ≡ pick yes 0 removed }
{
    if yes { 0 } else { removed }
}

// The removal counts of the eight sets after their decisions.
fn reset_where(small: [bool; 8], removed: [u64; 8]) -> [u64; 8]
    ensures { result ≡ reset_where small removed }
{
    let mut left = [0; 8];
    for k in 0..8 {
        left[k] = left_after(small[k], removed[k]);
    }
    left
}

// Maintenance after the decisions. A yes sets its removal count to 0, and the threshold moves after an alive yes only.
#[tactic(auto, unfolding(counters::specs::Maintenance::shrunk))]
fn maintenance_after(
    m: CounterMaintenance,
    settings: ShrinkSettings,
    alive: bool,
    small: [bool; 8],
    saved: u64,
) -> CounterMaintenance
    ensures { result ≡ shrunk settings saved (record { alive = alive; small = small }) m }
{
    let after = CounterMaintenance {
        alive_removed_since_shrink: left_after(alive, m.alive_removed_since_shrink),
        small_removed_since_shrink: reset_where(small, m.small_removed_since_shrink),
        ..m
    };
    if alive {
        shrink_rules::adjust_shrink_threshold(after, settings, saved)
    } else {
        after
    }
}

// The shrink decisions over a table that holds a state, and the record after them.
pub fn shrink_held(c: Counters, t: &[u64], saved: u64) -> Shrunk
    requires { layout.holds c t.now ≡ true }
    ensures { as_shrunk c (Ok result) ≡ shrink_call c t.now saved }
{
    let m = c.maintenance;
    let small = sets_shrink(t, c.stored, m.small_removed_since_shrink);
    let alive = shrink_rules::should_shrink(
        c.stored as u64,
        m.alive_removed_since_shrink,
        m.min_alive_removed_before_shrink,
    );
    let maintenance = maintenance_after(m, c.settings, alive, small, saved);
    Shrunk {
        alive,
        small,
        counters: Counters { maintenance, ..c },
    }
}

// The shrink decisions, over a table that is checked first. saved is the bytes that the alive shrink saves.
#[tactic(auto, unfolding(counters::specs::Calls::shrink_call, counters::specs::Calls::decided, counters::specs::Calls::on_state))]
pub fn shrink_if_needed(c: Counters, t: &[u64], saved: u64) -> Result<Shrunk, Refusal>
    ensures { as_shrunk c result ≡ shrink_call c t.now saved }
{
    if !counter_rows::holds(c, t) {
        return Err(Refusal::Broken);
    }
    Ok(shrink_held(c, t, saved))
}
