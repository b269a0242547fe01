// Fresh counters in a lent table, and allocation, which is lent none.
#![tactic(auto)]

ghost use Rattle.std.specs.Prelude.{◌≡◌};
ghost use Rattle.counters.specs.Calls.{effect, no_counters, new_call, alloc_call};
ghost use Rattle.counters.specs.Returned.{as_applied, as_allocated};

use base::Refusal;
use counters::{CounterMaintenance, Counters, Idx, NextIdx, ShrinkSettings};

// Fresh counters at a next index, in a table of any content: nothing stored, and the threshold at the base. Settings outside their ranges are
// refused before anything is written.
pub fn new(next_idx: NextIdx, settings: ShrinkSettings, t: &mut [u64]) -> Result<Counters, Refusal>
    ensures { effect (as_applied no_counters result) t.new ≡ new_call settings next_idx t.old }
{
    if !shrink_rules::in_range(settings) {
        return Err(Refusal::BadSetting);
    }
    t.fill(0);
    Ok(Counters {
        next_idx,
        live_cells: 0,
        stored: 0,
        maintenance: CounterMaintenance {
            alive_removed_since_shrink: 0,
            small_removed_since_shrink: [0; 8],
            min_alive_removed_before_shrink: settings.base,
        },
        settings,
    })
}

// Hands out the next index. It is lent no table and never answers that one is broken.
#[tactic(auto, unfolding(counters::specs::Calls::alloc_call, counters::specs::Calls::allocated, counters::specs::Counts::allocate, counters::specs::Layout::with_next))]
pub fn alloc_idx(c: Counters) -> Result<(Idx, Counters), Refusal>
    ensures { as_allocated c result ≡ alloc_call c }
{
    let idx = c.next_idx.0;
    let after = idx.checked_add(1).ok_or(Refusal::Spent)?;
    Ok((
        Idx(idx),
        Counters {
            next_idx: NextIdx(after),
            ..c
        },
    ))
}
