// The count at an index of the lent table of counts.
#![tactic(auto)]

ghost use Rattle.std.specs.Prelude.{◌≡◌, true};
ghost use Rattle.counters.specs.Layout as layout;
ghost use Rattle.counters.specs.Calls.{get_call};
ghost use Rattle.counters.specs.Returned.{as_got};

use base::Refusal;
use counters::{Counters, Idx, RefCount};

// The count at idx, where the record and the table hold a state: a search and no pass, for callers that own their table.
pub fn get_held(c: Counters, t: &[u64], idx: Idx) -> Result<RefCount, Refusal>
    requires { layout.holds c t.now ≡ true }
    ensures { as_got result ≡ get_call c t.now idx }
{
    if c.next_idx.0 <= idx.0 {
        return Err(Refusal::Unallocated);
    }
    let stored = counter_rows::stored_at(t, c.stored, idx.0);
    Ok(RefCount(stored.max(1)))
}

// The count at idx.
#[tactic(auto, unfolding(counters::specs::Calls::get_call, counters::specs::Calls::on_state))]
pub fn get(c: Counters, t: &[u64], idx: Idx) -> Result<RefCount, Refusal>
    ensures { as_got result ≡ get_call c t.now idx }
{
    if !counter_rows::holds(c, t) {
        return Err(Refusal::Broken);
    }
    get_held(c, t, idx)
}
