// The tests of one transition.
#![tactic(auto)]

ghost use Rattle.std.specs.Prelude.{◌≡◌, ◌&&◌, eqb};
ghost use Rattle.rows.specs.Table.{rows_of};
ghost use Rattle.counters.specs.Layout.{count_row};
ghost use Rattle.counters.specs.Batch.{changes, unallocated, false_old};
ghost use Rattle.counters.specs.Held.{InOrder};

use counters::CounterTransition;

// Whether a transition changes a count at an index that isn't allocated.
pub fn is_unallocated(next: u64, x: CounterTransition) -> bool
    ensures { result ≡ (changes x && unallocated next x) }
{
    x.old_raw != x.new_raw && next <= x.idx.0
}

// Whether a transition is kept and names idx.
pub fn is_named(seek: u64, x: CounterTransition) -> bool
    ensures { result ≡ (changes x && eqb seek x.idx.0) }
{
    x.old_raw != x.new_raw && seek == x.idx.0
}

// Whether a transition is kept and its old count isn't the one that the table has.
pub fn is_false_old(t: &[u64], n: usize, x: CounterTransition) -> bool
    requires { InOrder n t.now }
    ensures { result ≡ (changes x && false_old (rows_of count_row n t.now) x) }
{
    if x.old_raw == x.new_raw {
        return false;
    }
    let stored = counter_rows::stored_at(t, n, x.idx.0);
    if stored == 0 {
        1 < x.old_raw
    } else {
        x.old_raw != stored
    }
}
