// The tests of a batch, each over the whole batch.
#![tactic(auto)]

ghost use Rattle.std.specs.Prelude.{◌≡◌, ◌&&◌, ◌||◌, ◌+◌, ◌-◌, ◌/◌, ◌^◌, ◌≤◌, ◌<◌, ltb, length, drop};
ghost use Rattle.base.specs.Logic.{any, elem, repeated, max64};
ghost use Rattle.rows.specs.Table.{rows_of};
ghost use Rattle.counters.specs.Layout.{count_row};
ghost use Rattle.counters.specs.Batch.{changes, kept, named, unallocated, false_old};
ghost use Rattle.counters.specs.Held.{InOrder};
ghost use Rattle.counters.specs.Steps.{transition_at, transitions};

use lent_batches::Transitions;

// 2: a kept transition names an index at or above next.
pub fn any_unallocated<B: Transitions>(b: B, next: u64) -> bool
    ensures { result ≡ any (unallocated next) (kept (transitions (B.words b))) }
{
    for i in 0..b.count() {
        if transition_checks::is_unallocated(next, b.at(i)) {
            return true;
        }
    }
    false
}

// Whether a kept transition from number `from` on names idx.
fn named_from<B: Transitions>(b: B, from: usize, idx: u64) -> bool
    requires { from ≤ length (B.words b) / 3 }
    ensures { result ≡ elem idx (named (kept (drop from (transitions (B.words b))))) }
{
    for i in from..b.count() {
        if transition_checks::is_named(idx, b.at(i)) {
            return true;
        }
    }
    false
}

// Whether transition i is kept, and a later kept one names its index too.
fn named_again<B: Transitions>(b: B, i: usize) -> bool
    requires { (i < length (B.words b) / 3) × (length (B.words b) / 3 < 2 ^ 64) }
    ensures { result ≡ (changes (transition_at (B.words b) i) && elem (transition_at (B.words b) i).idx.0 (named (kept (drop (i + 1) (transitions (B.words b)))))) }
{
    let x = b.at(i);
    x.old_raw != x.new_raw && named_from(b, i + 1, x.idx.0)
}

// 3: two kept transitions name one index.
pub fn any_repeated<B: Transitions>(b: B) -> bool
    ensures { result ≡ repeated (named (kept (transitions (B.words b)))) }
{
    for i in 0..b.count() {
        if named_again(b, i) {
            return true;
        }
    }
    false
}

// 5: the old count of a kept transition isn't the stored one.
pub fn any_false_old<B: Transitions>(t: &[u64], n: usize, b: B) -> bool
    requires { InOrder n t.now }
    ensures { result ≡ any (false_old (rows_of count_row n t.now)) (kept (transitions (B.words b))) }
{
    for i in 0..b.count() {
        if transition_checks::is_false_old(t, n, b.at(i)) {
            return true;
        }
    }
    false
}

// 4: births carry the live total past 2^64 - 1, or deaths outnumber what is then there.
pub fn off_total(live: u64, births: u64, deaths: u64) -> bool
    ensures { result ≡ (ltb max64 (live + births) || ltb (live + births) deaths) }
{
    match live.checked_add(births) {
        Some(total) => total < deaths,
        None => true,
    }
}

// 25: n rows, with those that come and without those that go, are more than the cells that births and deaths leave.
pub fn few_cells(live: u64, births: u64, deaths: u64, n: usize, rises: u64, falls: u64) -> bool
    requires { (live + births < 2 ^ 64) × (deaths ≤ live + births) × (n + rises < 2 ^ 64) }
    ensures { result ≡ ltb (live + births - deaths) (n + rises - falls) }
{
    live + births - deaths < (n as u64 + rises).saturating_sub(falls)
}
