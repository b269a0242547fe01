// What a batch counts and changes: its tallies, its transitions applied, and maintenance after them.
#![tactic(auto)]

ghost use Rattle.std.specs.Prelude.{◌≡◌, ◌&&◌, ◌*◌, ◌≤◌, length};
ghost use Rattle.base.specs.Logic.{pick, keep};
ghost use Rattle.rows.specs.Table as rows-table;
ghost use Rattle.rows.specs.Table.{rows_of};
ghost use Rattle.counters.specs.Maintenance.{grown_sets, maintained};
ghost use Rattle.counters.specs.Layout.{count_row};
ghost use Rattle.counters.specs.Batch.{changes, kept, counts_after};
ghost use Rattle.counters.specs.Held.{InOrder};
ghost use Rattle.counters.specs.Steps.{transitions};
ghost use Rattle.counter_steps.specs.Steps.{of_kind, stores, leaves_row, pass_of, apply_one};

use counters::{CounterMaintenance, CounterTransition};
use lent_batches::Transitions;

// The kinds of transitions that are counted: cells that come and go, rows that come and go, and bits that are cleared.
#[derive(Clone, Copy)]
pub enum Kind {
    Birth,
    Death,
    Rise,
    Fall,
    Clear(u32),
}

// The passes that a batch is applied in: the kept transitions that leave no row, and then those that leave one.
#[derive(Clone, Copy)]
pub enum Pass {
    Free,
    Store,
}

// Whether a transition is of a kind.
fn is_kind(kind: Kind, x: CounterTransition) -> bool
    ensures { result ≡ of_kind kind x }
{
    match kind {
        Kind::Birth => x.old_raw == 0,
        Kind::Death => x.new_raw == 0,
        Kind::Rise => x.old_raw <= 1 && 2 <= x.new_raw,
        Kind::Fall => 2 <= x.old_raw && x.new_raw <= 1,
        Kind::Clear(k) => counter_sets::in_set(k, x.old_raw) && !counter_sets::in_set(k, x.new_raw),
    }
}

// 1 for a kept transition of a kind, else 0.
pub fn counts(kind: Kind, x: CounterTransition) -> u64
    ensures { result ≡ pick (changes x && of_kind kind x) 1 0 }
{
    if x.old_raw != x.new_raw && is_kind(kind, x) {
        1
    } else {
        0
    }
}

// How many kept transitions are of a kind.
pub fn tally<B: Transitions>(b: B, kind: Kind) -> u64
    ensures { result ≡ length (keep (of_kind kind) (kept (transitions (B.words b)))) }
{
    let mut n: u64 = 0;
    for i in 0..b.count() {
        n += counts(kind, b.at(i));
    }
    n
}

// Whether a transition is kept and of a pass.
pub fn is_due(pass: Pass, x: CounterTransition) -> bool
    ensures { result ≡ (changes x && leaves_row (stores pass) x) }
{
    if x.old_raw == x.new_raw {
        return false;
    }
    match pass {
        Pass::Free => x.new_raw < 2,
        Pass::Store => 2 <= x.new_raw,
    }
}

// Applies one transition to the table if it is of the pass. Returns how many rows there are then.
pub fn apply_one(t: &mut [u64], n: usize, x: CounterTransition, pass: Pass) -> usize
    requires in_order { InOrder n t.old }
    requires t_in_bounds { length (apply_one (stores pass) x (rows_of count_row n t.old)) * 2 ≤ length t.old }
    ensures { (result ≡ length (apply_one (stores pass) x (rows_of count_row n t.old))) × (t.new ≡ rows-table.table_of count_row (length t.old) (apply_one (stores pass) x (rows_of count_row n t.old))) }
{
    if is_due(pass, x) {
        return counter_rows::set_count(t, n, x.idx.0, x.new_raw);
    }
    n
}

// Applies the kept transitions of a pass. Returns how many rows there are then.
pub fn apply_some<B: Transitions>(t: &mut [u64], n: usize, b: B, pass: Pass) -> usize
    requires in_order { InOrder n t.old }
    requires t_in_bounds { length (counts_after (pass_of (stores pass) (transitions (B.words b))) (rows_of count_row n t.old)) * 2 ≤ length t.old }
    ensures { (result ≡ length (counts_after (pass_of (stores pass) (transitions (B.words b))) (rows_of count_row n t.old))) × (t.new ≡ rows-table.table_of count_row (length t.old) (counts_after (pass_of (stores pass) (transitions (B.words b))) (rows_of count_row n t.old))) }
{
    let mut rows = n;
    for i in 0..b.count() {
        rows = apply_one(t, rows, b.at(i), pass);
    }
    rows
}

// The sets' removal counts, grown by the bits that kept transitions clear.
fn grown_sets<B: Transitions>(b: B, removed: [u64; 8]) -> [u64; 8]
    ensures { result ≡ grown_sets (kept (transitions (B.words b))) removed }
{
    let mut small = [0u64; 8];
    for k in 0..8 {
        small[k] = counter_sets::grown(removed[k], tally(b, Kind::Clear(k as u32)));
    }
    small
}

// Maintenance after the kept transitions.
pub fn maintained_by<B: Transitions>(b: B, m: CounterMaintenance) -> CounterMaintenance
    ensures { result ≡ maintained (kept (transitions (B.words b))) m }
{
    CounterMaintenance {
        alive_removed_since_shrink: counter_sets::grown(
            m.alive_removed_since_shrink,
            tally(b, Kind::Fall),
        ),
        small_removed_since_shrink: grown_sets(b, m.small_removed_since_shrink),
        ..m
    }
}
