// A batch that passed every test, applied: first the rows that go, then those that come, each in a few passes over the table.
#![tactic(auto)]

ghost use Rattle.std.specs.Prelude.{◌≡◌, true, false, ◌*◌, ◌≤◌, length};
ghost use Rattle.base.specs.Logic.{all};
ghost use Rattle.rows.specs.Table as rows-table;
ghost use Rattle.rows.specs.Table.{rows_of};
ghost use Rattle.counters.specs.Layout as layout;
ghost use Rattle.counters.specs.Layout.{count_row, record_of, state_of};
ghost use Rattle.counters.specs.Batch.{kept, counts_after, state_after};
ghost use Rattle.counters.specs.Held.{InOrder, Judged};
ghost use Rattle.counters.specs.Steps.{transitions};
ghost use Rattle.counter_steps.specs.Steps.{pass_of};
ghost use Rattle.counter_merge.specs.Passes.{stands};

use counter_steps::{Kind, Pass};
use counters::Counters;
use lent_batches::Transitions;

// Applies the kept transitions that leave no row. Returns how many rows there are then.
fn drop_rows<B: Transitions>(t: &mut [u64], n: usize, b: B) -> usize
    requires in_order { InOrder n t.old }
    requires t_value { all stands (rows_of count_row n t.old) ≡ true }
    ensures { (result ≡ length (counts_after (pass_of false (transitions (B.words b))) (rows_of count_row n t.old))) × (t.new ≡ rows-table.table_of count_row (length t.old) (counts_after (pass_of false (transitions (B.words b))) (rows_of count_row n t.old))) }
{
    if counter_merge::mark(t, n, b) {
        return counter_merge::compact(t, n);
    }
    n
}

// Applies the kept transitions that leave a row. A table without room to lay the rows aside takes them one by one. Returns how many rows
// there are then.
fn put_rows<B: Transitions>(t: &mut [u64], n: usize, b: B) -> usize
    requires in_order { InOrder n t.old }
    requires t_in_bounds { length (counts_after (pass_of true (transitions (B.words b))) (rows_of count_row n t.old)) * 2 ≤ length t.old }
    ensures { (result ≡ length (counts_after (pass_of true (transitions (B.words b))) (rows_of count_row n t.old))) × (t.new ≡ rows-table.table_of count_row (length t.old) (counts_after (pass_of true (transitions (B.words b))) (rows_of count_row n t.old))) }
{
    let k = counter_merge::new_rows(t, n, b);
    let free = t.len() / 2 - n;
    if free / 2 < k {
        return counter_steps::apply_some(t, n, b, Pass::Store);
    }
    let at = (n + free - k) * 2;
    let s = counter_merge::put_all(t, n, at, b);
    counter_merge::merge(t, n, at, s)
}

// Applies the kept transitions of a batch that is judged good. Those that leave no row go first, so that no row lacks room.
pub fn apply_kept<B: Transitions>(c: Counters, t: &mut [u64], b: B) -> Counters
    requires { Judged c t.old (B.words b) }
    ensures { (result ≡ record_of c.settings (state_after (kept (transitions (B.words b))) (state_of c t.old))) × (t.new ≡ layout.table_of (length t.old) (state_after (kept (transitions (B.words b))) (state_of c t.old))) }
{
    let live = c.live_cells + counter_steps::tally(b, Kind::Birth)
        - counter_steps::tally(b, Kind::Death);
    let maintenance = counter_steps::maintained_by(b, c.maintenance);
    let freed = drop_rows(t, c.stored, b);
    let stored = put_rows(t, freed, b);
    Counters {
        live_cells: live,
        stored,
        maintenance,
        ..c
    }
}
