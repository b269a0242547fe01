// The lent table of counts, row by row: whether it holds a state, the count stored at an index, and a count set there.
#![tactic(auto)]

ghost use Rattle.std.specs.Prelude.{◌≡◌, ◌*◌, ◌≤◌, length};
ghost use Rattle.base.specs.Logic.{all};
ghost use Rattle.rows.specs.Table as rows-table;
ghost use Rattle.rows.specs.Table.{rows_of};
ghost use Rattle.counters.specs.Counts.{stored_at, set_count};
ghost use Rattle.counters.specs.Layout.{count_row, sound};
ghost use Rattle.counters.specs.Layout as layout;
ghost use Rattle.counters.specs.Held.{InOrder};

use counters::Counters;

// Whether each of the first n rows has an index below next and a count of at least 2.
fn all_sound(t: &[u64], n: usize, next: u64) -> bool
    requires { n * 2 ≤ length t.now }
    ensures { result ≡ all (sound next) (rows_of count_row n t.now) }
{
    t[..n * 2]
        .chunks_exact(2)
        .all(|row| row[0] < next && 2 <= row[1])
}

// Whether the record and the table are those of a state: settings in their ranges, no more rows than cells, and a pass over the table.
pub fn holds(c: Counters, t: &[u64]) -> bool
    ensures { result ≡ layout.holds c t.now }
{
    let n = c.stored;
    shrink_rules::in_range(c.settings)
        && n as u64 <= c.live_cells
        && row_checks::holds_rows(t, 2, n)
        && row_checks::ascend::<u64>(t, 2, n)
        && all_sound(t, n, c.next_idx.0)
}

// How many rows a search by halves leaves to be looked at one by one.
const SCAN: usize = 8;

// The count stored at idx, and 0 where none is. The rows before the start are all below idx; from there on row after row is looked at, and the
// first whose index isn't below idx ends the look-up.
pub fn stored_at(t: &[u64], n: usize, idx: u64) -> u64
    requires { InOrder n t.now }
    ensures { result ≡ stored_at idx (rows_of count_row n t.now) }
{
    let start = row_search::narrow(t, 2, n, idx, SCAN);
    for k in start..n {
        let here = t[k * 2];
        if idx <= here {
            return if here == idx { t[k * 2 + 1] } else { 0 };
        }
    }
    0
}

// Sets the count at idx: a row for a count of at least 2, none for a lower one. Returns how many rows there are then.
pub fn set_count(t: &mut [u64], n: usize, idx: u64, new: u64) -> usize
    requires in_order { InOrder n t.old }
    requires t_in_bounds { length (set_count idx new (rows_of count_row n t.old)) * 2 ≤ length t.old }
    ensures { (result ≡ length (set_count idx new (rows_of count_row n t.old))) × (t.new ≡ rows-table.table_of count_row (length t.old) (set_count idx new (rows_of count_row n t.old))) }
{
    let k = row_search::find(t, 2, n, idx);
    let at = k * 2;
    let end = n * 2;
    if k < n && t[at] == idx {
        if 2 <= new {
            t[at + 1] = new;
            return n;
        }
        row_moves::remove_row(t, at, end, 2);
        return n - 1;
    }
    if 2 <= new {
        row_moves::insert_row(t, at, end, &[idx, new]);
        return n + 1;
    }
    n
}
