// The passes that a batch is applied in, whatever number of rows it takes away or brings: rows that go are marked and then left out in one
// pass, rows that come are laid aside at the table's end and then joined to the others in one pass.
#![tactic(auto)]

ghost use Rattle.std.specs.Prelude.{◌≡◌, [], ◌∷◌, ◌++◌, ◌+◌, ◌-◌, ◌*◌, ◌≤◌, ◌<◌, length, take, drop, get_or};
ghost use Rattle.base.specs.Logic.{pick, elem, flat};
ghost use Rattle.rows.specs.Table as rows-table;
ghost use Rattle.rows.specs.Table.{rows_of, Laid};
ghost use Rattle.rows.specs.Keys.{keys, first_word};
ghost use Rattle.counters.specs.Layout.{count_row};
ghost use Rattle.counters.specs.Held.{InOrder};
ghost use Rattle.counters.specs.Steps.{row_at, transitions};
ghost use Rattle.counter_merge.specs.Passes.{standing, replaced, hits, any_hit, mark_one, marked, is_new, new_rows, front_one, fronts, back_one, backs, joined, front_last, last_at};
ghost use Rattle.counter_merge.specs.Halves.{Halves, Apart};

use counter_steps::Pass;
use counters::CounterTransition;
use lent_batches::Transitions;

// Gives the row of idx the count new, if there is such a row. Returns whether there is.
fn replace(t: &mut [u64], n: usize, idx: u64, new: u64) -> bool
    requires { InOrder n t.old }
    ensures { (result ≡ elem idx (keys first_word 2 n t.old)) × (t.new ≡ rows-table.table_of count_row (length t.old) (replaced idx new (rows_of count_row n t.old))) }
{
    let k = row_search::find(t, 2, n, idx);
    if k < n && t[k * 2] == idx {
        t[k * 2 + 1] = new;
        return true;
    }
    false
}

// Marks the row of a transition that is kept and leaves none: its count is the new one, 0 or 1. Returns whether there was a row.
fn mark_one(t: &mut [u64], n: usize, x: CounterTransition) -> bool
    requires { InOrder n t.old }
    ensures { (result ≡ hits (keys first_word 2 n t.old) x) × (t.new ≡ rows-table.table_of count_row (length t.old) (mark_one x (rows_of count_row n t.old))) }
{
    if counter_steps::is_due(Pass::Free, x) {
        return replace(t, n, x.idx.0, x.new_raw);
    }
    false
}

// Marks the rows of all of them. Returns whether there was one.
pub fn mark<B: Transitions>(t: &mut [u64], n: usize, b: B) -> bool
    requires { InOrder n t.old }
    ensures { (result ≡ any_hit (keys first_word 2 n t.old) (transitions (B.words b))) × (t.new ≡ rows-table.table_of count_row (length t.old) (marked (transitions (B.words b)) (rows_of count_row n t.old))) }
{
    let mut hit = false;
    for i in 0..b.count() {
        hit |= mark_one(t, n, b.at(i));
    }
    hit
}

// Copies a row, the two words at `from`, to the two words at `to`.
fn copy_row(t: &mut [u64], from: usize, to: usize)
    requires { (from + 2 ≤ length t.old) × (to + 2 ≤ length t.old) }
    ensures { t.new ≡ take to t.old ++ (get_or t.old from 0 ∷ get_or t.old (from + 1) 0 ∷ drop (to + 2) t.old) }
{
    let idx = t[from];
    let count = t[from + 1];
    t[to] = idx;
    t[to + 1] = count;
}

// Copies row i down to row `to` if it stands. Returns the row behind what is then kept.
fn keep_row(t: &mut [u64], i: usize, to: usize) -> usize
    requires { (to ≤ i) × (i * 2 + 2 ≤ length t.old) }
    ensures { (result ≡ to + length (standing (row_at t.old i ∷ []))) × (t.new ≡ take (to * 2) t.old ++ (flat count_row.enc (standing (row_at t.old i ∷ [])) ++ drop ((to + length (standing (row_at t.old i ∷ []))) * 2) t.old)) }
{
    if 2 <= t[i * 2 + 1] {
        copy_row(t, i * 2, to * 2);
        return to + 1;
    }
    to
}

// Leaves out the rows that don't stand. Returns how many stand.
pub fn compact(t: &mut [u64], n: usize) -> usize
    requires { Laid 2 n t.old }
    ensures { (result ≡ length (standing (rows_of count_row n t.old))) × (t.new ≡ rows-table.table_of count_row (length t.old) (standing (rows_of count_row n t.old))) }
{
    let mut to = 0;
    for i in 0..n {
        to = keep_row(t, i, to);
    }
    slices::fill(t, to * 2, (n - to) * 2, 0);
    to
}

// Whether there is a row of idx.
fn has_row(t: &[u64], n: usize, idx: u64) -> bool
    requires { InOrder n t.now }
    ensures { result ≡ elem idx (keys first_word 2 n t.now) }
{
    let k = row_search::find(t, 2, n, idx);
    k < n && t[k * 2] == idx
}

// 1 for a transition that is kept and leaves a row where there is none, else 0.
fn is_new(t: &[u64], n: usize, x: CounterTransition) -> usize
    requires { InOrder n t.now }
    ensures { result ≡ pick (is_new (keys first_word 2 n t.now) x) 1 0 }
{
    if counter_steps::is_due(Pass::Store, x) && !has_row(t, n, x.idx.0) {
        1
    } else {
        0
    }
}

// How many of them there are.
pub fn new_rows<B: Transitions>(t: &[u64], n: usize, b: B) -> usize
    requires { InOrder n t.now }
    ensures { result ≡ new_rows (keys first_word 2 n t.now) (transitions (B.words b)) }
{
    let mut k = 0;
    for i in 0..b.count() {
        k += is_new(t, n, b.at(i));
    }
    k
}

// Applies one transition, if it is kept and leaves a row: its row gets the new count in place, or a row is laid aside from the word `at` on.
// Returns how many rows are laid aside then.
fn put_one(t: &mut [u64], n: usize, at: usize, s: usize, x: CounterTransition) -> usize
    requires halves { Halves n at s t.old }
    requires t_in_bounds { at + length (back_one (keys first_word 2 n (take at t.old)) x (rows_of count_row s (drop at t.old))) * 2 ≤ length t.old }
    ensures { (result ≡ length (back_one (keys first_word 2 n (take at t.old)) x (rows_of count_row s (drop at t.old)))) × (t.new ≡ rows-table.table_of count_row at (front_one x (rows_of count_row n (take at t.old))) ++ rows-table.table_of count_row (length t.old - at) (back_one (keys first_word 2 n (take at t.old)) x (rows_of count_row s (drop at t.old)))) }
{
    if counter_steps::is_due(Pass::Store, x) {
        if replace(&mut t[..at], n, x.idx.0, x.new_raw) {
            return s;
        }
        return counter_rows::set_count(&mut t[at..], s, x.idx.0, x.new_raw);
    }
    s
}

// Applies all of them. Returns how many rows are laid aside.
pub fn put_all<B: Transitions>(t: &mut [u64], n: usize, at: usize, b: B) -> usize
    requires halves { Halves n at 0 t.old }
    requires b_in_bounds { at + new_rows (keys first_word 2 n (take at t.old)) (transitions (B.words b)) * 2 ≤ length t.old }
    ensures { (result ≡ length (backs (keys first_word 2 n (take at t.old)) (transitions (B.words b)) [])) × (t.new ≡ rows-table.table_of count_row at (fronts (transitions (B.words b)) (rows_of count_row n (take at t.old))) ++ rows-table.table_of count_row (length t.old - at) (backs (keys first_word 2 n (take at t.old)) (transitions (B.words b)) [])) }
{
    let mut s = 0;
    for i in 0..b.count() {
        s = put_one(t, n, at, s, b.at(i));
    }
    s
}

// Of i rows at the front and left - i rows from the word `at` on, copies the one with the highest index to row left - 1. Returns how many
// rows are at the front without it.
fn merge_one(t: &mut [u64], i: usize, left: usize, at: usize) -> usize
    requires { (i < left) × (left * 2 ≤ at) × (at + (left - i) * 2 ≤ length t.old) }
    ensures { (result ≡ pick (front_last i left at t.old) (i - 1) i) × (t.new ≡ take ((left - 1) * 2) t.old ++ (get_or t.old (last_at i left at t.old) 0 ∷ get_or t.old (last_at i left at t.old + 1) 0 ∷ drop (left * 2) t.old)) }
{
    let from = at + (left - i - 1) * 2;
    let to = (left - 1) * 2;
    if 0 < i && t[from] < t[(i - 1) * 2] {
        copy_row(t, (i - 1) * 2, to);
        return i - 1;
    }
    copy_row(t, from, to);
    i
}

// Joins the s rows from the word `at` on to the n rows at the front, from the last row down, and clears their words. Returns how many rows
// there are then.
pub fn merge(t: &mut [u64], n: usize, at: usize, s: usize) -> usize
    requires { Apart n at s t.old }
    ensures { (result ≡ length (joined (rows_of count_row s (drop at t.old)) (rows_of count_row n (take at t.old)))) × (t.new ≡ rows-table.table_of count_row (length t.old) (joined (rows_of count_row s (drop at t.old)) (rows_of count_row n (take at t.old)))) }
{
    let mut i = n;
    let mut left = n + s;
    while i < left {
        i = merge_one(t, i, left, at);
        left -= 1;
    }
    slices::fill(t, at, s * 2, 0);
    n + s
}
