// Whether each waiting row names an entry, with its born round, and no two name the same one: a look-up for each row.
//
// Which entries are named already is marked, a bit each, for a window of the entries at a time. A row whose hash lies in another
// window is passed over by its hash alone, so that each row is looked up once.
#![tactic(auto)]

ghost use Rattle.std.specs.Prelude.{◌≡◌, false, List, ℕ, ◌+◌, ◌*◌, ◌/◌, ◌%◌, ◌^◌, ◌≤◌, ◌<◌, length, leb, eqb};
ghost use Rattle.rows.specs.Table.{rows_of};
ghost use Rattle.rows.specs.Keys.{keys, first_four, place};
ghost use Rattle.rows.specs.Wide.{key_of};
ghost use Rattle.cell_nursery.specs.Entries as entries;
ghost use Rattle.cell_nursery.specs.Layout.{waiting_row, state_of};
ghost use Rattle.cell_nursery.specs.Held.{EntriesHeld, WaitingHeld};
ghost use Rattle.cell_nursery.specs.Rows.{waiter_at_row};
ghost use Rattle.waiting_checks.specs.Marks.{is_marked, with_mark, within, place_of, names_at, row_passes, row_marks, window_clean};

use cell_nursery::Nursery;
use rows::Wide;

// How many entries have a mark at a time: 64 for each word.
const WINDOW: usize = 65536;

// Whether entry i of the window is marked.
fn marked(marks: &[u64; 1024], i: usize) -> bool
    requires { i < 65536 }
    ensures { result ≡ is_marked marks.now i }
{
    (marks[i / 64] >> (i % 64)) % 2 == 1
}

// A word with one more bit: bit j, which isn't set.
fn with_bit(w: u64, j: usize) -> u64
    requires { (j < 64) × (eqb (w / 2 ^ j % 2) 1 ≡ false) }
    ensures { result ≡ w + 2 ^ j }
{
    w + (1u64 << j)
}

// Marks entry i of the window, which isn't marked.
fn mark(marks: &mut [u64; 1024], i: usize)
    requires { (i < 65536) × (is_marked marks.old i ≡ false) }
    ensures { marks.new ≡ with_mark marks.old i }
{
    marks[i / 64] = with_bit(marks[i / 64], i % 64);
}

// Whether the place of a hash among the entries' is k or behind it: entry k - 1 is below it.
fn reaches(r: Nursery, es: &[u64], k: usize, hash: Wide) -> bool
    requires { EntriesHeld r es.now }
    ensures { result ≡ leb k (place (key_of hash) (keys first_four 8 r.entries es.now)) }
{
    k == 0 || (k <= r.entries && row_search::wide_at(es, (k - 1) * 8) < hash)
}

// Whether it lies in the window from entry lo on.
fn in_window(r: Nursery, es: &[u64], lo: usize, hash: Wide) -> bool
    requires { EntriesHeld r es.now × (lo ≤ r.entries) }
    ensures { result ≡ within lo (place (key_of hash) (keys first_four 8 r.entries es.now)) }
{
    reaches(r, es, lo, hash) && !reaches(r, es, lo + WINDOW, hash)
}

// Whether entry k, at the place of waiting row j's hash, has that hash and the row's born round.
fn names(r: Nursery, es: &[u64], ws: &[u64], j: usize, k: usize) -> bool
    requires { EntriesHeld r es.now × (j * 5 + 5 ≤ length ws.now) × (k ≡ place_of r es.now (waiter_at_row ws.now j)) }
    ensures { result ≡ names_at r es.now (waiter_at_row ws.now j) }
{
    if r.entries <= k {
        return false;
    }
    row_search::wide_at(es, k * 8) == row_search::wide_at(ws, j * 5 + 1)
        && es[k * 8 + 5] == ws[j * 5]
}

// Whether waiting row j lies in another window, or names an entry of this one that isn't marked. Then that entry is.
fn mark_row(
    r: Nursery,
    es: &[u64],
    ws: &[u64],
    j: usize,
    lo: usize,
    marks: &mut [u64; 1024],
) -> bool
    requires { EntriesHeld r es.now × (j * 5 + 5 ≤ length ws.now) × (lo ≤ r.entries) }
    ensures { (result ≡ row_passes r es.now lo marks.old (waiter_at_row ws.now j))
        × (marks.new ≡ row_marks r es.now lo marks.old (waiter_at_row ws.now j)) }
{
    let hash = row_search::wide_at(ws, j * 5 + 1);
    if !in_window(r, es, lo, hash) {
        return true;
    }
    let k = row_search::find(es, 8, r.entries, hash);
    if !names(r, es, ws, j, k) {
        return false;
    }
    if marked(marks, k - lo) {
        return false;
    }
    mark(marks, k - lo);
    true
}

// Whether the waiting rows in the window from entry lo on name entries, and no two the same one.
fn window_tied(r: Nursery, es: &[u64], ws: &[u64], lo: usize) -> bool
    requires { EntriesHeld r es.now × WaitingHeld r ws.now × (lo ≤ r.entries) }
    ensures { result ≡ window_clean r es.now lo (rows_of waiting_row r.waiting ws.now) }
{
    let mut marks = [0u64; 1024];
    for j in 0..r.waiting {
        if !mark_row(r, es, ws, j, lo, &mut marks) {
            return false;
        }
    }
    true
}

// Whether each waiting row names an entry, with its born round, and no two name the same one: window after window. The cells aren't read.
pub fn tied(r: Nursery, es: &[u64], ws: &[u64]) -> bool
    requires { EntriesHeld r es.now × WaitingHeld r ws.now }
    ensures { (cs : List ℕ) → result ≡ entries.tied (state_of r es.now ws.now cs) }
{
    for lo in (0..=r.entries).step_by(WINDOW) {
        if !window_tied(r, es, ws, lo) {
            return false;
        }
    }
    true
}
