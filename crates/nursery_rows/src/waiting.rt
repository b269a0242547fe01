// The waiting table: a row put behind those of its round, and the rows of a hash taken out.
ghost use Rattle.std.specs.Prelude.{◌≡◌, true, suc, ◌+◌, ◌*◌, ◌-◌, ◌≤◌, length, drop};
ghost use Rattle.std.proofs.Math.Seq.{paste};
ghost use Rattle.base.specs.Logic.{pick, keep, sorted_from};
ghost use Rattle.rows.specs.Table.{rows_of, table_of, Laid};
ghost use Rattle.rows.specs.Keys.{keys, first_word, place};
ghost use Rattle.rows.specs.Wide.{key_of};
ghost use Rattle.cell_nursery.specs.Layout.{waiting_row};
ghost use Rattle.cell_nursery.specs.Held.{Keeping};
ghost use Rattle.nursery_rows.specs.Rows.{waiter_for, other, inserted_at};

use rows::Wide;

// A row goes in behind the rows of its round and of earlier ones.
pub fn insert_waiting(t: &mut [u64], n: usize, born: u64, hash: Wide)
    requires { (born + 1 ≤ 4294967296) × (n * 5 + 5 ≤ length t.old) × (sorted_from 0 (keys first_word 5 n t.old) ≡ true) }
    ensures { t.new ≡ inserted_at (place (suc born) (keys first_word 5 n t.old)) n (waiter_for born hash) t.old }
{
    let k = row_search::find(t, 5, n, born + 1);
    let row = [born, hash.0, hash.1, hash.2, hash.3];
    row_moves::insert_row(t, k * 5, n * 5, &row);
}

// Row i goes to row j, which is no later, if its hash is another. Returns the row behind.
fn keep_row(t: &mut [u64], i: usize, j: usize, hash: Wide) -> usize
    requires { (j ≤ i) × (i * 5 + 5 ≤ length t.old) }
    ensures { (result ≡ pick (other (key_of hash) (waiting_row.dec (drop (i * 5) t.old))) (j + 1) j) × (t.new ≡ pick (other (key_of hash) (waiting_row.dec (drop (i * 5) t.old))) (paste t.old (j * 5) (drop (i * 5) t.old) 5) t.old) }
{
    if row_search::wide_at(t, i * 5 + 1) == hash {
        return j;
    }
    slices::move_within(t, i * 5, j * 5, 5);
    j + 1
}

// The rows of other hashes move together to the front, in their order. Returns how many they are.
fn keep_others(t: &mut [u64], n: usize, hash: Wide) -> usize
    requires { n * 5 ≤ length t.old }
    ensures { Keeping (other (key_of hash)) n t.old t.new n result }
{
    let mut j = 0;
    for i in 0..n {
        j = keep_row(t, i, j, hash);
    }
    j
}

// The rows of a hash go. Returns how many rows are left.
pub fn remove_waiting(t: &mut [u64], n: usize, hash: Wide) -> usize
    requires { Laid 5 n t.old }
    ensures { (result ≡ length (keep (other (key_of hash)) (rows_of waiting_row n t.old))) × (t.new ≡ table_of waiting_row (length t.old) (keep (other (key_of hash)) (rows_of waiting_row n t.old))) }
{
    let kept = keep_others(t, n, hash);
    slices::fill(t, kept * 5, n * 5 - kept * 5, 0);
    kept
}
