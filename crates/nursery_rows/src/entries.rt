// The table of entries: a row put in or taken out at its place, and the places of the cells behind it.
ghost use Rattle.std.specs.Prelude.{◌≡◌, ◌∷◌, ◌++◌, map, ℕ, suc, ◌+◌, ◌*◌, ◌^◌, ◌≤◌, ◌<◌, ltb, length, get_or, take, drop};
ghost use Rattle.base.specs.Logic.{pick};
ghost use Rattle.rows.specs.Table.{rows_of, table_of, Laid};
ghost use Rattle.cell_nursery.specs.Layout.{entry_row};
ghost use Rattle.cell_nursery.specs.Rows.{earlier, later};
ghost use Rattle.cell_nursery.proofs.PlaceLaws.{moved_from};
ghost use Rattle.nursery_rows.specs.Rows.{row_for, Moves};

use rows::Wide;

// Where the cell of row k of n lies, or where the cells end.
pub fn place_of(t: &[u64], k: usize, n: usize, end: usize) -> usize
    requires { n * 8 ≤ length t.now }
    ensures { result ≡ pick (ltb k n) (get_or t.now (k * 8 + 6) 0) end }
{
    if k < n {
        return t[k * 8 + 6] as usize;
    }
    end
}

// The cells of the rows from `from` to n come to lie where `moved` says of the place that each has.
fn move_places<F: Fn(u64) -> u64>(t: &mut [u64], from: usize, n: usize, moved: F)
    requires rows { (from ≤ n) × Laid 8 n t.old }
    requires movable { (i : ℕ) → from ≤ i → i < n → F.pre moved (get_or t.old (i * 8 + 6) 0) }
    ensures { (g : ℕ → ℕ) → Moves (F.post moved) g → t.new ≡ table_of entry_row (length t.old) (moved_from g from (rows_of entry_row n t.old)) }
{
    for i in from..n {
        t[i * 8 + 6] = moved(t[i * 8 + 6]);
    }
}

// A row goes in before row k of n, and the cells of those behind it lie its cell's length further on.
pub fn insert_entry(
    t: &mut [u64],
    k: usize,
    n: usize,
    hash: Wide,
    idx: u64,
    born: u64,
    place: u64,
    len: u64,
)
    requires { (k ≤ n) × (n * 8 + 8 ≤ length t.old) × Laid 8 n t.old × ((i : ℕ) → i < n → get_or t.old (i * 8 + 6) 0 + len < 2 ^ 64) }
    ensures { t.new ≡ table_of entry_row (length t.old) (take k (rows_of entry_row n t.old) ++ row_for hash idx born place len ∷ map (later len) (drop k (rows_of entry_row n t.old))) }
{
    move_places(t, k, n, |place| place + len);
    let row = [hash.0, hash.1, hash.2, hash.3, idx, born, place, len];
    row_moves::insert_row(t, k * 8, n * 8, &row);
}

// Row k of n goes, and the cells of those behind it lie its cell's length further back.
pub fn remove_entry(t: &mut [u64], k: usize, n: usize, len: u64)
    requires { (k < n) × Laid 8 n t.old × ((i : ℕ) → suc k ≤ i → i < n → len ≤ get_or t.old (i * 8 + 6) 0) }
    ensures { t.new ≡ table_of entry_row (length t.old) (take k (rows_of entry_row n t.old) ++ map (earlier len) (drop (suc k) (rows_of entry_row n t.old))) }
{
    move_places(t, k + 1, n, |place| place - len);
    row_moves::remove_row(t, k * 8, n * 8, 8);
}
