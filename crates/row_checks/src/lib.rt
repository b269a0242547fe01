// Whether a lent table has the form of rows: its keys ascend, and zeros alone stand behind them.
#![tactic(auto)]

ghost use Rattle.std.specs.Prelude.{◌≡◌, ◌*◌, ◌≤◌, ◌<◌, length};
ghost use Rattle.base.specs.Logic.{ascending_from};
ghost use Rattle.rows.specs.Table.{holds_rows};
ghost use Rattle.rows.specs.Keys.{keys};

use row_search::RowKey;

// Whether the keys of the first n rows ascend.
pub fn ascend<K: RowKey>(t: &[u64], w: usize, n: usize) -> bool
    requires { (K.words ≤ w) × (n * w ≤ length t.now) }
    ensures { result ≡ ascending_from 0 (keys K.spelt w n t.now) }
{
    for i in 1..n {
        if !K::read(t, (i - 1) * w).is_below(K::read(t, i * w)) {
            return false;
        }
    }
    true
}

// Whether the table has room for n rows, and nothing but zeros stands behind them. n may be any number.
pub fn holds_rows(t: &[u64], w: usize, n: usize) -> bool
    requires { 0 < w }
    ensures { result ≡ holds_rows w n t.now }
{
    if t.len() / w < n {
        return false;
    }
    slices::all_from(t, n * w, 0)
}
