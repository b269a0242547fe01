// A row put into a table, or taken out: the rows behind it move.
#![tactic(auto)]

ghost use Rattle.std.specs.Prelude.{◌≡◌, ◌++◌, ◌+◌, ◌-◌, ◌≤◌, length, take, drop};
ghost use Rattle.base.specs.Logic.{zeros};

// The row goes in at index `at`: the words from there to `end` move up, over as many words behind `end`.
pub fn insert_row(t: &mut [u64], at: usize, end: usize, row: &[u64])
    requires { (at ≤ end) × (end + length row.now ≤ length t.old) }
    ensures { t.new ≡ take at t.old ++ (row.now ++ (take (end - at) (drop at t.old) ++ drop (end + length row.now) t.old)) }
{
    slices::move_within(t, at, at + row.len(), end - at);
    slices::copy_at(t, at, row);
}

// The w words at index `at` go: the words behind them to `end` move down, and zeros take the places that this frees.
pub fn remove_row(t: &mut [u64], at: usize, end: usize, w: usize)
    requires { (at + w ≤ end) × (end ≤ length t.old) }
    ensures { t.new ≡ take at t.old ++ (take (end - (at + w)) (drop (at + w) t.old) ++ (zeros w ++ drop end t.old)) }
{
    slices::move_within(t, at + w, at, end - (at + w));
    slices::fill(t, end - w, w, 0);
}
