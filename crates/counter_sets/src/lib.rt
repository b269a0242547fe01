// The eight sets that counts to 256 lie in: which of them a count is in, how many counts are in one, and a removal count grown.
#![tactic(auto)]

ghost use Rattle.std.specs.Prelude.{◌≡◌, ◌*◌, ◌≤◌, length};
ghost use Rattle.rows.specs.Table.{rows_of};
ghost use Rattle.counters.specs.Counts as counts;
ghost use Rattle.counters.specs.Counts.{in_set};
ghost use Rattle.counters.specs.Layout.{count_row};
ghost use Rattle.counters.specs.Maintenance as maintenance;

// Whether set k has an index with the count n, as the rows of a bitmap's writer say it.
pub fn in_set(k: u32, n: u64) -> bool
    ensures { result ≡ in_set k n }
{
    roaring_rows::in_set(k, n)
}

// A removal count grown by n; it stops at the largest number.
#[tactic(auto, unfolding(counters::specs::Maintenance::grown))]
pub fn grown(removed: u64, n: u64) -> u64
    ensures { result ≡ maintenance.grown removed n }
{
    removed.saturating_add(n)
}

// How many of the first n counts are in set k: a pass over the table.
pub fn members(t: &[u64], n: usize, k: u32) -> u64
    requires { n * 2 ≤ length t.now }
    ensures { result ≡ length (counts.members k (rows_of count_row n t.now)) }
{
    let mut found = 0;
    for i in 0..n {
        if in_set(k, t[i * 2 + 1]) {
            found += 1;
        }
    }
    found
}
