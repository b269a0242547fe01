// Both tiers as one, an index at a time: whether an index is in both or isn't below the next one, and how many counts there are.
ghost use Rattle.std.specs.Prelude.{◌≡◌};
ghost use Rattle.snapshot_tiers.specs.Heads.{first_of, meet};
ghost use Rattle.snapshot_judge.specs.Judge.{Readable, big_of, small_of, judged_from};

use snapshot_lanes::lanes::{advance, open_all, small_head};
use snapshot_tiers::Head;
use snapshot_tiers::large::{large_after, large_head, sorted};

// The lower of a small and a large count, the large one where they are at one index.
pub fn first(a: Option<Head>, b: Option<Head>) -> Option<Head>
    ensures { result ≡ first_of a b }
{
    match (a, b) {
        (Some(x), Some(y)) if x.idx < y.idx => a,
        (_, None) => a,
        _ => b,
    }
}

// Whether they are at one index.
fn meets(a: Option<Head>, b: Option<Head>) -> bool
    ensures { result ≡ meet a b }
{
    match (a, b) {
        (Some(x), Some(y)) => x.idx == y.idx,
        _ => false,
    }
}

// Both tiers, gone through by index: a pass over the sets, and a search for each large count. None where an index is in both
// tiers or isn't below the next one; else how many counts there are. Large counts that don't come by ascending index are taken
// too, and there each of them costs a pass over them.
pub fn judge(s: &[u8], at: usize, end: usize, n: usize, next: u64) -> Option<usize>
    requires { Readable s.now at end n }
    ensures { result ≡ judged_from 0 next (big_of s.now end n) (small_of s.now at) }
{
    let ascending = sorted(s, end, n);
    let mut lanes = open_all(s, at);
    let mut b = large_head(s, end, n, ascending, 0);
    let mut lo: u64 = 0;
    let mut rows: usize = 0;
    loop {
        let a = small_head(lanes);
        let Some(f) = first(a, b) else {
            return Some(rows);
        };
        if meets(a, b) || next <= f.idx {
            return None;
        }
        let moved = advance(s, lanes, f.idx);
        lanes = moved;
        rows += 1;
        lo = f.idx + 1;
        b = large_after(s, end, n, ascending, b, lo);
    }
}
