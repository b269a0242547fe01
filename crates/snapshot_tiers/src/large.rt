// The large counts of a snapshot: 16 bytes each, an index and a count. They may come in any order, and an index may come again:
// then its last count stands.
ghost use Rattle.std.specs.Prelude.{◌≡◌, true, ◌+◌, ◌*◌, ◌≤◌, length, drop};
ghost use Rattle.base.specs.Logic.{any, fold, ascending_from};
ghost use Rattle.rows.specs.Keys.{place};
ghost use Rattle.snapshot_tiers.specs.Heads.{HeadTo, idxs_of, low, entry, no_head, raw_of, lower_from};

use crate::Head;
use byte_numbers::read_le64;

// Whether one of n counts belongs to the small tier.
pub fn any_low(s: &[u8], at: usize, n: usize) -> bool
    requires { at + 16 * n ≤ length s.now }
    ensures { result ≡ any low (raw_of n (drop at s.now)) }
{
    for i in 0..n {
        if read_le64(s, at + 16 * i + 8) < 257 {
            return true;
        }
    }
    false
}

// The lower of a count from lo on and of what was found, and the later of two at one index.
fn lower_from(h: Option<Head>, lo: u64, idx: u64, count: u64) -> Option<Head>
    ensures { result ≡ lower_from lo (entry idx count) h }
{
    if idx < lo {
        return h;
    }
    if let Some(b) = h {
        if b.idx < idx {
            return h;
        }
    }
    Some(Head { idx, count })
}

// The first of n counts from lo on, by index: a pass over all.
fn scan(s: &[u8], at: usize, n: usize, lo: u64) -> Option<Head>
    requires { at + 16 * n ≤ length s.now }
    ensures { result ≡ fold (lower_from lo) (raw_of n (drop at s.now)) no_head }
{
    let mut h = None;
    for i in 0..n {
        let p = at + 16 * i;
        h = lower_from(h, lo, read_le64(s, p), read_le64(s, p + 8));
    }
    h
}

// Whether n counts come by ascending index, as a written snapshot has them.
pub fn sorted(s: &[u8], at: usize, n: usize) -> bool
    requires { at + 16 * n ≤ length s.now }
    ensures { result ≡ ascending_from 0 (idxs_of n (drop at s.now)) }
{
    for i in 1..n {
        if read_le64(s, at + 16 * i) <= read_le64(s, at + 16 * (i - 1)) {
            return false;
        }
    }
    true
}

// How many of n counts by ascending index are below lo: by halves.
fn count_below(s: &[u8], at: usize, n: usize, lo: u64) -> usize
    requires { (at + 16 * n ≤ length s.now) × (ascending_from 0 (idxs_of n (drop at s.now)) ≡ true) }
    ensures { result ≡ place lo (idxs_of n (drop at s.now)) }
{
    let mut a = 0;
    let mut z = n;
    while a < z {
        let mid = a + (z - a) / 2;
        if read_le64(s, at + 16 * mid) < lo {
            a = mid + 1;
        } else {
            z = mid;
        }
    }
    a
}

// The first of n counts from lo on, by index: by halves where they come by ascending index, and else a pass over all.
pub fn large_head(s: &[u8], at: usize, n: usize, ascending: bool, lo: u64) -> Option<Head>
    requires { (at + 16 * n ≤ length s.now) × (ascending ≡ ascending_from 0 (idxs_of n (drop at s.now))) }
    ensures { result ≡ fold (lower_from lo) (raw_of n (drop at s.now)) no_head }
{
    if !ascending {
        return scan(s, at, n, lo);
    }
    let k = count_below(s, at, n, lo);
    if n <= k {
        return None;
    }
    let p = at + 16 * k;
    Some(Head {
        idx: read_le64(s, p),
        count: read_le64(s, p + 8),
    })
}

// The first large count from lo on, where b is the one from a lower place on: searched anew only where it is passed.
pub fn large_after(
    s: &[u8],
    at: usize,
    n: usize,
    ascending: bool,
    b: Option<Head>,
    lo: u64,
) -> Option<Head>
    requires n_in_bounds { (at + 16 * n ≤ length s.now) × (ascending ≡ ascending_from 0 (idxs_of n (drop at s.now))) }
    requires head_to { HeadTo lo (raw_of n (drop at s.now)) b }
    ensures { result ≡ fold (lower_from lo) (raw_of n (drop at s.now)) no_head }
{
    match b {
        Some(h) if h.idx < lo => large_head(s, at, n, ascending, lo),
        _ => b,
    }
}
