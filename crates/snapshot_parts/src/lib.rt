// The parts of a snapshot: the eight sets and the large tier, their lengths and their bytes.
//
// A length takes a look at each row for each set, and one for the large tier. Writing takes three for each set, and one for the
// large tier.
#![tactic(auto)]

ghost use Rattle.std.specs.Prelude.{◌≡◌, ◌++◌, ◌+◌, ◌^◌, ◌≤◌, ◌<◌, length};
ghost use Rattle.base.specs.Bytes.{le64};
ghost use Rattle.rows.specs.Table.{rows_of};
ghost use Rattle.slices.specs.Places.{put_at};
ghost use Rattle.counters.specs.Layout.{count_row};
ghost use Rattle.counters.specs.Held.{InOrder};
ghost use Rattle.snapshot.specs.Write.{set_bytes};
ghost use Rattle.snapshot_parts.specs.Parts.{sets_from, large_from};

use byte_numbers::write_le64;
use roaring_write::{length64, write64};

// How many sets hold the small tier.
const SETS: u32 = 8;

// The lowest count of the large tier.
const FIRST_LARGE: u64 = 257;

// How many bytes the eight sets of n rows take, their lengths included.
pub fn sets_len(t: &[u64], n: usize) -> usize
    requires { (InOrder n t.now) × (length (sets_from n t.now 0) < 2 ^ 64) }
    ensures { result ≡ length (sets_from n t.now 0) }
{
    let mut len = 0;
    for k in 0..SETS {
        len += 8 + length64(t, n, k);
    }
    len
}

// How many bytes the large tier of n rows takes.
pub fn large_len(t: &[u64], n: usize) -> usize
    requires { (InOrder n t.now) × (length (large_from n t.now 0) < 2 ^ 64) }
    ensures { result ≡ length (large_from n t.now 0) }
{
    let mut len = 0;
    for i in 0..n {
        if FIRST_LARGE <= t[i * 2 + 1] {
            len += 16;
        }
    }
    len
}

// Set k of n rows goes into `out` from index `at` on, its bitmap behind its bitmap's length: the place behind it.
fn write_set(out: &mut [u8], at: usize, t: &[u64], n: usize, k: u32) -> usize
    requires { (InOrder n t.now) × (at + length (set_bytes (rows_of count_row n t.now) k) ≤ length out.old) }
    ensures { (out.new ≡ put_at out.old at (set_bytes (rows_of count_row n t.now) k))
        × (result ≡ at + length (set_bytes (rows_of count_row n t.now) k)) }
{
    let end = write64(out, at + 8, t, n, k);
    write_le64(out, at, (end - at - 8) as u64);
    end
}

// The eight sets of n rows go into `out` from index `at` on: the place behind them.
pub fn write_sets(out: &mut [u8], at: usize, t: &[u64], n: usize) -> usize
    requires { (InOrder n t.now) × (at + length (sets_from n t.now 0) ≤ length out.old) }
    ensures { (out.new ≡ put_at out.old at (sets_from n t.now 0))
        × (result ≡ at + length (sets_from n t.now 0)) }
{
    let mut p = at;
    for k in 0..SETS {
        p = write_set(out, p, t, n, k);
    }
    p
}

// A count of the large tier goes into the 16 bytes from index `at`.
fn write_entry(out: &mut [u8], at: usize, idx: u64, count: u64)
    requires { at + 16 ≤ length out.old }
    ensures { out.new ≡ put_at out.old at (le64 idx ++ le64 count) }
{
    write_le64(out, at, idx);
    write_le64(out, at + 8, count);
}

// The large tier of n rows goes into `out` from index `at` on.
pub fn write_large(out: &mut [u8], at: usize, t: &[u64], n: usize)
    requires { (InOrder n t.now) × (at + length (large_from n t.now 0) ≤ length out.old) }
    ensures { out.new ≡ put_at out.old at (large_from n t.now 0) }
{
    let mut p = at;
    for i in 0..n {
        let count = t[i * 2 + 1];
        if FIRST_LARGE <= count {
            write_entry(out, p, t[i * 2], count);
            p += 16;
        }
    }
}
