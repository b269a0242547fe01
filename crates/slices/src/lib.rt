// Parts of slices of any items that are copied: moved, filled, copied and tested. Each function says what the whole slice is afterwards,
// so that a caller composes lists and goes through no loop. The laws on parts of slices and on numbers in them stand in specs/.
#![tactic(auto)]

ghost use Rattle.std.specs.Prelude.{◌≡◌, ◌+◌, ◌≤◌, length, drop, replicate};
ghost use Rattle.std.proofs.Math.Seq.{paste};
ghost use Rattle.base.specs.Logic.{all, eqb_list};

// The n items from index `from` go to index `to`. The two parts may overlap.
pub fn move_within<T: Copy>(t: &mut [T], from: usize, to: usize, n: usize)
    requires { (from + n ≤ length t.old) × (to + n ≤ length t.old) }
    ensures { t.new ≡ paste t.old to (drop from t.old) n }
{
    t.copy_within(from..from + n, to);
}

// The n items from index `at` become v.
pub fn fill<T: Copy>(t: &mut [T], at: usize, n: usize, v: T)
    requires { at + n ≤ length t.old }
    ensures { t.new ≡ paste t.old at (replicate n v) n }
{
    for x in &mut t[at..at + n] {
        *x = v;
    }
}

// All of s goes into `out` from index `at` on. The library's copy of slices would have the archive for C ask for `memmove` from outside.
pub fn copy_at<T: Copy>(out: &mut [T], at: usize, s: &[T])
    requires { at + length s.now ≤ length out.old }
    ensures { out.new ≡ paste out.old at s.now (length s.now) }
{
    for (j, x) in s.iter().enumerate() {
        out[at + j] = *x;
    }
}

// Whether every item from index `at` on is v. Every item is looked at, with no way out of the loop: so it takes several items a turn.
pub fn all_from<T: Copy + PartialEq>(t: &[T], at: usize, v: T) -> bool
    requires { at ≤ length t.now }
    ensures { result ≡ all (λ x. T.eq v x) (drop at t.now) }
{
    let mut same = true;
    for x in &t[at..] {
        same = same & (v == *x);
    }
    same
}

// Whether the two are the same. Every byte is looked at, with no way out of the loop: so it takes several bytes a turn.
pub fn equal(a: &[u8], b: &[u8]) -> bool
    ensures { result ≡ eqb_list a.now b.now }
{
    if a.len() != b.len() {
        return false;
    }
    let mut same = true;
    for (i, x) in a.iter().enumerate() {
        same = same & (*x == b[i]);
    }
    same
}
