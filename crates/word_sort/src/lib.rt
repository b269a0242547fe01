// Words in order, and whether one of them stands twice.
#![tactic(auto)]

ghost use Rattle.std.specs.Prelude.{◌≡◌, true, ◌++◌, ◌+◌, length, take};
ghost use Rattle.base.specs.Logic.{repeated, sorted_from, zeros};
ghost use Rattle.word_sort.specs.Sort.{sorted};

// The first n words are put in order. The n words behind them are 0 afterwards.
pub fn sort(s: &mut [u64], n: usize)
    requires { length s.old ≡ n + n }
    ensures { s.new ≡ sorted (take n s.old) ++ zeros n }
{
    s[..n].sort_unstable();
    slices::fill(s, n, n, 0);
}

// Whether a word stands twice among words in order: it then stands beside itself.
pub fn has_repeat(s: &[u64]) -> bool
    requires { sorted_from 0 s.now ≡ true }
    ensures { result ≡ repeated s.now }
{
    for i in 1..s.len() {
        if s[i - 1] == s[i] {
            return true;
        }
    }
    false
}
