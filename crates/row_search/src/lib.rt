// Keys of rows, read and compared, and the place of a key among them: by halves, so that a lookup reads few rows.
#![tactic(auto)]

ghost use Rattle.std.specs.Prelude.{◌≡◌, true, List, ℕ, ◌+◌, ◌*◌, ◌≤◌, length, drop, ltb};
ghost use Rattle.base.specs.Logic.{sorted_from};
ghost use Rattle.rows.specs.Keys.{keys, first_word, first_four, place};
ghost use Rattle.rows.specs.Wide.{key_of};

use rows::Wide;

// What rows are in order by: the words at the front of a row spell it.
pub trait RowKey: Copy {
    // How many words spell a key, the number that they spell, and the number of a key.
    ghost words: { ℕ };

    ghost spelt: { List ℕ → ℕ };

    ghost number: { Self → ℕ };

    // The key of the row whose words begin at index `at`.
    fn read(t: &[u64], at: usize) -> Self
        requires { at + words ≤ length t.now }
        ensures { number result ≡ spelt (drop at t.now) };

    // Whether it is below another.
    fn is_below(self, other: Self) -> bool
        ensures { result ≡ ltb (number self) (number other) };
}

// The first word.
impl RowKey for u64 {
    ghost words = { 1 };

    ghost spelt = { first_word };

    ghost number = { λ k. k };

    fn read(t: &[u64], at: usize) -> u64 {
        t[at]
    }

    fn is_below(self, other: u64) -> bool {
        self < other
    }
}

// The first four words.
impl RowKey for Wide {
    ghost words = { 4 };

    ghost spelt = { first_four };

    ghost number = { key_of };

    fn read(t: &[u64], at: usize) -> Wide {
        wide_at(t, at)
    }

    fn is_below(self, other: Wide) -> bool {
        self < other
    }
}

// The key of four words of the row whose words begin at index `at`.
pub fn wide_at(t: &[u64], at: usize) -> Wide
    requires { at + 4 ≤ length t.now }
    ensures { key_of result ≡ first_four (drop at t.now) }
{
    Wide(t[at], t[at + 1], t[at + 2], t[at + 3])
}

// How many of the first n rows stand before the first whose key is not below `key`: by halves.
pub fn find<K: RowKey>(t: &[u64], w: usize, n: usize, key: K) -> usize
    requires { (K.words ≤ w) × (n * w ≤ length t.now) × (sorted_from 0 (keys K.spelt w n t.now) ≡ true) }
    ensures { result ≡ place (K.number key) (keys K.spelt w n t.now) }
{
    narrow(t, w, n, key, 0)
}

// A row that stands at the place that `find` gives or at most `few` rows before it: by halves, until so few are left. Which one is left open.
pub fn narrow<K: RowKey>(t: &[u64], w: usize, n: usize, key: K, few: usize) -> usize
    requires { (K.words ≤ w) × (n * w ≤ length t.now) × (sorted_from 0 (keys K.spelt w n t.now) ≡ true) }
    ensures { (result ≤ place (K.number key) (keys K.spelt w n t.now)) × (place (K.number key) (keys K.spelt w n t.now) ≤ result + few) }
{
    let mut lo = 0;
    let mut hi = n;
    while few < hi - lo {
        let mid = lo + (hi - lo) / 2;
        if K::read(t, mid * w).is_below(key) {
            lo = mid + 1;
        } else {
            hi = mid;
        }
    }
    lo
}
