// Whether a batch names an index twice, by sorting: its indices go into the words behind the table's rows, which are 0 before and afterwards.
#![tactic(auto)]

ghost use Rattle.std.specs.Prelude.{◌≡◌, ◌+◌, ◌*◌, ◌/◌, ◌≤◌, length};
ghost use Rattle.base.specs.Logic.{repeated, overlay, zeros};
ghost use Rattle.rows.specs.Table.{Laid};
ghost use Rattle.counters.specs.Batch.{kept, named};
ghost use Rattle.counters.specs.Steps.{transitions};

use lent_batches::Transitions;

// The indices of the kept transitions go to the front of s. Returns how many they are.
fn gather<B: Transitions>(s: &mut [u64], b: B) -> usize
    requires { length (B.words b) / 3 ≤ length s.old }
    ensures { (result ≡ length (named (kept (transitions (B.words b))))) × (s.new ≡ overlay (named (kept (transitions (B.words b)))) s.old) }
{
    let mut k = 0;
    for i in 0..b.count() {
        let x = b.at(i);
        if x.old_raw != x.new_raw {
            s[k] = x.idx.0;
            k += 1;
        }
    }
    k
}

// Whether two kept transitions name one index, found by sorting the indices in s, words that are 0 and will be again.
fn sorted_repeated<B: Transitions>(s: &mut [u64], b: B) -> bool
    requires { (length (B.words b) / 3 * 2 ≤ length s.old) × (s.old ≡ zeros (length s.old)) }
    ensures { (result ≡ repeated (named (kept (transitions (B.words b))))) × (s.new ≡ s.old) }
{
    let k = gather(s, b);
    let e = k + k;
    word_sort::sort(&mut s[..e], k);
    let r = word_sort::has_repeat(&s[..k]);
    slices::fill(s, 0, k, 0);
    r
}

// Fewer transitions than these are compared pair by pair in less time than it takes to sort them.
const FEW: usize = 128;

// 3: two kept transitions name one index. A batch of some size is sorted, where there is room behind the n rows of the table.
pub fn any_repeated<B: Transitions>(t: &mut [u64], n: usize, b: B) -> bool
    requires { Laid 2 n t.old }
    ensures { (result ≡ repeated (named (kept (transitions (B.words b))))) × (t.new ≡ t.old) }
{
    let m = b.count();
    let at = n * 2;
    if m < FEW || (t.len() - at) / 2 < m {
        counter_checks::any_repeated(b)
    } else {
        sorted_repeated(&mut t[at..], b)
    }
}
