// The longest snapshot of as many stored counts as an input asks for: what the program longest_snapshot writes.
#![tactic(auto)]

ghost use Rattle.std.specs.Prelude.{◌≡◌, ◌*◌, ◌≤◌, length};
ghost use Rattle.base.specs.Logic.{zeros};
ghost use Rattle.base.specs.Answers.{taken};
ghost use Rattle.base.specs.Output.{as_wrote, effect, written};
ghost use Rattle.counters.specs.Maintenance.{standard};
ghost use Rattle.counters.specs.Layout.{record_of, table_of};
ghost use Rattle.snapshot.specs.Write.{snapshot_bytes};
ghost use Rattle.snapshot_bound.specs.Bound.{worst};
ghost use Rattle.snapshot_bound.specs.Asked.{unended, spelled, asked, answered};
ghost use Rattle.snapshot_worst.specs.Number.{number_of};

use base::Refusal;
use counters::{CounterMaintenance, Counters, NextIdx, ShrinkSettings};
use snapshot_write::serialize_held;

// The most stored counts that may be asked for.
const MOST: usize = 200;

// How many bytes there are without a line feed at their end.
fn unended_len(s: &[u8]) -> usize
    ensures { result ≡ length (unended s.now) }
{
    let len = s.len();
    if len == 0 {
        return 0;
    }
    if s[len - 1] == b'\n' {
        return len - 1;
    }
    len
}

// The number that bytes spell, where all are digits and it is not too large.
fn spelled_number(s: &[u8]) -> Option<usize>
    ensures { result ≡ number_of (spelled 0 s.now) }
{
    let mut n = 0;
    for b in s {
        if !b.is_ascii_digit() {
            return None;
        }
        n = 10 * n + usize::from(*b - b'0');
        if MOST < n {
            return None;
        }
    }
    Some(n)
}

// What an input asks for: one to three digits, with at most one line feed behind them.
pub fn read_number(s: &[u8]) -> Option<usize>
    ensures { result ≡ number_of (asked s.now) }
{
    let len = unended_len(s);
    if len == 0 || 3 < len {
        return None;
    }
    spelled_number(&s[..len])
}

// The rows of the worst counters go into a table of zeros: count 256 at the n lowest multiples of 2^32.
fn lay_worst(t: &mut [u64], n: usize)
    requires { (n ≤ 200) × (n * 2 ≤ length t.old) × (t.old ≡ zeros (length t.old)) }
    ensures { t.new ≡ table_of (length t.old) (worst n) }
{
    for k in 0..n {
        t[k * 2] = k as u64 * 0x1_0000_0000;
        t[k * 2 + 1] = 256;
    }
}

// Their record: the next index is one above the last of theirs, and there are as many cells as counts.
fn worst_record(n: usize) -> Counters
    requires { n ≤ 200 }
    ensures { result ≡ record_of standard (worst n) }
{
    let mut next: u64 = 0;
    if 0 < n {
        next = (n - 1) as u64 * 0x1_0000_0000 + 1;
    }
    Counters {
        next_idx: NextIdx(next),
        live_cells: n as u64,
        stored: n,
        maintenance: CounterMaintenance {
            alive_removed_since_shrink: 0,
            small_removed_since_shrink: [0; 8],
            min_alive_removed_before_shrink: 131_072,
        },
        settings: ShrinkSettings {
            base: 131_072,
            max: 2_097_152,
            good_save: 1_048_576,
        },
    }
}

// The longest snapshot of n stored counts goes into an output.
fn write_worst(n: usize, out: &mut [u8]) -> Result<usize, Refusal>
    requires { n ≤ 200 }
    ensures { effect (as_wrote result) out.new ≡ written out.old (taken (snapshot_bytes (worst n))) }
{
    let mut t = [0u64; 400];
    lay_worst(&mut t, n);
    serialize_held(worst_record(n), &t, out)
}

// The longest snapshot of as many stored counts as the input asks for, or nothing, goes into an output.
pub fn answer(input: &[u8], out: &mut [u8]) -> Result<usize, Refusal>
    ensures { effect (as_wrote result) out.new ≡ written out.old (taken (answered input.now)) }
{
    match read_number(input) {
        Some(n) => write_worst(n, out),
        None => Ok(0),
    }
}
