// The two calls that take a loan of records, on lines of document 01: a batch as a slice of records, with the length of the snapshot after it, and the
// threshold through a `&mut CounterMaintenance`, by the standard settings and by others. `lent` and `recorded` make these loans.
#![tactic(auto)]

ghost use Rattle.std.specs.Prelude.{◌≡◌, [], ◌∷◌};
ghost use Rattle.counters.specs.Calls.{effect, batch_call};
ghost use Rattle.counters.specs.Returned.{as_applied};
ghost use Rattle.counters.specs.Maintenance.{adjusted};
ghost use Rattle.counters.specs.Layout.{words_of};

use base::{Refusal, answer_number};
use counters::{CounterMaintenance, CounterTransition, Counters, Idx, NextIdx, ShrinkSettings};

// The record after its threshold was moved through a loan.
fn lent(m: CounterMaintenance, settings: ShrinkSettings, bytes_saved: u64) -> CounterMaintenance
    ensures { result ≡ adjusted settings bytes_saved m }
{
    let mut n = m;
    counter_loan::adjust_shrink_threshold(&mut n, settings, bytes_saved);
    n
}

// A batch of two records, lent as a slice of them.
fn recorded(
    c: Counters,
    t: &mut [u64],
    x: CounterTransition,
    y: CounterTransition,
) -> Result<Counters, Refusal>
    ensures { effect (as_applied c result) t.new ≡ batch_call c t.old (words_of (x ∷ y ∷ [])) }
{
    let b = [x, y];
    counter_records::apply_batch(c, t, &b)
}

fn transition(idx: u64, old: u64, new: u64) -> CounterTransition {
    CounterTransition {
        idx: Idx(idx),
        old_raw: old,
        new_raw: new,
    }
}

// A batch: its answer, the next index, the live total, the stored counts, and how long the snapshot is. A write that fails changes nothing here.
fn batch(
    rt: &impl Print,
    c: Counters,
    t: &mut [u64],
    x: CounterTransition,
    y: CounterTransition,
) -> Counters {
    let applied = recorded(c, t, x, y);
    let number = answer_number(applied);
    let after = applied.unwrap_or(c);
    let next = after.next_idx.0;
    let live = after.live_cells;
    let stored = after.stored;
    let len = snapshot_write::serialized_len(after, t).unwrap_or(0);
    let _ = println!(rt; "{number} {next} {live} {stored} {len}");
    after
}

// The threshold after so many bytes were saved.
fn adjust(
    rt: &impl Print,
    m: CounterMaintenance,
    settings: ShrinkSettings,
    bytes_saved: u64,
) -> CounterMaintenance {
    let after = lent(m, settings, bytes_saved);
    let threshold = after.min_alive_removed_before_shrink;
    let _ = println!(rt; "{threshold}");
    after
}

// Index 3 of 4 from nothing to 2, 256, 257 and 1, each beside a transition that is dropped though its index isn't allocated; then batches that are
// refused, with births, deaths and counts accepted in between: `few` and `fewer` would leave more counts than cells, `even` and `whole` just as many.
fn batches(rt: &impl Print, settings: ShrinkSettings) -> Result<Counters, Refusal> {
    let mut t = [0u64; 4];
    let mut c = counter_table::new(NextIdx(4), settings, &mut t)?;
    let dropped = transition(9, 7, 7);
    let two = (transition(3, 0, 2), dropped);
    let most = (dropped, transition(3, 2, 256));
    let large = (transition(3, 256, 257), dropped);
    let one = (transition(3, 257, 1), dropped);
    let far = (transition(0, 0, 2), transition(4, 0, 1));
    let again = (transition(0, 0, 2), transition(0, 0, 3));
    let untrue = (transition(0, 0, 2), transition(1, 2, 3));
    let spent = (transition(2, 1, 0), transition(1, 1, 0));
    let few = (transition(2, 1, 2), transition(1, 1, 2));
    let born = (transition(1, 0, 3), transition(0, 0, 1));
    let full = (transition(2, 0, 2), transition(3, 1, 2));
    let even = (transition(2, 1, 0), transition(3, 1, 0));
    let fewer = (transition(2, 1, 0), dropped);
    let whole = (transition(2, 1, 2), transition(3, 0, 1));
    for (x, y) in [
        two, most, large, one, far, again, untrue, spent, few, born, full, even, fewer, whole,
    ] {
        c = batch(rt, c, &mut t, x, y);
    }
    Ok(c)
}

fn settings(base: u64, max: u64, good_save: u64) -> ShrinkSettings {
    ShrinkSettings {
        base,
        max,
        good_save,
    }
}

// Base 10, maximum 35, good save 7: from 20 back to 10, then 20 and 35. With a maximum of 2^64 - 1 twice 2^63 is that.
fn others(rt: &impl Print, m: CounterMaintenance) {
    let mut at = m;
    at.min_alive_removed_before_shrink = 20;
    let g = settings(10, 35, 7);
    for bytes_saved in [7, 6, 6] {
        at = adjust(rt, at, g, bytes_saved);
    }
    at.min_alive_removed_before_shrink = 0x8000_0000_0000_0000;
    let far = settings(1, 0xFFFF_FFFF_FFFF_FFFF, 0xFFFF_FFFF_FFFF_FFFF);
    adjust(rt, at, far, 0);
}

fn main(rt: HostRuntime) {
    let g = settings(131072, 2097152, 1048576);
    let Ok(c) = batches(&rt, g) else {
        return;
    };
    let mut m = c.maintenance;
    for bytes_saved in [0, 1048575, 1048576, 1, 1, 1, 1, 1] {
        m = adjust(&rt, m, g, bytes_saved);
    }
    others(&rt, m);
}
