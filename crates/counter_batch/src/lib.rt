// The batch call: every test over the whole batch before the first write, so that a batch is taken whole or refused whole.
#![tactic(auto)]

ghost use Rattle.std.specs.Prelude.{◌≡◌, true, false, ◌+◌, ◌-◌, ◌/◌, ◌%◌, ◌^◌, ◌≤◌, ◌<◌, ltb, length};
ghost use Rattle.base.specs.Logic.{any, repeated};
ghost use Rattle.counters.specs.Layout as layout;
ghost use Rattle.counters.specs.Batch.{kept, named, unallocated};
ghost use Rattle.counters.specs.Steps.{transitions};
ghost use Rattle.counters.specs.Calls.{effect, batch_call};
ghost use Rattle.counters.specs.Returned.{as_applied};

use base::Refusal;
use counter_steps::Kind;
use counters::Counters;
use lent_batches::Transitions;

// 6: n rows, with those that come and without those that go, are more than the table has room for.
fn exceeds(t: &[u64], n: usize, rises: u64, falls: u64) -> bool
    requires { (n + rises < 2 ^ 64) × (falls ≤ n + rises) }
    ensures { result ≡ ltb (length t.now / 2) (n + rises - falls) }
{
    let room = (t.len() / 2) as u64;
    room < (n as u64) + rises - falls
}

// A whole batch that names allocated indices, each once, on a table that holds a state: 5, 4, 6, 25, each over the whole batch, before the
// first write.
fn apply_once<B: Transitions>(c: Counters, t: &mut [u64], b: B) -> Result<Counters, Refusal>
    requires { (layout.holds c t.old ≡ true) × (length (B.words b) % 3 ≡ 0) × (any (unallocated c.next_idx.0) (kept (transitions (B.words b))) ≡ false) × (repeated (named (kept (transitions (B.words b)))) ≡ false) × (length (B.words b) < 2 ^ 62) }
    ensures { effect (as_applied c result) t.new ≡ batch_call c t.old (B.words b) }
{
    let n = c.stored;
    if counter_checks::any_false_old(t, n, b) {
        return Err(Refusal::FalseOld);
    }
    let births = counter_steps::tally(b, Kind::Birth);
    let deaths = counter_steps::tally(b, Kind::Death);
    if counter_checks::off_total(c.live_cells, births, deaths) {
        return Err(Refusal::OffTotal);
    }
    let rises = counter_steps::tally(b, Kind::Rise);
    let falls = counter_steps::tally(b, Kind::Fall);
    if exceeds(t, n, rises, falls) {
        return Err(Refusal::TableFull);
    }
    if counter_checks::few_cells(c.live_cells, births, deaths, n, rises, falls) {
        return Err(Refusal::FewCells);
    }
    Ok(counter_apply::apply_kept(c, t, b))
}

// A batch on a table that holds a state: 20 for words left over, then 2, 3, 5, 4, 6, 25, each over the whole batch, before the first write. The
// words behind the rows may serve 3 to sort in, and are 0 again.
pub fn apply_batch_held<B: Transitions>(
    c: Counters,
    t: &mut [u64],
    b: B,
) -> Result<Counters, Refusal>
    requires { layout.holds c t.old ≡ true }
    ensures { effect (as_applied c result) t.new ≡ batch_call c t.old (B.words b) }
{
    if !b.is_whole() {
        return Err(Refusal::Broken);
    }
    if counter_checks::any_unallocated(b, c.next_idx.0) {
        return Err(Refusal::Unallocated);
    }
    let n = c.stored;
    if counter_repeats::any_repeated(t, n, b) {
        return Err(Refusal::Repeated);
    }
    apply_once(c, t, b)
}

// A batch: taken whole or refused whole, and a refusal changes nothing.
pub fn apply_batch<B: Transitions>(c: Counters, t: &mut [u64], b: B) -> Result<Counters, Refusal>
    ensures { effect (as_applied c result) t.new ≡ batch_call c t.old (B.words b) }
{
    if !counter_rows::holds(c, t) {
        return Err(Refusal::Broken);
    }
    apply_batch_held(c, t, b)
}
