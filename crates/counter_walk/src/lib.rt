// The walk over a batch that is lent as a slice of records: what it holds, and what each record does to it, by functions on a record's index,
// old and new, which are told where the walk is by what it holds. `counter_records` has the call.
//
// The walk looks at each record, and asks the later ones for its index; after the last come the tests, in their order, each over
// the whole batch. Then it applies the records that free a row, and at last those that store one.
#![tactic(auto)]

ghost use Rattle.std.specs.Prelude.{◌≡◌, ◌+◌, ◌*◌, ◌/◌, ◌^◌, ◌<◌, ◌≤◌, length};
ghost use Rattle.rows.specs.Table.{rows_of};
ghost use Rattle.counters.specs.Layout.{count_row};
ghost use Rattle.counters.specs.Held.{InOrder};
ghost use Rattle.counters.specs.Steps.{transition};
ghost use Rattle.counter_steps.specs.Steps.{apply_one, stores};
ghost use Rattle.counter_walk.specs.Returned.{as_sums, as_phase, as_walk};
ghost use Rattle.counter_walk.specs.Walk as walk;
ghost use Rattle.counter_walk.specs.Walk.{sums_with, moved, on_to, begun, looked, asked_again, applied, applied_table, first_phase, started, with_rows};

use base::Refusal;
use counter_steps::{Kind, Pass};
use counters::{CounterMaintenance, CounterTransition, Counters, Idx};

// What the records say together: whether one is at an unallocated index, whether one has a false old count, and tallies.
#[derive(Clone, Copy)]
pub struct Sums {
    pub unallocated: bool,
    pub false_old: bool,
    pub births: u64,
    pub deaths: u64,
    pub rises: u64,
    pub falls: u64,
    pub maintenance: CounterMaintenance,
}

// What is done with the next record.
#[derive(Clone, Copy)]
pub enum Phase {
    Look,
    Again,
    Free,
    Store,
    End,
}

// What the walk holds: the next record at `at` of `len`; while the later ones are asked for its index, the record `of` and
// that index; how many rows the table has; the answer, and the state record after the batch.
#[derive(Clone, Copy)]
pub struct Walk {
    pub phase: Phase,
    pub at: usize,
    pub len: usize,
    pub of: usize,
    pub seek: u64,
    pub repeated: bool,
    pub sums: Sums,
    pub rows: usize,
    pub answer: Result<(), Refusal>,
    pub counters: Counters,
}

// The sums with one more record.
fn sums_with(t: &[u64], c: Counters, a: Sums, idx: u64, old: u64, new: u64) -> Sums
    requires in_order { InOrder c.stored t.now }
    requires births_bound { (a.births + 1 < 2 ^ 64) × (a.deaths + 1 < 2 ^ 64) × (a.rises + 1 < 2 ^ 64) × (a.falls + 1 < 2 ^ 64) }
    ensures { as_sums result ≡ sums_with c.next_idx.0 (rows_of count_row c.stored t.now) (transition idx old new) (as_sums a) }
{
    let w = [idx, old, new];
    let x = CounterTransition {
        idx: Idx(idx),
        old_raw: old,
        new_raw: new,
    };
    Sums {
        unallocated: a.unallocated || transition_checks::is_unallocated(c.next_idx.0, x),
        false_old: a.false_old || transition_checks::is_false_old(t, c.stored, x),
        births: a.births + counter_steps::counts(Kind::Birth, x),
        deaths: a.deaths + counter_steps::counts(Kind::Death, x),
        rises: a.rises + counter_steps::counts(Kind::Rise, x),
        falls: a.falls + counter_steps::counts(Kind::Fall, x),
        maintenance: counter_steps::maintained_by(&w[..], a.maintenance),
    }
}

// The walk in a phase, before record i.
fn moved_to(s: Walk, phase: Phase, i: usize) -> Walk
    ensures { as_walk result ≡ moved (as_walk s) (as_phase phase) i }
{
    Walk { phase, at: i, ..s }
}

// The walk with another number of rows.
fn with_rows(s: Walk, rows: usize) -> Walk
    ensures { as_walk result ≡ with_rows (as_walk s) rows }
{
    Walk { rows, ..s }
}

// The walk ends with a refusal.
fn ended(s: Walk, r: Refusal) -> Walk
    ensures { as_walk result ≡ walk.ended (as_walk s) r }
{
    Walk {
        phase: Phase::End,
        at: s.len,
        answer: Err(r),
        ..s
    }
}

fn first_phase(len: usize) -> Phase
    ensures { as_phase result ≡ first_phase len }
{
    if len == 0 {
        return Phase::End;
    }
    Phase::Free
}

// Every test is passed: what the record will be, but for its number of rows, and the records are applied.
fn accepted(s: Walk) -> Walk
    requires { (s.counters.live_cells + s.sums.births < 2 ^ 64) × (s.sums.deaths ≤ s.counters.live_cells + s.sums.births) }
    ensures { as_walk result ≡ walk.accepted (as_walk s) }
{
    let counters = Counters {
        live_cells: s.counters.live_cells + s.sums.births - s.sums.deaths,
        maintenance: s.sums.maintenance,
        ..s.counters
    };
    Walk {
        phase: first_phase(s.len),
        at: 0,
        answer: Ok(()),
        counters,
        ..s
    }
}

// The tests in their order, by the sums over the whole batch.
fn judged(t: &[u64], s: Walk) -> Walk
    requires { (s.sums.rises < 2 ^ 62) × (s.sums.falls < 2 ^ 62) × (s.counters.stored < 2 ^ 62) }
    ensures { as_walk result ≡ walk.judged (length t.now / 2) (as_walk s) }
{
    let sums = s.sums;
    let c = s.counters;
    if sums.unallocated {
        return ended(s, Refusal::Unallocated);
    }
    if s.repeated {
        return ended(s, Refusal::Repeated);
    }
    if sums.false_old {
        return ended(s, Refusal::FalseOld);
    }
    if counter_checks::off_total(c.live_cells, sums.births, sums.deaths) {
        return ended(s, Refusal::OffTotal);
    }
    if (t.len() / 2) as u64 + sums.falls < c.stored as u64 + sums.rises {
        return ended(s, Refusal::TableFull);
    }
    if counter_checks::few_cells(
        c.live_cells,
        sums.births,
        sums.deaths,
        c.stored,
        sums.rises,
        sums.falls,
    ) {
        return ended(s, Refusal::FewCells);
    }
    accepted(s)
}

// On to record i, or to the tests where there is none.
fn on_to(t: &[u64], s: Walk, i: usize) -> Walk
    requires { (s.sums.rises < 2 ^ 62) × (s.sums.falls < 2 ^ 62) × (s.counters.stored < 2 ^ 62) }
    ensures { as_walk result ≡ on_to (length t.now / 2) (as_walk s) i }
{
    if i < s.len {
        return moved_to(s, Phase::Look, i);
    }
    judged(t, s)
}

// The walk over a batch of len records begins.
fn start(c: Counters, len: usize) -> Walk
    ensures { as_walk result ≡ started c len }
{
    let sums = Sums {
        unallocated: false,
        false_old: false,
        births: 0,
        deaths: 0,
        rises: 0,
        falls: 0,
        maintenance: c.maintenance,
    };
    Walk {
        phase: Phase::Look,
        at: 0,
        len,
        of: 0,
        seek: 0,
        repeated: false,
        sums,
        rows: c.stored,
        answer: Ok(()),
        counters: c,
    }
}

// The table is checked before the first record.
pub fn begin(c: Counters, t: &mut [u64], len: usize) -> Walk
    requires { length t.old < 2 ^ 62 }
    ensures { (as_walk result ≡ begun c t.old len) × (t.new ≡ t.old) }
{
    let s = start(c, len);
    if !counter_rows::holds(c, t) {
        return ended(s, Refusal::Broken);
    }
    on_to(t, s, 0)
}

// A record is added to the sums; where it is kept, the later ones are asked for its index.
pub fn look(t: &[u64], s: Walk, idx: u64, old: u64, new: u64) -> Walk
    requires in_order { InOrder s.counters.stored t.now }
    requires births_bound { (s.sums.births < 2 ^ 61) × (s.sums.deaths < 2 ^ 61) × (s.sums.rises < 2 ^ 61) × (s.sums.falls < 2 ^ 61) × (s.counters.stored < 2 ^ 62) × (s.at < 2 ^ 62) }
    ensures { as_walk result ≡ looked t.now (transition idx old new) (as_walk s) }
{
    let sums = sums_with(t, s.counters, s.sums, idx, old, new);
    let next = Walk {
        phase: Phase::Again,
        at: s.at + 1,
        of: s.at,
        seek: idx,
        sums,
        ..s
    };
    if old != new && s.at + 1 < s.len {
        return next;
    }
    on_to(t, next, s.at + 1)
}

// A later record is asked for the index.
pub fn ask_again(t: &[u64], s: Walk, idx: u64, old: u64, new: u64) -> Walk
    requires { (s.sums.rises < 2 ^ 62) × (s.sums.falls < 2 ^ 62) × (s.counters.stored < 2 ^ 62) × (s.at < 2 ^ 62) × (s.«of» < 2 ^ 62) }
    ensures { as_walk result ≡ asked_again t.now (transition idx old new) (as_walk s) }
{
    let x = CounterTransition {
        idx: Idx(idx),
        old_raw: old,
        new_raw: new,
    };
    let repeated = s.repeated || transition_checks::is_named(s.seek, x);
    let next = Walk {
        phase: Phase::Again,
        at: s.at + 1,
        repeated,
        ..s
    };
    if s.at + 1 < s.len {
        return next;
    }
    on_to(t, next, s.of + 1)
}

// A record is applied if it is of the pass; after the last one the other pass begins, or the walk ends.
pub fn apply(t: &mut [u64], s: Walk, idx: u64, old: u64, new: u64, pass: Pass) -> Walk
    requires in_order { InOrder s.rows t.old }
    requires t_in_bounds { length (apply_one (stores pass) (transition idx old new) (rows_of count_row s.rows t.old)) * 2 ≤ length t.old }
    requires at_bound { s.at < 2 ^ 62 }
    ensures { (as_walk result ≡ applied (stores pass) t.old (transition idx old new) (as_walk s)) × (t.new ≡ applied_table (stores pass) t.old (transition idx old new) (as_walk s)) }
{
    let x = CounterTransition {
        idx: Idx(idx),
        old_raw: old,
        new_raw: new,
    };
    let rows = counter_steps::apply_one(t, s.rows, x, pass);
    let next = with_rows(s, rows);
    if s.at + 1 < s.len {
        return moved_to(next, s.phase, s.at + 1);
    }
    match pass {
        Pass::Free => moved_to(next, Phase::Store, 0),
        Pass::Store => moved_to(next, Phase::End, s.at + 1),
    }
}
