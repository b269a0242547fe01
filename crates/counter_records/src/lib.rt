// A batch that is lent as a slice of records. A short one is walked over record by record: all work is done by functions on a record's index,
// old and new (`counter_walk`), which are told where the walk is by what it holds. A long one is the same batch on the words that spell it.
#![tactic(auto)]

ghost use Rattle.std.specs.Prelude.{◌≡◌};
ghost use Rattle.counters.specs.Layout.{words_of};
ghost use Rattle.counters.specs.Calls.{effect, batch_call};
ghost use Rattle.counters.specs.Returned.{as_applied};
ghost use Rattle.counters.specs.Steps.{transition};
ghost use Rattle.counter_walk.specs.Returned.{as_walk, as_phase};
ghost use Rattle.counter_walk.specs.Walk.{turned, turned_table, finished, Ready};

use base::Refusal;
use counter_steps::Pass;
use counter_walk::{Phase, Walk};
use counters::{CounterTransition, Counters};
use lent_batches::Transitions;

// A batch with fewer records than this is walked over. The walk moves only the rows behind a record's place, but asks for each record all the
// later ones for its index; a long batch goes in passes, each over all rows.
const FEW: usize = 2;

// Records that a caller lends.
#[derive(Clone, Copy)]
struct Records<'a>(&'a [CounterTransition]);

impl Transitions for Records<'_> {
    ghost words = { λ b. words_of b.0.now };

    fn count(self) -> usize {
        self.0.len()
    }

    fn is_whole(self) -> bool {
        true
    }

    fn at(self, i: usize) -> CounterTransition {
        self.0[i]
    }
}

// A record, by the phase.
fn turn(t: &mut [u64], s: Walk, idx: u64, old: u64, new: u64) -> Walk
    requires { Ready (as_phase s.phase) (as_walk s) t.old (transition idx old new) }
    ensures { (as_walk result ≡ turned (as_phase s.phase) t.old (transition idx old new) (as_walk s)) × (t.new ≡ turned_table (as_phase s.phase) t.old (transition idx old new) (as_walk s)) }
{
    match s.phase {
        Phase::Look => counter_walk::look(t, s, idx, old, new),
        Phase::Again => counter_walk::ask_again(t, s, idx, old, new),
        Phase::Free => counter_walk::apply(t, s, idx, old, new, Pass::Free),
        Phase::Store => counter_walk::apply(t, s, idx, old, new, Pass::Store),
        Phase::End => s,
    }
}

// What is returned when the walk is over.
fn finish(s: Walk) -> Result<Counters, Refusal>
    ensures { as_applied (finished (as_walk s)).counters result ≡ finished (as_walk s) }
{
    match s.answer {
        Ok(()) => Ok(Counters {
            stored: s.rows,
            ..s.counters
        }),
        Err(refusal) => Err(refusal),
    }
}

// The batch, by the walk over its records.
fn walk(c: Counters, t: &mut [u64], b: &[CounterTransition]) -> Result<Counters, Refusal>
    ensures { effect (as_applied c result) t.new ≡ batch_call c t.old (words_of b.now) }
{
    let mut s = counter_walk::begin(c, t, b.len());
    while s.at < b.len() {
        let r = b[s.at];
        s = turn(t, s, r.idx.0, r.old_raw, r.new_raw);
    }
    finish(s)
}

// A batch of records: taken whole or refused whole, and a refusal changes nothing.
pub fn apply_batch(c: Counters, t: &mut [u64], b: &[CounterTransition]) -> Result<Counters, Refusal>
    ensures { effect (as_applied c result) t.new ≡ batch_call c t.old (words_of b.now) }
{
    if b.len() < FEW {
        return walk(c, t, b);
    }
    counter_batch::apply_batch(c, t, Records(b))
}
