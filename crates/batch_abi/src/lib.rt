// A batch of transitions over words, lent as in counters_abi, for `selvaigo` to export.
#![tactic(auto)]

ghost use Rattle.std.specs.Prelude.{◌≡◌, true, [], ◌∷◌};
ghost use Rattle.counters.specs.Layout as layout;
ghost use Rattle.state_words.specs.Words.{counters_of, said};
ghost use Rattle.word_calls.specs.CountersSaid.{batch_said};

use state_steps::put_counters;
use state_words::counters_of;

// A batch of transitions.
pub fn selvaigo_apply_batch(state: &mut [u64; 16], counts: &mut [u64], batch: &[u64]) -> u8
    ensures { said result [] (state.new ∷ counts.new ∷ []) ≡ batch_said state.old counts.old batch.now }
{
    let after = counter_batch::apply_batch(counters_of(state), counts, batch);
    put_counters(after, state)
}

// The same, where the record and the table hold a state.
pub fn selvaigo_apply_batch_held(state: &mut [u64; 16], counts: &mut [u64], batch: &[u64]) -> u8
    requires { layout.holds (counters_of state.old) counts.old ≡ true }
    ensures { said result [] (state.new ∷ counts.new ∷ []) ≡ batch_said state.old counts.old batch.now }
{
    let after = counter_batch::apply_batch_held(counters_of(state), counts, batch);
    put_counters(after, state)
}
