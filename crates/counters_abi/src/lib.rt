// The counters' calls over words: a new state, an index handed out, a count. `selvaigo` exports them to C, as include/selvaigo.h declares them. A state
// record is lent as its words of docs/LAYOUT.md.
#![tactic(auto)]

ghost use Rattle.std.specs.Prelude.{◌≡◌, true, [], ◌∷◌};
ghost use Rattle.counters.specs.Layout as layout;
ghost use Rattle.state_words.specs.Words.{counters_of, said};
ghost use Rattle.word_calls.specs.CountersSaid.{new_said, alloc_said, get_said};

use counters::{Idx, NextIdx, ShrinkSettings};
use state_steps::{put_allocated, put_counters, put_got};
use state_words::counters_of;

// Counters with nothing stored, whose next index is handed over, in a record and a table of any content. A refusal changes neither.
pub fn selvaigo_new(
    next_idx: u64,
    shrink_base: u64,
    shrink_max: u64,
    good_save: u64,
    state: &mut [u64; 16],
    counts: &mut [u64],
) -> u8
    ensures { said result [] (state.new ∷ counts.new ∷ []) ≡ new_said shrink_base shrink_max good_save next_idx state.old counts.old }
{
    let settings = ShrinkSettings {
        base: shrink_base,
        max: shrink_max,
        good_save,
    };
    let made = counter_table::new(NextIdx(next_idx), settings, counts);
    put_counters(made, state)
}

// The next index, handed out.
pub fn selvaigo_alloc_idx(state: &mut [u64; 16], idx: &mut [u64; 1]) -> u8
    ensures { said result (idx.new ∷ []) (state.new ∷ []) ≡ alloc_said state.old }
{
    let handed = counter_table::alloc_idx(counters_of(state));
    put_allocated(handed, state, idx)
}

// The count at an index.
pub fn selvaigo_get(state: &[u64; 16], counts: &[u64], idx: u64, count: &mut [u64; 1]) -> u8
    ensures { said result (count.new ∷ []) [] ≡ get_said state.now counts.now idx }
{
    let got = counter_lookup::get(counters_of(state), counts, Idx(idx));
    put_got(got, count)
}

// The same, where the record and the table hold a state.
pub fn selvaigo_get_held(state: &[u64; 16], counts: &[u64], idx: u64, count: &mut [u64; 1]) -> u8
    requires { layout.holds (counters_of state.now) counts.now ≡ true }
    ensures { said result (count.new ∷ []) [] ≡ get_said state.now counts.now idx }
{
    let got = counter_lookup::get_held(counters_of(state), counts, Idx(idx));
    put_got(got, count)
}
