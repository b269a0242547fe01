// The counters' shrinking over words, lent as in counters_abi, for `selvaigo` to export.
#![tactic(auto)]

ghost use Rattle.std.specs.Prelude.{◌≡◌, true, [], ◌∷◌};
ghost use Rattle.counters.specs.Layout as layout;
ghost use Rattle.counters.specs.Maintenance.{should_shrink, adjust_shrink_threshold};
ghost use Rattle.state_words.specs.Words.{settings_of, counters_of, said, bit};
ghost use Rattle.word_calls.specs.CountersSaid.{shrink_said};

use counters::ShrinkSettings;
use state_steps::put_shrunk;
use state_words::counters_of;

// Which sets are to be shrunk.
pub fn selvaigo_shrink_if_needed(
    state: &mut [u64; 16],
    counts: &[u64],
    bytes_saved: u64,
    shrunk: &mut [u64; 9],
) -> u8
    ensures { said result (shrunk.new ∷ []) (state.new ∷ []) ≡ shrink_said state.old counts.now bytes_saved }
{
    let decided = counter_shrink::shrink_if_needed(counters_of(state), counts, bytes_saved);
    put_shrunk(decided, state, shrunk)
}

// The same, where the record and the table hold a state.
pub fn selvaigo_shrink_if_needed_held(
    state: &mut [u64; 16],
    counts: &[u64],
    bytes_saved: u64,
    shrunk: &mut [u64; 9],
) -> u8
    requires { layout.holds (counters_of state.old) counts.now ≡ true }
    ensures { said result (shrunk.new ∷ []) (state.new ∷ []) ≡ shrink_said state.old counts.now bytes_saved }
{
    let decided = counter_shrink::shrink_held(counters_of(state), counts, bytes_saved);
    put_shrunk(Ok(decided), state, shrunk)
}

// Whether so many removals call for shrinking: 1 or 0.
pub fn selvaigo_should_shrink(alive: u64, removed_since_shrink: u64, min_removed: u64) -> u8
    ensures { result ≡ bit (should_shrink alive removed_since_shrink min_removed) }
{
    u8::from(shrink_rules::should_shrink(alive, removed_since_shrink, min_removed))
}

// The threshold that follows a shrink which saved so many bytes, by the settings given. No removal count has a part in it.
pub fn selvaigo_adjust_shrink_threshold(
    min_alive_removed_before_shrink: u64,
    bytes_saved: u64,
    shrink_base: u64,
    shrink_max: u64,
    good_save: u64,
) -> u64
    ensures { result ≡ adjust_shrink_threshold (settings_of shrink_base shrink_max good_save) bytes_saved min_alive_removed_before_shrink }
{
    let settings = ShrinkSettings {
        base: shrink_base,
        max: shrink_max,
        good_save,
    };
    shrink_rules::threshold_after(settings, min_alive_removed_before_shrink, bytes_saved)
}
