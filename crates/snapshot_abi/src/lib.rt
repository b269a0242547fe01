// The counters' snapshots over words, lent as in counters_abi, for `selvaigo` to export.
#![tactic(auto)]

ghost use Rattle.std.specs.Prelude.{◌≡◌, true, [], ◌∷◌};
ghost use Rattle.counters.specs.Layout as layout;
ghost use Rattle.state_words.specs.Words.{counters_of, said};
ghost use Rattle.word_calls.specs.CountersSaid.{length_said, serialize_said};

use state_steps::put_wrote;
use state_words::counters_of;

// How many bytes the snapshot takes.
pub fn selvaigo_serialized_len(state: &[u64; 16], counts: &[u64], len: &mut [u64; 1]) -> u8
    ensures { said result (len.new ∷ []) [] ≡ length_said state.now counts.now }
{
    let found = snapshot_write::serialized_len(counters_of(state), counts);
    put_wrote(found, len)
}

// The same, where the record and the table hold a state.
pub fn selvaigo_serialized_len_held(state: &[u64; 16], counts: &[u64], len: &mut [u64; 1]) -> u8
    requires { layout.holds (counters_of state.now) counts.now ≡ true }
    ensures { said result (len.new ∷ []) [] ≡ length_said state.now counts.now }
{
    let found = snapshot_write::serialized_len_held(counters_of(state), counts);
    put_wrote(Ok(found), len)
}

// The snapshot of a state, written into the output.
pub fn selvaigo_serialize(
    state: &[u64; 16],
    counts: &[u64],
    out: &mut [u8],
    len: &mut [u64; 1],
) -> u8
    ensures { said result (len.new ∷ []) (out.new ∷ []) ≡ serialize_said state.now counts.now out.old }
{
    let wrote = snapshot_write::serialize(counters_of(state), counts, out);
    put_wrote(wrote, len)
}

// The same, where the record and the table hold a state.
pub fn selvaigo_serialize_held(
    state: &[u64; 16],
    counts: &[u64],
    out: &mut [u8],
    len: &mut [u64; 1],
) -> u8
    requires { layout.holds (counters_of state.now) counts.now ≡ true }
    ensures { said result (len.new ∷ []) (out.new ∷ []) ≡ serialize_said state.now counts.now out.old }
{
    let wrote = snapshot_write::serialize_held(counters_of(state), counts, out);
    put_wrote(wrote, len)
}
