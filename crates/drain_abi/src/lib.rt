// Draining over words, lent as in nursery_abi, for `selvaigo` to export.
#![tactic(auto)]

ghost use Rattle.std.specs.Prelude.{◌≡◌, true, [], ◌∷◌};
ghost use Rattle.cell_nursery.specs.Layout.{holds};
ghost use Rattle.state_words.specs.Words.{nursery_of, said};
ghost use Rattle.word_calls.specs.NurserySaid.{drain_said};

use state_steps::put_drained;
use state_words::nursery_of;

// What is due for promotion at a round, written into the output.
pub fn selvaigo_drain_promotable(
    nursery: &mut [u64; 4],
    entries: &[u64],
    waiting: &mut [u64],
    cells: &[u8],
    round: u32,
    out: &mut [u8],
    len: &mut [u64; 1],
) -> u8
    ensures { said result (len.new ∷ []) (nursery.new ∷ waiting.new ∷ out.new ∷ []) ≡ drain_said nursery.old entries.now waiting.old cells.now round out.old }
{
    let r = nursery_of(nursery);
    let drained = nursery_drain::drain_promotable(r, entries, waiting, cells, round, out);
    put_drained(drained, nursery, len)
}

// The same, where the record and the tables hold a state.
pub fn selvaigo_drain_promotable_held(
    nursery: &mut [u64; 4],
    entries: &[u64],
    waiting: &mut [u64],
    cells: &[u8],
    round: u32,
    out: &mut [u8],
    len: &mut [u64; 1],
) -> u8
    requires { holds (nursery_of nursery.old) entries.now waiting.old cells.now ≡ true }
    ensures { said result (len.new ∷ []) (nursery.new ∷ waiting.new ∷ out.new ∷ []) ≡ drain_said nursery.old entries.now waiting.old cells.now round out.old }
{
    let r = nursery_of(nursery);
    let drained = nursery_drain::drain_promotable_held(r, entries, waiting, cells, round, out);
    put_drained(drained, nursery, len)
}
