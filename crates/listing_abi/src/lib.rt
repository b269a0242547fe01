// The listing over words, lent as in nursery_abi, for `selvaigo` to export.
#![tactic(auto)]

ghost use Rattle.std.specs.Prelude.{◌≡◌, true, [], ◌∷◌};
ghost use Rattle.cell_nursery.specs.Layout.{holds_entries, holds_cells};
ghost use Rattle.state_words.specs.Words.{nursery_of, said};
ghost use Rattle.word_calls.specs.NurserySaid.{listing_said};

use state_steps::put_wrote;
use state_words::nursery_of;

// The listing, written into the output.
pub fn selvaigo_snapshot_entries(
    nursery: &[u64; 4],
    entries: &[u64],
    cells: &[u8],
    out: &mut [u8],
    len: &mut [u64; 1],
) -> u8
    ensures { said result (len.new ∷ []) (out.new ∷ []) ≡ listing_said nursery.now entries.now cells.now out.old }
{
    let wrote = nursery_listing::snapshot_entries(nursery_of(nursery), entries, cells, out);
    put_wrote(wrote, len)
}

// The same, where the record, the entries and the cells hold a state.
pub fn selvaigo_snapshot_entries_held(
    nursery: &[u64; 4],
    entries: &[u64],
    cells: &[u8],
    out: &mut [u8],
    len: &mut [u64; 1],
) -> u8
    requires { (holds_entries (nursery_of nursery.now) entries.now ≡ true) × (holds_cells (nursery_of nursery.now) cells.now ≡ true) }
    ensures { said result (len.new ∷ []) (out.new ∷ []) ≡ listing_said nursery.now entries.now cells.now out.old }
{
    let wrote = nursery_listing::snapshot_entries_held(nursery_of(nursery), entries, cells, out);
    put_wrote(wrote, len)
}
