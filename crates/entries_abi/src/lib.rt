// The nursery's calls that read it, over words, lent as in nursery_abi, for `selvaigo` to export.
#![tactic(auto)]

ghost use Rattle.std.specs.Prelude.{◌≡◌, true, [], ◌∷◌};
ghost use Rattle.cell_nursery.specs.Layout.{holds_entries, holds_cells};
ghost use Rattle.state_words.specs.Words.{nursery_of, said};
ghost use Rattle.word_calls.specs.NurserySaid.{idx_said, data_said};

use state_steps::{put_found, put_place};
use state_words::nursery_of;

// The index of a hash.
pub fn selvaigo_get_idx(
    nursery: &[u64; 4],
    entries: &[u64],
    hash: &[u8; 32],
    found: &mut [u64; 2],
) -> u8
    ensures { said result (found.new ∷ []) [] ≡ idx_said nursery.now entries.now hash.now }
{
    let entry = nursery_lookup::get_idx(nursery_of(nursery), entries, *hash);
    put_found(entry, found)
}

// The same, where the record and the entries hold a state.
pub fn selvaigo_get_idx_held(
    nursery: &[u64; 4],
    entries: &[u64],
    hash: &[u8; 32],
    found: &mut [u64; 2],
) -> u8
    requires { holds_entries (nursery_of nursery.now) entries.now ≡ true }
    ensures { said result (found.new ∷ []) [] ≡ idx_said nursery.now entries.now hash.now }
{
    let entry = nursery_lookup::get_idx_held(nursery_of(nursery), entries, *hash);
    put_found(Ok(entry), found)
}

// Where the cell of a hash lies.
pub fn selvaigo_get_data(
    nursery: &[u64; 4],
    entries: &[u64],
    cells: &[u8],
    hash: &[u8; 32],
    found: &mut [u64; 3],
) -> u8
    ensures { said result (found.new ∷ []) [] ≡ data_said nursery.now entries.now cells.now hash.now }
{
    let cell = nursery_lookup::get_data(nursery_of(nursery), entries, cells, *hash);
    put_place(cell, found)
}

// The same, where the record, the entries and the cells hold a state.
pub fn selvaigo_get_data_held(
    nursery: &[u64; 4],
    entries: &[u64],
    cells: &[u8],
    hash: &[u8; 32],
    found: &mut [u64; 3],
) -> u8
    requires { (holds_entries (nursery_of nursery.now) entries.now ≡ true) × (holds_cells (nursery_of nursery.now) cells.now ≡ true) }
    ensures { said result (found.new ∷ []) [] ≡ data_said nursery.now entries.now cells.now hash.now }
{
    let cell = nursery_lookup::get_data_held(nursery_of(nursery), entries, cells, *hash);
    put_place(Ok(cell), found)
}
