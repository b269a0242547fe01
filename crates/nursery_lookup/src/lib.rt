// Lookups by hash in the nursery's lent tables.
//
// A lookup in tables that hold a state is a search: its held form is for callers that own their tables. The other form checks
// them first, a pass.
#![tactic(auto)]

ghost use Rattle.std.specs.Prelude.{◌≡◌, true, ◌+◌, ◌*◌, ◌≤◌, length, IfSome, Ok};
ghost use Rattle.base.specs.Bytes.{unbe};
ghost use Rattle.rows.specs.Keys.{keys, first_four};
ghost use Rattle.rows.specs.Wide.{key_of};
ghost use Rattle.cell_nursery.specs.Layout.{holds_entries, holds_cells};
ghost use Rattle.cell_nursery.specs.Calls.{lookup_call, data_call};
ghost use Rattle.cell_nursery.specs.Returned.{as_found, as_place};
ghost use Rattle.cell_nursery.specs.Held.{EntriesHeld};
ghost use Rattle.cell_nursery.specs.Rows.{index_of};
ghost use Rattle.nursery_lookup.specs.Rows.{row_in};

use base::Refusal;
use cell_nursery::{CellPlace, Nursery};
use counters::Idx;
use nursery_checks::{holds_cells, holds_entries};
use rows::Wide;

// The row of a hash in entries that hold a state, where one has it: a search by halves.
pub fn find_hash(r: Nursery, es: &[u64], hash: Wide) -> Option<usize>
    requires { EntriesHeld r es.now }
    ensures row { result ≡ row_in r.entries (index_of (key_of hash) (keys first_four 8 r.entries es.now)) }
    ensures fits { IfSome result (λ k. k * 8 + 8 ≤ length es.now) }
{
    let k = row_search::find(es, 8, r.entries, hash);
    if k < r.entries && !(hash < row_search::wide_at(es, k * 8)) {
        Some(k)
    } else {
        None
    }
}

// The index of a hash, where the record and the entries hold a state: a search and no pass, for callers that own their tables.
pub fn get_idx_held(r: Nursery, es: &[u64], hash: [u8; 32]) -> Option<Idx>
    requires { holds_entries r es.now ≡ true }
    ensures { as_found (Ok result) ≡ lookup_call r es.now (unbe hash) }
{
    let k = find_hash(r, es, hash_words::wide_of(&hash, 0))?;
    Some(Idx(es[k * 8 + 4]))
}

// The index of a hash.
pub fn get_idx(r: Nursery, es: &[u64], hash: [u8; 32]) -> Result<Option<Idx>, Refusal>
    ensures { as_found result ≡ lookup_call r es.now (unbe hash) }
{
    if !holds_entries(r, es) {
        return Err(Refusal::Broken);
    }
    Ok(get_idx_held(r, es, hash))
}

// Where in the cells the cell of a hash lies and how long it is, as `get_idx_held`. The cells aren't read.
pub fn get_data_held(r: Nursery, es: &[u64], cs: &[u8], hash: [u8; 32]) -> Option<CellPlace>
    requires { (holds_entries r es.now ≡ true) × (holds_cells r cs.now ≡ true) }
    ensures { as_place (Ok result) ≡ data_call r es.now cs.now (unbe hash) }
{
    let k = find_hash(r, es, hash_words::wide_of(&hash, 0))?;
    Some(CellPlace {
        place: es[k * 8 + 6] as usize,
        len: es[k * 8 + 7] as usize,
    })
}

// Where in the cells the cell of a hash lies and how long it is.
pub fn get_data(
    r: Nursery,
    es: &[u64],
    cs: &[u8],
    hash: [u8; 32],
) -> Result<Option<CellPlace>, Refusal>
    ensures { as_place result ≡ data_call r es.now cs.now (unbe hash) }
{
    if !holds_entries(r, es) || !holds_cells(r, cs) {
        return Err(Refusal::Broken);
    }
    Ok(get_data_held(r, es, cs, hash))
}
