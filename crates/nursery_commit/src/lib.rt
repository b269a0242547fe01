// A delta on the nursery: refused whole, or its inserts and then its removes, each in turn, in the lent tables.
#![tactic(auto)]

ghost use Rattle.std.specs.Prelude.{◌≡◌, true, ◌||◌, map};
ghost use Rattle.base.specs.Logic.{any, elem, repeated};
ghost use Rattle.rows.specs.Keys.{keys, first_four};
ghost use Rattle.cell_nursery.specs.Layout.{holds};
ghost use Rattle.cell_nursery.specs.Held.{EntriesHeld};
ghost use Rattle.cell_nursery.specs.Returned.{as_committed};
ghost use Rattle.cell_nursery.specs.Calls.{effect, length_width, delta_call};
ghost use Rattle.delta_items.specs.Walk.{inserts_in, inserts_fit};

use base::Refusal;
use cell_nursery::Nursery;
use nursery_run::apply_items;

// Whether an inserted hash is in the nursery, or comes twice.
fn any_present(r: Nursery, es: &[u64], wide: bool, inserts: u64, items: &[u8]) -> bool
    requires entries_held { EntriesHeld r es.now }
    requires value { inserts_fit (length_width wide) inserts items.now ≡ true }
    ensures { result ≡ (any (λ e. elem e.hash (keys first_four 8 r.entries es.now)) (inserts_in (length_width wide) inserts items.now) || repeated (map (λ e. e.hash) (inserts_in (length_width wide) inserts items.now))) }
{
    if delta_checks::any_stored(r, es, wide, inserts, items) {
        return true;
    }
    delta_checks::any_repeated(wide, inserts, items)
}

// A delta on tables that hold a state.
pub fn apply_commit_held(
    r: Nursery,
    es: &mut [u64],
    ws: &mut [u64],
    cs: &mut [u8],
    wide: bool,
    inserts: u64,
    removes: u64,
    items: &[u8],
) -> Result<Nursery, Refusal>
    requires { holds r es.old ws.old cs.old ≡ true }
    ensures { effect (as_committed r result) es.new ws.new cs.new ≡ delta_call r es.old ws.old cs.old wide inserts removes items.now }
{
    let at = delta_items::removes_at(items, wide, inserts, removes).ok_or(Refusal::Broken)?;
    if delta_items::any_too_long(items, wide, inserts, removes) {
        return Err(Refusal::TooLong);
    }
    if any_present(r, es, wide, inserts, items) {
        return Err(Refusal::Present);
    }
    let bytes = delta_items::cell_bytes(at, wide, inserts);
    if delta_checks::is_full(r, es.len(), ws.len(), cs.len(), inserts, bytes) {
        return Err(Refusal::NurseryFull);
    }
    Ok(apply_items(r, es, ws, cs, wide, inserts, removes, items, at))
}

// A delta: its two list lengths and its items, whose cells' lengths have 4 bytes where `wide` says so, else 2.
pub fn apply_commit(
    r: Nursery,
    es: &mut [u64],
    ws: &mut [u64],
    cs: &mut [u8],
    wide: bool,
    inserts: u64,
    removes: u64,
    items: &[u8],
) -> Result<Nursery, Refusal>
    ensures { effect (as_committed r result) es.new ws.new cs.new ≡ delta_call r es.old ws.old cs.old wide inserts removes items.now }
{
    if !nursery_checks::holds(r, es, ws, cs) {
        return Err(Refusal::Broken);
    }
    apply_commit_held(r, es, ws, cs, wide, inserts, removes, items)
}
