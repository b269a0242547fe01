// The items of a delta that a nursery has room for: its inserts and then its removes, each in turn, in the lent tables.
#![tactic(auto)]

ghost use Rattle.std.specs.Prelude.{◌≡◌, true, ◌+◌, ◌*◌, ◌/◌, ◌≤◌, min, length, drop};
ghost use Rattle.base.specs.Logic.{fold};
ghost use Rattle.cell_nursery.specs.Entries.{insert, remove};
ghost use Rattle.cell_nursery.specs.Layout.{state_of, holds};
ghost use Rattle.cell_nursery.specs.Calls.{laid, length_width};
ghost use Rattle.delta_items.specs.Walk.{insert_in, insert_len, inserts_in, inserts_len, inserts_fit, hashes_in, items_fit, delta_in};
ghost use Rattle.nursery_steps.specs.Steps.{left, Insertable};
ghost use Rattle.nursery_run.specs.RunLaws.{Ready, Applicable};

use cell_nursery::Nursery;
use nursery_steps::{insert_held, remove_held};

// The insert that begins at `at` is done.
fn insert_at(
    r: Nursery,
    es: &mut [u64],
    ws: &mut [u64],
    cs: &mut [u8],
    wide: bool,
    items: &[u8],
    at: usize,
) -> Nursery
    requires in_bounds { at + insert_len (length_width wide) (drop at items.now) ≤ length items.now }
    requires insertable { Insertable r es.old ws.old cs.old (insert_in (length_width wide) (drop at items.now)) }
    ensures { left result es.new ws.new cs.new ≡ laid r.delay es.old ws.old cs.old (insert (insert_in (length_width wide) (drop at items.now)) (state_of r es.old ws.old cs.old)) }
{
    let hash = hash_words::wide_of(items, at);
    let idx = delta_items::idx_at(items, at);
    let born = delta_items::born_at(items, at);
    let len = delta_items::cell_len(items, at, wide);
    let cell = at + delta_items::head_len(wide);
    insert_held(r, es, ws, cs, hash, idx, born, items, cell, len)
}

// All inserts, in turn.
fn apply_inserts(
    r: Nursery,
    es: &mut [u64],
    ws: &mut [u64],
    cs: &mut [u8],
    wide: bool,
    inserts: u64,
    items: &[u8],
) -> Nursery
    requires value { inserts_fit (length_width wide) inserts items.now ≡ true }
    requires cs_value { holds r es.old ws.old cs.old ≡ true }
    requires ready { Ready (min (length es.old / 8) (length ws.old / 5)) (length cs.old) (state_of r es.old ws.old cs.old) (inserts_in (length_width wide) inserts items.now) }
    ensures { left result es.new ws.new cs.new ≡ laid r.delay es.old ws.old cs.old (fold insert (inserts_in (length_width wide) inserts items.now) (state_of r es.old ws.old cs.old)) }
{
    let mut q = r;
    let mut at = 0;
    for _ in 0..inserts {
        q = insert_at(q, es, ws, cs, wide, items, at);
        at = delta_items::insert_end(items, at, wide);
    }
    q
}

// All removes, in turn: the first begins at `at`.
fn apply_removes(
    r: Nursery,
    es: &mut [u64],
    ws: &mut [u64],
    cs: &mut [u8],
    removes: u64,
    items: &[u8],
    at: usize,
) -> Nursery
    requires removes_in_bounds { at + 32 * removes ≤ length items.now }
    requires cs_value { holds r es.old ws.old cs.old ≡ true }
    ensures { left result es.new ws.new cs.new ≡ laid r.delay es.old ws.old cs.old (fold remove (hashes_in removes (drop at items.now)) (state_of r es.old ws.old cs.old)) }
{
    let mut q = r;
    for j in 0..removes {
        let hash = hash_words::wide_of(items, at + 32 * j as usize);
        q = remove_held(q, es, ws, cs, hash);
    }
    q
}

// The inserts of a delta, then its removes, which begin at `at`.
pub fn apply_items(
    r: Nursery,
    es: &mut [u64],
    ws: &mut [u64],
    cs: &mut [u8],
    wide: bool,
    inserts: u64,
    removes: u64,
    items: &[u8],
    at: usize,
) -> Nursery
    requires value { (items_fit (length_width wide) inserts removes items.now ≡ true) × (at ≡ inserts_len (length_width wide) inserts items.now) }
    requires applicable { Applicable r es.old ws.old cs.old (delta_in (length_width wide) inserts removes items.now) }
    ensures { left result es.new ws.new cs.new ≡ laid r.delay es.old ws.old cs.old (fold remove (delta_in (length_width wide) inserts removes items.now).removes (fold insert (delta_in (length_width wide) inserts removes items.now).inserts (state_of r es.old ws.old cs.old))) }
{
    let q = apply_inserts(r, es, ws, cs, wide, inserts, items);
    apply_removes(q, es, ws, cs, removes, items, at)
}
