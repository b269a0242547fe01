// What one insert and one remove do in the nursery's lent tables, where the record and the tables hold a state.
#![tactic(auto)]

ghost use Rattle.std.specs.Prelude.{◌≡◌, true, ◌+◌, ◌≤◌, length, take, drop};
ghost use Rattle.rows.specs.Wide.{key_of};
ghost use Rattle.cell_nursery.specs.Entries.{insert, remove};
ghost use Rattle.cell_nursery.specs.Layout.{state_of, holds};
ghost use Rattle.cell_nursery.specs.Calls.{laid};
ghost use Rattle.nursery_steps.specs.Steps.{new_entry, left, Insertable};

use cell_nursery::Nursery;
use nursery_rows::{cells, entries, waiting};
use rows::Wide;

// An entry of an absent hash goes in, and its waiting row; its cell is the len bytes of `items` from index `at`.
pub fn insert_held(
    r: Nursery,
    es: &mut [u64],
    ws: &mut [u64],
    cs: &mut [u8],
    hash: Wide,
    idx: u64,
    born: u32,
    items: &[u8],
    at: usize,
    len: usize,
) -> Nursery
    requires len_in_bounds { at + len ≤ length items.now }
    requires insertable { Insertable r es.old ws.old cs.old (new_entry hash idx born (take len (drop at items.now))) }
    ensures { left result es.new ws.new cs.new ≡ laid r.delay es.old ws.old cs.old (insert (new_entry hash idx born (take len (drop at items.now))) (state_of r es.old ws.old cs.old)) }
{
    let n = r.entries;
    let m = r.waiting;
    let end = r.cell_bytes;
    let k = row_search::find(es, 8, n, hash);
    let place = entries::place_of(es, k, n, end);
    entries::insert_entry(es, k, n, hash, idx, born as u64, place as u64, len as u64);
    cells::insert_cell(cs, place, end, items, at, len);
    waiting::insert_waiting(ws, m, born as u64, hash);
    Nursery {
        entries: n + 1,
        waiting: m + 1,
        cell_bytes: end + len,
        delay: r.delay,
    }
}

// Neither the entry of a hash nor its waiting rows are left.
pub fn remove_held(r: Nursery, es: &mut [u64], ws: &mut [u64], cs: &mut [u8], hash: Wide) -> Nursery
    requires { holds r es.old ws.old cs.old ≡ true }
    ensures { left result es.new ws.new cs.new ≡ laid r.delay es.old ws.old cs.old (remove (key_of hash) (state_of r es.old ws.old cs.old)) }
{
    let waiting = waiting::remove_waiting(ws, r.waiting, hash);
    let Some(k) = nursery_lookup::find_hash(r, es, hash) else {
        return Nursery { waiting, ..r };
    };
    let place = es[k * 8 + 6] as usize;
    let len = es[k * 8 + 7] as usize;
    entries::remove_entry(es, k, r.entries, len as u64);
    cells::remove_cell(cs, place, r.cell_bytes, len);
    Nursery {
        entries: r.entries - 1,
        waiting,
        cell_bytes: r.cell_bytes - len,
        delay: r.delay,
    }
}
