// What waiting rows hand out: which of them are due at a round, whether their entries fit an output, and the entries written.
#![tactic(auto)]

ghost use Rattle.std.specs.Prelude.{◌≡◌, ◌+◌, ◌*◌, ◌≤◌, length, take, leb, IfSome};
ghost use Rattle.std.proofs.Math.Seq.{paste};
ghost use Rattle.base.specs.Logic.{keep, flat, overlay};
ghost use Rattle.cell_nursery.specs.Drain.{due};
ghost use Rattle.cell_nursery.specs.Layout.{waiter_of, entries_of, waiting_of};
ghost use Rattle.cell_nursery.specs.Held.{CellsHeld, EntriesHeld, WaitingHeld};
ghost use Rattle.cell_nursery.specs.Rows.{handed_out, promoted_row, waiter_at_row};
ghost use Rattle.nursery_lookup.specs.Rows.{row_in};

use cell_nursery::Nursery;

// How many waiting rows are due at a round, by the record's delay: they stand first, since the rows stand by born round.
pub fn due_rows(r: Nursery, ws: &[u64], round: u32) -> usize
    requires { WaitingHeld r ws.now }
    ensures { result ≡ length (keep (due r.delay round) (waiting_of r.waiting ws.now)) }
{
    let this_round = round as u64;
    if this_round < r.delay {
        return 0;
    }
    row_search::find(ws, 5, r.waiting, this_round - r.delay + 1)
}

// The row of the entry that waiting row i names, by its hash and its round.
fn promoted_row(r: Nursery, es: &[u64], ws: &[u64], i: usize) -> Option<usize>
    requires { EntriesHeld r es.now × (i * 5 + 5 ≤ length ws.now) }
    ensures row { result ≡ row_in r.entries (promoted_row r es.now (waiter_at_row ws.now i)) }
    ensures fits { IfSome result (λ k. k * 8 + 8 ≤ length es.now) }
{
    let k = nursery_lookup::find_hash(r, es, row_search::wide_at(ws, i * 5 + 1))?;
    (es[k * 8 + 5] == ws[i * 5]).then_some(k)
}

// How many bytes waiting row i hands out.
fn row_len(r: Nursery, es: &[u64], ws: &[u64], cs: &[u8], i: usize) -> usize
    requires { EntriesHeld r es.now × CellsHeld r cs.now × (i * 5 + 5 ≤ length ws.now) }
    ensures { result ≡ length (handed_out (entries_of r.entries es.now cs.now) (waiter_of (waiter_at_row ws.now i))) }
{
    match promoted_row(r, es, ws, i) {
        Some(k) => 42 + es[k * 8 + 7] as usize,
        None => 0,
    }
}

// Whether what the first k waiting rows hand out fits so many bytes. What is left of them is counted down, so that no sum overflows.
pub fn rows_fit(r: Nursery, es: &[u64], ws: &[u64], cs: &[u8], k: usize, room: usize) -> bool
    requires { EntriesHeld r es.now × CellsHeld r cs.now × (k ≤ r.waiting) × (r.waiting * 5 ≤ length ws.now) }
    ensures { result ≡ leb (length (flat (handed_out (entries_of r.entries es.now cs.now)) (take k (waiting_of r.waiting ws.now)))) room }
{
    let mut left = room;
    for i in 0..k {
        let len = row_len(r, es, ws, cs, i);
        if left < len {
            return false;
        }
        left -= len;
    }
    true
}

// What waiting row i hands out goes to index `at`. Returns how many bytes those are.
fn write_row(
    r: Nursery,
    es: &[u64],
    ws: &[u64],
    cs: &[u8],
    i: usize,
    out: &mut [u8],
    at: usize,
) -> usize
    requires entries_held { EntriesHeld r es.now × CellsHeld r cs.now × (i * 5 + 5 ≤ length ws.now) }
    requires i_in_bounds { at + length (handed_out (entries_of r.entries es.now cs.now) (waiter_of (waiter_at_row ws.now i))) ≤ length out.old }
    ensures { (result ≡ length (handed_out (entries_of r.entries es.now cs.now) (waiter_of (waiter_at_row ws.now i)))) × (out.new ≡ paste out.old at (handed_out (entries_of r.entries es.now cs.now) (waiter_of (waiter_at_row ws.now i))) result) }
{
    let Some(k) = promoted_row(r, es, ws, i) else {
        return 0;
    };
    listing_rows::write_head(es, k, out, at);
    listing_rows::write_tail(es, k, cs, out, at + 40);
    42 + es[k * 8 + 7] as usize
}

// What the first k waiting rows hand out goes to the start of an output that has room for it. Returns how many bytes those are.
pub fn write_rows(r: Nursery, es: &[u64], ws: &[u64], cs: &[u8], k: usize, out: &mut [u8]) -> usize
    requires entries_held { EntriesHeld r es.now × CellsHeld r cs.now × (k ≤ r.waiting) × (r.waiting * 5 ≤ length ws.now) }
    requires ws_in_bounds { length (flat (handed_out (entries_of r.entries es.now cs.now)) (take k (waiting_of r.waiting ws.now))) ≤ length out.old }
    ensures { (result ≡ length (flat (handed_out (entries_of r.entries es.now cs.now)) (take k (waiting_of r.waiting ws.now)))) × (out.new ≡ overlay (flat (handed_out (entries_of r.entries es.now cs.now)) (take k (waiting_of r.waiting ws.now))) out.old) }
{
    let mut at = 0;
    for i in 0..k {
        at += write_row(r, es, ws, cs, i, out, at);
    }
    at
}
