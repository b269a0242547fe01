// Whether the nursery's lent tables hold a state: a pass over each table, and a look-up for each waiting row.
#![tactic(auto)]

ghost use Rattle.std.specs.Prelude.{◌≡◌, ◌*◌, ◌≤◌, length};
ghost use Rattle.rows.specs.Table.{rows_of};
ghost use Rattle.cell_nursery.specs.Layout.{entry_row, waiting_row, holds_entries, holds_waiting, holds_cells};
ghost use Rattle.cell_nursery.specs.Layout as layout;
ghost use Rattle.cell_nursery.specs.Rows.{fields_hold, rounds_hold};

use cell_nursery::{Nursery, delay_in_range};
use rows::Wide;

// Whether the first n rows of the entries have their fields in bounds and their cells end to end in so many bytes. A cell
// that would end past the last byte is refused before its length is added, so that no sum overflows.
fn fields_hold(t: &[u64], n: usize, bytes: u64) -> bool
    requires { n * 8 ≤ length t.now }
    ensures { result ≡ fields_hold 0 bytes (rows_of entry_row n t.now) }
{
    let mut place = 0;
    for i in 0..n {
        let len = t[i * 8 + 7];
        if t[i * 8 + 5] >= 4294967296
            || len > 65535
            || t[i * 8 + 6] != place
            || bytes - place < len
        {
            return false;
        }
        place += len;
    }
    place == bytes
}

// Whether no round of the first n waiting rows is before the one above it, and each has 32 bits.
fn rounds_hold(t: &[u64], n: usize) -> bool
    requires { n * 5 ≤ length t.now }
    ensures { result ≡ rounds_hold 0 (rows_of waiting_row n t.now) }
{
    let mut lo = 0;
    for i in 0..n {
        let born = t[i * 5];
        if born < lo || born >= 4294967296 {
            return false;
        }
        lo = born;
    }
    true
}

// Whether the record has a delay in range, and the entries hold what the record says: rows by ascending hash, then zeros.
pub fn holds_entries(r: Nursery, es: &[u64]) -> bool
    ensures { result ≡ holds_entries r es.now }
{
    let n = r.entries;
    delay_in_range(r.delay)
        && row_checks::holds_rows(es, 8, n)
        && row_checks::ascend::<Wide>(es, 8, n)
        && fields_hold(es, n, r.cell_bytes as u64)
}

// The same of the waiting rows, by round.
pub fn holds_waiting(r: Nursery, ws: &[u64]) -> bool
    ensures { result ≡ holds_waiting r ws.now }
{
    row_checks::holds_rows(ws, 5, r.waiting) && rounds_hold(ws, r.waiting)
}

// Whether the cells have room for the bytes that the record says, and zeros behind them.
pub fn holds_cells(r: Nursery, cs: &[u8]) -> bool
    ensures { result ≡ holds_cells r cs.now }
{
    r.cell_bytes <= cs.len() && slices::all_from(cs, r.cell_bytes, 0)
}

// Whether the record and the three tables are those of a state: the waiting table has a row for each entry, and each waiting row is an entry's.
pub fn holds(r: Nursery, es: &[u64], ws: &[u64], cs: &[u8]) -> bool
    ensures { result ≡ layout.holds r es.now ws.now cs.now }
{
    holds_entries(r, es)
        && holds_waiting(r, ws)
        && holds_cells(r, cs)
        && r.entries <= ws.len() / 5
        && waiting_checks::tied(r, es, ws)
}
