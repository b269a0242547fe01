// The rows of a nursery's entries as bytes: the listing by ascending hash, each entry as a record's insert has it. And the parts in
// which an entry is written, which draining shares.
#![tactic(auto)]

ghost use Rattle.std.specs.Prelude.{◌≡◌, ◌+◌, ◌*◌, ◌≤◌, length, get_or};
ghost use Rattle.std.proofs.Math.Seq.{paste};
ghost use Rattle.base.specs.Logic.{overlay};
ghost use Rattle.cell_nursery.specs.Entries.{insert_bytes};
ghost use Rattle.cell_nursery.specs.Drain.{listing_bytes};
ghost use Rattle.cell_nursery.specs.Layout.{entry_of, entries_of};
ghost use Rattle.cell_nursery.specs.Held.{CellsHeld, EntriesHeld};
ghost use Rattle.cell_nursery.specs.Rows.{RowFits, entry_at_row, head_bytes, tail_bytes};

use cell_nursery::Nursery;

// The hash and the index of row k go into the 40 bytes from index `at`.
pub fn write_head(es: &[u64], k: usize, out: &mut [u8], at: usize)
    requires { (k * 8 + 8 ≤ length es.now) × (at + 40 ≤ length out.old) }
    ensures { out.new ≡ paste out.old at (head_bytes es.now k) 40 }
{
    hash_words::write_wide(out, at, row_search::wide_at(es, k * 8));
    byte_numbers::write_le64(out, at + 32, es[k * 8 + 4]);
}

// The length of row k's cell in 2 bytes and the cell go to index `at`.
pub fn write_tail(es: &[u64], k: usize, cs: &[u8], out: &mut [u8], at: usize)
    requires { RowFits es.now cs.now k × (at + 2 + get_or es.now (k * 8 + 7) 0 ≤ length out.old) }
    ensures { out.new ≡ paste out.old at (tail_bytes es.now cs.now k) (2 + get_or es.now (k * 8 + 7) 0) }
{
    let len = es[k * 8 + 7];
    let from = es[k * 8 + 6] as usize;
    let to = from + len as usize;
    byte_numbers::write_le16(out, at, len as u16);
    slices::copy_at(out, at + 2, &cs[from..to]);
}

// Row k goes to index `at` as an insert of a record.
fn write_insert(es: &[u64], k: usize, cs: &[u8], out: &mut [u8], at: usize)
    requires { RowFits es.now cs.now k × (at + 46 + get_or es.now (k * 8 + 7) 0 ≤ length out.old) }
    ensures { out.new ≡ paste out.old at (insert_bytes (entry_of cs.now (entry_at_row es.now k))) (46 + get_or es.now (k * 8 + 7) 0) }
{
    write_head(es, k, out, at);
    byte_numbers::write_le32(out, at + 40, es[k * 8 + 5] as u32);
    write_tail(es, k, cs, out, at + 44);
}

// The whole listing goes to the start of an output that has room for it.
pub fn write_listing(r: Nursery, es: &[u64], cs: &[u8], out: &mut [u8])
    requires { EntriesHeld r es.now × CellsHeld r cs.now × (r.entries * 46 + r.cell_bytes ≤ length out.old) }
    ensures { out.new ≡ overlay (listing_bytes (entries_of r.entries es.now cs.now)) out.old }
{
    let mut at = 0;
    for i in 0..r.entries {
        write_insert(es, i, cs, out, at);
        at += 46 + es[i * 8 + 7] as usize;
    }
}
