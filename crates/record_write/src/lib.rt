// Encoding a delta as a record. What is lent is judged first; then the record is written behind its hash's 32 bytes, and the hash of what was
// written goes in front.
#![tactic(auto)]

ghost use Rattle.std.specs.Prelude.{◌≡◌, true, false, ◌+◌, ◌-◌, ◌≤◌, length, take, drop, option_copied};
ghost use Rattle.base.specs.Logic.{flat, max32};
ghost use Rattle.blake3.specs.Mode.{mode_in, hash_from};
ghost use Rattle.cell_nursery.specs.Entries.{insert_bytes};
ghost use Rattle.cell_nursery.specs.Calls.{length_width};
ghost use Rattle.delta_items.specs.Walk.{cell_len, insert_len, insert_in, inserts_in, inserts_fit, long_cell, delta_in};
ghost use Rattle.format.specs.Payload.{payload_bytes};
ghost use Rattle.format.specs.Record.{hashed};
ghost use Rattle.format.specs.Returned.{as_encoded};
ghost use Rattle.format.specs.Calls.{effect, encode_call, encode_under};
ghost use Rattle.record_write.specs.EncodeLaws.{Body};
ghost use Rattle.record_write.specs.Laid.{laid_at, head_bytes};

use base::Refusal;
use blake3::{Start, hash_from, start_of};
use byte_numbers::{write_le16, write_le32, write_le64};
use delta_items::{any_too_long, cell_bytes, cell_len, head_len, insert_end, removes_at};
use format::{EncodedRecord, RecordStats, metadata_len};
use slices::copy_at;

// The insert at `at` goes into the output from index `to` on, with its cell's length in 2 bytes.
fn write_insert(out: &mut [u8], to: usize, items: &[u8], at: usize, wide: bool)
    requires { (at + insert_len (length_width wide) (drop at items.now) ≤ length items.now) × (cell_len (length_width wide) (drop at items.now) ≤ 65535)
        × (to + (46 + cell_len (length_width wide) (drop at items.now)) ≤ length out.old) }
    ensures { out.new ≡ laid_at out.old to (insert_bytes (insert_in (length_width wide) (drop at items.now))) }
{
    let n = cell_len(items, at, wide);
    let head = at + 44;
    copy_at(out, to, &items[at..head]);
    write_le16(out, to + 44, n as u16);
    let cell = at + head_len(wide);
    let end = cell + n;
    copy_at(out, to + 46, &items[cell..end]);
}

// The inserts go into the output from index 56 on.
fn write_inserts(out: &mut [u8], items: &[u8], wide: bool, inserts: u64)
    requires { (inserts_fit (length_width wide) inserts items.now ≡ true) × (long_cell (inserts_in (length_width wide) inserts items.now) ≡ false)
        × (56 + length (flat insert_bytes (inserts_in (length_width wide) inserts items.now)) ≤ length out.old) }
    ensures { out.new ≡ laid_at out.old 56 (flat insert_bytes (inserts_in (length_width wide) inserts items.now)) }
{
    let mut to = 56;
    let mut at = 0;
    for _ in 0..inserts {
        write_insert(out, to, items, at, wide);
        to += 46 + cell_len(items, at, wide);
        at = insert_end(items, at, wide);
    }
}

// A payload's length, its id and its two counts go behind the hash's place.
fn write_head(out: &mut [u8], payload: u64, id: u64, inserts: u64, removes: u64)
    requires { (56 ≤ length out.old) × (inserts ≤ max32) × (removes ≤ max32) }
    ensures { out.new ≡ laid_at out.old 32 (head_bytes payload id inserts removes) }
{
    write_le64(out, 32, payload);
    write_le64(out, 40, id);
    write_le32(out, 48, inserts as u32);
    write_le32(out, 52, removes as u32);
}

// The hash of what stands behind its place, up to `len`, goes in front.
fn write_hash(start: Start, out: &mut [u8], len: usize)
    requires { (40 ≤ len) × (len ≤ length out.old) }
    ensures { out.new ≡ laid_at out.old 0 (hash_from start (take (len - 32) (drop 32 out.old))) }
{
    let h = hash_from(start, &out[32..len]);
    copy_at(out, 0, &h);
}

// All of a record behind its hash's place. The removes begin at `end` in the items, and the payload has `payload` bytes.
fn write_body(
    out: &mut [u8],
    id: u64,
    wide: bool,
    inserts: u64,
    removes: u64,
    items: &[u8],
    end: usize,
    payload: u64,
)
    requires { Body (length_width wide) inserts removes end payload (length out.old) items.now }
    ensures { out.new ≡ laid_at out.old 32 (hashed (payload_bytes id (delta_in (length_width wide) inserts removes items.now))) }
{
    write_head(out, payload, id, inserts, removes);
    write_inserts(out, items, wide, inserts);
    let n = 32 * removes as usize;
    let past = end + n;
    copy_at(out, 40 + payload as usize - n, &items[end..past]);
}

// The record of the delta that is lent goes into the output: 20, 14, 15. Nothing of the output beyond the record is touched.
fn encode_from(
    start: Start,
    id: u64,
    wide: bool,
    inserts: u64,
    removes: u64,
    items: &[u8],
    out: &mut [u8],
) -> Result<EncodedRecord, Refusal>
    ensures { effect (as_encoded result) out.new ≡ encode_call (hash_from start) id wide inserts removes items.now out.old }
{
    let Some(end) = removes_at(items, wide, inserts, removes) else {
        return Err(Refusal::Broken);
    };
    if any_too_long(items, wide, inserts, removes) {
        return Err(Refusal::TooLong);
    }
    let cells = cell_bytes(end, wide, inserts) as u64;
    let metadata = metadata_len(inserts, removes);
    let payload = metadata + cells;
    let len = 40 + payload as usize;
    if out.len() < len {
        return Err(Refusal::OutputFull);
    }
    write_body(out, id, wide, inserts, removes, items, end, payload);
    write_hash(start, out, len);
    Ok(EncodedRecord {
        len,
        stats: RecordStats {
            payload_bytes: payload,
            metadata_bytes: metadata,
            cell_bytes: cells,
            insert_ops: inserts,
            remove_ops: removes,
        },
    })
}

// The record of a delta under a key, or without one. The key is judged before what is lent.
pub fn encode_record(
    key: Option<&[u8]>,
    id: u64,
    wide: bool,
    inserts: u64,
    removes: u64,
    items: &[u8],
    out: &mut [u8],
) -> Result<EncodedRecord, Refusal>
    ensures { effect (as_encoded result) out.new
        ≡ encode_under (mode_in (option_copied key.entry)) id wide inserts removes items.now out.old }
{
    let start = start_of(key)?;
    encode_from(start, id, wide, inserts, removes, items, out)
}
