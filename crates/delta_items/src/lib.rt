// The items of a lent delta, walked by places: what stands where in an insert, where the inserts end, and what is over a limit. Nothing is
// copied. `wide` says that a cell's length has 4 bytes, else it has 2.
#![tactic(auto)]

ghost use Rattle.std.specs.Prelude.{◌≡◌, true, ◌+◌, ◌-◌, ◌*◌, ◌≤◌, length, drop, leb};
ghost use Rattle.cell_nursery.specs.Delta.{too_long};
ghost use Rattle.cell_nursery.specs.Calls.{length_width};
ghost use Rattle.delta_items.specs.Walk.{
  idx_in,
  born_in,
  cell_len,
  insert_len,
  inserts_in,
  inserts_fit,
  inserts_end,
  long_cell,
  items_fit,
  delta_in,
  removes_at,
};

use byte_numbers::{read_le16, read_le32, read_le64};

// How many bytes an insert has before its cell.
pub fn head_len(wide: bool) -> usize
    ensures { result ≡ 44 + length_width wide }
{
    if wide { 48 } else { 46 }
}

// The index of the insert at `at`.
pub fn idx_at(items: &[u8], at: usize) -> u64
    requires { at + 40 ≤ length items.now }
    ensures { result ≡ idx_in (drop at items.now) }
{
    read_le64(items, at + 32)
}

// The born round of the insert at `at`.
pub fn born_at(items: &[u8], at: usize) -> u32
    requires { at + 44 ≤ length items.now }
    ensures { result ≡ born_in (drop at items.now) }
{
    read_le32(items, at + 40)
}

// The length of the cell of the insert at `at`.
pub fn cell_len(items: &[u8], at: usize, wide: bool) -> usize
    requires { at + (44 + length_width wide) ≤ length items.now }
    ensures { result ≡ cell_len (length_width wide) (drop at items.now) }
{
    if wide {
        return read_le32(items, at + 44) as usize;
    }
    read_le16(items, at + 44) as usize
}

// Where the insert at `at` ends, which stands there whole.
pub fn insert_end(items: &[u8], at: usize, wide: bool) -> usize
    requires { at + insert_len (length_width wide) (drop at items.now) ≤ length items.now }
    ensures { result ≡ at + insert_len (length_width wide) (drop at items.now) }
{
    at + head_len(wide) + cell_len(items, at, wide)
}

// Whether an insert stands whole at `at`.
fn insert_fits(items: &[u8], at: usize, wide: bool) -> bool
    requires { at ≤ length items.now }
    ensures { result ≡ leb (insert_len (length_width wide) (drop at items.now)) (length (drop at items.now)) }
{
    let head = head_len(wide);
    let left = items.len() - at;
    if left < head {
        return false;
    }
    cell_len(items, at, wide) <= left - head
}

// Where so many inserts end, or none where they run past the items.
fn inserts_end(items: &[u8], wide: bool, inserts: u64) -> Option<usize>
    ensures { result ≡ inserts_end (length_width wide) inserts items.now }
{
    let mut at = 0;
    for _ in 0..inserts {
        if !insert_fits(items, at, wide) {
            return None;
        }
        at = insert_end(items, at, wide);
    }
    Some(at)
}

// Where the removes of a delta begin, or none where its items run past their bytes. Any number may be stated.
pub fn removes_at(items: &[u8], wide: bool, inserts: u64, removes: u64) -> Option<usize>
    ensures { result ≡ removes_at (length_width wide) inserts removes items.now }
{
    let at = inserts_end(items, wide, inserts)?;
    let room = ((items.len() - at) / 32) as u64;
    if room < removes {
        return None;
    }
    Some(at)
}

// The bytes of all cells of inserts that end at `end`: what their heads leave. (`WalkLaws` has that this is their sum.)
pub fn cell_bytes(end: usize, wide: bool, inserts: u64) -> usize
    requires { inserts * (44 + length_width wide) ≤ end }
    ensures { result ≡ end - inserts * (44 + length_width wide) }
{
    end - inserts as usize * head_len(wide)
}

// Whether a cell is over 65,535 bytes.
fn long_cell(items: &[u8], wide: bool, inserts: u64) -> bool
    requires { inserts_fit (length_width wide) inserts items.now ≡ true }
    ensures { result ≡ long_cell (inserts_in (length_width wide) inserts items.now) }
{
    let mut at = 0;
    for _ in 0..inserts {
        if 65535 < cell_len(items, at, wide) {
            return true;
        }
        at = insert_end(items, at, wide);
    }
    false
}

// Whether a delta has a cell over 65,535 bytes, or a list over 2^32 - 1 items.
pub fn any_too_long(items: &[u8], wide: bool, inserts: u64, removes: u64) -> bool
    requires { items_fit (length_width wide) inserts removes items.now ≡ true }
    ensures { result ≡ too_long (delta_in (length_width wide) inserts removes items.now) }
{
    if long_cell(items, wide, inserts) {
        return true;
    }
    4294967295 < inserts || 4294967295 < removes
}
