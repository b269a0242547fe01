// The counters' snapshot, written into a lent output.
//
// Whether the output is long enough is decided before a byte of it is touched, so the length comes first.
#![tactic(auto)]

ghost use Rattle.std.specs.Prelude.{◌≡◌, true, ◌≤◌, length};
ghost use Rattle.base.specs.Output.{as_wrote, effect};
ghost use Rattle.slices.specs.Places.{put_at};
ghost use Rattle.counters.specs.Layout.{state_of};
ghost use Rattle.counters.specs.Layout as layout;
ghost use Rattle.snapshot.specs.Write.{snapshot_bytes};
ghost use Rattle.snapshot.specs.Calls.{serialize_call, length_call};

use base::Refusal;
use byte_numbers::write_le64;
use counter_rows::holds;
use counters::Counters;
use snapshot_parts::{large_len, sets_len, write_large, write_sets};

// The first byte of a snapshot.
const VERSION: u8 = 1;

// How many bytes the snapshot takes, where the record and the table hold a state.
pub fn serialized_len_held(c: Counters, t: &[u64]) -> usize
    requires { layout.holds c t.now ≡ true }
    ensures { result ≡ length (snapshot_bytes (state_of c t.now)) }
{
    let n = c.stored;
    17 + sets_len(t, n) + large_len(t, n)
}

// How many bytes the snapshot takes.
pub fn serialized_len(c: Counters, t: &[u64]) -> Result<usize, Refusal>
    ensures { as_wrote result ≡ length_call c t.now }
{
    if !holds(c, t) {
        return Err(Refusal::Broken);
    }
    Ok(serialized_len_held(c, t))
}

// The snapshot goes into the start of an output that has room for it.
fn write_snapshot(out: &mut [u8], c: Counters, t: &[u64])
    requires { (layout.holds c t.now ≡ true) × (length (snapshot_bytes (state_of c t.now)) ≤ length out.old) }
    ensures { out.new ≡ put_at out.old 0 (snapshot_bytes (state_of c t.now)) }
{
    out[0] = VERSION;
    write_le64(out, 1, c.next_idx.0);
    write_le64(out, 9, c.live_cells);
    let n = c.stored;
    let end = write_sets(out, 17, t, n);
    write_large(out, end, t, n);
}

// Writes the snapshot, where the record and the table hold a state.
pub fn serialize_held(c: Counters, t: &[u64], out: &mut [u8]) -> Result<usize, Refusal>
    requires { layout.holds c t.now ≡ true }
    ensures { effect (as_wrote result) out.new ≡ serialize_call c t.now out.old }
{
    let len = serialized_len_held(c, t);
    if out.len() < len {
        return Err(Refusal::OutputFull);
    }
    write_snapshot(out, c, t);
    Ok(len)
}

// Writes the snapshot. Nothing beyond it is touched, and nothing at all beside a refusal.
pub fn serialize(c: Counters, t: &[u64], out: &mut [u8]) -> Result<usize, Refusal>
    ensures { effect (as_wrote result) out.new ≡ serialize_call c t.now out.old }
{
    if !holds(c, t) {
        return Err(Refusal::Broken);
    }
    serialize_held(c, t, out)
}
