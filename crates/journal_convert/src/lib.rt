// Rewriting a journal without the bytes after each record's last item, up to the first record that is refused with 16 to 19.
//
// A first pass measures, so that nothing is written where an output is too short; it hashes every record. The second doesn't: it copies the records
// that have no leftovers, and hashes only those that it writes anew.
#![tactic(auto)]

ghost use Rattle.std.specs.Prelude.{◌≡◌, ◌+◌, ◌≤◌, length, take, drop};
ghost use Rattle.base.specs.Logic.{overlay};
ghost use Rattle.slices.specs.Places.{put_at};
ghost use Rattle.blake3.specs.Spec.{hash};
ghost use Rattle.format.specs.Record.{sealed};
ghost use Rattle.journal.specs.Returned.{as_converted};
ghost use Rattle.journal.specs.Convert.{convert, effect, convert_call};
ghost use Rattle.journal_convert.specs.Rewriting.{list_bytes, sizes_of, Kept, listed};

use base::Refusal;
use byte_numbers::write_le64;
use journal::Converted;
use record_read::{parse_record, parse_record_held};
use slices::copy_at;

// How far records are taken one after another, and the bytes of the new journal and of the list.
#[derive(Clone, Copy)]
struct Sizes {
    stop: usize,
    len: usize,
    dropped_len: usize,
}

// The sizes of s converted.
fn measure(s: &[u8]) -> Sizes
    ensures { result ≡ sizes_of hash s.now }
{
    let mut place = 0;
    let mut len = 0;
    let mut dropped_len = 0;
    while let Ok(d) = parse_record(&s[place..]) {
        let n = d.stats.payload_bytes as usize;
        let used = (d.stats.metadata_bytes + d.stats.cell_bytes) as usize;
        len += 40 + used;
        if used < n {
            dropped_len += 16;
        }
        place += 40 + n;
    }
    Sizes {
        stop: place,
        len: len + (s.len() - place),
        dropped_len,
    }
}

// The record of a payload goes to index `at`: its length and the payload, and the hash of both in front.
fn seal(out: &mut [u8], at: usize, p: &[u8])
    requires { at + (40 + length p.now) ≤ length out.old }
    ensures { out.new ≡ put_at out.old at (sealed hash p.now) }
{
    let head = at + 32;
    let body = at + 40;
    let end = body + p.len();
    write_le64(out, head, p.len() as u64);
    copy_at(out, body, p);
    let h = blake3::hash(&out[head..end]);
    copy_at(out, at, &h);
}

// The record s goes to index `at` with the first `used` bytes of its payload. Where those are all, it is as it was.
fn write_record(out: &mut [u8], at: usize, s: &[u8], used: usize)
    requires { Kept hash s.now used × (at + (40 + used) ≤ length out.old) }
    ensures { out.new ≡ put_at out.old at (sealed hash (take used (drop 40 s.now))) }
{
    let end = 40 + used;
    if end == s.len() {
        copy_at(out, at, s);
    } else {
        seal(out, at, &s[40..end]);
    }
}

// Leftovers are listed at index `at`, where there are any: the place where they start, and how many they are. Gives the index after them.
fn list_dropped(dropped: &mut [u8], at: usize, place: usize, count: usize) -> usize
    requires { at + length (listed place count) ≤ length dropped.old }
    ensures { (result ≡ at + length (listed place count)) × (dropped.new ≡ put_at dropped.old at (listed place count)) }
{
    if count == 0 {
        return at;
    }
    write_le64(dropped, at, place as u64);
    write_le64(dropped, at + 8, count as u64);
    at + 16
}

// Both outputs, which have room: the records before the stop, which the first pass took, without their leftovers, then the rest of s as it is; and
// the list.
fn rewrite(s: &[u8], sizes: Sizes, out: &mut [u8], dropped: &mut [u8])
    requires { (sizes ≡ sizes_of hash s.now) × (sizes.len ≤ length out.old) × (sizes.dropped_len ≤ length dropped.old) }
    ensures { (out.new ≡ overlay (convert hash s.now).bytes out.old) × (dropped.new ≡ overlay (list_bytes (convert hash s.now)) dropped.old) }
{
    let stop = sizes.stop;
    let mut place = 0;
    let mut at = 0;
    let mut to = 0;
    while place < stop {
        let d = parse_record_held(&s[place..]).unwrap();
        let n = d.stats.payload_bytes as usize;
        let used = (d.stats.metadata_bytes + d.stats.cell_bytes) as usize;
        let next = place + (40 + n);
        write_record(out, at, &s[place..next], used);
        to = list_dropped(dropped, to, place + (40 + used), n - used);
        at += 40 + used;
        place = next;
    }
    copy_at(out, at, &s[place..]);
}

// Rewrites the journal s without leftovers into one output, and lists in the other what was dropped.
pub fn convert_journal(s: &[u8], out: &mut [u8], dropped: &mut [u8]) -> Result<Converted, Refusal>
    ensures { effect (as_converted result) out.new dropped.new ≡ convert_call hash s.now out.old dropped.old }
{
    let sizes = measure(s);
    let len = sizes.len;
    let dropped_len = sizes.dropped_len;
    if out.len() < len {
        return Err(Refusal::OutputFull);
    }
    if dropped.len() < dropped_len {
        return Err(Refusal::OutputFull);
    }
    rewrite(s, sizes, out, dropped);
    Ok(Converted { len, dropped_len })
}
