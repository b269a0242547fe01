// Lists of calls that need no box: hashes, records, bitmaps, and the rules of shrinking. `call_lists` says what a list is, and each in `data` how it was made.
//
// | kind | call | answer |
// |---|---|---|
// | 20 | bytes | their hash |
// | 21 | length of a published input | its hash |
// | 22 | record to write: id, inserts, removes, whether lengths are wide (a byte), items | number, six figures, output |
// | 23 | record to read | number, eight figures, hash |
// | 24 | record to read and write again | the same, and whether it is written as it was (a byte) |
// | 25 | alive, removed, minimum | whether to shrink |
// | 26 | threshold, bytes saved, base, maximum, good save | the threshold after it (a word) |
// | 27 | journal to convert: the length of the output for the list of what is dropped, journal | number, the two lengths, the list's output, the new journal's output |
// | 28 | length of a published input, key | number, its hash under the key |
// | 29 | record to write in a mode: whether there is a key (a byte), its length (a byte), the key, then as 22 | as 22 |
// | 2a | record to read in a mode: the same before the record | as 23 |
// | 30 | bytes | 0 where they are no bitmap; else 1, then first, step and number of its members' rows |
// | 31 | place and two bytes to change, name of a file | the same of the file |
#![tactic(auto)]

mod bitmap_calls;
mod calls;

use call_lists::answers::{room, text_room};
use call_lists::files::read_file;
use call_lists::lines::{decode, spelled, spells, step_at};
use call_lists::tally::{Tally, counted, report};
use std::rt::Files;

// The answer to a call, which a text spells; its length, if it found room.
fn answer(rt: &impl Files, text: &[u8], out: &mut [u8]) -> Option<usize> {
    let mut call = room();
    let n = decode(text, &mut call);
    if n < 1 {
        return None;
    }
    let kind = call[0];
    let body = &call[1..n];
    match kind / 16 {
        2 => calls::answer(kind, body, out),
        3 => bitmap_calls::answer(rt, kind, body, out),
        _ => None,
    }
}

// Whether a call is answered as wanted. No answer has no bytes.
fn agrees(rt: &impl Files, call: &[u8], wanted: &[u8]) -> bool {
    let mut room = room();
    let n = spelled(wanted);
    let out = &mut room[0..n];
    answer(rt, call, out) == Some(n) && spells(wanted, out)
}

// The steps of a list, one after the other.
fn replay(rt: &(impl Files + Print), name: &[u8], s: &[u8]) {
    let mut t = Tally { steps: 0, good: 0 };
    let mut at = 0;
    while at < s.len() {
        let p = step_at(s, at);
        let end = p.end;
        let wanted = p.wanted;
        let last = p.last;
        if at < end {
            let good = agrees(rt, &s[at..end], &s[wanted..last]);
            t = counted(rt, t, good, name);
        }
        at = p.next;
    }
    report(rt, name, t);
}

fn list(rt: &(impl Files + Print), name: &[u8]) {
    let mut text = text_room();
    let n = read_file(rt, name, &mut text);
    replay(rt, name, &text[0..n]);
}

fn main(rt: HostRuntime) {
    list(&rt, b"original");
    list(&rt, b"records");
    list(&rt, b"long_record");
    list(&rt, b"hashes");
    list(&rt, b"keyed_hashes");
    list(&rt, b"keyed_records");
    list(&rt, b"keyed_long");
    list(&rt, b"bitmaps");
    list(&rt, b"edges");
    list(&rt, b"converted");
}
