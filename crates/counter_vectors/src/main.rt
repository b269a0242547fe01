// Lists of calls on counters and their snapshots. `call_lists` says what a list is, and each in `data` how it was made.
//
// | kind | call | answer |
// |---|---|---|
// | 01 | new counters, under the settings of 0d: next index | number |
// | 02 | batch: index, old, new of each | number |
// | 03 | snapshot to read, under the settings of 0d | number |
// | 04 | the counters' record, then the table's words; the last goes on to the end | 0 |
// | 05 | allocation | number, index |
// | 06 | shrinking: bytes saved | number |
// | 07 | count: index | number, count |
// | 08 | snapshot | number, length, output |
// | 09 | | 0, record and table, as 04 takes them |
// | 0a | | 0, the counters' record |
// | 0b | length of the snapshot | number, length |
// | 0c | snapshot to load, under the settings of 0d | number, live total that it has |
// | 0d | settings of the calls behind it: base, maximum, good save; the standard ones before it | 0 |
#![tactic(auto)]

mod calls;

use call_lists::answers::{room, text_room};
use call_lists::files::read_file;
use call_lists::lines::{decode, spelled, spells, step_at};
use call_lists::tally::{Tally, counted, report};
use calls::counts_room;
use std::rt::Files;

// The answer to a call, which a text spells; its length, if it found room.
fn answer(
    text: &[u8],
    settings: &mut [u64; 3],
    state: &mut [u64; 16],
    counts: &mut [u64; 8201],
    out: &mut [u8],
) -> Option<usize> {
    let mut call = room();
    let n = decode(text, &mut call);
    if n < 1 {
        return None;
    }
    calls::answer(call[0], settings, state, counts, &call[1..n], out)
}

// Whether a call is answered as wanted. No answer has no bytes.
fn agrees(
    call: &[u8],
    wanted: &[u8],
    settings: &mut [u64; 3],
    state: &mut [u64; 16],
    counts: &mut [u64; 8201],
) -> bool {
    let mut room = room();
    let n = spelled(wanted);
    let out = &mut room[0..n];
    answer(call, settings, state, counts, out) == Some(n) && spells(wanted, out)
}

// The steps of a list, one after the other on one record and table.
fn replay(rt: &impl Print, name: &[u8], s: &[u8]) {
    let mut settings = [131072u64, 2097152, 1048576];
    let mut state = [0u64; 16];
    let mut counts = counts_room();
    let mut t = Tally { steps: 0, good: 0 };
    let mut at = 0;
    while at < s.len() {
        let p = step_at(s, at);
        let end = p.end;
        let wanted = p.wanted;
        let last = p.last;
        if at < end {
            let good = agrees(
                &s[at..end],
                &s[wanted..last],
                &mut settings,
                &mut state,
                &mut counts,
            );
            t = counted(rt, t, good, name);
        }
        at = p.next;
    }
    report(rt, name, t);
}

fn list(rt: &(impl Files + Print), name: &[u8]) {
    let mut text = text_room();
    let n = read_file(rt, name, &mut text);
    replay(rt, name, &text[0..n]);
}

fn main(rt: HostRuntime) {
    list(&rt, b"original");
    list(&rt, b"worked");
    list(&rt, b"snapshots");
    list(&rt, b"edges");
    list(&rt, b"cells");
    list(&rt, b"settings");
}
