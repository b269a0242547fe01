// Lists of calls on a nursery. `call_lists` says what a list is, and each in `data` how it was made.
//
// | kind | call | answer |
// |---|---|---|
// | 10 | delta: inserts, removes, items | number, 0, 0 |
// | 11 | journal to read, with the delay of 1a | number, records applied, the place after them, the number that ended it |
// | 12 | drain: round | number, length, output |
// | 13 | hash | number, whether found, index |
// | 14 | hash | number, whether found, the cell |
// | 15 | listing | number, length, output |
// | 16 | | 0, entries, cell bytes |
// | 17 | new nursery, with the delay of 1a | number |
// | 18 | a word to write: 0 for the record, 1 for the entries, 2 for the waiting rows; its place; the word | 0 |
// | 19 | journal to scan | 0, records taken, the place after them, the number that ended it |
// | 1a | delay of the calls behind it; 100 before it | 0 |
// | 1b | | 0, the nursery's record |
// | 1c | journal to read in a mode: whether there is a key (a byte), its length (a byte), the key, the journal | as 11 |
// | 1d | journal to scan in a mode: the same | number, and as 19 |
#![tactic(auto)]

mod calls;

use call_lists::answers::{room, text_room};
use call_lists::files::read_file;
use call_lists::lines::{decode, spelled, spells, step_at};
use call_lists::tally::{Tally, counted, report};
use std::rt::Files;

// The answer to a call, which a text spells; its length, if it found room.
fn answer(
    text: &[u8],
    delay: &mut [u64; 1],
    nursery: &mut [u64; 4],
    entries: &mut [u64; 256],
    waiting: &mut [u64; 160],
    cells: &mut [u8; 2048],
    out: &mut [u8],
) -> Option<usize> {
    let mut call = room();
    let n = decode(text, &mut call);
    if n < 1 {
        return None;
    }
    calls::answer(
        call[0],
        delay,
        nursery,
        entries,
        waiting,
        cells,
        &call[1..n],
        out,
    )
}

// Whether a call is answered as wanted. No answer has no bytes.
fn agrees(
    call: &[u8],
    wanted: &[u8],
    delay: &mut [u64; 1],
    nursery: &mut [u64; 4],
    entries: &mut [u64; 256],
    waiting: &mut [u64; 160],
    cells: &mut [u8; 2048],
) -> bool {
    let mut room = room();
    let n = spelled(wanted);
    let out = &mut room[0..n];
    answer(call, delay, nursery, entries, waiting, cells, out) == Some(n) && spells(wanted, out)
}

// The steps of a list, one after the other on one nursery: at first an empty one with room for 32 entries and 2,048 cell bytes, and a delay of 100.
fn replay(rt: &impl Print, name: &[u8], s: &[u8]) {
    let mut delay = [100u64; 1];
    let mut nursery = [0u64, 0, 0, 100];
    let mut entries = [0u64; 256];
    let mut waiting = [0u64; 160];
    let mut cells = [0u8; 2048];
    let mut t = Tally { steps: 0, good: 0 };
    let mut at = 0;
    while at < s.len() {
        let p = step_at(s, at);
        let end = p.end;
        let wanted = p.wanted;
        let last = p.last;
        if at < end {
            let good = agrees(
                &s[at..end],
                &s[wanted..last],
                &mut delay,
                &mut nursery,
                &mut entries,
                &mut waiting,
                &mut cells,
            );
            t = counted(rt, t, good, name);
        }
        at = p.next;
    }
    report(rt, name, t);
}

fn list(rt: &(impl Files + Print), name: &[u8]) {
    let mut text = text_room();
    let n = read_file(rt, name, &mut text);
    replay(rt, name, &text[0..n]);
}

fn main(rt: HostRuntime) {
    list(&rt, b"original");
    list(&rt, b"edges");
    list(&rt, b"journals");
    list(&rt, b"settings");
    list(&rt, b"keyed_journals");
}
