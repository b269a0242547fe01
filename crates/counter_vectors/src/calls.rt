// Calls on counters and their snapshots.
ghost use Rattle.std.specs.Prelude.{◌≡◌, ◌≤◌, length};

use batch_abi::selvaigo_apply_batch;
use call_lists::answers::{put, put_byte, put_words, word};
use counters_abi::{selvaigo_alloc_idx, selvaigo_get, selvaigo_new};
use reading_abi::{selvaigo_deserialize_trusted, selvaigo_load_snapshot};
use shrink_abi::selvaigo_shrink_if_needed;
use snapshot_abi::{selvaigo_serialize, selvaigo_serialized_len};

// Room for 4,100 counts, with a word that belongs to none.
pub(crate) fn counts_room() -> [u64; 8201]
    ensures { 8201 ≡ length result }
{
    [0; 8201]
}

fn alloc_idx(state: &mut [u64; 16], out: &mut [u8]) -> Option<usize> {
    let mut idx = [7u64; 1];
    let number = selvaigo_alloc_idx(state, &mut idx);
    put(out, number, &idx)
}

fn shrink(state: &mut [u64; 16], counts: &[u64], saved: u64) -> u8 {
    let mut shrunk = [7u64; 9];
    selvaigo_shrink_if_needed(state, counts, saved, &mut shrunk)
}

// Word i of the call, and its last word behind it.
fn word_or_last(call: &[u8], i: usize) -> u64 {
    if i < call.len() / 8 {
        return word(call, 8 * i);
    }
    if call.len() < 8 {
        return 0;
    }
    word(call, call.len() - 8)
}

// The call's words from one on, and its last word to the end.
fn fill(t: &mut [u64], call: &[u8], from: usize) {
    for i in 0..t.len() {
        t[i] = word_or_last(call, std::num::wrapping_add_usize(from, i));
    }
}

fn apply_batch(state: &mut [u64; 16], counts: &mut [u64; 8201], call: &[u8]) -> u8 {
    let mut room = counts_room();
    let n = call.len() / 8;
    if 8201 < n {
        return 255;
    }
    let batch = &mut room[0..n];
    fill(batch, call, 0);
    selvaigo_apply_batch(state, counts, batch)
}

// The record and the table take the words of the call; its last one goes on to the end.
fn set(state: &mut [u64; 16], counts: &mut [u64; 8201], call: &[u8]) -> u8 {
    fill(state, call, 0);
    fill(counts, call, 16);
    0
}

// What is made or read in behind this call has its settings.
fn set_settings(settings: &mut [u64; 3], call: &[u8]) -> u8 {
    *settings = [word(call, 0), word(call, 8), word(call, 16)];
    0
}

fn new(settings: &[u64; 3], state: &mut [u64; 16], counts: &mut [u64], next: u64) -> u8 {
    let g = *settings;
    selvaigo_new(next, g[0], g[1], g[2], state, counts)
}

fn deserialize(
    settings: &[u64; 3],
    state: &mut [u64; 16],
    counts: &mut [u64],
    snapshot: &[u8],
) -> u8 {
    let g = *settings;
    selvaigo_deserialize_trusted(snapshot, g[0], g[1], g[2], state, counts)
}

fn load_snapshot(
    settings: &[u64; 3],
    state: &mut [u64; 16],
    counts: &mut [u64; 8201],
    snapshot: &[u8],
    out: &mut [u8],
) -> Option<usize> {
    let mut old_total = [7u64; 1];
    let g = *settings;
    let number = selvaigo_load_snapshot(snapshot, g[0], g[1], g[2], state, counts, &mut old_total);
    put(out, number, &old_total)
}

// Calls that may change the table, and give a number alone.
fn change(
    kind: u8,
    settings: &[u64; 3],
    state: &mut [u64; 16],
    counts: &mut [u64; 8201],
    call: &[u8],
) -> u8 {
    match kind {
        1 => new(settings, state, counts, word(call, 0)),
        2 => apply_batch(state, counts, call),
        3 => deserialize(settings, state, counts, call),
        _ => set(state, counts, call),
    }
}

fn get(state: &[u64; 16], counts: &[u64], idx: u64, out: &mut [u8]) -> Option<usize> {
    let mut count = [7u64; 1];
    let number = selvaigo_get(state, counts, idx, &mut count);
    put(out, number, &count)
}

fn serialize(state: &[u64; 16], counts: &[u64], out: &mut [u8]) -> Option<usize> {
    if out.len() < 9 {
        return None;
    }
    let mut len = [7u64; 1];
    let number = selvaigo_serialize(state, counts, &mut out[9..], &mut len);
    put(out, number, &len)?;
    Some(out.len())
}

fn serialized_len(state: &[u64; 16], counts: &[u64], out: &mut [u8]) -> Option<usize> {
    let mut len = [7u64; 1];
    let number = selvaigo_serialized_len(state, counts, &mut len);
    put(out, number, &len)
}

// How many words a table has if those at its end that are the same count as one.
fn told(t: &[u64]) -> usize
    ensures { result ≤ length t.now }
{
    let mut n = t.len();
    while 1 < n {
        if t[n - 2] != t[n - 1] {
            return n;
        }
        n -= 1;
    }
    n
}

// The record and the table, as `set` takes them.
fn look(state: &[u64; 16], counts: &[u64], out: &mut [u8]) -> Option<usize> {
    let n = told(counts);
    let at = put(out, 0, state)?;
    put_words(out, at, &counts[0..n])
}

// Calls that change nothing.
fn read(kind: u8, state: &[u64; 16], counts: &[u64], call: &[u8], out: &mut [u8]) -> Option<usize> {
    match kind {
        7 => get(state, counts, word(call, 0), out),
        8 => serialize(state, counts, out),
        9 => look(state, counts, out),
        10 => put(out, 0, state),
        11 => serialized_len(state, counts, out),
        _ => None,
    }
}

pub(crate) fn answer(
    kind: u8,
    settings: &mut [u64; 3],
    state: &mut [u64; 16],
    counts: &mut [u64; 8201],
    call: &[u8],
    out: &mut [u8],
) -> Option<usize> {
    match kind {
        1..=4 => put_byte(out, 0, change(kind, settings, state, counts, call)),
        5 => alloc_idx(state, out),
        6 => put_byte(out, 0, shrink(state, counts, word(call, 0))),
        12 => load_snapshot(settings, state, counts, call, out),
        13 => put_byte(out, 0, set_settings(settings, call)),
        _ => read(kind, state, counts, call, out),
    }
}
