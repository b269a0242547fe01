// Calls on a nursery.
use call_lists::answers::{key_end, put, put_byte, put_bytes, word};
use drain_abi::selvaigo_drain_promotable;
use entries_abi::{selvaigo_get_data, selvaigo_get_idx};
use listing_abi::selvaigo_snapshot_entries;
use nursery_abi::{selvaigo_apply_commit, selvaigo_nursery_new};
use reading_abi::selvaigo_read_journal;
use record_abi::selvaigo_scan_journal;
use slices::copy_at;

// The call has the numbers of inserts and removes, and the items.
fn apply_commit(
    nursery: &mut [u64; 4],
    entries: &mut [u64; 256],
    waiting: &mut [u64; 160],
    cells: &mut [u8; 2048],
    call: &[u8],
    out: &mut [u8],
) -> Option<usize> {
    if call.len() < 16 {
        return None;
    }
    let inserts = word(call, 0);
    let removes = word(call, 8);
    let items = &call[16..];
    let number = selvaigo_apply_commit(
        nursery, entries, waiting, cells, 0, inserts, removes, items,
    );
    put(out, number, &[0, 0])
}

fn read_journal(
    keyed: u8,
    key: &[u8],
    delay: u64,
    nursery: &mut [u64; 4],
    entries: &mut [u64; 256],
    waiting: &mut [u64; 160],
    cells: &mut [u8; 2048],
    journal: &[u8],
    out: &mut [u8],
) -> Option<usize> {
    let mut read = [7u64; 3];
    let number = selvaigo_read_journal(
        keyed, key, journal, delay, nursery, entries, waiting, cells, &mut read,
    );
    put(out, number, &read)
}

fn scan_journal(keyed: u8, key: &[u8], journal: &[u8], out: &mut [u8]) -> Option<usize> {
    let mut scan = [7u64; 3];
    let number = selvaigo_scan_journal(keyed, key, journal, &mut scan);
    put(out, number, &scan)
}

// The two calls in a mode, which stands before the journal.
fn read_in_mode(
    delay: u64,
    nursery: &mut [u64; 4],
    entries: &mut [u64; 256],
    waiting: &mut [u64; 160],
    cells: &mut [u8; 2048],
    call: &[u8],
    out: &mut [u8],
) -> Option<usize> {
    let end = key_end(call)?;
    let key = &call[2..end];
    let journal = &call[end..];
    read_journal(
        call[0], key, delay, nursery, entries, waiting, cells, journal, out,
    )
}

fn scan_in_mode(call: &[u8], out: &mut [u8]) -> Option<usize> {
    let end = key_end(call)?;
    scan_journal(call[0], &call[2..end], &call[end..], out)
}

fn drain(
    nursery: &mut [u64; 4],
    entries: &[u64],
    waiting: &mut [u64; 160],
    cells: &[u8],
    round: u64,
    out: &mut [u8],
) -> Option<usize> {
    if out.len() < 9 {
        return None;
    }
    let mut len = [7u64; 1];
    let born = (round % 4294967296) as u32;
    let body = &mut out[9..];
    let number = selvaigo_drain_promotable(nursery, entries, waiting, cells, born, body, &mut len);
    put(out, number, &len)?;
    Some(out.len())
}

// The hash that a call has.
fn key(call: &[u8]) -> [u8; 32] {
    let mut hash = [0u8; 32];
    if call.len() == 32 {
        copy_at(&mut hash, 0, call);
    }
    hash
}

fn get_idx(nursery: &[u64; 4], entries: &[u64], call: &[u8], out: &mut [u8]) -> Option<usize> {
    let hash = key(call);
    let mut found = [7u64; 2];
    let number = selvaigo_get_idx(nursery, entries, &hash, &mut found);
    put(out, number, &found)
}

// A cell's bytes go into the answer behind its number and a word.
fn put_cell(out: &mut [u8], cells: &[u8], place: u64, len: u64) -> Option<usize> {
    if (cells.len() as u64) < place {
        return None;
    }
    let at = place as usize;
    if ((cells.len() - at) as u64) < len {
        return None;
    }
    put_bytes(out, 9, &cells[at..at + len as usize])
}

fn get_data(
    nursery: &[u64; 4],
    entries: &[u64],
    cells: &[u8],
    call: &[u8],
    out: &mut [u8],
) -> Option<usize> {
    let hash = key(call);
    let mut found = [7u64; 3];
    let number = selvaigo_get_data(nursery, entries, cells, &hash, &mut found);
    put(out, number, &[found[0]])?;
    put_cell(out, cells, found[1], found[2])
}

fn listing(nursery: &[u64; 4], entries: &[u64], cells: &[u8], out: &mut [u8]) -> Option<usize> {
    if out.len() < 9 {
        return None;
    }
    let mut len = [7u64; 1];
    let number = selvaigo_snapshot_entries(nursery, entries, cells, &mut out[9..], &mut len);
    put(out, number, &len)?;
    Some(out.len())
}

// How many entries there are, and how many bytes their cells have.
fn totals(nursery: &[u64; 4], out: &mut [u8]) -> Option<usize> {
    put(out, 0, &[nursery[0], nursery[2]])
}

// The call has the place of a word, behind the table's number, and the word.
fn set_word(t: &mut [u64], call: &[u8]) -> u8 {
    let place = word(call, 8);
    if t.len() as u64 <= place {
        return 255;
    }
    t[place as usize] = word(call, 16);
    0
}

// What is made or read in behind this call has its delay.
fn set_delay(delay: &mut [u64; 1], call: &[u8]) -> u8 {
    *delay = [word(call, 0)];
    0
}

// A word of a table takes another value: of the record (0), of the entries (1) or of the waiting rows (2).
fn set(
    table: u64,
    nursery: &mut [u64; 4],
    entries: &mut [u64; 256],
    waiting: &mut [u64; 160],
    call: &[u8],
) -> u8 {
    match table {
        0 => set_word(nursery, call),
        1 => set_word(entries, call),
        2 => set_word(waiting, call),
        _ => 255,
    }
}

// Calls that change nothing.
fn read(
    kind: u8,
    nursery: &[u64; 4],
    entries: &[u64],
    cells: &[u8],
    call: &[u8],
    out: &mut [u8],
) -> Option<usize> {
    match kind {
        19 => get_idx(nursery, entries, call, out),
        20 => get_data(nursery, entries, cells, call, out),
        21 => listing(nursery, entries, cells, out),
        22 => totals(nursery, out),
        27 => put(out, 0, nursery),
        25 => scan_journal(0, &[], call, out),
        29 => scan_in_mode(call, out),
        _ => None,
    }
}

pub(crate) fn answer(
    kind: u8,
    delay: &mut [u64; 1],
    nursery: &mut [u64; 4],
    entries: &mut [u64; 256],
    waiting: &mut [u64; 160],
    cells: &mut [u8; 2048],
    call: &[u8],
    out: &mut [u8],
) -> Option<usize> {
    match kind {
        16 => apply_commit(nursery, entries, waiting, cells, call, out),
        17 => read_journal(
            0,
            &[],
            delay[0],
            nursery,
            entries,
            waiting,
            cells,
            call,
            out,
        ),
        18 => drain(nursery, entries, waiting, cells, word(call, 0), out),
        23 => put_byte(
            out,
            0,
            selvaigo_nursery_new(delay[0], nursery, entries, waiting, cells),
        ),
        24 => put_byte(out, 0, set(word(call, 0), nursery, entries, waiting, call)),
        26 => put_byte(out, 0, set_delay(delay, call)),
        28 => read_in_mode(delay[0], nursery, entries, waiting, cells, call, out),
        _ => read(kind, nursery, entries, cells, call, out),
    }
}
