// Whether bytes are a 64-bit Roaring bitmap, and its members.
use call_lists::answers::{put, put_words, text_room, word};
use call_lists::files::read_file;
use roaring_check::is_bitmap64;
use roaring_cursor::{next, start};
use std::rt::Files;

// More members than any bitmap of the list has.
const MANY: u64 = 10000000;

// Members that go on by one step, which the first two give: the first, the step, how many there are, and the last.
#[derive(Clone, Copy)]
struct Row {
    first: u64,
    step: u64,
    count: u64,
    last: u64,
}

// The row that begins with a member.
fn alone(x: u64) -> Row {
    Row {
        first: x,
        step: 0,
        count: 1,
        last: x,
    }
}

// The row with a member more, if it goes on with it.
fn with(r: Row, x: u64) -> Option<Row> {
    let step = std::num::wrapping_sub_u64(x, r.last);
    if r.count != 1 && step != r.step {
        return None;
    }
    Some(Row {
        first: r.first,
        step,
        count: std::num::wrapping_add_u64(r.count, 1),
        last: x,
    })
}

// A row that has ended goes into the answer.
fn put_row(out: &mut [u8], at: usize, r: Row) -> Option<usize> {
    put_words(out, at, &[r.first, r.step, r.count])
}

// 0, or 1 and the members in rows: first, step and how many of each.
fn members(s: &[u8], out: &mut [u8]) -> Option<usize> {
    if !is_bitmap64(s) {
        return put(out, 0, &[]);
    }
    let mut at = put(out, 1, &[])?;
    let Some((first, after)) = next(s, start(s)) else {
        return Some(at);
    };
    let mut r = alone(first);
    let mut c = after;
    for _ in 1..MANY {
        let Some((x, after)) = next(s, c) else {
            return put_row(out, at, r);
        };
        r = match with(r, x) {
            Some(longer) => longer,
            None => {
                at = put_row(out, at, r)?;
                alone(x)
            }
        };
        c = after;
    }
    None
}

fn change(buf: &mut [u8], at: u64, value: u8) {
    if at < buf.len() as u64 {
        buf[at as usize] = value;
    }
}

// The call has a place, two bytes that stand there then, and the name of a file. No byte is changed at a place behind the last one.
fn file(rt: &impl Files, call: &[u8], out: &mut [u8]) -> Option<usize> {
    if call.len() < 10 {
        return None;
    }
    let mut buf = text_room();
    let n = read_file(rt, &call[10..], &mut buf);
    let at = word(call, 0);
    change(&mut buf, at, call[8]);
    change(&mut buf, std::num::wrapping_add_u64(at, 1), call[9]);
    members(&buf[0..n], out)
}

pub(crate) fn answer(rt: &impl Files, kind: u8, call: &[u8], out: &mut [u8]) -> Option<usize> {
    match kind {
        48 => members(call, out),
        49 => file(rt, call, out),
        _ => None,
    }
}
