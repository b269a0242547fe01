// House items, as boxrun replays them: the item that bytes begin with, the call that its kind and body stand for, run on a box's
// records and lent tables, and the numbers of the line that is printed for it.
#![tactic(auto)]

ghost use Rattle.std.specs.Prelude.{◌≡◌, List, ℕ, ◌*◌, ◌≤◌, length};
ghost use Rattle.std.proofs.Math.Seq.{paste};
ghost use Rattle.base.specs.Answers.{answered};
ghost use Rattle.box_items.specs.Returned.{as_ran};
ghost use Rattle.box_items.specs.Items.{effect, box_of, ran, words_in, allocate_item, batch_item, delta_item, drain_item, call_of, item_call, line_of, turn_effect, turn};
ghost use Rattle.box_items.specs.ItemLaws.{items_fill};

use base::Refusal;
use box_lines::{Line, body_len, kind_of};
use byte_numbers::{read_le32, read_le64};
use cell_nursery::Nursery;
use counters::Counters;

// What running an item's call gives: its answer, and the box's records after it.
#[derive(Clone, Copy)]
struct Ran {
    answer: Result<(), Refusal>,
    counters: Counters,
    nursery: Nursery,
}

// What an item of a run gives: its line, whether it stands for a call, and the box's records after it.
#[derive(Clone, Copy)]
pub struct Next {
    pub line: Line,
    pub good: bool,
    pub counters: Counters,
    pub nursery: Nursery,
}

// The numbers of an item's line.
fn line_of(place: u64, kind: u16, answer: Result<(), Refusal>, counters: Counters) -> Line
    ensures { result ≡ line_of place kind (answered answer) counters }
{
    Line {
        place,
        kind,
        answer: base::answer_number(answer),
        next: counters.next_idx.0,
        live: counters.live_cells,
    }
}

// Kind 1. It is lent no table: whatever they hold, they stay so.
fn run_allocate(counters: Counters, nursery: Nursery, body: &[u8]) -> Option<Ran>
    ensures { (t es ws cs : List ℕ) → effect (as_ran counters nursery result) t es ws cs ≡ ran (box_of counters t nursery es ws cs) (allocate_item body.now) }
{
    if body.len() != 0 {
        return None;
    }
    match counter_table::alloc_idx(counters) {
        Ok((_, after)) => Some(Ran {
            answer: Ok(()),
            counters: after,
            nursery,
        }),
        Err(refusal) => Some(Ran {
            answer: Err(refusal),
            counters,
            nursery,
        }),
    }
}

// The first n words of a body go to the start of `words`.
fn read_words(body: &[u8], words: &mut [u64], n: usize)
    requires { (8 * n ≤ length body.now) × (n ≤ length words.old) }
    ensures { words.new ≡ paste words.old 0 (words_in n body.now) n }
{
    for i in 0..n {
        words[i] = read_le64(body, 8 * i);
    }
}

// Kind 2. It is lent the counts alone.
fn run_batch(counters: Counters, nursery: Nursery, t: &mut [u64], body: &[u8]) -> Option<Ran>
    requires { length body.now ≤ 32768 }
    ensures { (es ws cs : List ℕ) → effect (as_ran counters nursery result) t.new es ws cs ≡ ran (box_of counters t.old nursery es ws cs) (batch_item body.now) }
{
    if body.len() % 24 != 0 {
        return None;
    }
    let n = body.len() / 8;
    let mut words = [0u64; 4096];
    read_words(body, &mut words, n);
    match counter_batch::apply_batch(counters, t, &words[0..n]) {
        Ok(after) => Some(Ran {
            answer: Ok(()),
            counters: after,
            nursery,
        }),
        Err(refusal) => Some(Ran {
            answer: Err(refusal),
            counters,
            nursery,
        }),
    }
}

// Whether a payload's items stand whole behind its 16 bytes, and nothing after them.
fn items_fill(items: &[u8], inserts: u64, removes: u64) -> bool
    ensures { result ≡ items_fill inserts removes items.now }
{
    let Some(at) = delta_items::removes_at(items, false, inserts, removes) else {
        return false;
    };
    at + 32 * removes as usize == items.len()
}

// Kind 3. It is lent the nursery's tables.
fn run_delta(
    counters: Counters,
    nursery: Nursery,
    es: &mut [u64],
    ws: &mut [u64],
    cs: &mut [u8],
    body: &[u8],
) -> Option<Ran>
    ensures { (t : List ℕ) → effect (as_ran counters nursery result) t es.new ws.new cs.new ≡ ran (box_of counters t nursery es.old ws.old cs.old) (delta_item body.now) }
{
    if body.len() < 16 {
        return None;
    }
    let inserts = read_le32(body, 8) as u64;
    let removes = read_le32(body, 12) as u64;
    if !items_fill(&body[16..], inserts, removes) {
        return None;
    }
    let items = &body[16..];
    match nursery_commit::apply_commit(nursery, es, ws, cs, false, inserts, removes, items) {
        Ok(after) => Some(Ran {
            answer: Ok(()),
            counters,
            nursery: after,
        }),
        Err(refusal) => Some(Ran {
            answer: Err(refusal),
            counters,
            nursery,
        }),
    }
}

// Kind 4. What is handed out goes to an output with room for all entries, and no further.
fn run_drain(
    counters: Counters,
    nursery: Nursery,
    es: &[u64],
    ws: &mut [u64],
    cs: &[u8],
    body: &[u8],
) -> Option<Ran>
    ensures { (t : List ℕ) → effect (as_ran counters nursery result) t es.now ws.new cs.now ≡ ran (box_of counters t nursery es.now ws.old cs.now) (drain_item body.now) }
{
    if body.len() != 4 {
        return None;
    }
    let round = read_le32(body, 0);
    let mut out = [0u8; 27136];
    match nursery_drain::drain_promotable(nursery, es, ws, cs, round, &mut out) {
        Ok((_, after)) => Some(Ran {
            answer: Ok(()),
            counters,
            nursery: after,
        }),
        Err(refusal) => Some(Ran {
            answer: Err(refusal),
            counters,
            nursery,
        }),
    }
}

// Runs the call of an item on a box, or does nothing where it is bad.
fn run_item(
    counters: Counters,
    nursery: Nursery,
    t: &mut [u64],
    es: &mut [u64],
    ws: &mut [u64],
    cs: &mut [u8],
    kind: u16,
    body: &[u8],
) -> Option<Ran>
    ensures { effect (as_ran counters nursery result) t.new es.new ws.new cs.new ≡ ran (box_of counters t.old nursery es.old ws.old cs.old) (call_of kind body.now) }
{
    if 32768 < body.len() {
        return None;
    }
    match kind {
        1 => run_allocate(counters, nursery, body),
        2 => run_batch(counters, nursery, t, body),
        3 => run_delta(counters, nursery, es, ws, cs, body),
        4 => run_drain(counters, nursery, es, ws, cs, body),
        _ => None,
    }
}

// Runs the item that bytes begin with.
fn run_bytes(
    counters: Counters,
    nursery: Nursery,
    t: &mut [u64],
    es: &mut [u64],
    ws: &mut [u64],
    cs: &mut [u8],
    bytes: &[u8],
) -> Option<Ran>
    ensures { effect (as_ran counters nursery result) t.new es.new ws.new cs.new ≡ ran (box_of counters t.old nursery es.old ws.old cs.old) (item_call bytes.now) }
{
    if bytes.len() < 6 {
        return None;
    }
    let len = body_len(bytes);
    if bytes.len() - 6 < len {
        return None;
    }
    let kind = kind_of(bytes);
    run_item(counters, nursery, t, es, ws, cs, kind, &bytes[6..6 + len])
}

// The same, with its line. A run goes on from where a good item ends, at the next place.
pub fn run_next(
    counters: Counters,
    nursery: Nursery,
    t: &mut [u64],
    es: &mut [u64],
    ws: &mut [u64],
    cs: &mut [u8],
    place: u64,
    bytes: &[u8],
) -> Next
    ensures { turn_effect result t.new es.new ws.new cs.new ≡ turn (box_of counters t.old nursery es.old ws.old cs.old) place bytes.now }
{
    let kind = kind_of(bytes);
    let ran = run_bytes(counters, nursery, t, es, ws, cs, bytes);
    let Some(after) = ran else {
        return Next {
            line: line_of(place, kind, Err(Refusal::Broken), counters),
            good: false,
            counters,
            nursery,
        };
    };
    Next {
        line: line_of(place, kind, after.answer, after.counters),
        good: true,
        counters: after.counters,
        nursery: after.nursery,
    }
}
