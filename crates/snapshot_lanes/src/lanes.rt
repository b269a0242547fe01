// The eight sets of a snapshot side by side: a cursor in each, so that the small tier comes out an index at a time, in order,
// and no room for it is lent.
ghost use Rattle.std.specs.Prelude.{◌≡◌, true, map, ◌+◌, ◌-◌, ◌^◌, ◌≤◌, ◌<◌, length, take, drop};
ghost use Rattle.base.specs.Logic.{pick};
ghost use Rattle.roaring.specs.Read.{is_some, parse64};
ghost use Rattle.roaring_cursor.specs.Cursor.{Good, members_from, members_of};
ghost use Rattle.snapshot_tiers.specs.Payloads.{rest_after, is_taken, payload_of, size_of, sets_of};
ghost use Rattle.snapshot_tiers.specs.Heads.{past, lower_by};
ghost use Rattle.snapshot_lanes.specs.Lanes.{lane_list, leads, Open, LaneOf, AllOpen, AtFirst, lowest_lane, code_lanes, small_head, Advanced, Opened};

use byte_numbers::read_le64;
use roaring_cursor::{Cursor, next, start};
use snapshot_tiers::Head;

// A set: its first member, where one is left, where its bytes stand, and the cursor behind that member.
#[derive(Clone, Copy)]
pub struct Lane {
    pub head: Option<u64>,
    pub at: usize,
    pub end: usize,
    pub cursor: Cursor,
}

// The set from a cursor on.
fn lane_from(s: &[u8], at: usize, end: usize, c: Cursor) -> Lane
    requires { (at ≤ end) × (end ≤ length s.now) × Good (take (end - at) (drop at s.now)) c }
    ensures { (LaneOf s.now (members_from (take (end - at) (drop at s.now)) c) result) × (result.end ≡ end) }
{
    match next(&s[at..end], c) {
        Some((x, d)) => Lane {
            head: Some(x),
            at,
            end,
            cursor: d,
        },
        None => Lane {
            head: None,
            at,
            end,
            cursor: c,
        },
    }
}

// The set of a bitmap.
fn open_part(s: &[u8], at: usize, end: usize) -> Lane
    requires { (at ≤ end) × (end ≤ length s.now) × (is_some (parse64 (take (end - at) (drop at s.now))) ≡ true) }
    ensures { (LaneOf s.now (members_of (take (end - at) (drop at s.now))) result) × (result.end ≡ end) }
{
    let c = start(&s[at..end]);
    lane_from(s, at, end, c)
}

// The set of the payload whose length stands at p.
fn open_at(s: &[u8], p: usize) -> Lane
    requires { AtFirst s.now p }
    ensures { (LaneOf s.now (members_of (payload_of (drop p s.now))) result) × (result.end ≡ p + 8 + size_of (drop p s.now)) }
{
    let size = read_le64(s, p) as usize;
    open_part(s, p + 8, p + 8 + size)
}

// Whether x is the first member.
fn leads(l: Lane, x: u64) -> bool
    ensures { result ≡ leads l.head x }
{
    l.head == Some(x)
}

// The set without its first member, where that is x.
fn past_lane(s: &[u8], l: Lane, x: u64) -> Lane
    requires { Open s.now l }
    ensures { LaneOf s.now (past x (lane_list s.now l)) result }
{
    if leads(l, x) {
        return lane_from(s, l.at, l.end, l.cursor);
    }
    l
}

// The lower of a set's first member and of what was found.
fn lower(l: Lane, h: Option<Head>) -> Option<Head>
    ensures { result ≡ lower_by l.head h }
{
    let Some(x) = l.head else {
        return h;
    };
    if let Some(b) = h {
        if b.idx <= x {
            return h;
        }
    }
    Some(Head { idx: x, count: 0 })
}

// The lowest first member.
fn lowest(lanes: [Lane; 8]) -> Option<Head>
    ensures { result ≡ lowest_lane lanes }
{
    let mut h = None;
    for k in (0..8).rev() {
        h = lower(lanes[k], h);
    }
    h
}

// The bit that set k lays at x.
fn bit(l: Lane, k: usize, x: u64) -> u64
    requires { k < 8 }
    ensures { result ≡ pick (leads l.head x) (2 ^ k) 0 }
{
    if leads(l, x) {
        return 1u64 << (k as u32);
    }
    0
}

// What the sets lay at x.
fn code(lanes: [Lane; 8], x: u64) -> u64
    ensures { (result ≡ code_lanes 0 x lanes) × (result < 256) }
{
    let mut sum: u64 = 0;
    for k in (0..8).rev() {
        sum += bit(lanes[k], k, x);
    }
    sum
}

// The first count of the small tier.
pub fn small_head(lanes: [Lane; 8]) -> Option<Head>
    ensures { result ≡ small_head lanes }
{
    let h = lowest(lanes)?;
    let c = code(lanes, h.idx);
    Some(Head {
        idx: h.idx,
        count: 1 + c,
    })
}

// The sets past x: each without its first member, where that is x.
pub fn advance(s: &[u8], lanes: [Lane; 8], x: u64) -> [Lane; 8]
    requires { AllOpen s.now lanes }
    ensures { Advanced s.now x lanes result }
{
    let mut out = lanes;
    for l in out.iter_mut() {
        *l = past_lane(s, *l, x);
    }
    out
}

// The sets of the eight payloads from `at` on.
pub fn open_all(s: &[u8], at: usize) -> [Lane; 8]
    requires { is_taken (rest_after 8 (drop at s.now)) ≡ true }
    ensures { Opened s.now at result }
{
    let first = open_at(s, at);
    let mut lanes = [first; 8];
    let mut p = at;
    for l in lanes.iter_mut() {
        *l = open_at(s, p);
        p = l.end;
    }
    lanes
}
