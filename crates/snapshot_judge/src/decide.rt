// Whether bytes are a snapshot that a table has room for: the first refusal that is met, or what there is to lay into the table.
ghost use Rattle.std.specs.Prelude.{◌≡◌, length};
ghost use Rattle.snapshot_judge.specs.Decide.{Reached, verdict_of};

use crate::judge::judge;
use base::Refusal;
use byte_numbers::read_le64;
use snapshot_lanes::sets::sets_end;
use snapshot_tiers::large::any_low;

// What a snapshot holds: the next index, the live total, where the large counts start, how many these are, and how many counts
// both tiers have.
#[derive(Clone, Copy)]
pub struct Plan {
    pub next: u64,
    pub live: u64,
    pub end: usize,
    pub large: usize,
    pub rows: usize,
}

// The rest, where the eight payloads are bitmaps and end at `end`.
fn decide_large(s: &[u8], end: usize, room: usize) -> Result<Plan, Refusal>
    requires { Reached s.now end }
    ensures { result ≡ verdict_of room s.now }
{
    let left = s.len() - end;
    if left % 16 != 0 {
        return Err(Refusal::BadLarge);
    }
    let large = left / 16;
    if any_low(s, end, large) {
        return Err(Refusal::BadLarge);
    }
    let next = read_le64(s, 1);
    let live = read_le64(s, 9);
    let rows = judge(s, 17, end, large, next).ok_or(Refusal::TierClash)?;
    if room < rows {
        return Err(Refusal::TableFull);
    }
    Ok(Plan {
        next,
        live,
        end,
        large,
        rows,
    })
}

// The refusals in their order: 8 where there is nothing, 7, then 8 to 10 as they are met, 11, 6. 25 isn't among them: the plan has
// the live total and the rows, and a caller compares them.
pub fn decide(s: &[u8], room: usize) -> Result<Plan, Refusal>
    ensures { result ≡ verdict_of room s.now }
{
    if s.len() == 0 {
        return Err(Refusal::TornSnapshot);
    }
    if s[0] != 1 {
        return Err(Refusal::Version);
    }
    if s.len() < 17 {
        return Err(Refusal::TornSnapshot);
    }
    let end = sets_end(s, 17)?;
    decide_large(s, end, room)
}
