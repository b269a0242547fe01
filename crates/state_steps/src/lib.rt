// What a call gives, written as words: each step writes the values and the record, which stays as it is beside a refusal, and returns the answer's
// number.
#![tactic(auto)]

ghost use Rattle.std.specs.Prelude.{◌≡◌, [], ◌∷◌};
ghost use Rattle.base.specs.Answers.{answered, answer_number};
ghost use Rattle.base.specs.Output.{as_wrote};
ghost use Rattle.counters.specs.Returned.{as_allocated, as_got, as_shrunk};
ghost use Rattle.counters.specs.Calls.{no_counters};
ghost use Rattle.cell_nursery.specs.Returned.{as_drained, as_found, as_place};
ghost use Rattle.state_words.specs.Words.{counters_words, nursery_of, nursery_words, words_left, bit, decisions};

use base::{Refusal, answer_number};
use cell_nursery::{CellPlace, Nursery};
use counters::{Counters, Idx, RefCount, Shrunk};
use state_words::{counters_words, nursery_words};

// The index that is handed out, 0 beside a refusal, and the record after it.
pub fn put_allocated(
    handed: Result<(Idx, Counters), Refusal>,
    state: &mut [u64; 16],
    idx: &mut [u64; 1],
) -> u8
    ensures { (result ≡ answer_number (answered handed)) × (idx.new ≡ (as_allocated no_counters handed).idx.0 ∷ []) × (state.new ≡ words_left (λ a. counters_words a.1) state.old handed) }
{
    *idx = [0];
    if let Ok((next, after)) = handed {
        *idx = [next.0];
        *state = counters_words(after);
    }
    answer_number(handed)
}

// A count that was read is written, 0 beside a refusal.
pub fn put_got(got: Result<RefCount, Refusal>, count: &mut [u64; 1]) -> u8
    ensures { (result ≡ answer_number (answered got)) × (count.new ≡ (as_got got).count.0 ∷ []) }
{
    *count = match got {
        Ok(read) => [read.0],
        Err(_) => [0],
    };
    answer_number(got)
}

// The record of counters that a call leaves, makes or reads in.
pub fn put_counters(counters: Result<Counters, Refusal>, state: &mut [u64; 16]) -> u8
    ensures { (result ≡ answer_number (answered counters)) × (state.new ≡ words_left counters_words state.old counters) }
{
    if let Ok(after) = counters {
        *state = counters_words(after);
    }
    answer_number(counters)
}

// The nine decisions, nine times no beside a refusal, and the record after them.
pub fn put_shrunk(
    decided: Result<Shrunk, Refusal>,
    state: &mut [u64; 16],
    shrunk: &mut [u64; 9],
) -> u8
    ensures { (result ≡ answer_number (answered decided)) × (shrunk.new ≡ decisions (as_shrunk no_counters decided).alive (as_shrunk no_counters decided).small) × (state.new ≡ words_left (λ s. counters_words s.counters) state.old decided) }
{
    *shrunk = [0; 9];
    if let Ok(after) = decided {
        let sets = after.small.map(u64::from);
        *shrunk = [
            u64::from(after.alive),
            sets[0],
            sets[1],
            sets[2],
            sets[3],
            sets[4],
            sets[5],
            sets[6],
            sets[7],
        ];
        *state = counters_words(after.counters);
    }
    answer_number(decided)
}

// The record of a nursery that a call leaves, makes or reads in.
pub fn put_nursery(nursery: Result<Nursery, Refusal>, state: &mut [u64; 4]) -> u8
    ensures { (result ≡ answer_number (answered nursery)) × (state.new ≡ words_left nursery_words state.old nursery) }
{
    if let Ok(after) = nursery {
        *state = nursery_words(after);
    }
    answer_number(nursery)
}

// The record after draining, and how many bytes were handed out, 0 beside a refusal.
pub fn put_drained(
    drained: Result<(usize, Nursery), Refusal>,
    state: &mut [u64; 4],
    len: &mut [u64; 1],
) -> u8
    ensures { (result ≡ answer_number (answered drained)) × (len.new ≡ (as_drained (nursery_of state.old) drained).len ∷ []) × (state.new ≡ words_left (λ d. nursery_words d.1) state.old drained) }
{
    *len = [0];
    if let Ok((handed, after)) = drained {
        *len = [handed as u64];
        *state = nursery_words(after);
    }
    answer_number(drained)
}

// Whether a hash is there and its index; zeros where it isn't, or beside a refusal.
pub fn put_found(entry: Result<Option<Idx>, Refusal>, found: &mut [u64; 2]) -> u8
    ensures { (result ≡ answer_number (answered entry)) × (found.new ≡ bit (as_found entry).found ∷ (as_found entry).idx.0 ∷ []) }
{
    *found = match entry {
        Ok(Some(idx)) => [1, idx.0],
        _ => [0, 0],
    };
    answer_number(entry)
}

// Whether a hash is there and where its cell lies; zeros where it isn't, or beside a refusal.
pub fn put_place(cell: Result<Option<CellPlace>, Refusal>, found: &mut [u64; 3]) -> u8
    ensures { (result ≡ answer_number (answered cell)) × (found.new ≡ bit (as_place cell).found ∷ (as_place cell).place ∷ (as_place cell).len ∷ []) }
{
    *found = match cell {
        Ok(Some(at)) => [1, at.place as u64, at.len as u64],
        _ => [0, 0, 0],
    };
    answer_number(cell)
}

// An output's length, 0 beside a refusal.
pub fn put_wrote(wrote: Result<usize, Refusal>, len: &mut [u64; 1]) -> u8
    ensures { (result ≡ answer_number (answered wrote)) × (len.new ≡ (as_wrote wrote).len ∷ []) }
{
    *len = [wrote.unwrap_or(0) as u64];
    answer_number(wrote)
}
