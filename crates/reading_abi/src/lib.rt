// What a box is read in from, a snapshot and a journal, over words, lent as in counters_abi and nursery_abi, for `selvaigo` to export.
#![tactic(auto)]

ghost use Rattle.std.specs.Prelude.{◌≡◌, [], ◌∷◌};
ghost use Rattle.base.specs.Answers.{answered, answer_number};
ghost use Rattle.snapshot.specs.Returned.{as_loaded};
ghost use Rattle.journal.specs.Returned.{as_read};
ghost use Rattle.state_words.specs.Words.{counters_words, nursery_words, words_left, said};
ghost use Rattle.word_calls.specs.CountersSaid.{deserialize_said, load_said};
ghost use Rattle.word_calls.specs.RecordSaid.{journal_said};

use base::{Refusal, answer_number};
use counters::ShrinkSettings;
use journal::JournalRead;
use snapshot::Loaded;
use state_steps::put_counters;
use state_words::{counters_words, nursery_words};
use word_calls::key_said;

// The state that a snapshot holds, under settings, into a record and a table of any content. A refusal changes neither.
pub fn selvaigo_deserialize_trusted(
    snapshot: &[u8],
    shrink_base: u64,
    shrink_max: u64,
    good_save: u64,
    state: &mut [u64; 16],
    counts: &mut [u64],
) -> u8
    ensures { said result [] (state.new ∷ counts.new ∷ []) ≡ deserialize_said shrink_base shrink_max good_save snapshot.now state.old counts.old }
{
    let settings = ShrinkSettings {
        base: shrink_base,
        max: shrink_max,
        good_save,
    };
    let read = snapshot_read::deserialize_trusted(snapshot, settings, counts);
    put_counters(read, state)
}

// The record of counters that are loaded, and the live total that the snapshot has, 0 beside a refusal.
fn put_loaded(
    loaded: Result<Loaded, Refusal>,
    state: &mut [u64; 16],
    old_total: &mut [u64; 1],
) -> u8
    ensures { (result ≡ answer_number (answered loaded)) × (old_total.new ≡ (as_loaded loaded).old_total ∷ []) × (state.new ≡ words_left (λ l. counters_words l.counters) state.old loaded) }
{
    *old_total = [0];
    if let Ok(read) = loaded {
        *old_total = [read.old_total];
        *state = counters_words(read.counters);
    }
    answer_number(loaded)
}

// The same of a snapshot from before 25: a live total below the number of counts is raised to it. The total that the snapshot has goes into
// old_total, 0 beside a refusal.
pub fn selvaigo_load_snapshot(
    snapshot: &[u8],
    shrink_base: u64,
    shrink_max: u64,
    good_save: u64,
    state: &mut [u64; 16],
    counts: &mut [u64],
    old_total: &mut [u64; 1],
) -> u8
    ensures { said result (old_total.new ∷ []) (state.new ∷ counts.new ∷ []) ≡ load_said shrink_base shrink_max good_save snapshot.now state.old counts.old }
{
    let settings = ShrinkSettings {
        base: shrink_base,
        max: shrink_max,
        good_save,
    };
    let loaded = snapshot_read::load_snapshot(snapshot, settings, counts);
    put_loaded(loaded, state, old_total)
}

// The record of a nursery that is read in, how many records were applied, the place after them and the number of what ended them; zeros beside a refusal.
fn put_read(done: Result<JournalRead, Refusal>, nursery: &mut [u64; 4], read: &mut [u64; 3]) -> u8
    ensures { (result ≡ answer_number (answered done)) × (read.new ≡ (as_read done).applied ∷ (as_read done).place ∷ answer_number (as_read done).ended ∷ [])
        × (nursery.new ≡ words_left (λ j. nursery_words j.nursery) nursery.old done) }
{
    *read = [0; 3];
    if let Ok(far) = done {
        let number = answer_number(far.ended) as u64;
        *read = [far.applied as u64, far.place as u64, number];
        *nursery = nursery_words(far.nursery);
    }
    answer_number(done)
}

// A journal, read in a mode (a flag, whether there is a key, and the key) into an empty nursery with a delay, in a record and tables of any content. A
// refusal changes none of them.
pub fn selvaigo_read_journal(
    keyed: u8,
    key: &[u8],
    journal: &[u8],
    delay: u64,
    nursery: &mut [u64; 4],
    entries: &mut [u64],
    waiting: &mut [u64],
    cells: &mut [u8],
    read: &mut [u64; 3],
) -> u8
    ensures { said result (read.new ∷ []) (nursery.new ∷ entries.new ∷ waiting.new ∷ cells.new ∷ []) ≡ journal_said keyed key.now delay journal.now nursery.old entries.old waiting.old cells.old }
{
    let key = key_said(keyed, key);
    let done = journal_read::read_journal(key, journal, delay, entries, waiting, cells);
    put_read(done, nursery, read)
}
