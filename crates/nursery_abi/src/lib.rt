// The nursery's calls that change it, over words, for `selvaigo` to export. A state record is lent as its words of docs/LAYOUT.md. A form named
// .._held requires of the record and the tables what the form beside it tests.
#![tactic(auto)]

ghost use Rattle.std.specs.Prelude.{◌≡◌, true, [], ◌∷◌};
ghost use Rattle.cell_nursery.specs.Layout.{holds};
ghost use Rattle.state_words.specs.Words.{nursery_of, said};
ghost use Rattle.word_calls.specs.NurserySaid.{empty_said, commit_said};

use nursery_commit::{apply_commit, apply_commit_held};
use state_steps::put_nursery;
use state_words::nursery_of;

// An empty nursery with a delay, in a record and tables of any content. A refusal changes none of them.
pub fn selvaigo_nursery_new(
    delay: u64,
    nursery: &mut [u64; 4],
    entries: &mut [u64],
    waiting: &mut [u64],
    cells: &mut [u8],
) -> u8
    ensures { said result [] (nursery.new ∷ entries.new ∷ waiting.new ∷ cells.new ∷ []) ≡ empty_said delay nursery.old entries.old waiting.old cells.old }
{
    let made = nursery_table::new(delay, entries, waiting, cells);
    put_nursery(made, nursery)
}

// A delta.
pub fn selvaigo_apply_commit(
    nursery: &mut [u64; 4],
    entries: &mut [u64],
    waiting: &mut [u64],
    cells: &mut [u8],
    wide: u8,
    inserts: u64,
    removes: u64,
    items: &[u8],
) -> u8
    ensures { said result [] (nursery.new ∷ entries.new ∷ waiting.new ∷ cells.new ∷ []) ≡ commit_said nursery.old entries.old waiting.old cells.old wide inserts removes items.now }
{
    let r = nursery_of(nursery);
    let w = wide != 0;
    let after = apply_commit(r, entries, waiting, cells, w, inserts, removes, items);
    put_nursery(after, nursery)
}

// The same, where the record and the tables hold a state.
pub fn selvaigo_apply_commit_held(
    nursery: &mut [u64; 4],
    entries: &mut [u64],
    waiting: &mut [u64],
    cells: &mut [u8],
    wide: u8,
    inserts: u64,
    removes: u64,
    items: &[u8],
) -> u8
    requires { holds (nursery_of nursery.old) entries.old waiting.old cells.old ≡ true }
    ensures { said result [] (nursery.new ∷ entries.new ∷ waiting.new ∷ cells.new ∷ []) ≡ commit_said nursery.old entries.old waiting.old cells.old wide inserts removes items.now }
{
    let r = nursery_of(nursery);
    let w = wide != 0;
    let after = apply_commit_held(r, entries, waiting, cells, w, inserts, removes, items);
    put_nursery(after, nursery)
}
