// The two state records as words in the order of docs/LAYOUT.md, for the calls that are lent words.
#![tactic(auto)]

ghost use Rattle.std.specs.Prelude.{◌≡◌};
ghost use Rattle.state_words.specs.Words.{counters_of, counters_words, nursery_of, nursery_words};

use cell_nursery::Nursery;
use counters::{CounterMaintenance, Counters, NextIdx, ShrinkSettings};

// The counters that 16 words spell.
pub fn counters_of(w: &[u64; 16]) -> Counters
    ensures { result ≡ counters_of w.now }
{
    Counters {
        next_idx: NextIdx(w[0]),
        live_cells: w[1],
        stored: w[2] as usize,
        maintenance: CounterMaintenance {
            alive_removed_since_shrink: w[3],
            small_removed_since_shrink: [w[4], w[5], w[6], w[7], w[8], w[9], w[10], w[11]],
            min_alive_removed_before_shrink: w[12],
        },
        settings: ShrinkSettings {
            base: w[13],
            max: w[14],
            good_save: w[15],
        },
    }
}

// The 16 words of counters.
pub fn counters_words(c: Counters) -> [u64; 16]
    ensures { result ≡ counters_words c }
{
    let m = c.maintenance;
    let s = m.small_removed_since_shrink;
    let g = c.settings;
    [
        c.next_idx.0,
        c.live_cells,
        c.stored as u64,
        m.alive_removed_since_shrink,
        s[0],
        s[1],
        s[2],
        s[3],
        s[4],
        s[5],
        s[6],
        s[7],
        m.min_alive_removed_before_shrink,
        g.base,
        g.max,
        g.good_save,
    ]
}

// The nursery that 4 words spell.
pub fn nursery_of(w: &[u64; 4]) -> Nursery
    ensures { result ≡ nursery_of w.now }
{
    Nursery {
        entries: w[0] as usize,
        waiting: w[1] as usize,
        cell_bytes: w[2] as usize,
        delay: w[3],
    }
}

// The 4 words of a nursery.
pub fn nursery_words(n: Nursery) -> [u64; 4]
    ensures { result ≡ nursery_words n }
{
    [
        n.entries as u64,
        n.waiting as u64,
        n.cell_bytes as u64,
        n.delay,
    ]
}
