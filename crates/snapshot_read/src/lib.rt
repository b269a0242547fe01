// Reading and loading a counters' snapshot into a lent table of any content. All is decided before the first write, so that a
// refusal leaves the table as it was; then both tiers are gone through once more, by index, and each count is laid behind the one
// before.
#![tactic(auto)]

ghost use Rattle.std.specs.Prelude.{◌≡◌, ◌/◌, length};
ghost use Rattle.base.specs.Logic.{zeros};
ghost use Rattle.rows.specs.Table.{table_of};
ghost use Rattle.counters.specs.Layout.{count_row};
ghost use Rattle.counters.specs.Calls.{effect, record_effect, laid, no_counters};
ghost use Rattle.counters.specs.Returned.{as_applied};
ghost use Rattle.snapshot.specs.Calls.{deserialize_call, load_effect, load_call};
ghost use Rattle.snapshot.specs.Returned.{as_loaded};
ghost use Rattle.snapshot_judge.specs.Decide.{counts_of, Planned};
ghost use Rattle.snapshot_read.specs.Fresh.{fresh_record, planned_state, plan_under};

use base::Refusal;
use counters::{CounterMaintenance, Counters, NextIdx, ShrinkSettings};
use snapshot::Loaded;
use snapshot_judge::decide::{Plan, decide};
use snapshot_judge::judge::first;
use snapshot_lanes::lanes::{advance, open_all, small_head};
use snapshot_tiers::large::{large_after, large_head, sorted};

// The counts of both tiers go into a table of zeros, by index.
fn lay(t: &mut [u64], s: &[u8], p: Plan)
    requires { (t.old ≡ zeros (length t.old)) × (Planned s.now (length t.old / 2) p) }
    ensures { t.new ≡ table_of count_row (length t.old) (counts_of s.now p.end p.large) }
{
    let ascending = sorted(s, p.end, p.large);
    let mut lanes = open_all(s, 17);
    let mut b = large_head(s, p.end, p.large, ascending, 0);
    let mut lo: u64 = 0;
    for k in 0..p.rows {
        let f = first(small_head(lanes), b).unwrap();
        t[k * 2] = f.idx;
        t[k * 2 + 1] = f.count;
        let moved = advance(s, lanes, f.idx);
        lanes = moved;
        lo = f.idx + 1;
        b = large_after(s, p.end, p.large, ascending, b, lo);
    }
}

// A record under some settings: the threshold starts at their base, and there are no removals.
fn record_of(next: u64, live: u64, stored: usize, settings: ShrinkSettings) -> Counters
    ensures { result ≡ fresh_record settings next live stored }
{
    Counters {
        next_idx: NextIdx(next),
        live_cells: live,
        stored,
        maintenance: CounterMaintenance {
            alive_removed_since_shrink: 0,
            small_removed_since_shrink: [0; 8],
            min_alive_removed_before_shrink: settings.base,
        },
        settings,
    }
}

// The counts of a plan, laid over whatever the table holds, and their record with a live total under some settings.
fn laid_in(t: &mut [u64], s: &[u8], p: Plan, live: u64, settings: ShrinkSettings) -> Counters
    requires { Planned s.now (length t.old / 2) p }
    ensures { record_effect result t.new ≡ laid settings (length t.old) (planned_state settings.base s.now p live) }
{
    let len = t.len();
    slices::fill(t, 0, len, 0);
    lay(t, s, p);
    record_of(p.next, live, p.rows, settings)
}

// What there is to lay under some settings, which are judged before a byte is read.
fn plan_under(s: &[u8], settings: ShrinkSettings, room: usize) -> Result<Plan, Refusal>
    ensures { result ≡ plan_under settings room s.now }
{
    if !shrink_rules::in_range(settings) {
        return Err(Refusal::BadSetting);
    }
    decide(s, room)
}

// The counters that a snapshot holds, laid into the table under some settings.
pub fn deserialize_trusted(
    s: &[u8],
    settings: ShrinkSettings,
    t: &mut [u64],
) -> Result<Counters, Refusal>
    ensures { effect (as_applied no_counters result) t.new ≡ deserialize_call settings s.now t.old }
{
    let p = plan_under(s, settings, t.len() / 2)?;
    if p.live < p.rows as u64 {
        return Err(Refusal::FewCells);
    }
    Ok(laid_in(t, s, p, p.live, settings))
}

// The counters of a snapshot that may be from before 25: in the place of that refusal the live total is raised to the number of
// stored counts, and the total that the snapshot has is returned beside them.
pub fn load_snapshot(s: &[u8], settings: ShrinkSettings, t: &mut [u64]) -> Result<Loaded, Refusal>
    ensures { load_effect (as_loaded result) t.new ≡ load_call settings s.now t.old }
{
    let p = plan_under(s, settings, t.len() / 2)?;
    let live = p.live.max(p.rows as u64);
    let counters = laid_in(t, s, p, live, settings);
    Ok(Loaded {
        counters,
        old_total: p.live,
    })
}
