// Promotion: the entries that have waited long enough, handed out by born round and arrival. They stay entries and wait no more.
#![tactic(auto)]

ghost use Rattle.std.specs.Prelude.{◌≡◌, true};
ghost use Rattle.cell_nursery.specs.Layout.{holds};
ghost use Rattle.cell_nursery.specs.Calls.{drain_effect, drain_call};
ghost use Rattle.cell_nursery.specs.Returned.{as_drained};

use base::Refusal;
use cell_nursery::Nursery;
use drain_rows::{due_rows, rows_fit, write_rows};

// Draining at a round, where the record and the tables hold a state: for callers that own their tables.
pub fn drain_promotable_held(
    r: Nursery,
    es: &[u64],
    ws: &mut [u64],
    cs: &[u8],
    round: u32,
    out: &mut [u8],
) -> Result<(usize, Nursery), Refusal>
    requires { holds r es.now ws.old cs.now ≡ true }
    ensures { drain_effect (as_drained r result) out.new ws.new ≡ drain_call r es.now ws.old cs.now round out.old }
{
    let k = due_rows(r, ws, round);
    if !rows_fit(r, es, ws, cs, k, out.len()) {
        return Err(Refusal::OutputFull);
    }
    let len = write_rows(r, es, ws, cs, k, out);
    row_moves::remove_row(ws, 0, r.waiting * 5, k * 5);
    let waiting = r.waiting - k;
    Ok((len, Nursery { waiting, ..r }))
}

// Draining at a round: what is handed out goes to the start of the output, and with 15 nothing is handed out or changed.
pub fn drain_promotable(
    r: Nursery,
    es: &[u64],
    ws: &mut [u64],
    cs: &[u8],
    round: u32,
    out: &mut [u8],
) -> Result<(usize, Nursery), Refusal>
    ensures { drain_effect (as_drained r result) out.new ws.new ≡ drain_call r es.now ws.old cs.now round out.old }
{
    if !nursery_checks::holds(r, es, ws, cs) {
        return Err(Refusal::Broken);
    }
    drain_promotable_held(r, es, ws, cs, round, out)
}
