// An empty nursery, made in the lent tables.
#![tactic(auto)]

ghost use Rattle.std.specs.Prelude.{◌≡◌};
ghost use Rattle.cell_nursery.specs.Calls.{effect, new_call};
ghost use Rattle.cell_nursery.specs.Entries.{empty};
ghost use Rattle.cell_nursery.specs.Layout.{record_of};
ghost use Rattle.cell_nursery.specs.Returned.{as_committed};

use base::Refusal;
use cell_nursery::{Nursery, delay_in_range};

// An empty nursery in tables of any content. The delay is judged before anything is written.
pub fn new(delay: u64, es: &mut [u64], ws: &mut [u64], cs: &mut [u8]) -> Result<Nursery, Refusal>
    ensures { effect (as_committed (record_of 0 empty) result) es.new ws.new cs.new ≡ new_call delay es.old ws.old cs.old }
{
    if !delay_in_range(delay) {
        return Err(Refusal::BadSetting);
    }
    es.fill(0);
    ws.fill(0);
    cs.fill(0);
    Ok(Nursery {
        entries: 0,
        waiting: 0,
        cell_bytes: 0,
        delay,
    })
}
