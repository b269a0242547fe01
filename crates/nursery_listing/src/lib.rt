// The listing of a nursery: its entries by ascending hash.
#![tactic(auto)]

ghost use Rattle.std.specs.Prelude.{◌≡◌, true};
ghost use Rattle.base.specs.Output.{as_wrote, effect};
ghost use Rattle.cell_nursery.specs.Layout.{holds_entries, holds_cells};
ghost use Rattle.cell_nursery.specs.Calls.{listing_call};

use base::Refusal;
use cell_nursery::Nursery;
use nursery_checks::{holds_cells, holds_entries};

// The listing, where the record and the tables hold a state: for callers that own their tables. Its length follows from the
// record, and is compared by parts, so that no product overflows.
pub fn snapshot_entries_held(
    r: Nursery,
    es: &[u64],
    cs: &[u8],
    out: &mut [u8],
) -> Result<usize, Refusal>
    requires { (holds_entries r es.now ≡ true) × (holds_cells r cs.now ≡ true) }
    ensures { effect (as_wrote result) out.new ≡ listing_call r es.now cs.now out.old }
{
    let n = r.entries;
    let bytes = r.cell_bytes;
    if out.len() / 46 < n || out.len() - n * 46 < bytes {
        return Err(Refusal::OutputFull);
    }
    listing_rows::write_listing(r, es, cs, out);
    Ok(n * 46 + bytes)
}

// The listing of the entries, by ascending hash.
pub fn snapshot_entries(r: Nursery, es: &[u64], cs: &[u8], out: &mut [u8]) -> Result<usize, Refusal>
    ensures { effect (as_wrote result) out.new ≡ listing_call r es.now cs.now out.old }
{
    if !holds_entries(r, es) || !holds_cells(r, cs) {
        return Err(Refusal::Broken);
    }
    snapshot_entries_held(r, es, cs, out)
}
