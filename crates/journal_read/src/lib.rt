// Reading a journal: its records, one after another, into an empty nursery, up to the first that is cut or whose delta is refused.
//
// A first pass has decoded them all, up to the end or the first cut: where one is damaged, nothing is applied. The second doesn't hash them
// again, and needs no key. What it applied stays. A refused delta changes nothing, so that the tables hold what the records before it made.
#![tactic(auto)]

ghost use Rattle.std.specs.Prelude.{◌≡◌, true, option_copied};
ghost use Rattle.blake3.specs.Mode.{mode_in, hash_from};
ghost use Rattle.cell_nursery.specs.Layout.{holds};
ghost use Rattle.journal.specs.Returned.{as_read};
ghost use Rattle.journal.specs.Journal.{effect, read_call, read_under};
ghost use Rattle.journal_read.specs.Reading.{as_step, stepped, told, record_call, read_on};

use base::Refusal;
use blake3::{Start, start_of};
use cell_nursery::{Nursery, delay_in_range};
use journal::JournalRead;
use journal_scan::{damages, scan_from};
use nursery_commit::apply_commit_held;
use record_read::decode_record_held;

// What one record made: the nursery after it. len is how many bytes the record has.
#[derive(Clone, Copy)]
struct Step {
    nursery: Nursery,
    len: usize,
}

// The record that s starts with, whose hash is taken on trust, on tables that hold a state.
fn apply_record(
    r: Nursery,
    es: &mut [u64],
    ws: &mut [u64],
    cs: &mut [u8],
    s: &[u8],
) -> Result<Step, Refusal>
    requires { holds r es.old ws.old cs.old ≡ true }
    ensures { stepped (as_step r result) es.new ws.new cs.new ≡ told (record_call r es.old ws.old cs.old s.now) }
{
    let d = decode_record_held(s)?;
    let len = 56 + d.items_len;
    let items = &s[56..len];
    let nursery = apply_commit_held(
        r,
        es,
        ws,
        cs,
        false,
        d.stats.insert_ops,
        d.stats.remove_ops,
        items,
    )?;
    Ok(Step { nursery, len })
}

// The records of s, whose hashes are taken on trust, on tables that hold a state. The place stays before the record that ends the reading.
fn read_records(r: Nursery, es: &mut [u64], ws: &mut [u64], cs: &mut [u8], s: &[u8]) -> JournalRead
    requires { holds r es.old ws.old cs.old ≡ true }
    ensures { effect (as_read (Ok result)) es.new ws.new cs.new ≡ read_on r es.old ws.old cs.old s.now }
{
    let mut nursery = r;
    let mut applied = 0;
    let mut place = 0;
    loop {
        if place == s.len() {
            break JournalRead {
                nursery,
                applied,
                place,
                ended: Ok(()),
            };
        }
        match apply_record(nursery, es, ws, cs, &s[place..]) {
            Ok(step) => {
                nursery = step.nursery;
                applied += 1;
                place += step.len;
            }
            Err(why) => {
                break JournalRead {
                    nursery,
                    applied,
                    place,
                    ended: Err(why),
                };
            }
        }
    }
}

// Reads the journal s into an empty nursery with a delay, in tables of any content. The delay is judged before a record is.
fn read_from(
    start: Start,
    s: &[u8],
    delay: u64,
    es: &mut [u64],
    ws: &mut [u64],
    cs: &mut [u8],
) -> Result<JournalRead, Refusal>
    ensures { effect (as_read result) es.new ws.new cs.new ≡ read_call (hash_from start) delay s.now es.old ws.old cs.old }
{
    if !delay_in_range(delay) {
        return Err(Refusal::BadSetting);
    }
    let pass = scan_from(start, s);
    if damages(pass.ended) {
        return Err(Refusal::Damaged);
    }
    let fresh = nursery_table::new(delay, es, ws, cs)?;
    Ok(read_records(fresh, es, ws, cs, s))
}

// Reads a journal that was written under a key, or without one. The key is judged first, and becomes words once for all records.
pub fn read_journal(
    key: Option<&[u8]>,
    s: &[u8],
    delay: u64,
    es: &mut [u64],
    ws: &mut [u64],
    cs: &mut [u8],
) -> Result<JournalRead, Refusal>
    ensures { effect (as_read result) es.new ws.new cs.new
        ≡ read_under (mode_in (option_copied key.entry)) delay s.now es.old ws.old cs.old }
{
    let start = start_of(key)?;
    read_from(start, s, delay, es, ws, cs)
}
