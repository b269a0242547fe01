// The first pass over a journal: its records are decoded one after another, up to the first that is refused. Nothing is applied.
#![tactic(auto)]

ghost use Rattle.std.specs.Prelude.{◌≡◌, option_copied};
ghost use Rattle.base.specs.Answers.{answered};
ghost use Rattle.blake3.specs.Mode.{mode_in, hash_from};
ghost use Rattle.journal.specs.Journal as journal;
ghost use Rattle.journal.specs.Returned.{as_scanned};

use base::Refusal;
use blake3::{Start, start_of};
use journal::JournalScan;
use record_read::decode_from;

// How many records of s are taken, the place after the last of them, and what ended it.
pub fn scan_from(start: Start, s: &[u8]) -> JournalScan
    ensures { as_scanned (Ok result) ≡ journal.scan (hash_from start) s.now }
{
    let mut records = 0;
    let mut place = 0;
    while place < s.len() {
        match decode_from(start, &s[place..]) {
            Ok(d) => {
                records += 1;
                place += 56 + d.items_len;
            }
            Err(r) => {
                return JournalScan {
                    records,
                    place,
                    ended: Err(r),
                };
            }
        }
    }
    JournalScan {
        records,
        place,
        ended: Ok(()),
    }
}

// The scan of a journal that was written under a key, or without one. The key becomes words once for all its records.
pub fn scan(key: Option<&[u8]>, s: &[u8]) -> Result<JournalScan, Refusal>
    ensures { as_scanned result ≡ journal.scan_under (mode_in (option_copied key.entry)) s.now }
{
    let start = start_of(key)?;
    Ok(scan_from(start, s))
}

// Whether what ended a scan is damage: it isn't the journal's end, nor a record that is cut.
pub fn damages(ended: Result<(), Refusal>) -> bool
    ensures { result ≡ journal.damages (answered ended) }
{
    match ended {
        Ok(()) => false,
        Err(why) => why != Refusal::ShortRecord,
    }
}
