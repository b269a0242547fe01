// Hash, records, the scan of a journal and its conversion over words, for `selvaigo` to export. A mode is a flag, whether there is a key, and the key.
#![tactic(auto)]

ghost use Rattle.std.specs.Prelude.{◌≡◌, [], ◌∷◌};
ghost use Rattle.blake3.specs.Spec as blake3;
ghost use Rattle.base.specs.Answers.{answered, answer_number};
ghost use Rattle.format.specs.Returned.{as_encoded, as_decoded};
ghost use Rattle.journal.specs.Returned.{as_scanned, as_converted};
ghost use Rattle.state_words.specs.Words.{said};
ghost use Rattle.word_calls.specs.RecordSaid.{stat_words, keyed_hash_said, encode_said, decode_said, scan_said, convert_said};

use base::{Refusal, answer_number};
use blake3::{hash_from, start_of};
use format::{DecodedRecord, EncodedRecord};
use journal::{Converted, JournalScan};
use word_calls::key_said;

// The hash of bytes.
pub fn selvaigo_hash(bytes: &[u8], hash: &mut [u8; 32])
    ensures { hash.new ≡ blake3.hash bytes.now }
{
    *hash = blake3::hash(bytes);
}

// The hash of bytes under a key.
pub fn selvaigo_keyed_hash(key: &[u8], bytes: &[u8], hash: &mut [u8; 32]) -> u8
    ensures { said result (hash.new ∷ []) [] ≡ keyed_hash_said key.now bytes.now }
{
    match start_of(Some(key)) {
        Ok(start) => {
            *hash = hash_from(start, bytes);
            0
        }
        Err(refusal) => {
            *hash = [0; 32];
            refusal.number()
        }
    }
}

// A record's length and figures, zeros beside a refusal.
#[tactic(auto, unfolding(format::specs::Returned::no_stats))]
fn put_encoded(wrote: Result<EncodedRecord, Refusal>, figures: &mut [u64; 6]) -> u8
    ensures { (result ≡ answer_number (answered wrote)) × (figures.new ≡ (as_encoded wrote).len ∷ stat_words (as_encoded wrote).stats) }
{
    *figures = [0; 6];
    if let Ok(record) = wrote {
        let stats = record.stats;
        *figures = [
            record.len as u64,
            stats.payload_bytes,
            stats.metadata_bytes,
            stats.cell_bytes,
            stats.insert_ops,
            stats.remove_ops,
        ];
    }
    answer_number(wrote)
}

// The record of a delta in a mode, written into the output.
pub fn selvaigo_encode_record(
    keyed: u8,
    key: &[u8],
    id: u64,
    wide: u8,
    inserts: u64,
    removes: u64,
    items: &[u8],
    out: &mut [u8],
    figures: &mut [u64; 6],
) -> u8
    ensures { said result (figures.new ∷ []) (out.new ∷ []) ≡ encode_said keyed key.now id wide inserts removes items.now out.old }
{
    let key = key_said(keyed, key);
    let wrote = record_write::encode_record(key, id, wide != 0, inserts, removes, items, out);
    put_encoded(wrote, figures)
}

// A record's id, the place and the length of its items, its figures and its hash; zeros beside a refusal.
#[tactic(auto, unfolding(format::specs::Returned::no_stats))]
fn put_decoded(
    read: Result<DecodedRecord, Refusal>,
    figures: &mut [u64; 8],
    hash: &mut [u8; 32],
) -> u8
    ensures { (result ≡ answer_number (answered read)) × (hash.new ≡ (as_decoded read).hash)
        × (figures.new ≡ (as_decoded read).id ∷ (as_decoded read).items_at ∷ (as_decoded read).items_len ∷ stat_words (as_decoded read).stats) }
{
    *figures = [0; 8];
    *hash = [0; 32];
    if let Ok(record) = read {
        let stats = record.stats;
        *figures = [
            record.id,
            record.items_at as u64,
            record.items_len as u64,
            stats.payload_bytes,
            stats.metadata_bytes,
            stats.cell_bytes,
            stats.insert_ops,
            stats.remove_ops,
        ];
        let stated = record.hash;
        *hash = stated;
    }
    answer_number(read)
}

// The record that bytes start with, in a mode.
pub fn selvaigo_decode_record(
    keyed: u8,
    key: &[u8],
    bytes: &[u8],
    figures: &mut [u64; 8],
    hash: &mut [u8; 32],
) -> u8
    ensures { said result (figures.new ∷ hash.new ∷ []) [] ≡ decode_said keyed key.now bytes.now }
{
    let read = record_read::decode_record(key_said(keyed, key), bytes);
    put_decoded(read, figures, hash)
}

// How far records are taken and the number of what ended them; zeros beside a refusal.
fn put_scanned(scanned: Result<JournalScan, Refusal>, scan: &mut [u64; 3]) -> u8
    ensures { (result ≡ answer_number (answered scanned))
        × (scan.new ≡ (as_scanned scanned).records ∷ (as_scanned scanned).place ∷ answer_number (as_scanned scanned).ended ∷ []) }
{
    *scan = [0; 3];
    if let Ok(far) = scanned {
        let number = answer_number(far.ended) as u64;
        *scan = [far.records as u64, far.place as u64, number];
    }
    answer_number(scanned)
}

// The records of a journal in a mode, applied to nothing.
pub fn selvaigo_scan_journal(keyed: u8, key: &[u8], journal: &[u8], scan: &mut [u64; 3]) -> u8
    ensures { said result (scan.new ∷ []) [] ≡ scan_said keyed key.now journal.now }
{
    let scanned = journal_scan::scan(key_said(keyed, key), journal);
    put_scanned(scanned, scan)
}

// The lengths of what was written, zeros beside a refusal.
fn put_converted(converted: Result<Converted, Refusal>, lengths: &mut [u64; 2]) -> u8
    ensures { (result ≡ answer_number (answered converted))
        × (lengths.new ≡ (as_converted converted).len ∷ (as_converted converted).dropped_len ∷ []) }
{
    *lengths = match converted {
        Ok(wrote) => [wrote.len as u64, wrote.dropped_len as u64],
        Err(_) => [0; 2],
    };
    answer_number(converted)
}

// A journal of no key without the bytes that its payloads have after their last items, and the list of these.
pub fn selvaigo_convert_journal(
    journal: &[u8],
    out: &mut [u8],
    dropped: &mut [u8],
    lengths: &mut [u64; 2],
) -> u8
    ensures { said result (lengths.new ∷ []) (out.new ∷ dropped.new ∷ []) ≡ convert_said journal.now out.old dropped.old }
{
    let converted = journal_convert::convert_journal(journal, out, dropped);
    put_converted(converted, lengths)
}
