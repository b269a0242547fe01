// Decoding the record that bytes start with: its length, its hash, its payload and what the payload has after the last item are judged in this order.
// Of the bytes only the hash is copied. Parsing doesn't judge the last of these: that is how records were read before they were exact.
//
// A record is judged by the hash from a start, which a caller makes once for all its records.
#![tactic(auto)]

ghost use Rattle.std.specs.Prelude.{◌≡◌, ◌+◌, ◌≤◌, length, take, drop, option_copied};
ghost use Rattle.base.specs.Logic.{eqb_list};
ghost use Rattle.blake3.specs.Spec.{hash};
ghost use Rattle.blake3.specs.Mode.{mode_in, hash_from};
ghost use Rattle.format.specs.Returned.{as_decoded};
ghost use Rattle.format.specs.Record.{used_bytes, stated_hash};
ghost use Rattle.format.specs.Calls.{parse_call, decode_call, decode_under};
ghost use Rattle.record_read.specs.Judged.{payload_call, exact_call, Framing};

use base::Refusal;
use blake3::{Start, hash_from, start_of, without_key};
use byte_numbers::{read_le32, read_le64};
use delta_items::{cell_bytes, removes_at};
use format::{DecodedRecord, RecordStats, metadata_len};
use slices::equal;

// The hash that a record states.
fn stated_hash(s: &[u8]) -> [u8; 32]
    requires { 32 ≤ length s.now }
    ensures { result ≡ take 32 s.now }
{
    let mut h = [0u8; 32];
    h.copy_from_slice(&s[..32]);
    h
}

// Whether that is the hash of the length and of the n bytes of payload behind it.
fn hash_matches(start: Start, s: &[u8], n: usize) -> bool
    requires { 40 + n ≤ length s.now }
    ensures { result ≡ eqb_list (hash_from start (take (8 + n) (drop 32 s.now))) (take 32 s.now) }
{
    let end = 40 + n;
    let h = hash_from(start, &s[32..end]);
    equal(&h, &s[0..32])
}

// A record whose length and hash are right, by the n bytes of its payload.
fn decode_payload(s: &[u8], n: usize) -> Result<DecodedRecord, Refusal>
    requires { 40 + n ≤ length s.now }
    ensures { as_decoded result ≡ payload_call n s.now }
{
    if n < 16 {
        return Err(Refusal::Misfit);
    }
    let inserts = read_le32(s, 48) as u64;
    let removes = read_le32(s, 52) as u64;
    let past = 40 + n;
    let Some(at) = removes_at(&s[56..past], false, inserts, removes) else {
        return Err(Refusal::Misfit);
    };
    let hash = stated_hash(s);
    let stats = RecordStats {
        payload_bytes: n as u64,
        metadata_bytes: metadata_len(inserts, removes),
        cell_bytes: cell_bytes(at, false, inserts) as u64,
        insert_ops: inserts,
        remove_ops: removes,
    };
    Ok(DecodedRecord {
        id: read_le64(s, 40),
        hash,
        items_at: 56,
        items_len: n - 16,
        stats,
    })
}

// The length of a whole record's payload, or the refusal by the tests before the hash.
fn frame(s: &[u8]) -> Result<usize, Refusal>
    ensures { Framing s.now result }
{
    if s.len() < 40 {
        return Err(Refusal::ShortRecord);
    }
    let n = read_le64(s, 32);
    if 18446744073709551608 <= n {
        return Err(Refusal::FarLength);
    }
    let n = n as usize;
    if s.len() - 40 < n {
        return Err(Refusal::ShortRecord);
    }
    Ok(n)
}

// Parses the record that s starts with, whatever its payload has after the last item; what follows it is ignored.
fn parse_from(start: Start, s: &[u8]) -> Result<DecodedRecord, Refusal>
    ensures { as_decoded result ≡ parse_call (hash_from start) s.now }
{
    let n = frame(s)?;
    if !hash_matches(start, s, n) {
        return Err(Refusal::Mismatch);
    }
    decode_payload(s, n)
}

// Parses a record that was written without a key.
pub fn parse_record(s: &[u8]) -> Result<DecodedRecord, Refusal>
    ensures { as_decoded result ≡ parse_call hash s.now }
{
    parse_from(without_key(), s)
}

// Parses a record whose hash is taken on trust: it isn't worked out, so that no start is needed.
pub fn parse_record_held(s: &[u8]) -> Result<DecodedRecord, Refusal>
    ensures { as_decoded result ≡ parse_call (stated_hash s.now) s.now }
{
    decode_payload(s, frame(s)?)
}

// A record that was parsed, refused where bytes are left over.
fn exact(d: DecodedRecord) -> Result<DecodedRecord, Refusal>
    requires { used_bytes d.stats ≤ d.stats.payload_bytes }
    ensures { as_decoded result ≡ exact_call (as_decoded (Ok d)) }
{
    if d.stats.metadata_bytes + d.stats.cell_bytes < d.stats.payload_bytes {
        return Err(Refusal::Leftover);
    }
    Ok(d)
}

// Decodes the record that s starts with, whose payload ends with its last item; what follows it is ignored.
pub fn decode_from(start: Start, s: &[u8]) -> Result<DecodedRecord, Refusal>
    ensures { as_decoded result ≡ decode_call (hash_from start) s.now }
{
    let d = parse_from(start, s)?;
    exact(d)
}

// Decodes a record under a key, or without one. The key is judged before the record.
pub fn decode_record(key: Option<&[u8]>, s: &[u8]) -> Result<DecodedRecord, Refusal>
    ensures { as_decoded result ≡ decode_under (mode_in (option_copied key.entry)) s.now }
{
    let start = start_of(key)?;
    decode_from(start, s)
}

// Decodes a record whose hash is taken on trust.
pub fn decode_record_held(s: &[u8]) -> Result<DecodedRecord, Refusal>
    ensures { as_decoded result ≡ decode_call (stated_hash s.now) s.now }
{
    let d = parse_record_held(s)?;
    exact(d)
}
