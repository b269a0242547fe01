// Calls that need no box.
use byte_numbers::read_le32;
use call_lists::answers::{
    key_end, put, put_byte, put_bytes, put_hash, put_words, room, text_room, word,
};
use record_abi::{
    selvaigo_convert_journal, selvaigo_decode_record, selvaigo_encode_record, selvaigo_hash,
    selvaigo_keyed_hash,
};
use shrink_abi::{selvaigo_adjust_shrink_threshold, selvaigo_should_shrink};
use slices::equal;

fn hash(bytes: &[u8], out: &mut [u8]) -> Option<usize> {
    let mut key = [7u8; 32];
    selvaigo_hash(bytes, &mut key);
    put_hash(out, 0, &key)
}

// A published input: byte i is i mod 251.
fn publish(input: &mut [u8]) {
    for (i, byte) in input.iter_mut().enumerate() {
        *byte = (i % 251) as u8;
    }
}

fn hash_published(len: u64, out: &mut [u8]) -> Option<usize> {
    let mut input = text_room();
    if 280000 < len {
        return None;
    }
    let n = len as usize;
    let bytes = &mut input[0..n];
    publish(bytes);
    hash(bytes, out)
}

fn keyed_hash(key: &[u8], bytes: &[u8], out: &mut [u8]) -> Option<usize> {
    let mut hash = [7u8; 32];
    let number = selvaigo_keyed_hash(key, bytes, &mut hash);
    let at = put_byte(out, 0, number)?;
    put_hash(out, at, &hash)
}

// The call has the length of a published input, and the key.
fn keyed_published(call: &[u8], out: &mut [u8]) -> Option<usize> {
    let mut input = text_room();
    let len = word(call, 0);
    if 280000 < len {
        return None;
    }
    if call.len() < 8 {
        return None;
    }
    let n = len as usize;
    let bytes = &mut input[0..n];
    publish(bytes);
    keyed_hash(&call[8..], bytes, out)
}

// The call has the id, the numbers of inserts and removes, whether lengths are wide, and the items.
fn encode(keyed: u8, key: &[u8], call: &[u8], out: &mut [u8]) -> Option<usize> {
    if call.len() < 25 {
        return None;
    }
    if out.len() < 49 {
        return None;
    }
    let mut figures = [7u64; 6];
    let number = selvaigo_encode_record(
        keyed,
        key,
        word(call, 0),
        call[24],
        word(call, 8),
        word(call, 16),
        &call[25..],
        &mut out[49..],
        &mut figures,
    );
    put(out, number, &figures)?;
    Some(out.len())
}

fn decode(keyed: u8, key: &[u8], call: &[u8], out: &mut [u8]) -> Option<usize> {
    let mut figures = [7u64; 8];
    let mut hash = [7u8; 32];
    let number = selvaigo_decode_record(keyed, key, call, &mut figures, &mut hash);
    let at = put(out, number, &figures)?;
    put_hash(out, at, &hash)
}

// The same calls in a mode, which stands before them.
fn in_mode(kind: u8, call: &[u8], out: &mut [u8]) -> Option<usize> {
    let end = key_end(call)?;
    let keyed = call[0];
    let key = &call[2..end];
    let rest = &call[end..];
    match kind {
        41 => encode(keyed, key, rest, out),
        42 => decode(keyed, key, rest, out),
        _ => None,
    }
}

// Whether a record's items, encoded again with the id and the numbers that stand in it, give the record again.
fn again(record: &[u8]) -> u8 {
    let n = record.len();
    if n < 56 {
        return 0;
    }
    if 66000 < n {
        return 0;
    }
    let mut room = room();
    let out = &mut room[0..n];
    let mut figures = [7u64; 6];
    selvaigo_encode_record(
        0,
        &[],
        word(record, 40),
        0,
        read_le32(record, 48) as u64,
        read_le32(record, 52) as u64,
        &record[56..],
        out,
        &mut figures,
    );
    equal(out, record) as u8
}

fn decode_and_again(call: &[u8], out: &mut [u8]) -> Option<usize> {
    let at = decode(0, &[], call, out)?;
    put_byte(out, at, again(call))
}

// A conversion, with so many bytes of output for the list of what is dropped. In the answer the list's output stands before the new journal's.
fn convert(journal: &[u8], n: usize, out: &mut [u8]) -> Option<usize> {
    if 60000 < n {
        return None;
    }
    if out.len() < 17 + n {
        return None;
    }
    let mut room = room();
    let list = &mut room[0..n];
    let mut lengths = [7u64; 2];
    let number = selvaigo_convert_journal(journal, &mut out[17 + n..], list, &mut lengths);
    let at = put(out, number, &lengths)?;
    put_bytes(out, at, list)?;
    Some(out.len())
}

// The call has the length of the list's output, and the journal.
fn convert_call(call: &[u8], out: &mut [u8]) -> Option<usize> {
    if call.len() < 8 {
        return None;
    }
    let n = word(call, 0);
    convert(&call[8..], n as usize, out)
}

fn should_shrink(call: &[u8], out: &mut [u8]) -> Option<usize> {
    let yes = selvaigo_should_shrink(word(call, 0), word(call, 8), word(call, 16));
    put(out, yes, &[])
}

fn adjust(call: &[u8], out: &mut [u8]) -> Option<usize> {
    let after = selvaigo_adjust_shrink_threshold(
        word(call, 0),
        word(call, 8),
        word(call, 16),
        word(call, 24),
        word(call, 32),
    );
    put_words(out, 0, &[after])
}

pub(crate) fn answer(kind: u8, call: &[u8], out: &mut [u8]) -> Option<usize> {
    match kind {
        32 => hash(call, out),
        33 => hash_published(word(call, 0), out),
        34 => encode(0, &[], call, out),
        35 => decode(0, &[], call, out),
        36 => decode_and_again(call, out),
        37 => should_shrink(call, out),
        38 => adjust(call, out),
        39 => convert_call(call, out),
        40 => keyed_published(call, out),
        _ => in_mode(kind, call, out),
    }
}
