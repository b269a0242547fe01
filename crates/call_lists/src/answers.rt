// What a call reads of its bytes, and how an answer is written. The output that a call is lent is as long as the wanted answer.
ghost use Rattle.std.specs.Prelude.{◌≡◌, ◌+◌, ◌≤◌, [], ◌∷◌, length, nat_le, IfSome};
ghost use Rattle.call_lists.specs.Answers.{word_at, key_end, up_to, with_bytes, with_word, with_words, answer_of};

use byte_numbers::{read_le64, write_le64};
use slices::copy_at;

// Room for a list, or a published input. The `ensures` gives only the length, so that a caller needn't work it out.
pub fn text_room() -> [u8; 280000]
    ensures { 280000 ≡ length result }
{
    [0; 280000]
}

// Room for a call or an answer; 0x99 shows what a call leaves as it is.
pub fn room() -> [u8; 66000]
    ensures { 66000 ≡ length result }
{
    [0x99; 66000]
}

// Whether n bytes from a place on lie within a length.
fn fits(len: usize, at: usize, n: usize) -> bool
    ensures { result ≡ nat_le (at + n) len }
{
    at <= len && n <= len - at
}

// The word at a place, and 0 where it isn't all there.
pub fn word(call: &[u8], at: usize) -> u64
    ensures { result ≡ word_at call.now at }
{
    if fits(call.len(), at, 8) {
        return read_le64(call, at);
    }
    0
}

// Where the key ends of a call that begins with whether there is one, its length (a byte) and the key, if it is all there.
pub fn key_end(call: &[u8]) -> Option<usize>
    ensures { (result ≡ key_end call.now) × IfSome result (λ end. (2 ≤ end) × (end ≤ length call.now)) }
{
    if call.len() < 2 {
        return None;
    }
    let end = 2 + call[1] as usize;
    if call.len() < end {
        return None;
    }
    Some(end)
}

// A byte goes into the answer; where the next one goes, if there was room.
pub fn put_byte(out: &mut [u8], at: usize, b: u8) -> Option<usize>
    ensures { up_to result out.new ≡ with_bytes (b ∷ []) (up_to (Some at) out.old) }
{
    put_bytes(out, at, &[b])
}

// The same with a word.
fn put_word(out: &mut [u8], at: usize, w: u64) -> Option<usize>
    ensures { up_to result out.new ≡ with_word w (up_to (Some at) out.old) }
{
    if !fits(out.len(), at, 8) {
        return None;
    }
    write_le64(out, at, w);
    Some(at + 8)
}

// The same with words, one after the other.
pub fn put_words(out: &mut [u8], at: usize, words: &[u64]) -> Option<usize>
    ensures { up_to result out.new ≡ with_words words.now (up_to (Some at) out.old) }
{
    let mut to = at;
    for w in words {
        to = put_word(out, to, *w)?;
    }
    Some(to)
}

// The number that a call gives, and the words that it writes; where they end.
pub fn put(out: &mut [u8], number: u8, words: &[u64]) -> Option<usize>
    ensures { up_to result out.new ≡ answer_of number words.now out.old }
{
    let at = put_byte(out, 0, number)?;
    put_words(out, at, words)
}

// Bytes go into the answer.
pub fn put_bytes(out: &mut [u8], at: usize, bytes: &[u8]) -> Option<usize>
    ensures { up_to result out.new ≡ with_bytes bytes.now (up_to (Some at) out.old) }
{
    if !fits(out.len(), at, bytes.len()) {
        return None;
    }
    copy_at(out, at, bytes);
    Some(at + bytes.len())
}

pub fn put_hash(out: &mut [u8], at: usize, hash: &[u8; 32]) -> Option<usize>
    ensures { up_to result out.new ≡ with_bytes hash.now (up_to (Some at) out.old) }
{
    put_bytes(out, at, hash)
}
