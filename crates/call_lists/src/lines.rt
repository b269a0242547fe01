// A list is lines of text, most of them bytes in hex.
ghost use Rattle.std.specs.Prelude.{◌≡◌, ◌/◌, ◌<◌, ◌≤◌, length, nat_le, slice_index, unwrap_or, IfSome};
ghost use Rattle.base.specs.Logic.{pick, overlay};
ghost use Rattle.call_lists.specs.Lines.{line_end, line_after, digit_of, pair_of, pairs_of, is_hex, decoded, spells_bytes};

// Where the line that `at` is in ends.
pub fn line_end(s: &[u8], at: usize) -> usize
    requires { at ≤ length s.now }
    ensures { (at ≤ result) × (result ≤ length s.now) × (result ≡ line_end s.now at) }
{
    for i in at..s.len() {
        if s[i] == b'\n' {
            return i;
        }
    }
    s.len()
}

// Where the line after the one that ends at `end` begins.
pub fn line_after(s: &[u8], end: usize) -> usize
    requires { end ≤ length s.now }
    ensures { (end ≤ result) × (result ≤ length s.now) × (result ≡ line_after s.now end) }
{
    if end < s.len() { end + 1 } else { end }
}

// The value of a digit, if it is one.
fn digit(b: u8) -> Option<u8>
    ensures { (unwrap_or result 16 ≡ digit_of b) × IfSome result (λ d. d ≤ 15) }
{
    match b {
        b'0'..=b'9' => Some(b - b'0'),
        b'a'..=b'f' => Some(b - b'a' + 10),
        _ => None,
    }
}

// The byte of two digits, if both are digits.
fn pair(high: u8, low: u8) -> Option<u8>
    ensures { (unwrap_or result 256 ≡ pair_of high low) × IfSome result (λ b. b ≤ 255) }
{
    let h = digit(high)?;
    let l = digit(low)?;
    Some(16 * h + l)
}

// The same of a text's pair at index n.
fn pair_at(text: &[u8], n: usize) -> Option<u8>
    requires { n < length text.now / 2 }
    ensures { (unwrap_or result 256 ≡ slice_index (pairs_of text.now) n) × IfSome result (λ b. b ≤ 255) }
{
    pair(text[2 * n], text[2 * n + 1])
}

// Whether a text is pairs of digits.
fn is_hex(text: &[u8]) -> bool
    ensures { result ≡ is_hex text.now }
{
    for n in 0..text.len() / 2 {
        if pair_at(text, n).is_none() {
            return false;
        }
    }
    text.len() % 2 == 0
}

// The bytes that a text spells go to the start of the output; how many they are. Where it isn't pairs of digits, or there is too little room, none.
pub fn decode(text: &[u8], out: &mut [u8]) -> usize
    ensures { (result ≤ length out.new) × (result ≡ length (decoded text.now (length out.old)))
        × (out.new ≡ overlay (decoded text.now (length out.old)) out.old) }
{
    let len = text.len() / 2;
    if out.len() < len {
        return 0;
    }
    if !is_hex(text) {
        return 0;
    }
    for n in 0..len {
        out[n] = pair_at(text, n).unwrap();
    }
    len
}

// How many bytes a text spells if it is pairs of digits; 0 where `room` is too small for them.
pub fn spelled(text: &[u8]) -> usize
    ensures { (result ≤ 66000) × (result ≡ pick (nat_le (length text.now / 2) 66000) (length text.now / 2) 0) }
{
    let n = text.len() / 2;
    if n <= 66000 { n } else { 0 }
}

// Whether a text spells bytes. What isn't pairs of digits spells nothing.
pub fn spells(text: &[u8], bytes: &[u8]) -> bool
    ensures { result ≡ spells_bytes text.now bytes.now }
{
    if !is_hex(text) {
        return false;
    }
    if text.len() / 2 != bytes.len() {
        return false;
    }
    for n in 0..bytes.len() {
        if pair_at(text, n) != Some(bytes[n]) {
            return false;
        }
    }
    true
}

// A step: where its call ends, where its wanted answer begins and ends, and where the next step begins.
#[derive(Clone, Copy)]
pub struct Step {
    pub end: usize,
    pub wanted: usize,
    pub last: usize,
    pub next: usize,
}

// The step that begins at `at`. A comment is a step with no call.
pub fn step_at(s: &[u8], at: usize) -> Step
    requires { at < length s.now }
    ensures { (at ≤ result.end) × (result.end ≤ length s.now) × (result.wanted ≤ result.last) × (result.last ≤ length s.now)
        × (at < result.next) × (result.next ≤ length s.now) }
{
    let end = line_end(s, at + 1);
    let wanted = line_after(s, end);
    if s[at] == b'#' {
        return Step {
            end: at,
            wanted,
            last: wanted,
            next: wanted,
        };
    }
    let last = line_end(s, wanted);
    Step {
        end,
        wanted,
        last,
        next: line_after(s, last),
    }
}
