// What a run of house items reads of an item's first six bytes, and the text that it prints: a heading, and a line for each item. Text goes into a
// lent output as far as there is room.
#![tactic(auto)]

ghost use Rattle.std.specs.Prelude.{◌≡◌, ◌-◌, min};
ghost use Rattle.box_lines.specs.Lines.{kind_of, body_len, Output, output, nothing, append, field, line_text, heading};

use byte_numbers::{read_le16, read_le32};

// A line: the item's place and kind, the answer's number, and the next index and live total as they are then.
#[derive(Clone, Copy)]
pub struct Line {
    pub place: u64,
    pub kind: u16,
    pub answer: u8,
    pub next: u64,
    pub live: u64,
}

// How many bytes of an output have text, and whether all of it found room.
#[derive(Clone, Copy)]
pub struct Printed {
    pub len: usize,
    pub whole: bool,
}

// The kind of an item whose six bytes aren't all there.
const NO_KIND: u16 = 0;

// The kind of the item that bytes begin with.
pub fn kind_of(bytes: &[u8]) -> u16
    ensures { result ≡ kind_of bytes.now }
{
    if bytes.len() < 6 {
        return NO_KIND;
    }
    read_le16(bytes, 4)
}

// How long its body is to be.
pub fn body_len(bytes: &[u8]) -> usize
    ensures { result ≡ body_len bytes.now }
{
    if bytes.len() < 6 {
        return 0;
    }
    read_le32(bytes, 0) as usize
}

// How many bytes of n fit between `at` and the end of an output.
fn fitting(n: usize, room: usize, at: usize) -> usize
    ensures { result ≡ min n (room - at) }
{
    n.min(room.saturating_sub(at))
}

// Bytes go behind the text in the output.
pub fn put(out: &mut [u8], p: Printed, bytes: &[u8]) -> Printed
    ensures { output result out.new ≡ append bytes.now (output p out.old) }
{
    let at = p.len;
    let n = fitting(bytes.len(), out.len(), at);
    for i in 0..n {
        out[at + i] = bytes[i];
    }
    Printed {
        len: at + n,
        whole: p.whole & (n == bytes.len()),
    }
}

// A number in decimal, and the character that ends it.
fn put_field(out: &mut [u8], p: Printed, number: u64, end: u8) -> Printed
    ensures { output result out.new ≡ append (field number end) (output p out.old) }
{
    let mut digits = [0u8; 20];
    let n = io::decimal(number, &mut digits);
    let q = put(out, p, &digits[..n]);
    put(out, q, &[end])
}

// An item's line.
pub fn put_line(out: &mut [u8], p: Printed, l: Line) -> Printed
    ensures { output result out.new ≡ append (line_text l) (output p out.old) }
{
    let a = put_field(out, p, l.place, b' ');
    let b = put_field(out, a, l.kind as u64, b' ');
    let c = put_field(out, b, l.answer as u64, b' ');
    let d = put_field(out, c, l.next, b' ');
    put_field(out, d, l.live, b'\n')
}

// The heading goes to the start of an output.
pub fn put_heading(out: &mut [u8]) -> Printed
    ensures { output result out.new ≡ append heading (nothing out.old) }
{
    let p = Printed {
        len: 0,
        whole: true,
    };
    put(out, p, b"place kind answer next live\n")
}
