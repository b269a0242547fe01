// Replays the house items on standard input on a fresh box: what `box_run::run` prints for the whole input, but an item at a time, since an input may
// have any length. What an item does and what is printed for it is the same code, `box_items::run_next` and `box_lines::put_line`. What stays outside is
// the copying from standard input and to standard output: no contract can say what was read or written, so the functions here say nothing of it.
// The files `stdin` and `stdout` are document 01's run.
#![tactic(auto)]

ghost use Rattle.std.specs.Prelude.{◌≤◌, length, IfOk};

use box_items::{Next, run_next};
use box_lines::{Line, Printed, body_len, put_heading, put_line};
use cell_nursery::Nursery;
use counters::Counters;
use std::io::Read;
use std::{fmt, io};

// What ends a run that neither the input's end nor a bad item ends.
#[derive(Drop)]
enum Failure {
    Input(io::Error),
    Output(io::Error),
    TooMany,
}

impl fmt::Display for Failure {
    fn fmt<W: fmt::Write>(&self, f: &mut fmt::Formatter<W>) -> fmt::Result {
        match self {
            Failure::Input(e) => write!(f, "standard input: {e}"),
            Failure::Output(e) => write!(f, "standard output: {e}"),
            Failure::TooMany => write!(f, "too many items"),
        }
    }
}

// Reads until the buffer is full or the input ends; how many bytes came.
fn read_all(input: &mut impl Read, buf: &mut [u8]) -> io::Result<usize>
    ensures { IfOk result (λ n. n ≤ length buf.new) }
{
    let mut len = 0;
    while len < buf.len() {
        match input.read(&mut buf[len..])? {
            0 => return Ok(len),
            n => len += n,
        }
    }
    Ok(len)
}

// Reads an item: its six bytes, then its body, but none that is longer than there is room for.
fn read_item(input: &mut impl Read, bytes: &mut [u8]) -> io::Result<usize>
    requires { 6 ≤ length bytes.old }
    ensures { IfOk result (λ n. n ≤ length bytes.new) }
{
    let head = read_all(input, &mut bytes[..6])?;
    if head < 6 {
        return Ok(head);
    }
    let body = body_len(&bytes[..6]);
    if bytes.len() - 6 < body {
        return Ok(6);
    }
    let rest = read_all(input, &mut bytes[6..6 + body])?;
    Ok(6 + rest)
}

// Writes the text at the start of a buffer.
fn print(rt: &impl Print, text: &[u8], p: Printed) -> Result<(), Failure> {
    let n = p.len.min(text.len());
    rt.write_all(&text[..n]).map_err(|e| Failure::Output(e))
}

fn print_heading(rt: &impl Print) -> Result<(), Failure> {
    let mut text = [0u8; 28];
    let p = put_heading(&mut text);
    print(rt, &text, p)
}

// No line is longer: box_lines LineLaws.line-length.
fn print_line(rt: &impl Print, l: Line) -> Result<(), Failure> {
    let mut text = [0u8; 105];
    let none = Printed {
        len: 0,
        whole: true,
    };
    let p = put_line(&mut text, none, l);
    print(rt, &text, p)
}

// Runs one item, of which there is room for the longest body, and prints its line. There is none where the input has ended.
fn turn(
    rt: &impl Print,
    input: &mut impl Read,
    counters: Counters,
    nursery: Nursery,
    t: &mut [u64; 2048],
    es: &mut [u64; 2048],
    ws: &mut [u64; 1280],
    cs: &mut [u8; 16384],
    place: u64,
) -> Result<Option<Next>, Failure> {
    let mut bytes = [0u8; 32774];
    let n = read_item(input, &mut bytes).map_err(|e| Failure::Input(e))?;
    if n == 0 {
        return Ok(None);
    }
    let next = run_next(counters, nursery, t, es, ws, cs, place, &bytes[..n]);
    print_line(rt, next.line)?;
    Ok(Some(next))
}

// Room for 1,024 counts, 256 entries and 16,384 cell bytes.
fn run(rt: &impl Print, input: &mut impl Read) -> Result<(), Failure> {
    let mut t = [0u64; 2048];
    let mut es = [0u64; 2048];
    let mut ws = [0u64; 1280];
    let mut cs = [0u8; 16384];
    let fresh = box_run::fresh(&mut t, &mut es, &mut ws, &mut cs);
    let mut counters = fresh.counters;
    let mut nursery = fresh.nursery;
    print_heading(rt)?;
    for place in 0..u64::MAX {
        let after = turn(
            rt, input, counters, nursery, &mut t, &mut es, &mut ws, &mut cs, place,
        )?;
        let Some(next) = after else {
            return Ok(());
        };
        if !next.good {
            return Ok(());
        }
        counters = next.counters;
        nursery = next.nursery;
    }
    Err(Failure::TooMany)
}

// What fails is told on standard error.
fn main(rt: HostRuntime) {
    let mut input = rt.stdin();
    if let Err(failure) = run(&rt, &mut input) {
        let _ = eprintln!(rt; "boxrun: {failure}");
    }
}
