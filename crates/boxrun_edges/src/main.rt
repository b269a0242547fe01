// Prints what `box_run::run` gives for a file of house items for each edge of the form: ends, lengths, kinds, bodies, and calls that are refused; last
// for document 01's run, once into an output that is too short.
#![tactic(auto)]

use box_lines::Printed;
use call_lists::files::read_full;
use std::fs;
use std::rt::Files;

// A write that fails changes nothing here.
fn print(rt: &impl Print, out: &[u8], p: Printed) {
    let n = p.len.min(out.len());
    let _ = rt.write_all(&out[..n]);
    if !p.whole {
        let _ = rt.println("|");
    }
}

fn run(rt: &(impl Files + Print + Eprint), name: &str, path: &str, out: &mut [u8]) {
    let _ = rt.println(name);
    let mut file = match fs::open(rt, path) {
        Ok(file) => file,
        Err(e) => {
            let _ = eprintln!(rt; "{path}: {e}");
            return;
        }
    };
    let mut input = [0u8; 65600];
    let n = read_full(&mut file, &mut input);
    let p = box_run::run(&input[..n], out);
    print(rt, out, p);
}

fn edge(rt: &(impl Files + Print + Eprint), name: &str, path: &str) {
    let mut out = [0u8; 512];
    run(rt, name, path, &mut out);
}

fn main(rt: HostRuntime) {
    edge(&rt, "no input", "empty");
    edge(&rt, "a header of five bytes", "header_cut");
    edge(&rt, "a body of 23 bytes that should have 24", "body_cut");
    edge(
        &rt,
        "a batch of 32760 bytes, a body of 32768 bytes",
        "longest",
    );
    edge(&rt, "a body of 32769 bytes", "too_long");
    edge(&rt, "kind 5", "kind_five");
    edge(&rt, "kind 0", "kind_zero");
    edge(&rt, "kind 257", "kind_high");
    edge(&rt, "an allocation with a body", "allocate_body");
    edge(&rt, "a ragged batch", "ragged");
    edge(&rt, "a payload of 15 bytes", "short_payload");
    edge(&rt, "a payload whose insert runs past it", "misfit");
    edge(&rt, "a payload with a byte after its last item", "leftover");
    edge(&rt, "a round of two bytes", "short_round");
    edge(&rt, "deltas, and drains at 99 and 100", "drains");
    edge(
        &rt,
        "257 entries, 256 entries, one more byte of cells than fits",
        "full",
    );
    edge(
        &rt,
        "a count at an index that was never born, and with its birth",
        "few_cells",
    );
    edge(&rt, "document 01's run", "document_01");
    let mut short = [0u8; 40];
    run(
        &rt,
        "the same into an output of 40 bytes",
        "document_01",
        &mut short,
    );
}
