// A run of house items over lent bytes: what boxrun prints for them, in a lent output.
#![tactic(auto)]

ghost use Rattle.std.specs.Prelude.{◌≡◌};
ghost use Rattle.base.specs.Logic.{flat};
ghost use Rattle.node_box.specs.Box.{standard_settings, made};
ghost use Rattle.box_lines.specs.Lines.{output, nothing, append, line_text};
ghost use Rattle.box_items.specs.Items.{box_of, text};
ghost use Rattle.box_items.specs.RunLaws.{lines_of};

use box_items::run_next;
use box_lines::{Printed, body_len, put_heading, put_line};
use cell_nursery::Nursery;
use counters::{Counters, NextIdx, ShrinkSettings};

// A box's records.
#[derive(Clone, Copy)]
pub struct Records {
    pub counters: Counters,
    pub nursery: Nursery,
}

// Document 01's settings.
const DELAY: u64 = 100;

const SHRINK_BASE: u64 = 131_072;

const SHRINK_MAX: u64 = 2_097_152;

const GOOD_SAVE: u64 = 1_048_576;

// A fresh box at 0 with document 01's settings, in tables of any content.
pub fn fresh(t: &mut [u64], es: &mut [u64], ws: &mut [u64], cs: &mut [u8]) -> Records
    ensures { box_of result.counters t.new result.nursery es.new ws.new cs.new ≡ made standard_settings 0 t.old es.old ws.old cs.old }
{
    let settings = ShrinkSettings {
        base: SHRINK_BASE,
        max: SHRINK_MAX,
        good_save: GOOD_SAVE,
    };
    let counters = counter_table::new(NextIdx(0), settings, t).unwrap();
    let nursery = nursery_table::new(DELAY, es, ws, cs).unwrap();
    Records { counters, nursery }
}

// The items of an input on a box, a line for each, up to the first bad one.
fn run_items(
    records: Records,
    t: &mut [u64; 2048],
    es: &mut [u64; 2048],
    ws: &mut [u64; 1280],
    cs: &mut [u8; 16384],
    input: &[u8],
    out: &mut [u8],
    p: Printed,
) -> Printed
    ensures { output result out.new ≡ append (flat line_text (lines_of (box_of records.counters t.old records.nursery es.old ws.old cs.old) 0 input.now)) (output p out.old) }
{
    let mut counters = records.counters;
    let mut nursery = records.nursery;
    let mut printed = p;
    let mut place: u64 = 0;
    let mut at = 0;
    while at < input.len() {
        let n = run_next(counters, nursery, t, es, ws, cs, place, &input[at..]);
        let line = n.line;
        let more = put_line(out, printed, line);
        printed = more;
        if !n.good {
            return printed;
        }
        counters = n.counters;
        nursery = n.nursery;
        place += 1;
        at += 6 + body_len(&input[at..]);
    }
    printed
}

// What boxrun prints for an input goes to the start of an output, as far as there is room. The box is fresh at 0, with room for 1,024 counts,
// 256 entries and 16,384 cell bytes.
pub fn run(input: &[u8], out: &mut [u8]) -> Printed
    ensures { output result out.new ≡ append (text input.now) (nothing out.old) }
{
    let p = put_heading(out);
    let mut t = [0u64; 2048];
    let mut es = [0u64; 2048];
    let mut ws = [0u64; 1280];
    let mut cs = [0u8; 16384];
    let records = fresh(&mut t, &mut es, &mut ws, &mut cs);
    run_items(records, &mut t, &mut es, &mut ws, &mut cs, input, out, p)
}
