// How many steps of a list agree.
ghost use Rattle.std.specs.Prelude.{◌≡◌, ◌==◌};
ghost use Rattle.call_lists.specs.Tallies.{one_more};

// A write that fails changes nothing here.
fn say(rt: &impl Print, text: &[u8]) {
    let _ = rt.write_all(text);
}

fn say_number(rt: &impl Print, n: u64) {
    let _ = rt.print(n);
}

// How many steps there were, and how many of them agree.
#[derive(Clone, Copy)]
pub struct Tally {
    pub steps: u64,
    pub good: u64,
}

// One step more. One that doesn't agree is named.
pub fn counted(rt: &impl Print, t: Tally, good: bool, name: &[u8]) -> Tally
    ensures { result ≡ one_more good t }
{
    let steps = std::num::wrapping_add_u64(t.steps, 1);
    if good {
        return Tally {
            steps,
            good: std::num::wrapping_add_u64(t.good, 1),
        };
    }
    say(rt, b"DIFFERS: ");
    say(rt, name);
    say(rt, b" step ");
    say_number(rt, steps);
    say(rt, b"\n");
    Tally {
        steps,
        good: t.good,
    }
}

// How many agree, in a line; whether all do.
pub fn report(rt: &impl Print, name: &[u8], t: Tally) -> bool
    ensures { result ≡ (t.good == t.steps) }
{
    say(rt, name);
    say(rt, b": ");
    say_number(rt, t.good);
    say(rt, b" of ");
    say_number(rt, t.steps);
    say(rt, b" answers agree\n");
    t.good == t.steps
}
