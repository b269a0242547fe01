// A batch of transitions, in whichever form a caller lends it: as words or as records. What the forms share is the words that they spell.
#![tactic(auto)]

ghost use Rattle.std.specs.Prelude.{◌^◌, ◌≡◌, ◌/◌, ◌%◌, ◌<◌, ℕ, List, length, eqb};
ghost use Rattle.counters.specs.Steps.{transition_at};

use counters::{CounterTransition, Idx};

// Transitions that a caller lends, and the words that they spell.
pub trait Transitions: Copy {
    ghost words: { Self → List ℕ };

    // How many whole ones there are.
    fn count(self) -> usize
        ensures { result ≡ length (words self) / 3 };

    // Whether no words are left over behind them. No caller has 2^62 words to lend.
    fn is_whole(self) -> bool
        ensures whole { result ≡ eqb (length (words self) % 3) 0 }
        ensures short { length (words self) < 2 ^ 62 };

    fn at(self, i: usize) -> CounterTransition
        requires { i < length (words self) / 3 }
        ensures { result ≡ transition_at (words self) i };
}

// Words, three a transition: index, old count, new count.
impl Transitions for &[u64] {
    ghost words = { λ ws. ws.now };

    fn count(self) -> usize {
        self.len() / 3
    }

    fn is_whole(self) -> bool {
        self.len() % 3 == 0
    }

    fn at(self, i: usize) -> CounterTransition {
        CounterTransition {
            idx: Idx(self[i * 3]),
            old_raw: self[i * 3 + 1],
            new_raw: self[i * 3 + 2],
        }
    }
}
