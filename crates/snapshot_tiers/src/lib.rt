// The two tiers of a counters' snapshot: what lies in which order, and the large counts.
#![tactic(auto)]

pub mod large;

// A count that is found.
#[derive(Clone, Copy)]
pub struct Head {
    pub idx: u64,
    pub count: u64,
}
