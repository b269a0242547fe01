// The eight sets of a counters' snapshot: where they end, and their members side by side.
#![tactic(auto)]

pub mod lanes;
pub mod sets;
