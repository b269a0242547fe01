// Whether bytes are a counters' snapshot that a table has room for: all but 25 is decided here, before the first write.
#![tactic(auto)]

pub mod decide;
pub mod judge;
