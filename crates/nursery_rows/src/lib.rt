// The parts of one insert and one remove in the nursery's lent tables: a row and its cell put in or taken out at a place, each table by itself.
#![tactic(auto)]

pub mod cells;
pub mod entries;
pub mod waiting;
