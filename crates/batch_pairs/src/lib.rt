// Two batches in a row: one that takes the other back, and two in either order. Laws, and no code.
#![tactic(auto)]
