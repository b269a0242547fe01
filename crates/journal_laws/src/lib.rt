// The laws of a journal's reading: what the records of accepted deltas, cut after any byte, give back. No code.
#![tactic(auto)]
