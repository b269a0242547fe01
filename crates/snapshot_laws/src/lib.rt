// The laws of the counters' snapshot, over its definitions in `snapshot`: reading gives back what was written, so equal bytes mean equal counters. It has no code.
#![tactic(auto)]
