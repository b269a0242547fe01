// Laws of a run of house items on a box, over all that demand 3 rests on: no drain lacks output. No code.
#![tactic(auto)]
