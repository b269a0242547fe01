// Demand 3, proved: snapshots and listings tell boxes apart exactly as the plain boxes do, and a box is read back from a snapshot and a cut journal. No code.
#![tactic(auto)]
