// The promises of include/selvaigo.h, as laws of what the calls that are lent words say. No code.
#![tactic(auto)]
