// How long a snapshot of n stored counts can get, and what the program that writes the longest one makes of its input. Laws, and no code.
#![tactic(auto)]
