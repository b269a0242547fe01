// An entry is handed out exactly once. Laws, and no code.
#![tactic(auto)]
