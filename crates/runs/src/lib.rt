// Runs of calls: only definitions and laws over the calls' contracts, and no code.

#![tactic(auto)]
