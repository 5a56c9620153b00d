// Mended words play as the old ones did. This crate has no code: its specs/ say it line by line and over two runs of calls, its proofs/
// show it, and the call that mends promises it.

#![tactic(auto)]
