// While a table holds, neither editor is felt by the other. This crate has no code: its specs/ say it over two runs of calls, its proofs/
// show it, and the call that gives the table promises it.

#![tactic(auto)]
