// No code: what holds of placed lists over every session of calls, and what the rule that a list in use stays gives.

#![tactic(auto)]
