// No code: what muting a channel leaves as it is, over runs of calls.

#![tactic(auto)]
