// The demands about PIN blocks, as laws over the definitions.

#![tactic(auto)]
