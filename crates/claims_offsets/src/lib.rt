// The demands about offsets and PVVs, as laws over the definitions, and the figures.

#![tactic(auto)]
