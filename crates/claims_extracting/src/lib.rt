// What the PIN block's call refuses and what it writes, as laws over the definitions that the exported call's promise cites.

#![tactic(auto)]
