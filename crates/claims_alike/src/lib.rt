// One law for all commands: alike outside the characters of the PIN block, they are read alike.

#![tactic(auto)]
