// What the server is shown of refused commands, as tables of literals.

#![tactic(auto)]
