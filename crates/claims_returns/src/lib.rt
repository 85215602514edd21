// Demand 3, of the returns of the exported answering call, as its contract allows them.

#![tactic(auto)]
