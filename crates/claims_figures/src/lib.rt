// The figures from the bench, P1 to P12, as one table.

#![tactic(auto)]
