// Demand 1 of the calls of offset, verdict and PVV, as laws over the definitions: numbers, counts, rooms and order.

#![tactic(auto)]
