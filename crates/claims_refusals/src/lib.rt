// Refused commands as one table: the paper's exchange with a fault, the number and the response's bytes.

#![tactic(auto)]
