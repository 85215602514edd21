// What is claimed of DES, triple DES, check values and odd parity, as laws over the definitions that the promises cite.

#![tactic(auto)]
