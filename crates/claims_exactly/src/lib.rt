// A BK command is accepted exactly when it is one of the paper's, as laws over the definitions that the exported calls' promises cite.

#![tactic(auto)]
