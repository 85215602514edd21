// The demands about the commands that verify a PIN, DA and EA, as laws over the definitions that the exported calls' promises cite.

#![tactic(auto)]
