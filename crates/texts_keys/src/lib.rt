// What key types, keys and LMK ids are, as texts, and that their readers are inverse to them.

#![tactic(auto)]
