// What formats, validation data and weak lists are, as texts, and that their readers are inverse to them.

#![tactic(auto)]
