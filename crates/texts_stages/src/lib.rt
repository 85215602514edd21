// What the stages of a command are, as texts, and that their readers are inverse to them.

#![tactic(auto)]
