// What the lab's answering call answers, as laws over the definitions that the exported call's promise cites.

#![tactic(auto)]
