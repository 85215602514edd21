// What the kinds of fields are, as texts put together from their parts, and that the readers are inverse to them.

#![tactic(auto)]
