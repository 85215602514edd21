// Where a fault may point: into its command or at the command's end, and at one of its fields or at none.

#![tactic(auto)]
