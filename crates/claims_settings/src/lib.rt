// What the setting of restricted formats touches, what a server is handed, and the ATM history course under each setting.

#![tactic(auto)]
