// What the library promises, stated and proved. There is no code.
#![tactic(auto)]
