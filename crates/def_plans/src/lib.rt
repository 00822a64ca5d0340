//! Definitions of what core methods that call others want next: their plans as contracts see them. There is no code here.
#![tactic(auto)]
