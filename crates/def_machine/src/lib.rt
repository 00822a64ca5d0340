//! Definitions of what compiled code means: the state of the machine, and one turn after another. There is no code
//! here.
#![tactic(auto)]
