//! Definitions of what a source means: the evaluation of core forms, one transition after another. There is no code
//! here.
#![tactic(auto)]
