//! Definitions of what a source means: the evaluation of core forms, one transition after another, and the
//! words in which one machine follows another. There is no code here.
#![tactic(auto)]
