//! Definitions of what calls do, for the evaluation of a source and for the machine alike: which method is entered and
//! how, what stands in for one that isn't found, and the steps of the core methods that call others. There is no code
//! here.
#![tactic(auto)]
