//! Definitions of the core methods: what each gives, raises or writes. There is no code here.
#![tactic(auto)]
