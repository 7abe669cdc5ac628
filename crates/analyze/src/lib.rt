// The analysis of a conflict, document 01's 'dead end'.
#![tactic(auto)]

pub mod analysis;
