// Masks of 64 bits: the variables that a row mentions, the variables that are open, and the divisor constraints that mention a variable; with the first of these that bounds falsify.
#![tactic(auto)]

pub mod divided;
pub mod masks;
