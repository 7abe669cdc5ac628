// Constraints that follow from constraints: one rounded, and two resolved at a variable. On flat arrays, each function proved equal to the model's definition.
#![tactic(auto)]

pub mod resolving;
pub mod rounding;
