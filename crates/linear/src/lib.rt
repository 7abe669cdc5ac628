// Document 01's 'Lines and bounds', and document 02's divisor lines, on flat arrays of constraints, each function proved equal to the model's definition.
#![tactic(auto)]

pub mod activity;
pub mod divisibility;
