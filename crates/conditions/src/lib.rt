// The conditions of document 01's 'foreign walk' (9), each tested on its own: sizes, constraints and marks. Those on levels are `level_conditions`; `validate` asks
// all of them in their order.
#![tactic(auto)]

pub mod constraints;
pub mod scalars;
pub mod status;
