// Moves 1 to 3 of document 01's turn at one level: the scans that choose the next move, and move 2 repeated.
#![tactic(auto)]

pub mod bounds;
pub mod propagate;
pub mod track;
