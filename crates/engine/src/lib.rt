// Turns repeated in place, on a valid state: the loop under the calls.
#![tactic(auto)]

pub mod advance;
mod given;
mod walk;
