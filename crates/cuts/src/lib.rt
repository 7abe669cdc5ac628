// Kept cuts: the first that equals another, and a new one stored, the oldest dropped where 64 are kept.
#![tactic(auto)]

pub mod keeping;
