// The fields of a problem file, document 01's 'plan file', one by one: where they stand, reading and writing them. The crate `problem` puts
// them together.
#![tactic(auto)]

pub mod offsets;
pub mod reader;
pub mod writer;
