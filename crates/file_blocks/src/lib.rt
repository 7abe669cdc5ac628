// The blocks of a problem file, written into the parts of a lent buffer.
#![tactic(auto)]

pub mod writer;
