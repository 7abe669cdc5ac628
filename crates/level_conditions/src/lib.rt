// The conditions on the levels of a search state: bounds, reasons, nesting and decisions.
#![tactic(auto)]

pub mod nesting;
