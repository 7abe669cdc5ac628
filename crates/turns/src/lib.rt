// What turns repeated in place stand on: how they end, the divisor constraints set apart, and the variables that the constraints mention. The loop itself
// is `engine`.
#![tactic(auto)]

use state::Search;

pub mod apart;
pub mod masks;

// How turns repeated end: after as many as were asked for, or with a verdict.
#[derive(Clone, Copy)]
pub enum Ending {
    GoOn,
    NoSolution,
    OutOfBudget,
    Solution,
}

// The ending, how many solutions were struck out, how many conflicts were counted since the last of them, and the state.
#[derive(Clone, Copy)]
pub struct Advanced {
    pub ending: Ending,
    pub struck: usize,
    pub blocks: usize,
    pub state: Search,
}
