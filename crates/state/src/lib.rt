// The search state, document 01's 'walk', and its levels.
#![tactic(auto)]

ghost use Rattle.std.specs.Prelude.{◌≡◌};
ghost use Rattle.state.specs.Change.{Whole};

pub mod kept;

// Why a bound is held: one of these, or the number of a constraint.
// Stays: numbers and no enum: an enum makes a level half as large again, and verdict 1.02 (07-blueprint-hard) to 1.11 times slower (16-parity-8).
pub const DOMAIN: usize = 0;

pub const DECISION: usize = usize::MAX;

pub const FLIPPED: usize = usize::MAX - 1;

// A decision level ('frame'): the bounds, the reason of each, and the decision variable, which has no meaning at level 0.
#[derive(Clone, Copy, Debug, PartialEq, Eq)]
pub struct Level {
    pub lower: [i64; 32],
    pub upper: [i64; 32],
    pub below: [usize; 32],
    pub above: [usize; 32],
    pub decided: usize,
}

#[derive(Clone, Copy, Debug, PartialEq, Eq)]
pub enum Status {
    Undecided,
    Infeasible,
    Solved,
}

// The search state. A row of `rows` is 33 numbers, the constant first; rows 0 to m - 1 are the input constraints, whose divisors stand in `divisors`, 0
// for an inequality; the kept cuts follow, oldest first, with their numbers in `numbers`. `propagations` counts the bounds that constraints set (N5), and
// `thresholds` has a variable's least value above 0, 0 for none (N6). What
// stands past n, m, the kept cuts and the depth is not read.
// Stays: 0 for no divisor and for no threshold, as in a file and in the model; flat arrays with sizes beside them, by value (document 01's forms by place).
#[derive(Clone, Copy, Debug, PartialEq, Eq)]
pub struct Search {
    pub n: usize,
    pub m: usize,
    pub budget: usize,
    pub conflicts: usize,
    pub propagations: usize,
    pub made: usize,
    pub depth: usize,
    pub status: Status,
    pub thresholds: [i64; 32],
    pub rows: [i64; 4224],
    pub divisors: [i64; 64],
    pub numbers: [usize; 64],
    pub levels: [Level; 33],
}

// The level itself: it tells that its arrays are as long as they are declared.
pub fn whole(l: Level) -> Level
    ensures { (result ≡ l) × Whole l }
{
    l
}
