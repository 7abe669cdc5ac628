// What no turn changes.
ghost use Rattle.std.specs.Prelude.{◌≡◌, ◌≤◌, ◌<◌, get_or};
ghost use Rattle.model_problems.specs.Ranges.{max_variables, max_constraints};
ghost use Rattle.bits.specs.Divided.{Testable, FirstIndivisible};
ghost use Rattle.engine.specs.Given.{Taken};

use bits::divided::Divided;
use state::{Level, Search};

// The sizes, the thresholds, and the divisor constraints set apart.
#[derive(Drop)]
pub(crate) struct Given {
    pub n: usize,
    pub m: usize,
    pub budget: usize,
    pub thresholds: [i64; 32],
    pub divided: Divided,
}

impl Given {
    pub(crate) fn new(s: &Search) -> Given
        requires few { s.now.n ≤ max_variables }
        requires most { s.now.m ≤ max_constraints }
        ensures { Taken s.now result }
    {
        Given {
            n: s.n,
            m: s.m,
            budget: s.budget,
            thresholds: s.thresholds,
            divided: Divided::new(&s.rows, &s.divisors, s.n, s.m),
        }
    }

    // At a level that the search goes back to: the divisor constraints that mention the variable whose decision is flipped, if the level was left by a
    // decision of this call, when none was falsified there; else all. Those levels are the ones from depth `low` on.
    pub(crate) fn due(&self, i: usize, depth: usize, low: usize) -> usize
        requires { i < max_variables }
        ensures all { depth < low → result ≡ self.now.divided.all }
        ensures mentioned { low ≤ depth → result ≡ get_or self.now.divided.columns i 0 }
    {
        if depth < low {
            self.divided.all
        } else {
            self.divided.columns[i]
        }
    }

    // The first of the divisor constraints of a mask that the level falsifies, if it stands before position `limit`; else that.
    pub(crate) fn first_divided(&self, mask: usize, level: &Level, limit: usize) -> usize
        requires { Testable self.now.n self.now.m self.now.divided.lines self.now.divided.divisors level.now.lower level.now.upper mask }
        ensures { FirstIndivisible self.now.n self.now.m self.now.divided.lines self.now.divided.divisors level.now.lower level.now.upper mask limit result }
    {
        self.divided
            .first_falsified(mask, level, self.n, self.m, limit)
    }
}
