// Problems changed: a constraint put at the end or in place of another, constraints left out, a variable closed. A constraint that is put in is a row of 33
// numbers and its divisor; what stands past the first n variables in it is ignored.
#![tactic(auto)]

ghost use Rattle.std.specs.Prelude.{◌≡◌, ◌<◌, ◌≤◌};
ghost use Rattle.model_problems.specs.Ranges.{max_variables, max_constraints};
ghost use Rattle.layout.specs.Rows.{divided_at};
ghost use Rattle.problem.specs.View.{problem_of};
ghost use Rattle.modify.specs.Changed.{appended, replaced, reduced, closed};
ghost use Rattle.modify.specs.Stored.{Stored};

use layout::{MAX_CONSTRAINTS, ROW, copy_row, store_row};
use problem::Problem;

// The problem with a constraint in place j of its arrays, whatever m is.
fn store(mut problem: Problem, j: usize, row: [i64; ROW], divisor: i64) -> Problem
    requires { (problem.n ≤ max_variables) × (j < max_constraints) }
    ensures { Stored problem j row divisor result }
{
    store_row(&mut problem.constraints, &row, j);
    problem.divisors[j] = divisor;
    problem
}

// One constraint more, at the end.
// Stays: a row beside its divisor, here and in `replace`: a struct of the two would stand in these two signatures alone, no plainer.
pub fn append(problem: Problem, row: [i64; ROW], divisor: i64) -> Problem
    requires { (problem.n ≤ max_variables) × (problem.m < max_constraints) }
    ensures { problem_of result ≡ appended (problem_of problem) (divided_at problem.n row 0 divisor) }
{
    let mut longer = store(problem, problem.m, row, divisor);
    longer.m += 1;
    longer
}

// A constraint in place of constraint j, counted from 0; where there is no such constraint nothing changes.
pub fn replace(problem: Problem, j: usize, row: [i64; ROW], divisor: i64) -> Problem
    requires { (problem.n ≤ max_variables) × (j < max_constraints) }
    ensures { problem_of result ≡ replaced j (problem_of problem) (divided_at problem.n row 0 divisor) }
{
    store(problem, j, row, divisor)
}

// The constraints that the mask keeps, in their order: true for one that stays in.
pub fn keep(problem: Problem, mask: [bool; MAX_CONSTRAINTS]) -> Problem
    requires { (problem.n ≤ max_variables) × (problem.m ≤ max_constraints) }
    ensures { problem_of result ≡ reduced mask (problem_of problem) }
{
    let mut smaller = Problem {
        m: 0,
        constraints: [0; 2112],
        divisors: [0; MAX_CONSTRAINTS],
        ..problem
    };
    for j in 0..problem.m {
        if mask[j] {
            let row = copy_row(&problem.constraints, ROW * j, problem.n);
            smaller = append(smaller, row, problem.divisors[j]);
        }
    }
    smaller
}

// Variable i closed: both limits 0, and no threshold.
pub fn close(mut problem: Problem, i: usize) -> Problem
    requires { (problem.n ≤ max_variables) × (i < problem.n) }
    ensures { problem_of result ≡ closed i (problem_of problem) }
{
    problem.lower[i] = 0;
    problem.upper[i] = 0;
    problem.thresholds[i] = 0;
    problem
}
