// The problem in a file.
ghost use Rattle.std.specs.Prelude.{◌≡◌, ◌≤◌};
ghost use Rattle.model_problems.specs.Ranges.{max_variables, max_constraints};
ghost use Rattle.model_files.specs.File.{problem_in};
ghost use Rattle.fields.specs.Fields.{Blocks};
ghost use Rattle.problem.specs.View.{packed};

use fields::offsets::Side;
use fields::reader::{
    bounds_in, budget_in, constraints_in, divisors_in, rows_in, thresholds_in, variables_in,
};
use problem::Problem;

// The problem in a file whose sizes are right.
pub(crate) fn problem_in(file: &[u8]) -> Problem
    requires { Blocks file.now }
    ensures { (result ≡ packed (problem_in file.now)) × (result.n ≤ max_variables) × (result.m ≤ max_constraints) }
{
    let n = variables_in(file);
    let m = constraints_in(file);
    let budget = budget_in(file);
    let lower = bounds_in(file, n, Side::Lower);
    let upper = bounds_in(file, n, Side::Upper);
    let constraints = rows_in(file, n, m);
    let divisors = divisors_in(file, m);
    let thresholds = thresholds_in(file, n);
    Problem {
        n,
        m,
        budget,
        lower,
        upper,
        constraints,
        divisors,
        thresholds,
    }
}
