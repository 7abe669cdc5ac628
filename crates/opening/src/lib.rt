// Document 01's 'opening': the search state at the start, from a problem.
#![tactic(auto)]

ghost use Rattle.std.specs.Prelude.{◌≡◌, true, map, ◌+◌, ◌<◌, ◌≤◌};
ghost use Rattle.model_problems.specs.Lists.{tab};
ghost use Rattle.model_problems.specs.Ranges.{max_variables, max_constraints};
ghost use Rattle.model_problems.specs.Constraint.{rounded, in_range};
ghost use Rattle.model_walk.specs.Search.{level_of as first_level, open_problem};
ghost use Rattle.layout.specs.Rows.{row_at, input_at};
ghost use Rattle.problem.specs.View.{problem_of};
ghost use Rattle.state.specs.View.{level_of, view};
ghost use Rattle.opening.specs.Accepted.{Accepted};
ghost use Rattle.opening.specs.Rounded.{RowsRounded};

use derivation::rounding;
use layout::{MAX_CUTS, MAX_VARIABLES, ROW, copy_row, store_row};
use problem::Problem;
use state::{Level, Search, Status};

// Rounds constraint j into row j; the ones before it are there already. One with a divisor is copied as it is.
fn round_row(p: &Problem, j: usize, rows: &mut [i64; 4224])
    requires { (p.now.n ≤ max_variables) × ((j < max_constraints) × ((in_range (row_at p.now.n p.now.constraints j) ≡ true) × RowsRounded p.now.n p.now.constraints p.now.divisors j rows.old)) }
    ensures { RowsRounded p.now.n p.now.constraints p.now.divisors (j + 1) rows.new }
{
    let row = copy_row(&p.constraints, ROW * j, p.n);
    if p.divisors[j] != 0 {
        store_row(rows, &row, j);
    } else {
        let rounded = rounding::round(row, p.n);
        store_row(rows, &rounded, j);
    }
}

// The rows of a search state: the constraints of the problem, the inequalities rounded.
fn rounded_rows(p: &Problem) -> [i64; 4224]
    requires { Accepted p.now }
    ensures { tab (input_at p.now.n result p.now.divisors) 0 p.now.m ≡ map rounded (problem_of p.now).constraints }
{
    let mut rows = [0; 4224];
    for j in 0..p.m {
        round_row(p, j, &mut rows);
    }
    rows
}

// Level 0: the problem's domain.
fn first_level(p: &Problem) -> Level
    ensures { level_of p.now.n result ≡ first_level (problem_of p.now) }
{
    Level {
        lower: p.lower,
        upper: p.upper,
        below: [state::DOMAIN; MAX_VARIABLES],
        above: [state::DOMAIN; MAX_VARIABLES],
        decided: 0,
    }
}

// Opens a search of an accepted problem: its constraints rounded, its domain as level 0, and nothing decided or counted.
pub fn from_problem(p: Problem) -> Search
    requires { Accepted p }
    ensures { view result ≡ open_problem (problem_of p) }
{
    Search {
        n: p.n,
        m: p.m,
        budget: p.budget,
        conflicts: 0,
        propagations: 0,
        made: 0,
        depth: 0,
        status: Status::Undecided,
        thresholds: p.thresholds,
        rows: rounded_rows(&p),
        divisors: p.divisors,
        numbers: [0; MAX_CUTS],
        levels: [first_level(&p); 1 + MAX_VARIABLES],
    }
}
