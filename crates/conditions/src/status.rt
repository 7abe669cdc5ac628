// The mark of a search state.
ghost use Rattle.std.specs.Prelude.{◌≡◌, true, ◌*◌, ◌≤◌, length};
ghost use Rattle.model_problems.specs.Lists.{tab, all_of, any_of};
ghost use Rattle.model_problems.specs.Ranges.{max_variables, max_constraints};
ghost use Rattle.model_problems.specs.Constraint.{is_open, in_range, divisor_in_range};
ghost use Rattle.layout.specs.Rows.{row_length, row_at, input_at, box_of};
ghost use Rattle.linear.specs.Ranges.{BoxFits};
ghost use Rattle.state.specs.View.{status_of, kept_at};
ghost use Rattle.conditions.specs.Marks.{mark_valid};

use crate::constraints::is_any_falsified;
use state::{Level, Status};

// Whether some variable is open: its L is below its U.
fn is_any_open(l: &Level, n: usize) -> bool
    requires { n ≤ max_variables }
    ensures { result ≡ any_of is_open (box_of n l.now.lower l.now.upper) }
{
    (0..n).any(|i| l.lower[i] < l.upper[i])
}

// Whether the mark is one that the first `count` constraints and the bounds of the outermost and the deepest level bear out.
pub fn is_status_valid(
    status: Status,
    rows: &[i64],
    divisors: &[i64; 64],
    m: usize,
    count: usize,
    outermost: Level,
    deepest: Level,
    n: usize,
) -> bool
    requires n_le_max_variables { (n ≤ max_variables) × (row_length * count ≤ length rows.now) }
    requires count_value { all_of in_range (tab (row_at n rows.now) 0 count) ≡ true }
    requires box_fits { BoxFits n outermost.lower outermost.upper × BoxFits n deepest.lower deepest.upper }
    requires m_le_max_constraints { (m ≤ max_constraints) × (all_of divisor_in_range (tab (input_at n rows.now divisors.now) 0 m) ≡ true) }
    ensures { result ≡ mark_valid (status_of status) (tab (kept_at n m rows.now divisors.now) 0 count) (box_of n outermost.lower outermost.upper) (box_of n deepest.lower deepest.upper) }
{
    match status {
        Status::Undecided => true,
        Status::Infeasible => {
            is_any_falsified(
                rows,
                divisors,
                m,
                count,
                &outermost.lower,
                &outermost.upper,
                n,
            )
        }
        Status::Solved => {
            !is_any_open(&deepest, n)
                && !is_any_falsified(rows, divisors, m, count, &deepest.lower, &deepest.upper, n)
        }
    }
}
