// The kept constraints of a search state, rows of 33 numbers: whether bounds falsify one of them.
ghost use Rattle.std.specs.Prelude.{◌≡◌, true, ◌*◌, ◌≤◌, length};
ghost use Rattle.model_problems.specs.Lists.{tab, all_of, any_of};
ghost use Rattle.model_problems.specs.Ranges.{max_variables, max_constraints};
ghost use Rattle.model_problems.specs.Constraint.{in_range, divisor_in_range};
ghost use Rattle.model_walk.specs.Validity.{falsifies};
ghost use Rattle.layout.specs.Rows.{row_length, row_at, input_at, box_of};
ghost use Rattle.linear.specs.Ranges.{RowFits, BoxFits, DivisorFits};
ghost use Rattle.state.specs.View.{divisor_for, kept_at};

use layout::ROW;
use linear::divisibility::is_falsified;
use state::kept::divisor_of;

// Whether the constraint at position j is falsified by these bounds.
fn is_kept_falsified(
    rows: &[i64],
    divisors: &[i64; 64],
    m: usize,
    j: usize,
    lower: &[i64],
    upper: &[i64],
    n: usize,
) -> bool
    requires inputs { m ≤ max_constraints }
    requires divisor { DivisorFits (divisor_for m divisors.now j) }
    requires row { RowFits n rows.now (row_length * j) }
    requires bounds { BoxFits n lower.now upper.now }
    ensures { result ≡ falsifies (box_of n lower.now upper.now) (kept_at n m rows.now divisors.now j) }
{
    let q = divisor_of(divisors, m, j);
    is_falsified(rows, ROW * j, q, lower, upper, n)
}

// Whether one of the first `count` constraints, of which m are inputs, is falsified by these bounds.
pub fn is_any_falsified(
    rows: &[i64],
    divisors: &[i64; 64],
    m: usize,
    count: usize,
    lower: &[i64],
    upper: &[i64],
    n: usize,
) -> bool
    requires n_le_max_variables { (n ≤ max_variables) × (row_length * count ≤ length rows.now) }
    requires count_value { all_of in_range (tab (row_at n rows.now) 0 count) ≡ true }
    requires box_fits { BoxFits n lower.now upper.now }
    requires m_le_max_constraints { (m ≤ max_constraints) × (all_of divisor_in_range (tab (input_at n rows.now divisors.now) 0 m) ≡ true) }
    ensures { result ≡ any_of (falsifies (box_of n lower.now upper.now)) (tab (kept_at n m rows.now divisors.now) 0 count) }
{
    (0..count).any(|j| is_kept_falsified(rows, divisors, m, j, lower, upper, n))
}
