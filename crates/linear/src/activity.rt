// Document 01's 'Lines and bounds': the lowest value of a line, when it is false, and the bounds that it implies.
ghost use Rattle.std.specs.Prelude.{◌≡◌, ℕ, ◌*◌, pos, ◌-ℤ◌, IfSome};
ghost use Rattle.integer.specs.Size.{Within};
ghost use Rattle.model_problems.specs.Ranges.{max_coefficient};
ghost use Rattle.model_problems.specs.Constraint.{term as term_of, activity as activity_of, falsified};
ghost use Rattle.model_walk.specs.Move.{improvement_at};
ghost use Rattle.layout.specs.Rows.{constraint_at, box_of};
ghost use Rattle.linear.specs.Ranges.{TermFits, ChangeFits, RowFits, BoxFits, ImpliedFits, ImprovementFits, widest_activity};
ghost use Rattle.linear.specs.Reach.{span_of, widest_span, Further};
ghost use Rattle.linear.specs.Improvement.{move_of, Improves, implied_of};

use integer::{ceil_div, floor_div};

// What a variable with coefficient a and these bounds adds to its constraint's minimum activity. Of what the bounds change by it is what the activity
// changes by.
pub fn term(a: i64, lower: i64, upper: i64) -> i64
    requires { ChangeFits a lower upper }
    ensures value { result ≡ term_of a (record { lower = lower; upper = upper }) }
    ensures by_index { (w : ℕ) → Within w lower → Within w upper → Within (max_coefficient * w) result }
{
    if 0 <= a { a * lower } else { a * upper }
}

// The 'lowest value' of the constraint whose row starts at `start`: its minimum activity.
// Stays: two slices side by side, here and below: they are the bounds of a level and of a problem, which are two structs.
pub fn min_activity(rows: &[i64], start: usize, lower: &[i64], upper: &[i64], n: usize) -> i64
    requires row_fits { RowFits n rows.now start }
    requires box_fits { BoxFits n lower.now upper.now }
    ensures value { result ≡ activity_of (constraint_at n rows.now start) (box_of n lower.now upper.now) }
    ensures within { Within widest_activity result }
{
    let mut sum = rows[start];
    for i in 0..n {
        sum += term(rows[start + 1 + i], lower[i], upper[i]);
    }
    sum
}

// Whether that constraint is 'false'.
pub fn is_falsified(rows: &[i64], start: usize, lower: &[i64], upper: &[i64], n: usize) -> bool
    requires row_fits { RowFits n rows.now start }
    requires box_fits { BoxFits n lower.now upper.now }
    ensures { result ≡ falsified (constraint_at n rows.now start) (box_of n lower.now upper.now) }
{
    0 < min_activity(rows, start, lower, upper, n)
}

// How far a variable with coefficient a and these bounds can move its constraint: |a| · (U − L).
pub fn span(a: i64, lower: i64, upper: i64) -> i64
    requires { TermFits a lower upper }
    ensures value { result ≡ span_of a (record { lower = lower; upper = upper }) }
    ensures within { Within widest_span result }
{
    a.abs() * (upper - lower)
}

// The larger of `most` and a variable's span: where a constraint's slack is no less than all its spans, it improves no bound.
pub fn further(most: i64, a: i64, lower: i64, upper: i64) -> i64
    requires { TermFits a lower upper × Within widest_span most }
    ensures { Further most a (record { lower = lower; upper = upper }) result }
{
    most.max(span(a, lower, upper))
}

// A bound of a variable.
#[derive(Clone, Copy, Debug, PartialEq, Eq)]
pub enum Bound {
    Lower(i64),
    Upper(i64),
}

// The bound that a constraint implies for a variable with coefficient a, not 0, p being its minimum activity without the variable: 'v ≤ −p/a rounded
// down' for a > 0, and 'v ≥ p/|a| rounded up' for a < 0.
fn implied_bound(p: i64, a: i64) -> Bound
    requires { ImpliedFits p a × ¬ (a ≡ pos 0) }
    ensures { result ≡ implied_of p a }
{
    let size = a.unsigned_abs();
    if 0 < a {
        Bound::Upper(floor_div(-p, size))
    } else {
        Bound::Lower(ceil_div(p, size))
    }
}

// The 'improvement' that a constraint of this minimum activity, not above 0, makes at a variable with coefficient a and these bounds. The implied
// bound is better exactly when the slack is below the variable's span, so the search divides only where it sets a bound.
pub fn improvement_at(a: i64, lower: i64, upper: i64, activity: i64) -> Option<Bound>
    requires { ImprovementFits a lower upper activity }
    ensures by_index { (j i : ℕ) → move_of j i result ≡ improvement_at j i (activity -ℤ term_of a (record { lower = lower; upper = upper })) a (record { lower = lower; upper = upper }) }
    ensures improves { IfSome result (Improves lower upper) }
{
    if span(a, lower, upper) <= -activity {
        return None;
    }
    Some(implied_bound(activity - term(a, lower, upper), a))
}
