// The ranges of documents 01 and 02, tested on numbers.
ghost use Rattle.std.specs.Prelude.{◌≡◌, List, ℕ, ◌+◌, ◌*◌, ◌≤◌, ◌<◌, ℤ, length};
ghost use Rattle.model_problems.specs.Lists.{tab, all_of};
ghost use Rattle.model_problems.specs.Ranges.{within, max_variables, max_constraints};
ghost use Rattle.model_problems.specs.Problem.{bounds_in_range};
ghost use Rattle.model_problems.specs.Constraint.{in_range, none_or_from_two, is_divisor, divisor_in_range};
ghost use Rattle.layout.specs.Rows.{row_length, constraint_at, row_at, input_at, box_of};
ghost use Rattle.layout.specs.Sizes.{sizes_fit};

use crate::{
    MAX_BOUND, MAX_BUDGET, MAX_COEFFICIENT, MAX_CONSTRAINTS, MAX_DIVISOR, MAX_VARIABLES, ROW,
};

// Whether n, m and the budget are within their limits.
#[tactic(auto, unfolding(crate::specs::Sizes::sizes_fit, model_problems::specs::Lists::all))]
pub fn sizes_in_range(n: usize, m: usize, budget: usize) -> bool
    ensures { result ≡ sizes_fit n m budget }
{
    (1..=MAX_VARIABLES).contains(&n) && m <= MAX_CONSTRAINTS && budget <= MAX_BUDGET
}

// Whether a number is from −limit to limit.
#[tactic(auto, using(std::proofs::lemmas::Int::ints), unfolding(model_problems::specs::Ranges::within))]
fn is_within(limit: u32, number: i64) -> bool
    ensures { result ≡ within limit number }
{
    number.unsigned_abs() <= u64::from(limit)
}

// Whether the bounds of a variable are in range, the lower not above the upper.
#[tactic(auto, unfolding(model_problems::specs::Lists::all, model_problems::specs::Problem::bounds_in_range))]
pub fn bounds_in_range(lower: i64, upper: i64) -> bool
    ensures { result ≡ bounds_in_range (record { lower = lower; upper = upper }) }
{
    is_within(MAX_BOUND, lower) && is_within(MAX_BOUND, upper) && lower <= upper
}

// Whether the bounds of n variables are in range.
// Stays: two slices side by side: they are the bounds of a level and of a problem, which are two structs.
pub fn are_bounds_in_range(lower: &[i64], upper: &[i64], n: usize) -> bool
    requires { (n ≤ length lower.now) × (n ≤ length upper.now) }
    ensures { result ≡ all_of bounds_in_range (box_of n lower.now upper.now) }
{
    (0..n).all(|i| bounds_in_range(lower[i], upper[i]))
}

// Whether the constraint of n variables whose row starts at `start` is in range: its constant and its coefficients.
pub fn is_in_range(rows: &[i64], start: usize, n: usize) -> bool
    requires { start + n < length rows.now }
    ensures { result ≡ in_range (constraint_at n rows.now start) }
{
    rows[start..=start + n]
        .iter()
        .all(|a| is_within(MAX_COEFFICIENT, *a))
}

// Whether the first `count` constraints are in range.
pub fn are_in_range(rows: &[i64], count: usize, n: usize) -> bool
    requires { (n ≤ max_variables) × (row_length * count ≤ length rows.now) }
    ensures { result ≡ all_of in_range (tab (row_at n rows.now) 0 count) }
{
    (0..count).all(|j| is_in_range(rows, ROW * j, n))
}

// Whether a number is 0, for none, or from 2 to a limit.
pub fn is_none_or_from_two(limit: i64, q: i64) -> bool
    ensures { result ≡ none_or_from_two limit q }
{
    q == 0 || (2..=limit).contains(&q)
}

// Whether a constraint's divisor is in range: none, or 2 to 2^20.
#[tactic(auto, unfolding(model_problems::specs::Constraint::is_divisor))]
pub fn is_divisor_in_range(q: i64) -> bool
    ensures { result ≡ is_divisor q }
{
    is_none_or_from_two(i64::from(MAX_DIVISOR), q)
}

// Whether the divisors of the first m constraints are in range.
pub fn are_divisors_in_range(divisors: &[i64; MAX_CONSTRAINTS], m: usize) -> bool
    requires { m ≤ max_constraints }
    ensures { (n : ℕ) (rows : List ℤ) → result ≡ all_of divisor_in_range (tab (input_at n rows divisors.now) 0 m) }
{
    divisors[..m].iter().all(|q| is_divisor_in_range(*q))
}
