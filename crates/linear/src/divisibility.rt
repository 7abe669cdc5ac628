// Document 02's divisor lines: when a constraint that carries a divisor is 'false', and one test for constraints of both sorts.
ghost use Rattle.std.specs.Prelude.{◌≡◌, ◌≤◌, ◌<◌};
ghost use Rattle.model_problems.specs.Ranges.{max_divisor};
ghost use Rattle.model_problems.specs.Constraint.{falsified, falsified_by};
ghost use Rattle.layout.specs.Rows.{constraint_at, divided_at, box_of};
ghost use Rattle.linear.specs.Ranges.{RowFits, BoxFits, DivisorFits};

use crate::activity;
use integer::gcd;

// Whether the constraint whose row starts at `start`, with divisor q above 0, is falsified: the greatest common divisor of q and the open variables'
// coefficients does not divide the rest's value. Once it is 1 it stays 1, and divides everything.
fn is_indivisible(
    rows: &[i64],
    start: usize,
    q: u64,
    lower: &[i64],
    upper: &[i64],
    n: usize,
) -> bool
    requires q_nonzero { (0 < q) × (q ≤ max_divisor) }
    requires row_fits { RowFits n rows.now start }
    requires box_fits { BoxFits n lower.now upper.now }
    ensures { result ≡ falsified_by q (constraint_at n rows.now start) (box_of n lower.now upper.now) }
{
    let mut g = q;
    let mut sum: i64 = 0;
    for i in (0..n).rev() {
        if g == 1 {
            return false;
        }
        let a = rows[start + 1 + i];
        let low = lower[i];
        if low < upper[i] {
            g = gcd(a.unsigned_abs(), g);
        } else {
            sum += a * low;
        }
    }
    (rows[start] + sum).unsigned_abs() % g != 0
}

// Whether the constraint whose row starts at `start`, with divisor q or, where q is 0, an inequality, is falsified.
pub fn is_falsified(
    rows: &[i64],
    start: usize,
    q: i64,
    lower: &[i64],
    upper: &[i64],
    n: usize,
) -> bool
    requires divisor_fits { DivisorFits q }
    requires row_fits { RowFits n rows.now start }
    requires box_fits { BoxFits n lower.now upper.now }
    ensures { result ≡ falsified (divided_at n rows.now start q) (box_of n lower.now upper.now) }
{
    // Stays: the divisor 0 stands for none, as in a file and in the model's `Constraint.divisor` (`DivisorFits`).
    if q == 0 {
        return activity::is_falsified(rows, start, lower, upper, n);
    }
    is_indivisible(rows, start, q.unsigned_abs(), lower, upper, n)
}
