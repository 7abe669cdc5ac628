// Document 01's 'rounding a line'. A constraint is a row of 33 numbers, the constant first.
ghost use Rattle.std.specs.Prelude.{◌≡◌, ◌<◌, ◌≤◌, ◌^◌, pos, nat_abs, length};
ghost use Rattle.model_problems.specs.Ranges.{max_variables, max_coefficient};
ghost use Rattle.model_problems.specs.Constraint.{common_divisor, rounded_by, rounded};
ghost use Rattle.integer.specs.Size.{Within};
ghost use Rattle.integer.specs.Divisor.{Above};
ghost use Rattle.layout.specs.Rows.{row_length, constraint_at};
ghost use Rattle.derivation.specs.Sized.{max_combined, Sized};
ghost use Rattle.derivation.specs.Excess.{Excess, RoundedInRange};

use integer::{ceil_div, exact_div, gcd_above, magnitude};
use layout::ROW;

// What a coefficient's size may be.
const MAX_COEFFICIENT: u64 = layout::MAX_COEFFICIENT as u64;

// A number so small that division by it, or by a smaller one, leaves the constraint out of range: the first coefficient out of range over 2^30 + 1, or 0
// where there is none.
fn excess(c: &[i64; ROW], n: usize) -> u64
    requires { n ≤ max_variables }
    ensures { Excess (constraint_at n c.now 0) result }
{
    for coefficient in &c[1..=n] {
        let size = magnitude(*coefficient);
        if MAX_COEFFICIENT < size {
            return size / (MAX_COEFFICIENT + 1);
        }
    }
    0
}

// The greatest common divisor of the coefficients; 0 where they are all 0. Once it is 1 it stays 1. One that is at most `least`, and not 0, may be given
// as 1.
fn divisor(c: &[i64; ROW], n: usize, least: u64) -> u64
    requires { n ≤ max_variables }
    ensures { Above least (common_divisor (constraint_at n c.now 0).coefficients) result }
{
    let mut g = 0;
    for i in (0..n).rev() {
        if g == 1 {
            break;
        }
        g = gcd_above(magnitude(c[i + 1]), g, least);
    }
    g
}

// Divided by h, the constant rounded up. What lies past the first n coefficients stays.
fn divided(c: [i64; ROW], h: u64, n: usize) -> [i64; ROW]
    requires { (n ≤ max_variables) × ((0 < h) × (h < 2 ^ 63)) }
    ensures { constraint_at n result 0 ≡ rounded_by h (constraint_at n c 0) }
{
    let mut r = c;
    r[0] = ceil_div(c[0], h);
    for i in 0..n {
        r[i + 1] = exact_div(c[i + 1], h);
    }
    r
}

// 'Rounding': a constraint with no coefficient but 0 stays, and so does one whose divisor is 1. What lies past the first n coefficients stays.
pub fn round(c: [i64; ROW], n: usize) -> [i64; ROW]
    requires { (n ≤ max_variables) × Sized max_combined (constraint_at n c 0) }
    ensures { constraint_at n result 0 ≡ rounded (constraint_at n c 0) }
{
    let h = divisor(&c, n, 0);
    if 1 < h { divided(c, h, n) } else { c }
}

// Rounds a constraint in place, or leaves it out of range where rounded it is out of range too: most of what is combined is never taken, and this is
// seen before its divisor is known.
pub fn round_into_range(c: &mut [i64; ROW], n: usize)
    requires { (n ≤ max_variables) × ((length c.old ≡ row_length) × Sized max_combined (constraint_at n c.old 0)) }
    ensures { RoundedInRange n c.old c.new }
{
    let h = divisor(c, n, excess(c, n));
    if 1 < h {
        *c = divided(*c, h, n);
    }
}
