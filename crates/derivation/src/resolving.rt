// Document 01's 'combining' F with J at a variable. F and J lie in rows of 33 numbers, the constant first.
ghost use Rattle.std.specs.Prelude.{◌≡◌, ◌≤◌, pos, ◌+ℤ◌, ◌*ℤ◌, length};
ghost use Rattle.model_problems.specs.Ranges.{max_coefficient};
ghost use Rattle.model_problems.specs.Constraint.{combination, opposite};
ghost use Rattle.integer.specs.Size.{Within};
ghost use Rattle.layout.specs.Rows.{row_length, constraint_at};
ghost use Rattle.derivation.specs.Resolvable.{Combinable, Resolvable, Combined};

use integer::{gcd, magnitude};
use layout::ROW;

// The coefficients are of opposite sign.
pub fn is_opposite(a: i64, b: i64) -> bool
    ensures { result ≡ opposite a b }
{
    (0 < a && b < 0) || (a < 0 && 0 < b)
}

// s · a + t · b
fn mix(s: u64, a: i64, t: u64, b: i64) -> i64
    requires { (s ≤ max_coefficient) × ((t ≤ max_coefficient) × (Within max_coefficient a × Within max_coefficient b)) }
    ensures { result ≡ pos s *ℤ a +ℤ pos t *ℤ b }
{
    s as i64 * a + t as i64 * b
}

// s · F + t · J, into r. What lies past the first n coefficients stays.
fn combine(f: &[i64], j: &[i64], s: u64, t: u64, n: usize, r: &mut [i64; ROW])
    requires combinable { Combinable n f.now 0 j.now 0 }
    requires multipliers { (s ≤ max_coefficient) × (t ≤ max_coefficient) }
    ensures { constraint_at n r.new 0 ≡ combination s (constraint_at n f.now 0) t (constraint_at n j.now 0) }
{
    for i in 0..n + 1 {
        r[i] = mix(s, f[i], t, j[i]);
    }
}

// 'Combining' at variable i, before it is rounded, into r. What lies past the first n coefficients stays.
// Stays: an array with the place of a row in it: `Resolvable`, which its requires cites, speaks of the array and the place.
pub fn combine_at(
    f: &[i64],
    at: usize,
    rows: &[i64],
    start: usize,
    i: usize,
    n: usize,
    r: &mut [i64; ROW],
)
    requires { Resolvable i n f.now at rows.now start × (length r.old ≡ row_length) }
    ensures { Combined i (constraint_at n f.now at) (constraint_at n rows.now start) n r.new }
{
    let f = &f[at..at + ROW];
    let j = &rows[start..start + ROW];
    let a = magnitude(f[1 + i]);
    let b = magnitude(j[1 + i]);
    let g = gcd(a, b);
    combine(f, j, b / g, a / g, n, r);
}
