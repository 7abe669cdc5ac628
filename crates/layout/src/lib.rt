// Constraints in rows of 33 numbers, and the sizes and ranges of documents 01 and 02, each once: rows are tested, compared, copied and stored here. specs/ says how
// flat arrays are read as the model's constraints and boxes.
#![tactic(auto)]

ghost use Rattle.std.specs.Prelude.{◌+◌, ◌*◌, ◌≤◌, ◌<◌, ◌≡◌, length};
ghost use Rattle.model_problems.specs.Ranges.{max_variables};
ghost use Rattle.model_problems.specs.Constraint.{equal, equalℤ};
ghost use Rattle.layout.specs.Rows.{row_length, max_rows, rows_length, constraint_at};
ghost use Rattle.layout.specs.Copies.{Copied, Placed};

pub mod range;

pub const MAX_VARIABLES: usize = 32;

pub const MAX_CONSTRAINTS: usize = 64;

// The newest cuts that are kept.
pub const MAX_CUTS: usize = 64;

pub const MAX_BUDGET: usize = 1_000_000_000;

// Bounds set by constraints, in a state that a call takes: 0 to 2^62.
pub const MAX_PROPAGATIONS: usize = 1 << 62;

// The rows of a search state: the constraints and the cuts.
pub const MAX_ROWS: usize = MAX_CONSTRAINTS + MAX_CUTS;

// Bounds and limits: −2^24 to 2^24.
pub const MAX_BOUND: u32 = 1 << 24;

// Coefficients and constants: −2^30 to 2^30.
pub const MAX_COEFFICIENT: u32 = 1 << 30;

// Divisors: 2 to 2^20.
pub const MAX_DIVISOR: u32 = 1 << 20;

// The numbers of a row: a constant, then a coefficient for each variable.
pub const ROW: usize = 1 + MAX_VARIABLES;

// Whether two constraints of n variables are equal: in the constant and in every coefficient. It asks no range of the numbers.
// Stays: an array with the place of a row in it: the contract is about `constraint_at` of both.
pub fn is_equal(a: &[i64], at: usize, b: &[i64], bt: usize, n: usize) -> bool
    requires { (at + n < length a.now) × (bt + n < length b.now) }
    ensures { result ≡ equal (constraint_at n a.now at) (constraint_at n b.now bt) }
{
    a[at..=at + n] == b[bt..=bt + n]
}

// The row of n variables at `start`, with 0 past them.
pub fn copy_row(rows: &[i64], start: usize, n: usize) -> [i64; ROW]
    requires { (n ≤ max_variables) × (start + n < length rows.now) }
    ensures { Copied n rows.now start result }
{
    let mut row = [0; ROW];
    row[..=n].copy_from_slice(&rows[start..=start + n]);
    row
}

// Puts a row in place j.
pub fn store_row(rows: &mut [i64], row: &[i64; ROW], j: usize)
    requires { row_length * j + row_length ≤ length rows.old }
    ensures { Placed (row_length * j) row_length row.now rows.old rows.new }
{
    let start = ROW * j;
    rows[start..start + ROW].copy_from_slice(row);
}
