// The divisor constraints, set apart when a call starts and put back when it ends.
ghost use Rattle.std.specs.Prelude.{◌≡◌, ◌≤◌, length};
ghost use Rattle.model_problems.specs.Ranges.{max_variables, max_constraints};
ghost use Rattle.layout.specs.Rows.{rows_length};
ghost use Rattle.turns.specs.Setting.{RowsPut};

use layout::{ROW, copy_row, store_row};

// Puts the rows of the inputs that carry a divisor, from another array: zeros, to blank them, or their own rows again.
pub fn put_rows(
    from: &[i64; 4224],
    divisors: &[i64; 64],
    n: usize,
    m: usize,
    rows: &mut [i64; 4224],
)
    requires { (n ≤ max_variables) × ((m ≤ max_constraints) × ((length from.now ≡ rows_length) × ((length divisors.now ≡ max_constraints) × (length rows.old ≡ rows_length)))) }
    ensures { RowsPut n m divisors.now from.now rows.old rows.new }
{
    for j in 0..m {
        if divisors[j] != 0 {
            let row = copy_row(from, ROW * j, n);
            store_row(rows, &row, j);
        }
    }
}
