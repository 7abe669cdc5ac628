// The divisor constraints of a search, apart from the inequalities: which they are, which of them mention a variable, and the first that bounds falsify.
// `lines` holds the rows of the inputs; among the rows that the other scans read, those with a divisor are blank.
ghost use Rattle.std.specs.Prelude.{◌≡◌, pos, ◌≤◌, ◌<◌, length};
ghost use Rattle.model_problems.specs.Ranges.{max_variables, max_constraints};
ghost use Rattle.layout.specs.Rows.{rows_length};
ghost use Rattle.bits.specs.Divided.{Due, Everyone, Unmentioned, Testable, FirstIndivisible, Columns, SetApart};

use crate::masks::{SetBits, mask_where};
use layout::ROW;
use linear::divisibility::is_falsified;
use state::Level;

// The rows of the inputs with their divisors; the inputs that carry a divisor, and those of them that mention each variable.
#[derive(Drop)]
pub struct Divided {
    pub lines: [i64; 4224],
    pub divisors: [i64; 64],
    pub all: usize,
    pub columns: [usize; 32],
}

// The inputs that carry a divisor.
fn divided_mask(divisors: &[i64; 64], m: usize) -> usize
    requires { (m ≤ max_constraints) × (length divisors.now ≡ max_constraints) }
    ensures { Due m divisors.now Everyone result }
{
    mask_where(m, |j| divisors[j] != 0)
}

// The inputs that carry a divisor and mention variable i.
fn column_mask(lines: &[i64; 4224], divisors: &[i64; 64], m: usize, i: usize) -> usize
    requires { (m ≤ max_constraints) × ((i < max_variables) × ((length lines.now ≡ rows_length) × (length divisors.now ≡ max_constraints))) }
    ensures { Due m divisors.now (Unmentioned lines.now i) result }
{
    mask_where(m, |j| divisors[j] != 0 && lines[ROW * j + 1 + i] != 0)
}

// Those of every variable; none where no input carries a divisor.
fn columns(
    lines: &[i64; 4224],
    divisors: &[i64; 64],
    n: usize,
    m: usize,
    divided: usize,
) -> [usize; 32]
    requires { (n ≤ max_variables) × ((m ≤ max_constraints) × ((length lines.now ≡ rows_length) × ((length divisors.now ≡ max_constraints) × Due m divisors.now Everyone divided))) }
    ensures { Columns n m lines.now divisors.now result }
{
    let mut columns = [0usize; 32];
    if divided != 0 {
        for i in 0..n {
            columns[i] = column_mask(lines, divisors, m, i);
        }
    }
    columns
}

impl Divided {
    pub fn new(lines: &[i64; 4224], divisors: &[i64; 64], n: usize, m: usize) -> Divided
        requires { (n ≤ max_variables) × ((m ≤ max_constraints) × ((length lines.now ≡ rows_length) × (length divisors.now ≡ max_constraints))) }
        ensures { SetApart n m lines.now divisors.now result }
    {
        let all = divided_mask(divisors, m);
        let columns = columns(lines, divisors, n, m, all);
        Divided {
            lines: *lines,
            divisors: *divisors,
            all,
            columns,
        }
    }

    // The position of the first constraint of a mask that the level falsifies, if it stands before `limit`; else `limit`.
    // Stays: `limit` stands for none: what comes in is the first falsified inequality's position, and goes out where none stands before it.
    pub fn first_falsified(
        &self,
        due: usize,
        level: &Level,
        n: usize,
        m: usize,
        limit: usize,
    ) -> usize
        requires { Testable n m self.now.lines self.now.divisors level.now.lower level.now.upper due }
        ensures { FirstIndivisible n m self.now.lines self.now.divisors level.now.lower level.now.upper due limit result }
    {
        for j in SetBits(due) {
            if limit <= j {
                return limit;
            }
            if is_falsified(
                &self.lines,
                ROW * j,
                self.divisors[j],
                &level.lower,
                &level.upper,
                n,
            ) {
                return j;
            }
        }
        limit
    }
}
