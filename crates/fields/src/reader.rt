// The fields of a problem file, and the arrays of the problem in it.
ghost use Rattle.std.specs.Prelude.{◌≡◌, ℕ, ℤ, ◌*◌, ◌<◌, ◌≤◌, length};
ghost use Rattle.model_problems.specs.Ranges.{max_variables};
ghost use Rattle.model_files.specs.Bytes.{block_length};
ghost use Rattle.model_files.specs.File.{variables_in, constraints_in, budget_in, threshold_in};
ghost use Rattle.layout.specs.Rows.{row_length};
ghost use Rattle.fields.specs.Sides.{side_offset};
ghost use Rattle.fields.specs.Fields.{Blocks, room, cells, divisor_room, filled, bound_in, cell_in, divisor_in};

use crate::offsets;
use crate::offsets::Side;
use block::number;
use layout::{MAX_CONSTRAINTS, MAX_VARIABLES, ROW};

// 'n', 'm' and 'B' of a file that has a head.
#[tactic(auto, unfolding(model_files::specs::File::variables_in))]
pub fn variables_in(file: &[u8]) -> usize
    requires { block_length ≤ length file.now }
    ensures { (result ≡ variables_in file.now) × (result < 65536) }
{
    number::u16_at(file, offsets::VARIABLES_OFFSET)
}

#[tactic(auto, unfolding(model_files::specs::File::constraints_in))]
pub fn constraints_in(file: &[u8]) -> usize
    requires { block_length ≤ length file.now }
    ensures { (result ≡ constraints_in file.now) × (result < 65536) }
{
    number::u16_at(file, offsets::CONSTRAINTS_OFFSET)
}

#[tactic(auto, unfolding(model_files::specs::File::budget_in))]
pub fn budget_in(file: &[u8]) -> usize
    requires { block_length ≤ length file.now }
    ensures { result ≡ budget_in file.now }
{
    number::u32_at(file, offsets::BUDGET_OFFSET)
}

// The first `count` numbers that f gives, and 0 past them.
fn filled<const N: usize, F: Fn(usize) -> i64>(count: usize, f: F) -> [i64; N]
    ghost numbers: { ℕ → ℤ }
    requires count_le_N { count ≤ N }
    requires callable { (i : ℕ) → i < count → F.pre f i }
    requires gives { (i : ℕ) (z : ℤ) → i < count → F.post f i z → z ≡ numbers i }
    ensures { result ≡ filled numbers count N }
{
    let mut numbers = [0; N];
    for i in 0..count {
        numbers[i] = f(i);
    }
    numbers
}

// A bound of variable i.
fn bound_in(file: &[u8], side: Side, i: usize) -> i64
    requires { (block_length ≤ length file.now) × (i < max_variables) }
    ensures { result ≡ bound_in file.now (side_offset side) i }
{
    number::i32_at(file, offsets::bound_offset(i, side))
}

// The lower or the upper bounds of n variables; 0 past the last one.
// Stays: a file beside its n and m, here and below: a struct of the three would say again what the file's own head says, no plainer.
pub fn bounds_in(file: &[u8], n: usize, side: Side) -> [i64; MAX_VARIABLES]
    requires { (block_length ≤ length file.now) × (n ≤ max_variables) }
    ensures { result ≡ filled (bound_in file.now (side_offset side)) n room }
{
    filled(n, |i| bound_in(file, side, i))
}

// The threshold of variable i.
fn threshold_in(file: &[u8], i: usize) -> i64
    requires { (block_length ≤ length file.now) × (i < max_variables) }
    ensures { result ≡ threshold_in file.now i }
{
    number::i32_at(file, offsets::threshold_offset(i))
}

// The thresholds of n variables; 0 past the last one.
pub fn thresholds_in(file: &[u8], n: usize) -> [i64; MAX_VARIABLES]
    requires { (block_length ≤ length file.now) × (n ≤ max_variables) }
    ensures { result ≡ filled (threshold_in file.now) n room }
{
    filled(n, |i| threshold_in(file, i))
}

// Number c of the rows, which stands in constraint c / 33; 0 past the last variable.
fn cell_in(file: &[u8], n: usize, c: usize) -> i64
    requires { Blocks file.now × (n ≡ variables_in file.now) × (c < row_length * constraints_in file.now) }
    ensures { result ≡ cell_in file.now c }
{
    let i = c % ROW;
    if n < i {
        return 0;
    }
    number::i32_at(&file[block::range(c / ROW + 1)], offsets::number_offset(i))
}

// The rows of m constraints; 0 past the last one.
pub fn rows_in(file: &[u8], n: usize, m: usize) -> [i64; 2112]
    requires { Blocks file.now × (n ≡ variables_in file.now) × (m ≡ constraints_in file.now) }
    ensures { result ≡ filled (cell_in file.now) (row_length * m) cells }
{
    filled(ROW * m, |c| cell_in(file, n, c))
}

// The divisor of constraint j.
fn divisor_in(file: &[u8], j: usize) -> i64
    requires { Blocks file.now × (j < constraints_in file.now) }
    ensures { result ≡ divisor_in file.now j }
{
    number::i32_at(&file[block::range(j + 1)], offsets::DIVISOR_OFFSET)
}

// The divisors of m constraints; 0 past the last one.
pub fn divisors_in(file: &[u8], m: usize) -> [i64; MAX_CONSTRAINTS]
    requires { Blocks file.now × (m ≡ constraints_in file.now) }
    ensures { result ≡ filled (divisor_in file.now) m divisor_room }
{
    filled(m, |j| divisor_in(file, j))
}
