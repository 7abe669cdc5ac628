// Where the fields of a file stand, document 01's 'plan file': one description for reading and for writing.
ghost use Rattle.std.specs.Prelude.{◌≡◌, ◌+◌, ◌*◌, ◌≤◌};
ghost use Rattle.model_problems.specs.Ranges.{max_variables};
ghost use Rattle.model_files.specs.File.{bounds_offset, threshold_offset};
ghost use Rattle.layout.specs.Rows.{row_length};
ghost use Rattle.fields.specs.Sides.{side_offset};

// The letters BLUE, as a number of four bytes at the head's start.
pub const MAGIC: usize = 0x4555_4C42;

pub const MAGIC_OFFSET: usize = 0;

// 'n', 'm' and 'B' in the head.
pub const VARIABLES_OFFSET: usize = 4;

pub const CONSTRAINTS_OFFSET: usize = 6;

pub const BUDGET_OFFSET: usize = 8;

// The two bounds of a variable.
#[derive(Clone, Copy, Debug, PartialEq, Eq)]
pub enum Side {
    Lower,
    Upper,
}

// The bounds of variable i in the head.
pub fn bounds_offset(i: usize) -> usize
    requires { i ≤ max_variables }
    ensures { (result ≡ bounds_offset i) × (result ≤ 268) }
{
    12 + 8 * i
}

// One of them: the lower one comes first.
pub fn bound_offset(i: usize, side: Side) -> usize
    requires { i ≤ max_variables }
    ensures { (result ≡ bounds_offset i + side_offset side) × (result ≤ 272) }
{
    match side {
        Side::Lower => bounds_offset(i),
        Side::Upper => bounds_offset(i) + 4,
    }
}

// The threshold of variable i in the head, whatever n is.
pub fn threshold_offset(i: usize) -> usize
    requires { i ≤ max_variables }
    ensures { (result ≡ threshold_offset i) × (result ≤ 396) }
{
    268 + 4 * i
}

// The divisor of a constraint in its block, whatever n is, and what follows it.
pub const DIVISOR_OFFSET: usize = 132;

pub const DIVISOR_END: usize = DIVISOR_OFFSET + 4;

// Number i of a constraint in its block: the constant, then the coefficients.
pub fn number_offset(i: usize) -> usize
    requires { i ≤ row_length }
    ensures { result ≡ 4 * i }
{
    4 * i
}
