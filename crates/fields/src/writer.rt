// The sizes of a head and the block of a constraint, written into the parts of a lent buffer.
ghost use Rattle.std.specs.Prelude.{◌≡◌, true, ◌++◌, ◌+◌, ◌*◌, ◌<◌, ◌≤◌, length};
ghost use Rattle.model_problems.specs.Ranges.{max_variables};
ghost use Rattle.model_files.specs.Bytes.{u16_bytes, u32_bytes, block_length, sealed};
ghost use Rattle.model_problems.specs.Constraint.{in_range, is_divisor};
ghost use Rattle.model_files.specs.File.{magic, numbers_bytes, constraint_bytes};
ghost use Rattle.layout.specs.Rows.{constraint_at, divided_at};
ghost use Rattle.block.specs.Placed.{Placed};

use crate::offsets;
use block::build;

// Puts the letters and the sizes of a head.
pub fn put_sizes(n: usize, m: usize, budget: usize, head: &mut [u8])
    requires { length head.old ≡ block_length }
    ensures { Placed head.old 0 12 (magic ++ (u16_bytes n ++ (u16_bytes m ++ u32_bytes budget))) head.new }
{
    build::put_u32(head, offsets::MAGIC_OFFSET, offsets::MAGIC);
    build::put_u16(head, offsets::VARIABLES_OFFSET, n);
    build::put_u16(head, offsets::CONSTRAINTS_OFFSET, m);
    build::put_u32(head, offsets::BUDGET_OFFSET, budget);
}

// Puts the constant and the n coefficients of a row.
fn put_numbers(n: usize, row: &[i64], block: &mut [u8])
    requires { (n ≤ max_variables) × (n < length row.now) × (in_range (constraint_at n row.now 0) ≡ true) × (length block.old ≡ block_length) }
    ensures { Placed block.old 0 (4 + 4 * n) (numbers_bytes n (constraint_at n row.now 0)) block.new }
{
    for i in 0..n + 1 {
        build::put_i32(block, offsets::number_offset(i), row[i]);
    }
}

// Writes the block of a constraint with divisor q, block k of the file, whatever stood there.
pub fn write_constraint(n: usize, row: &[i64], q: i64, k: usize, block: &mut [u8])
    requires n_le_max_variables { (n ≤ max_variables) × (n < length row.now) × (in_range (constraint_at n row.now 0) ≡ true) × (length block.old ≡ block_length) }
    requires q_value { is_divisor q ≡ true }
    ensures { block.new ≡ sealed k (constraint_bytes n (divided_at n row.now 0 q)) }
{
    build::clear(block);
    put_numbers(n, row, block);
    build::put_i32(block, offsets::DIVISOR_OFFSET, q);
    build::seal(block, k);
}
