// The blocks of a problem, written into the parts of a lent buffer.
ghost use Rattle.std.specs.Prelude.{◌≡◌, true, ◌++◌, ◌+◌, ◌*◌, ◌≤◌, length, drop};
ghost use Rattle.model_problems.specs.Ranges.{max_variables};
ghost use Rattle.model_problems.specs.Lists.{parts};
ghost use Rattle.model_files.specs.Bytes.{block_length, sealed};
ghost use Rattle.model_problems.specs.Problem.{domain_in_range, thresholds_in_range};
ghost use Rattle.model_files.specs.File.{bounds_bytes, threshold_bytes, head_bytes, file_of, file_length};
ghost use Rattle.block.specs.Placed.{Placed};
ghost use Rattle.problem.specs.View.{problem_of};
ghost use Rattle.file_blocks.specs.Writable.{Writable};

use block::build;
use fields::offsets;
use fields::offsets::Side;
use fields::writer::{put_sizes, write_constraint};
use layout::ROW;
use problem::Problem;

// Puts the bounds of the variables after them.
fn put_bounds(problem: &Problem, head: &mut [u8])
    requires { (problem.now.n ≤ max_variables) × (domain_in_range (problem_of problem.now) ≡ true) × (length head.old ≡ block_length) }
    ensures { Placed head.old 12 (12 + 8 * problem.now.n) (parts (bounds_bytes (problem_of problem.now)) 0 problem.now.n) head.new }
{
    for i in 0..problem.n {
        build::put_i32(
            head,
            offsets::bound_offset(i, Side::Lower),
            problem.lower[i],
        );
        build::put_i32(
            head,
            offsets::bound_offset(i, Side::Upper),
            problem.upper[i],
        );
    }
}

// Puts the thresholds of the variables.
fn put_thresholds(problem: &Problem, head: &mut [u8])
    requires n_le_max_variables { (problem.now.n ≤ max_variables) × (domain_in_range (problem_of problem.now) ≡ true) × (length head.old ≡ block_length) }
    requires problem_value { thresholds_in_range (problem_of problem.now) ≡ true }
    ensures { Placed head.old 268 (268 + 4 * problem.now.n) (parts (threshold_bytes (problem_of problem.now)) 0 problem.now.n) head.new }
{
    for i in 0..problem.n {
        build::put_i32(head, offsets::threshold_offset(i), problem.thresholds[i]);
    }
}

// Writes the head's block, whatever stood there.
fn write_head(problem: &Problem, head: &mut [u8])
    requires n_le_max_variables { (problem.now.n ≤ max_variables) × (domain_in_range (problem_of problem.now) ≡ true) × (length head.old ≡ block_length) }
    requires problem_value { thresholds_in_range (problem_of problem.now) ≡ true }
    ensures { head.new ≡ sealed 0 (head_bytes (problem_of problem.now)) }
{
    build::clear(head);
    put_sizes(problem.n, problem.m, problem.budget, head);
    put_bounds(problem, head);
    put_thresholds(problem, head);
    build::seal(head, 0);
}

// Writes the blocks of a problem at the buffer's start, and leaves the bytes after them.
pub fn write_blocks(problem: &Problem, buffer: &mut [u8])
    requires { Writable problem.now (length buffer.old) }
    ensures { buffer.new ≡ file_of (problem_of problem.now) ++ drop (file_length (problem_of problem.now)) buffer.old }
{
    write_head(problem, &mut buffer[block::range(0)]);
    for j in 0..problem.m {
        let row = &problem.constraints[ROW * j..ROW * (j + 1)];
        let part = &mut buffer[block::range(j + 1)];
        write_constraint(problem.n, row, problem.divisors[j], j + 1, part);
    }
}
