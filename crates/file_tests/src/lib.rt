// The tests on the bytes of a problem file: document 01's errors 1 to 4 and 7.
#![tactic(auto)]

ghost use Rattle.std.specs.Prelude.{◌≡◌, ◌+◌, ◌*◌, ◌<◌, ◌≤◌, length};
ghost use Rattle.model_files.specs.Bytes.{block_length, block};
ghost use Rattle.model_files.specs.File.{variables_in, constraints_in, whole_blocks, check_matches, checks_match, magic_matches, constraint_padded, head_padded, padding_zero};
ghost use Rattle.fields.specs.Fields.{sizes_match, Blocks};

use block::{check, number};
use fields::offsets;
use fields::reader::{budget_in, constraints_in, variables_in};
use layout::range::sizes_in_range;

// 1, 'torn': whether the file is whole blocks, at least one.
pub fn is_whole(file: &[u8]) -> bool
    ensures { result ≡ whole_blocks file.now }
{
    block::LENGTH <= file.len() && file.len() % block::LENGTH == 0
}

// Whether block k holds its check.
fn is_checked(file: &[u8], k: usize) -> bool
    requires { block_length * k + block_length ≤ length file.now }
    ensures { result ≡ check_matches file.now k }
{
    check::is_checked(&file[block::range(k)], k)
}

// 2, 'bad check': whether every block holds its check.
pub fn checks_match(file: &[u8]) -> bool
    ensures { result ≡ checks_match file.now }
{
    (0..file.len() / block::LENGTH).all(|k| is_checked(file, k))
}

// 3, 'not a plan': whether the letters are right.
pub fn magic_matches(file: &[u8]) -> bool
    requires { block_length ≤ length file.now }
    ensures { result ≡ magic_matches file.now }
{
    number::u32_at(file, offsets::MAGIC_OFFSET) == offsets::MAGIC
}

// 4, 'size': whether n, m and the budget are within their limits, and there are 1 + m blocks.
pub fn sizes_match(file: &[u8]) -> bool
    requires { block_length ≤ length file.now }
    ensures { result ≡ sizes_match file.now }
{
    let m = constraints_in(file);
    sizes_in_range(variables_in(file), m, budget_in(file)) && file.len() == block::LENGTH * (m + 1)
}

// Whether the bytes of the head that should be zero are: before its thresholds and after them.
fn is_head_padded(file: &[u8]) -> bool
    requires { Blocks file.now }
    ensures { result ≡ head_padded (variables_in file.now) (block file.now 0) }
{
    let n = variables_in(file);
    let b = &file[block::range(0)];
    check::is_zero_between(b, offsets::bounds_offset(n), offsets::threshold_offset(0))
        && check::is_zero_from(b, offsets::threshold_offset(n))
}

// Whether the bytes of the block of constraint j that should be zero are: before its divisor and after it.
fn is_padded(file: &[u8], j: usize) -> bool
    requires { Blocks file.now × (j < constraints_in file.now) }
    ensures { result ≡ constraint_padded file.now j }
{
    let n = variables_in(file);
    let b = &file[block::range(j + 1)];
    check::is_zero_between(b, offsets::number_offset(n + 1), offsets::DIVISOR_OFFSET)
        && check::is_zero_from(b, offsets::DIVISOR_END)
}

// 7, 'stray': whether every byte that should be zero is.
pub fn padding_zero(file: &[u8]) -> bool
    requires { Blocks file.now }
    ensures { result ≡ padding_zero file.now }
{
    is_head_padded(file) && (0..constraints_in(file)).all(|j| is_padded(file, j))
}
