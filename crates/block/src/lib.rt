// The bytes of 512-byte blocks: where they stand in a file, numbers read and written, a block's check, and a block written field by field.
#![tactic(auto)]

ghost use Rattle.std.specs.Prelude.{◌≡◌, ◌*◌, ◌+◌, ◌≤◌};
ghost use Rattle.model_files.specs.Bytes.{block_length};

use std::ops::Range;

pub mod build;
pub mod check;
pub mod journal;
pub mod number;

// How long a block is, and where its check stands.
// Stays: a block is a part of its file, from 512 times k on, document 01's forms by place; so its length is asked for, and not in its type.
pub const LENGTH: usize = 512;

pub const CHECK: usize = 508;

// The places of block k in a file.
pub fn range(k: usize) -> Range<usize>
    requires { block_length * k + block_length ≤ usize.MAX }
    ensures { (result.start ≡ block_length * k) × (result.end ≡ block_length * k + block_length) }
{
    let start = LENGTH * k;
    start..start + LENGTH
}
