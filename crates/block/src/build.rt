// A block written field by field: cleared, its fields put in place, and sealed by its check.
ghost use Rattle.std.specs.Prelude.{◌≡◌, ◌+◌, ◌^◌, ◌≤◌, length, take};
ghost use Rattle.integer.specs.Size.{Within};
ghost use Rattle.model_files.specs.Bytes.{u16_bytes, u32_bytes, i32_bytes, unsigned, block_length, check_offset, sealed};
ghost use Rattle.block.specs.Placed.{Placed, cleared};

use crate::{CHECK, check};

// Puts bytes at a place.
// Stays: a place beside the block, here and below: the format says where each field stands (`fields::offsets`, `block::journal`).
fn put(s: &mut [u8], at: usize, bytes: &[u8])
    requires { at + length bytes.now ≤ length s.old }
    ensures { Placed s.old at (at + length bytes.now) bytes.now s.new }
{
    s[at..at + bytes.len()].copy_from_slice(bytes);
}

// Puts 16 bits of a number at a place.
pub fn put_u16(s: &mut [u8], at: usize, v: usize)
    requires { at + 2 ≤ length s.old }
    ensures { Placed s.old at (at + 2) (u16_bytes v) s.new }
{
    put(s, at, &v.to_le_bytes()[..2]);
}

// Puts 32 bits of a number at a place.
pub fn put_u32(s: &mut [u8], at: usize, v: usize)
    requires { at + 4 ≤ length s.old }
    ensures { Placed s.old at (at + 4) (u32_bytes v) s.new }
{
    put(s, at, &v.to_le_bytes()[..4]);
}

// Puts a signed 32-bit number at a place, in two's complement.
pub fn put_i32(s: &mut [u8], at: usize, z: i64)
    requires { (at + 4 ≤ length s.old) × Within (2 ^ 31) z }
    ensures { Placed s.old at (at + 4) (i32_bytes z) s.new }
{
    put(s, at, &z.to_le_bytes()[..4]);
}

// Makes a block's bytes zero.
#[tactic(auto, unfolding(crate::specs::Placed::cleared))]
pub fn clear(s: &mut [u8])
    requires { length s.old ≡ block_length }
    ensures { s.new ≡ cleared }
{
    s.fill(0);
}

// Puts the 'check' of block k in its place.
pub fn seal(s: &mut [u8], k: usize)
    requires { length s.old ≡ block_length }
    ensures { s.new ≡ sealed k (take check_offset s.old) }
{
    let sum = check::checksum(s, k) as usize;
    put_u32(s, CHECK, sum);
}
