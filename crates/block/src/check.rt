// What a block of 512 bytes says of itself: its check, and the zeros after its content.
ghost use Rattle.std.specs.Prelude.{◌≡◌, ◌≤◌, length, ◌==◌};
ghost use Rattle.model_files.specs.Bytes.{u32_at, block_length, check_offset, checksum, zero_between, zero_from};

use crate::CHECK;
use crate::number::bytes_at;

// How many words stand before the check.
const WORDS: usize = CHECK / 4;

// The 'check' of block k: the sum of the words before it plus k + 1, modulo 2^32.
pub fn checksum(b: &[u8], k: usize) -> u32
    requires { length b.now ≡ block_length }
    ensures { result ≡ checksum k b.now }
{
    let mut total = ((k % 0x1_0000_0000) as u32).wrapping_add(1);
    for w in 0..WORDS {
        total = total.wrapping_add(u32::from_le_bytes(bytes_at(b, 4 * w)));
    }
    total
}

// Whether block k holds its check.
pub fn is_checked(b: &[u8], k: usize) -> bool
    requires { length b.now ≡ block_length }
    ensures { result ≡ (checksum k b.now == u32_at b.now check_offset) }
{
    checksum(b, k) == u32::from_le_bytes(bytes_at(b, CHECK))
}

// Whether the bytes from place i to the check are zero.
#[tactic(auto, unfolding(model_files::specs::Bytes::zero_from))]
pub fn is_zero_from(b: &[u8], i: usize) -> bool
    requires { (length b.now ≡ block_length) × (i ≤ check_offset) }
    ensures { result ≡ zero_from i b.now }
{
    is_zero_between(b, i, CHECK)
}

// Whether the bytes from place i to place e are zero.
pub fn is_zero_between(b: &[u8], i: usize, e: usize) -> bool
    requires { (i ≤ e) × (e ≤ length b.now) }
    ensures { result ≡ zero_between i e b.now }
{
    b[i..e].iter().all(|x| *x == 0)
}
