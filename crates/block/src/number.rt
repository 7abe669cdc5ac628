// Numbers read from bytes, least byte first.
ghost use Rattle.std.specs.Prelude.{◌≡◌, ◌+◌, ◌^◌, ◌<◌, ◌≤◌, length, slice_range};
ghost use Rattle.integer.specs.Size.{Within};
ghost use Rattle.model_files.specs.Bytes.{u16_at, u32_at, i32_at};

// The N bytes from place i on.
pub(crate) fn bytes_at<const N: usize>(s: &[u8], i: usize) -> [u8; N]
    requires { i + N ≤ length s.now }
    ensures { result ≡ slice_range s.now i (i + N) }
{
    let mut bytes = [0; N];
    bytes.copy_from_slice(&s[i..i + N]);
    bytes
}

// The 16-bit number at place i.
pub fn u16_at(s: &[u8], i: usize) -> usize
    requires { i + 2 ≤ length s.now }
    ensures { (result ≡ u16_at s.now i) × (result < 65536) }
{
    usize::from(u16::from_le_bytes(bytes_at(s, i)))
}

// The 32-bit number at place i.
pub fn u32_at(s: &[u8], i: usize) -> usize
    requires { i + 4 ≤ length s.now }
    ensures { (result ≡ u32_at s.now i) × (result < 2 ^ 32) }
{
    u32::from_le_bytes(bytes_at(s, i)) as usize
}

// The signed 32-bit number at place i.
pub fn i32_at(s: &[u8], i: usize) -> i64
    requires { i + 4 ≤ length s.now }
    ensures { (result ≡ i32_at s.now i) × Within (2 ^ 31) result }
{
    i64::from(i32::from_le_bytes(bytes_at(s, i)))
}
