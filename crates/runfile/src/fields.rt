// The numbers of a run file: little-endian, of two and four bytes.
ghost use Rattle.std.specs.Prelude.{◌≡◌, ◌+◌, ◌≤◌, ◌<◌, length};
ghost use Rattle.runfile.specs.File.{le2, le4};

// Two bytes, little-endian.
pub fn le2(b: &[u8], i: usize) -> usize
    requires { i + 2 ≤ length b.now }
    ensures { (result ≡ le2 b.now i) × (result < 65536) }
{
    widths::usize_of_u8(b[i]) + 256 * widths::usize_of_u8(b[i + 1])
}

// Four bytes, little-endian.
pub fn le4(b: &[u8], i: usize) -> usize
    requires { i + 4 ≤ length b.now }
    ensures { (result ≡ le4 b.now i) × (result < 4294967296) }
{
    widths::usize_of_u32(u32::from_le_bytes([b[i], b[i + 1], b[i + 2], b[i + 3]]))
}
