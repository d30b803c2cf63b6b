//! Eight bytes as a number.
ghost use Rattle.std.specs.{Prelude.{◌≡◌, ◌+◌, ◌≤◌, take, drop}, Slice.Scan.{big_endian}};

/// The eight bytes from a place on as a number, the first byte the greatest.
#[inline(always)]
pub(crate) fn eight_from(bytes: &[u8; 64], i: usize) -> u64
    requires { i + 8 ≤ 64 }
    ensures { result ≡ big_endian 0 (take 8 (drop i bytes.now)) }
{
    u64::from_be_bytes([
        bytes[i],
        bytes[i + 1],
        bytes[i + 2],
        bytes[i + 3],
        bytes[i + 4],
        bytes[i + 5],
        bytes[i + 6],
        bytes[i + 7],
    ])
}
