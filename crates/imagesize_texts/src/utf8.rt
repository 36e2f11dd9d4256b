//! Tests whether bytes are UTF-8.
ghost use Rattle.std.specs.Prelude.{◌≡◌, ◌+◌, ◌≤◌, IsAscii, IsTrue, length, take, drop};
ghost use Rattle.std.specs.Int.{w32, from_le_bytes};
ghost use Rattle.std.specs.Str.{is_utf8};

use imagesize_source::part::eight_at;

// How many bytes of a long text are tested at once.
const LANES: usize = 16;

// The highest bit of each byte. A byte with this bit is not ASCII.
const HIGH_BITS: u64 = 0x8080_8080_8080_8080;

/// Whether the bytes are UTF-8. Nearly every name, line and word is ASCII. `str::from_utf8` takes some 70 instructions for a
/// short one, and this test takes 20.
// Where it is inlined, some of its callers grow too large to be inlined themselves.
#[inline(never)]
pub(crate) fn is_utf8(bytes: &[u8]) -> bool
    ensures { result ≡ is_utf8 bytes.now }
{
    is_ascii(bytes) || str::from_utf8(bytes).is_ok()
}

// Whether all the bytes are ASCII. The load of the last bytes may reach back over bytes that were tested. That costs less than
// a test of the last bytes one at a time.
#[inline(always)]
fn is_ascii(bytes: &[u8]) -> bool
    ensures { IsTrue result → IsAscii bytes.now }
{
    let count = bytes.len();
    if count >= LANES {
        return is_long_ascii(bytes);
    }
    if count >= 8 {
        return are_eight_ascii(bytes, 0) && are_eight_ascii(bytes, count - 8);
    }
    if count >= 4 {
        return are_four_ascii(bytes, 0) && are_four_ascii(bytes, count - 4);
    }
    bytes.iter().all(|byte| byte.is_ascii())
}

// Whether all of sixteen bytes or more are ASCII.
#[inline(always)]
fn is_long_ascii(bytes: &[u8]) -> bool
    requires { 16 ≤ length bytes.now }
    ensures { IsTrue result → IsAscii bytes.now }
{
    let last = bytes.len() - LANES;
    let mut index = 0;
    while index < last {
        if !are_sixteen_ascii(bytes, index) {
            return false;
        }
        index += LANES;
    }
    are_sixteen_ascii(bytes, last)
}

// Whether the sixteen bytes from an index on are ASCII. Two tests, each against a number in memory, take as few instructions as
// one vector does. A test of `a | b` takes many more: the compiler then loads the bytes one at a time.
#[inline(always)]
fn are_sixteen_ascii(bytes: &[u8], index: usize) -> bool
    requires { index + 16 ≤ length bytes.now }
    ensures { IsTrue result → IsAscii (take 16 (drop index bytes.now)) }
{
    let rest = &bytes[index..];
    are_eight_ascii(rest, 0) && are_eight_ascii(rest, 8)
}

// Whether the eight bytes from an index on are ASCII.
#[inline(always)]
fn are_eight_ascii(bytes: &[u8], index: usize) -> bool
    requires { index + 8 ≤ length bytes.now }
    ensures { IsTrue result → IsAscii (take 8 (drop index bytes.now)) }
{
    eight_at(bytes, index) & HIGH_BITS == 0
}

// Whether the four bytes from an index on are ASCII.
#[inline(always)]
fn are_four_ascii(bytes: &[u8], index: usize) -> bool
    requires { index + 4 ≤ length bytes.now }
    ensures { IsTrue result → IsAscii (take 4 (drop index bytes.now)) }
{
    four_at(bytes, index) & 0x8080_8080 == 0
}

// The number that the four bytes from an index on encode, the lowest byte first.
#[inline(always)]
fn four_at(bytes: &[u8], index: usize) -> u32
    requires { index + 4 ≤ length bytes.now }
    ensures { result ≡ from_le_bytes w32 (take 4 (drop index bytes.now)) }
{
    let rest = &bytes[index..];
    u32::from_le_bytes([rest[0], rest[1], rest[2], rest[3]])
}
