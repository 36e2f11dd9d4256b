//! Searches a slice for a byte, sixteen bytes at a time.
ghost use Rattle.std.specs.Prelude.{◌≡◌, ◌+◌, ◌≤◌, ◌==◌, length, take, drop, IsTrue, Some};
ghost use Rattle.std.specs.List.{position};

use std::simd::prelude::*;

// How many bytes are compared at once.
const LANES: usize = 16;

/// The index of the first byte with this value. Byte by byte, a search takes four instructions a byte, and this one takes less
/// than one.
#[inline]
pub(crate) fn first_of(wanted: u8, bytes: &[u8]) -> Option<usize>
    ensures { result ≡ position (λ b. b == wanted) bytes.now }
{
    // For an empty line this saves the search. A branch decides, so the processor goes on before the length is known. Names end
    // with a zero and are rarely empty, so they skip this test.
    if wanted == b'\n' && begins_with(wanted, bytes) {
        return Some(0);
    }
    let mut index = 0;
    while bytes.len() - index >= LANES {
        if let Some(count) = first_among(wanted, bytes, index) {
            return Some(index + count);
        }
        index += LANES;
    }
    let count = first_in_rest(wanted, &bytes[index..])?;
    Some(index + count)
}

// Whether the first byte has this value.
#[inline(always)]
fn begins_with(wanted: u8, bytes: &[u8]) -> bool
    ensures { IsTrue result → position (λ b. b == wanted) bytes.now ≡ Some 0 }
{
    matches!(bytes, [first, ..] if *first == wanted)
}

// The index of the first byte with this value among the sixteen from `index` on. The first of them has the index 0.
#[inline(always)]
fn first_among(wanted: u8, bytes: &[u8], index: usize) -> Option<usize>
    requires { index + 16 ≤ length bytes.now }
    ensures { result ≡ position (λ b. b == wanted) (take 16 (drop index bytes.now)) }
{
    let lanes = u8x16::from_slice(&bytes[index..]);
    let marks = lanes.simd_eq(u8x16::splat(wanted)).to_bitmask();
    if marks == 0 {
        return None;
    }
    Some(marks.trailing_zeros() as usize)
}

// Searches fewer than sixteen bytes, one at a time.
#[inline]
fn first_in_rest(wanted: u8, bytes: &[u8]) -> Option<usize>
    ensures { result ≡ position (λ b. b == wanted) bytes.now }
{
    bytes.iter().position(|byte| *byte == wanted)
}
