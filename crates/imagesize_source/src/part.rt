//! Parts of a slice from an offset on, as far as the slice goes.
ghost use Rattle.std.specs.Prelude.{◌≡◌, ◌+◌, ◌<◌, ◌≤◌, min, ◌-◌, ◌++◌, take, drop, length, true, false, None, IfSome};
ghost use Rattle.std.specs.Int.{w64, from_le_bytes};
ghost use Rattle.imagesize_source.specs.Input.{part};
ghost use Rattle.imagesize_source.specs.Reading.{text_part};
ghost use Rattle.imagesize_source.specs.Text.{is_ended, text_front};

use crate::Text;
use crate::text::{ended_length, text_length};

/// Copies the bytes from an offset on into the buffer, as far as there are any, and returns how many were copied.
#[inline(always)]
#[tactic(auto, unfolding(crate::specs::Input::part))]
pub fn copy_part(bytes: &[u8], offset: u64, buffer: &mut [u8]) -> usize
    ensures count { result ≡ min (length buffer.old) (length bytes.now - offset) }
    ensures copied { buffer.new ≡ part bytes.now offset (length buffer.old) ++ drop result buffer.old }
{
    let start = offset as usize;
    if start > bytes.len() {
        return 0;
    }
    let count = buffer.len();
    let rest = &bytes[start..];
    if count <= rest.len() {
        buffer.copy_from_slice(&rest[..count]);
        return count;
    }
    buffer[..rest.len()].copy_from_slice(rest);
    rest.len()
}

/// The bytes after the first `count`.
#[inline(always)]
#[tactic(auto, using(crate::proofs::Known::slice_behind))]
pub fn bytes_behind(bytes: &[u8], count: u64) -> &[u8]
    ensures { result.now ≡ drop count bytes.now }
{
    &bytes[(count as usize).min(bytes.len())..]
}

/// The bytes from an offset on, at most `most` of them; fewer if the slice ends earlier.
#[inline]
#[tactic(auto, using(crate::proofs::Slices::slice_part))]
pub(crate) fn part_of(bytes: &[u8], offset: u64, most: u64) -> &[u8]
    ensures { result.now ≡ part bytes.now offset most }
{
    let start = (offset as usize).min(bytes.len());
    let rest = &bytes[start..];
    &rest[..rest.len().min(most as usize)]
}

/// The number that the eight bytes from an index on encode, the lowest byte first.
#[inline(always)]
pub fn eight_at(bytes: &[u8], index: usize) -> u64
    requires { index + 8 ≤ length bytes.now }
    ensures { result ≡ from_le_bytes w64 (take 8 (drop index bytes.now)) }
{
    let rest = &bytes[index..];
    u64::from_le_bytes([
        rest[0], rest[1], rest[2], rest[3], rest[4], rest[5], rest[6], rest[7],
    ])
}

/// Copies the text from an offset on into the buffer, as far as it fits, and returns how many bytes it has. The buffer after the
/// text may change.
#[inline(always)]
#[tactic(auto, using(crate::proofs::Parts::part_length, crate::proofs::Slices::slice_text))]
pub fn copy_text_at(bytes: &[u8], offset: u64, text: Text, buffer: &mut [u8]) -> usize
    ensures text { take result buffer.new ≡ text_part bytes.now text offset (length buffer.new) }
    ensures fits { result ≤ length buffer.new }
    ensures there { 0 < result → offset + result ≤ length bytes.now }
{
    let part = part_of(bytes, offset, buffer.len() as u64);
    let count = text_length(text, part);
    copy_front(part, count, buffer);
    count
}

/// Copies the text at the front of the bytes into the buffer, with the byte that ends it, and returns how many bytes it has.
/// Returns `None` if the bytes or the buffer end before the text does.
///
/// It searches for the end first. So it copies the text alone, and not byte by byte. The buffer after the text may change.
#[inline(always)]
#[tactic(auto, using(crate::proofs::Texts::copies))]
pub fn copy_ended(bytes: &[u8], text: Text, buffer: &mut [u8]) -> Option<usize>
    ensures bound { IfSome result (λ n. n ≤ length buffer.new) }
    ensures there { IfSome result (λ n. n ≤ length bytes.now) }
    ensures copied { IfSome result (λ n. take n buffer.new ≡ take n bytes.now) }
    ensures ended { IfSome result (λ n. is_ended text (take n bytes.now) ≡ true) }
    ensures whole { IfSome result (λ n. text_front text (take n bytes.now) ≡ take n bytes.now) }
    ensures open { result ≡ None → is_ended text (take (length buffer.new) bytes.now) ≡ false }
{
    let most = bytes.len().min(buffer.len());
    match ended_length(text, &bytes[..most]) {
        Some(count) => {
            copy_front(bytes, count, buffer);
            Some(count)
        }
        None => None,
    }
}

// How many bytes are copied at once where a text is short.
const SHORT: usize = 16;

/// Copies the first `count` bytes into the buffer. A short text is copied by one load and one store, and not by a call. The
/// buffer after the text may change.
#[inline(always)]
pub fn copy_front(bytes: &[u8], count: usize, buffer: &mut [u8])
    requires there { count ≤ length bytes.now }
    requires fits { count ≤ length buffer.old }
    ensures { take count buffer.new ≡ take count bytes.now }
{
    if count <= SHORT && bytes.len() >= SHORT && buffer.len() >= SHORT {
        buffer[..SHORT].copy_from_slice(&bytes[..SHORT]);
    } else {
        buffer[..count].copy_from_slice(&bytes[..count]);
    }
}
