//! The buffer of an input that arrives in chunks. It holds the bytes that arrived, from an offset on.
ghost use Rattle.std.specs.Prelude.{◌≡◌, ◌+◌, ◌-◌, ◌≤◌, ◌++◌, take, drop, length};

use imagesize_source::part::bytes_behind;
use imagesize_source::source::parts::put;

/// The first `count` bytes, or all of them if there are fewer.
#[inline(always)]
pub fn front_of(bytes: &[u8], count: u64) -> &[u8]
    ensures { result.now ≡ take count bytes.now }
{
    if count < bytes.len() as u64 {
        &bytes[..count as usize]
    } else {
        bytes
    }
}

/// Stores the bytes in the buffer from an index on. A single byte is stored without a call.
#[inline(always)]
pub fn append(buffer: &mut [u8], index: usize, more: &[u8])
    requires { index + length more.now ≤ length buffer.old }
    ensures { take (index + length more.now) buffer.new ≡ take index buffer.old ++ more.now }
{
    match more {
        [byte] => buffer[index] = *byte,
        _ => buffer[index..index + more.len()].copy_from_slice(more),
    }
}

/// Appends `more` to the first `count` bytes of the buffer, and drops the first `skip` of these bytes. The rest is at the front of
/// the buffer.
#[tactic(auto, using(crate::proofs::Keeping::more_kept, crate::proofs::Keeping::moved_kept))]
pub fn keep_behind(buffer: &mut [u8], count: usize, more: &[u8], skip: u64)
    requires within { count ≤ length buffer.old }
    requires fits { count + length more.now - skip ≤ length buffer.old }
    ensures { take (count + length more.now - skip) buffer.new ≡ drop skip (take count buffer.old ++ more.now) }
{
    let kept = count as u64;
    if skip >= kept {
        // Nothing is left where the next record has not begun. This saves a call that copies no byte.
        let rest = bytes_behind(more, skip - kept);
        if !rest.is_empty() {
            put(rest, buffer, 0);
        }
        return;
    }
    let first = skip as usize;
    buffer.copy_within(first..count, 0);
    put(more, buffer, count - first);
}
