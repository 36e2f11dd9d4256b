//! Texts whose end has not arrived. A chunk without their end is kept, and the bytes before it are not searched again.
ghost use Rattle.std.specs.Prelude.{◌≡◌, ◌+◌, ◌-◌, ◌≤◌, false, true, length, take};
ghost use Rattle.imagesize_source.specs.Text.{is_ended};
ghost use Rattle.imagesize_pieces.specs.Pending.{KeepsPending};

use crate::buffer::append;
use crate::stand::Stand;
use imagesize_source::Text;
use imagesize_source::part::bytes_behind;
use imagesize_source::text::is_pending;

/// Keeps a chunk that comes before the text at the next record's offset, or belongs to it. Returns whether it was kept. It is kept
/// only if no byte so far ends the text, these are fewer than `most`, and the input has more bytes. The first `searched` kept bytes
/// are known not to end the text.
///
/// A walk would search the text from its start at each chunk. So a text in chunks of one byte would cost the square of its length.
#[inline(always)]
pub fn keep_pending(
    text: Text,
    most: usize,
    searched: &mut usize,
    stand: &mut Stand,
    buffer: &mut [u8],
    chunk: &[u8],
) -> bool
    requires unended { is_ended text (take searched.old buffer.old) ≡ false }
    requires within { searched.old ≤ stand.old.passed - stand.old.start }
    requires fits { stand.old.passed - stand.old.start ≤ length buffer.old }
    requires room { most ≤ length buffer.old + 1 }
    requires told { stand.old.passed + length chunk.now ≤ stand.old.told }
    ensures stays { result ≡ false → (stand.new ≡ stand.old) × (buffer.new ≡ buffer.old) × (searched.new ≡ searched.old) }
    ensures keeps { result ≡ true → KeepsPending text most stand.old stand.new buffer.old buffer.new chunk.now }
    ensures searches { result ≡ true → searched.new ≡ stand.new.passed - stand.new.start }
{
    let kept = stand.passed.saturating_sub(stand.start) as usize;
    let more = bytes_behind(chunk, stand.start.saturating_sub(stand.passed));
    let count = kept + more.len();
    let passed = stand.passed + chunk.len() as u64;
    if stand.start != stand.offset || count >= most || passed.max(stand.start) >= stand.told {
        return false;
    }
    if !is_pending(text, *searched, &buffer[..kept], more) {
        return false;
    }
    append(buffer, kept, more);
    stand.passed = passed;
    stand.end = (stand.start + most as u64).min(stand.told);
    *searched = count;
    true
}
