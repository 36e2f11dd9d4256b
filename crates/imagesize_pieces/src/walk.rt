//! A walk along the records of an input that arrives in chunks. Each chunk continues it, over the kept bytes and the new ones.
ghost use Rattle.std.specs.Prelude.{◌≡◌, ℕ, ◌+◌, ◌-◌, ◌<◌, ◌≤◌, ◌++◌, Bool, List, length, false, max, min, None, IfSome};
ghost use Rattle.imagesize_source.specs.Agreement.{AllRead};
ghost use Rattle.imagesize_source.specs.Reading.{Reads, is_faulted, is_stopped};
ghost use Rattle.imagesize_source.specs.Walk.{CanFollow};
ghost use Rattle.imagesize_pieces.specs.Stream.{AllBelow, Begins, Needs, Reach, Says, Stands};

use crate::arrived::Arrived;
use crate::buffer::keep_behind;
use crate::stand::Stand;
use imagesize_source::Halt;
use imagesize_source::part::bytes_behind;
use imagesize_source::source::known::KnownSource;
use imagesize_source::walk::{Records, walk_on};

/// Continues the walk with the next chunk, and returns the result as soon as the bytes decide it. The buffer holds the bytes
/// from `stand.start` on.
pub fn read_on<R: Records>(
    records: &mut R,
    stand: &mut Stand,
    buffer: &mut [u8],
    chunk: &[u8],
) -> Option<Result<R::Answer, Halt>>
    requires follows { CanFollow R.step }
    requires holds { R.holds records.old stand.old.offset }
    requires reaches { (s : R.State) (offset : ℕ) → Reach offset (offset + (length buffer.old + 1)) (R.step s offset) }
    requires buffer { stand.old.passed - stand.old.start ≤ length buffer.old }
    requires fits { stand.old.passed + length chunk.now ≤ stand.old.told }
    ensures told { stand.new.told ≡ stand.old.told }
    ensures passed { result ≡ None → stand.new.passed ≡ stand.old.passed + length chunk.now }
    ensures holds { result ≡ None → R.holds records.new stand.new.offset }
    ensures buffer { result ≡ None → stand.new.passed - stand.new.start ≤ length buffer.new }
    ensures stays { IfSome result (λ _. (stand.new ≡ stand.old) × (buffer.new ≡ buffer.old)) }
    ensures unstopped { IfSome result (λ answer. is_stopped answer ≡ false) }

    // The read that a byte is missing for requests more than the bytes that arrived, and more than the records before it.
    ensures ends { result ≡ None → (stand.new.passed < stand.new.end) × (stand.new.start < stand.new.end)
        × (stand.new.end ≤ stand.new.told) }

    // If all bytes of the input arrived, there is a result.
    ensures whole { stand.old.told ≤ stand.old.passed + length chunk.now → result ≡ None → ⊥ }

    // For each list of bytes that may have arrived before:
    ensures goes_on { result ≡ None → (whole : List ℕ → Reads R.Answer) (front : List ℕ)
        → Stands R.step (R.state records.old) stand.old buffer.old whole front
        → Stands R.step (R.state records.new) stand.new buffer.new whole (front ++ chunk.now) }
    ensures says { (whole : List ℕ → Reads R.Answer) (front : List ℕ)
        → Stands R.step (R.state records.old) stand.old buffer.old whole front
        → IfSome result (Says (front ++ chunk.now) stand.old.told whole) }
    ensures complete { result ≡ None → (whole : List ℕ → Reads R.Answer) (front : List ℕ)
        → Stands R.step (R.state records.old) stand.old buffer.old whole front
        → (d : List ℕ) → Begins (front ++ chunk.now) stand.old.told d → length d ≡ stand.old.told
        → AllBelow (length front + length chunk.now) (whole d).marks → ⊥ }

    // The buffer holds the bytes from the next record on, and not all bytes up to which that record is read.
    ensures starts { result ≡ None → stand.new.start ≡ stand.new.offset }
    ensures few { result ≡ None → (high : ℕ)
        → Reach stand.new.offset high (R.step (R.state records.new) stand.new.offset)
        → stand.new.passed < high }

    // The result depends on a byte that has not arrived. It is in the next record, and the read that missed a byte requests it.
    // It is before each offset `high` up to which that record is read. If the record reads no text, that read ends at
    // `stand.new.end`.
    ensures marked { result ≡ None → (texts : Bool) (high : ℕ) → AllRead texts (R.step (R.state records.new) stand.new.offset)
        → Reach stand.new.offset high (R.step (R.state records.new) stand.new.offset)
        → (whole : List ℕ → Reads R.Answer) (front : List ℕ)
        → Stands R.step (R.state records.old) stand.old buffer.old whole front
        → (d : List ℕ) → Begins (front ++ chunk.now) stand.old.told d → length d ≡ stand.old.told
        → Needs texts (max stand.new.passed stand.new.start) (min stand.new.end high) (whole d).marks }
{
    let passed = stand.passed + chunk.len() as u64;
    let start = stand.start.min(passed);
    let count = stand.passed.saturating_sub(stand.start) as usize;
    let unread = bytes_behind(chunk, stand.start.saturating_sub(stand.passed));
    let mut source = KnownSource::new(Arrived {
        start,
        kept: &buffer[..count],
        chunk: unread,
        told: stand.told,
    });
    let mut offset = stand.offset;
    let found = walk_on(records, &mut offset, &mut source);
    if is_faulted(&found) {
        stand.end = source.end();
        keep_behind(buffer, count, unread, offset.saturating_sub(start));
        stand.start = offset;
        stand.offset = offset;
        stand.passed = passed;
        return None;
    }
    Some(found)
}

/// Whether a read failed because a byte has not arrived yet.
#[inline(always)]
pub fn is_faulted<X>(answer: &Result<X, Halt>) -> bool
    ensures { result ≡ is_faulted answer.now }
{
    matches!(answer, Err(Halt::Failed))
}
