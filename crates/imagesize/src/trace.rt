//! The bytes that a result depends on, in a list or in the caller's buffer.
ghost use Rattle.std.specs.Prelude.{◌≡◌, ℕ, ◌+◌, ◌<◌, ◌≤◌, ◌++◌, IfOk, IsOk, IsTrue, List, Ok, false, length, take, drop};
ghost use Rattle.std.specs.Result.{result_ok};
ghost use Rattle.imagesize.specs.Counts.{lasts_as, stated_bytes};
ghost use Rattle.imagesize.specs.Meaning.{kind_of, meaning, meaning_reads};
ghost use Rattle.imagesize.specs.Traced.{AreWithin, IsSame, Traces};
ghost use Rattle.imagesize_source.specs.Limits.{allowance};
ghost use Rattle.imagesize_source.specs.Agreement.{Agrees};
ghost use Rattle.imagesize_source.specs.Reading.{is_stopped};
ghost use Rattle.imagesize_source.specs.State.{total};

use crate::calls::probe;
use crate::types::ImageType;
use crate::{ImageResult, Span};
use imagesize_source::Halt;
use imagesize_source::halt::with_error;
use imagesize_source::source::recording::RecordingSource;
use imagesize_source::source::slice::SliceSource;
use imagesize_types::size::ImageSize;
use std::alloc::{AllocError, Allocator};

/// What was found in a slice, and the bytes that this depends on.
#[derive(Debug, Drop)]
pub struct Trace<A: Allocator> {
    /// The type. `None` exactly if no type was found, and then `answer` is that error.
    pub kind: Option<ImageType>,
    /// The size in pixels, or the error.
    pub answer: ImageResult<ImageSize>,
    /// The spans of the reads, in order and with repeats. Another input of the same length with the same bytes in these spans
    /// has the same type, result and spans.
    pub spans: Vec<Span, A>,
}

/// Reads type and size of the image in a slice, with the spans of the reads that find them.
///
/// Errors: `AllocError` if memory for the spans cannot be allocated. Nothing stays allocated then.
///
/// ```
/// use imagesize::blob_trace;
///
/// let trace = blob_trace(alloc, b"GIF89a\x80\x02\xe0\x01\0\0")?;
/// assert_eq!(trace.spans.len(), 3);
/// ```
#[tactic(auto, using(crate::proofs::Traces::marks, crate::proofs::Within::front_is, crate::proofs::Endings::over_slice))]
pub fn blob_trace<A: Allocator>(alloc: A, data: &[u8]) -> Result<Trace<A>, AllocError>
    ensures traces { IfOk result (Traces «data».now) }
    ensures empty { length «data».now ≡ 0 → IsOk result }

    // Another input of this length that agrees on the spans `marks` has the same type, the same result and the same spans.
    // `marks` are the spans of the trace, if there is one.
    ensures local { (e : List ℕ) → Agrees «data».now e (meaning «data».now 0).marks → IsSame «data».now e }

    // The lengths of the spans add up to at most the stated number, and to at most the length of the input plus 64.
    ensures stated { IfOk result (λ t. total t.spans.items ≤ stated_bytes «data».now 0) }
    ensures within { IfOk result (λ t. total t.spans.items ≤ length «data».now + allowance) }

    // Each span has a byte and lies within the input. There are at most as many as the input has bytes, plus 64.
    ensures cuts { IfOk result (λ t. AreWithin (length «data».now) t.spans.items) }
    ensures few { IfOk result (λ t. length t.spans.items ≤ length «data».now + allowance) }

    // Appended bytes change no size, except for HEIF, icons and TGA.
    ensures lasts { IsTrue (lasts_as (kind_of «data».now 0).answer) → IfOk result (λ t. IfOk t.answer (λ size.
        (x : List ℕ) → (meaning («data».now ++ x) 0).answer ≡ Ok size)) }
{
    let mut first = [Span { start: 0, len: 0 }; FEW];
    let Recorded { kind, found, count } = record(data, &mut first);
    let mut spans = empty_spans(alloc, count)?;
    fill_spans(data, &first, &mut spans);
    Ok(Trace {
        kind,
        answer: with_error(found, &SliceSource::new(data)),
        spans,
    })
}

/// The number of spans that `blob_trace` has for these bytes. If they fit, they are written to the front of the buffer, in
/// order. No memory is allocated.
///
/// The rest of the buffer does not change. A buffer that is too short does not change at all.
///
/// ```
/// use imagesize::{Span, blob_spans};
///
/// let mut buffer = [Span { start: 0, len: 0 }; 8];
/// assert_eq!(blob_spans(b"GIF89a\x80\x02\xe0\x01\0\0", &mut buffer), 3);
/// ```
#[tactic(auto, using(crate::proofs::Within::front))]
pub fn blob_spans(data: &[u8], buffer: &mut [Span]) -> usize
    ensures count { result ≡ length (meaning «data».now 0).marks }
    ensures spans { result ≤ length buffer.old → buffer.new ≡ (meaning «data».now 0).marks ++ drop result buffer.old }

    // Each span has a byte and lies within the input. There are at most as many as the input has bytes, plus 64.
    ensures cuts { result ≤ length buffer.old → AreWithin (length «data».now) (take result buffer.new) }
    ensures few { result ≤ length «data».now + allowance }
    ensures unchanged { length buffer.old < result → buffer.new ≡ buffer.old }
{
    // A call that asks for the number alone keeps no span: that saves an eighth of its instructions.
    if buffer.is_empty() {
        return record(data, buffer).count;
    }
    let mut first = [Span { start: 0, len: 0 }; FEW];
    let count = record(data, &mut first).count;
    if count <= buffer.len() {
        fill_spans(data, &first, &mut buffer[..count]);
    }
    count
}

// How many spans the first pass keeps.
const FEW: usize = 32;

// Fills a buffer that is as long as the list of all spans. If the first pass kept all of them, they are copied, and the
// slice is not read again.
fn fill_spans(data: &[u8], first: &[Span], buffer: &mut [Span])
    requires long { length buffer.old ≡ length (meaning «data».now 0).marks }
    requires kept { take (length buffer.old) first.now ≡ take (length first.now) (meaning «data».now 0).marks }
    ensures { buffer.new ≡ (meaning «data».now 0).marks }
{
    let count = buffer.len();
    if count <= first.len() {
        buffer.copy_from_slice(&first[..count]);
    } else {
        record(data, buffer);
    }
}

// What a slice holds, and how many spans its reads have. The caller makes the error of a `Halt`: in a result with room for an
// error, a size is copied in parts, and a load of the whole waits for all of them.
#[derive(Drop)]
struct Recorded {
    kind: Option<ImageType>,
    found: Result<ImageSize, Halt>,
    // How many spans the reads have.
    count: usize,
}

// Probes a slice and records the spans of the reads in the buffer, as many as fit.
#[tactic(auto, using(crate::proofs::Traces::recorded))]
fn record(data: &[u8], buffer: &mut [Span]) -> Recorded
    ensures kind { result.kind ≡ result_ok (kind_of «data».now 0).answer }
    ensures found { result.found ≡ (meaning_reads «data».now 0).answer }
    ensures goes { is_stopped result.found ≡ false }
    ensures count { result.count ≡ length (meaning «data».now 0).marks }
    ensures spans { take result.count buffer.new ≡ take (length buffer.new) (meaning «data».now 0).marks }
{
    let mut source = RecordingSource::new(data, buffer);
    let (kind, found) = probe(&mut source, 0);
    Recorded {
        kind,
        found,
        count: source.count,
    }
}

// A list of `count` empty spans.
fn empty_spans<A: Allocator>(alloc: A, count: usize) -> Result<Vec<Span, A>, AllocError>
    ensures many { IfOk result (λ spans. length spans.items ≡ count) }
    ensures none { count ≡ 0 → IsOk result }
{
    let mut spans = Vec::new(alloc);
    spans.resize(count, Span { start: 0, len: 0 })?;
    Ok(spans)
}
