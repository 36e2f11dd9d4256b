//! A cache of probes: a result is kept with the bytes that it depends on, and holds for each input that has them.
ghost use Rattle.std.specs.Prelude.{◌≡◌, ℕ, List, IfOk, IsTrue};
ghost use Rattle.imagesize.specs.Meaning.{meaning};
ghost use Rattle.imagesize.specs.Traced.{IsSame};
ghost use Rattle.imagesize_source.specs.Agreement.{Agrees};
ghost use Rattle.imagesize_source.specs.Input.{part};
ghost use Rattle.imagesize_source.specs.Known.{bytes_of};
ghost use Rattle.imagesize_uses.specs.Cache.{IsKept};

use imagesize::{Span, Trace, blob_trace};
use std::alloc::{AllocError, Allocator};

/// What is kept of an input: its length, its type and size, and the bytes that these depend on.
#[derive(Debug, Drop)]
pub struct Kept<A: Allocator> {
    /// The length of the input in bytes.
    pub length: usize,
    /// Its type and size, and the spans of the bytes that these depend on.
    pub trace: Trace<A>,
    /// The bytes in these spans, one span after another.
    pub bytes: Vec<u8, A>,
}

/// Probes an input, and keeps the result with the bytes that it depends on.
///
/// Errors: `AllocError` if memory for the spans or their bytes cannot be allocated.
pub fn keep<A: Allocator + Copy>(alloc: A, data: &[u8]) -> Result<Kept<A>, AllocError>
    ensures { IfOk result (IsKept «data».now) }
{
    let trace = blob_trace(alloc, data)?;
    let bytes = bytes_in(alloc, data, &trace.spans)?;
    Ok(Kept {
        length: data.len(),
        trace,
        bytes,
    })
}

/// Whether the kept result also holds for another input, judged by its length and the kept bytes alone.
#[tactic(auto, using(crate::proofs::Spans::agrees_by_bytes, crate::proofs::Spans::bytes_by_agreement))]
pub fn still_holds<A: Allocator>(kept: &Kept<A>, data: &[u8]) -> bool
    // If it holds, the other input has the type, the size and the spans of the kept one.
    ensures same { (d : List ℕ) → IsKept d kept.now → IsTrue result → IsSame d «data».now }

    // It holds for each input that agrees with the kept one on the spans.
    ensures found { (d : List ℕ) → IsKept d kept.now → Agrees d «data».now (meaning d 0).marks → IsTrue result }
{
    data.len() == kept.length && has_bytes(data, &kept.trace.spans, &kept.bytes)
}

// The bytes of an input in the spans, one span after another.
fn bytes_in<A: Allocator>(alloc: A, data: &[u8], spans: &[Span]) -> Result<Vec<u8, A>, AllocError>
    ensures { IfOk result (λ bytes. bytes.items ≡ bytes_of «data».now spans.now) }
{
    let mut bytes = Vec::new(alloc);
    for span in spans {
        bytes.extend_from_slice(bytes_of_span(data, span))?;
    }
    Ok(bytes)
}

// Whether an input has these bytes in the spans, one span after another.
fn has_bytes(data: &[u8], spans: &[Span], bytes: &[u8]) -> bool
    ensures same { IsTrue result → bytes_of «data».now spans.now ≡ bytes.now }
    ensures found { bytes_of «data».now spans.now ≡ bytes.now → IsTrue result }
{
    let mut rest = bytes;
    for span in spans {
        match rest.strip_prefix(bytes_of_span(data, span)) {
            Some(behind) => rest = behind,
            None => return false,
        }
    }
    rest.is_empty()
}

/// The bytes of an input in a span.
#[tactic(auto, using(imagesize_source::proofs::Slices::slice_part))]
pub(crate) fn bytes_of_span<'a>(data: &'a [u8], span: &Span) -> &'a [u8]
    ensures { result.now ≡ part «data».now span.now.start span.now.len }
{
    let start = (span.start as usize).min(data.len());
    let rest = &data[start..];
    &rest[..rest.len().min(span.len as usize)]
}
