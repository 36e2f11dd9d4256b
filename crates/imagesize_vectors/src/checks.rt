//! Whether each call has the expected result for a test vector.

pub mod failures;
pub mod parts;
pub mod readers;
pub mod rounds;
pub mod stream;

use crate::table::{Row, Wrong, holds};
use imagesize::{
    ImageError, ImageResult, ImageSize, ImageType, Span, Trace, blob_size, blob_trace, image_type,
};
use imagesize_readers::allocators::Refusing;
use std::alloc::{AllocError, Allocator, Global};
use std::fmt::Display;

// A longer input is read by each call once, with one byte per read and in blocks, and no more.
const LONG: usize = 5_000;

/// Checks a test vector: its slice, many readers, parts, spans, and memory and calls that fail.
pub fn check(alloc: Global, row: &Row<'_>) -> Result<(), Wrong> {
    check_slice(alloc, row)?;
    readers::check_whole(alloc, row)?;
    if row.bytes.len() > LONG {
        return Ok(());
    }
    readers::check_pieces(alloc, row)?;
    readers::check_counts(alloc, row)?;
    readers::check_offsets(alloc, row)?;
    readers::check_memory(alloc, row)?;
    readers::check_held(alloc, row)?;
    check_followed(alloc, row)?;
    parts::check_parts(alloc, row)?;
    stream::check_stream(alloc, row)?;
    rounds::check(alloc, row)?;
    if let Some(spans) = &row.spans {
        check_trace(alloc, row, spans)?;
        check_free_bytes(alloc, row, spans)?;
        check_allocations(alloc, row, spans)?;
        parts::check_wanted(alloc, row, spans)?;
    }
    match image_type(&row.bytes) {
        Ok(kind) => check_typed(alloc, row, kind),
        Err(_) => Ok(()),
    }
}

// The checks for an input that has a type.
fn check_typed(alloc: Global, row: &Row<'_>, kind: ImageType) -> Result<(), Wrong> {
    readers::check_size_as(alloc, row, kind)?;
    failures::check_failures(alloc, &row.bytes, kind)?;
    failures::check_interruptions(alloc, &row.bytes, kind)
}

/// Whether a type is the type of a row.
pub fn is_kind(alloc: Global, row: &Row<'_>, kind: Option<ImageType>) -> Result<bool, AllocError> {
    match kind {
        Some(kind) => Ok(format!(in alloc; "{kind:?}")?.as_str() == row.kind),
        None => Ok(row.kind == "-"),
    }
}

/// Whether a size is the size of a row, or an error has its text.
pub fn is_answer(
    alloc: Global,
    row: &Row<'_>,
    answer: &ImageResult<ImageSize>,
) -> Result<bool, AllocError> {
    match answer {
        Ok(ImageSize { width, height }) => {
            Ok(format!(in alloc; "{width}x{height}")?.as_str() == row.answer)
        }
        Err(error) => is_error(alloc, row, error),
    }
}

fn is_error(alloc: Global, row: &Row<'_>, error: &ImageError) -> Result<bool, AllocError> {
    Ok(error.to_string(alloc)?.as_str() == row.answer)
}

/// Whether a type is the type of a row. If the row has no type, whether the error has the text for that.
pub fn is_type(
    alloc: Global,
    row: &Row<'_>,
    found: &ImageResult<ImageType>,
) -> Result<bool, AllocError> {
    match found {
        Ok(kind) => is_kind(alloc, row, Some(*kind)),
        Err(error) => Ok(row.kind == "-" && is_error(alloc, row, error)?),
    }
}

// The calls on a slice have the expected result.
fn check_slice(alloc: Global, row: &Row<'_>) -> Result<(), Wrong> {
    let found = image_type(&row.bytes);
    holds(is_type(alloc, row, &found)?, "the type of the slice")?;
    let answer = blob_size(&row.bytes);
    holds(is_answer(alloc, row, &answer)?, "the size of the slice")
}

// Whether appended bytes may change a size of this type.
fn may_change(kind: Option<ImageType>) -> bool {
    matches!(
        kind,
        Some(ImageType::Heif(_) | ImageType::Ico | ImageType::Tga)
    )
}

// Appended bytes change no size, except for the types that allow it.
fn check_followed(alloc: Global, row: &Row<'_>) -> Result<(), Wrong> {
    if blob_size(&row.bytes).is_err() || may_change(image_type(&row.bytes).ok()) {
        return Ok(());
    }
    check_behind(alloc, row, &[0xFF])?;
    check_behind(alloc, row, &[0; 1000])?;
    let mut bytes = Vec::new(alloc);
    bytes.extend_from_slice(&row.bytes)?;
    for behind in 0..=255u8 {
        bytes.push(behind)?;
        let answer = blob_size(&bytes);
        holds(is_answer(alloc, row, &answer)?, "the size as bytes follow")?;
    }
    Ok(())
}

// The size is the same after these bytes are appended.
fn check_behind(alloc: Global, row: &Row<'_>, behind: &[u8]) -> Result<(), Wrong> {
    let mut bytes = Vec::new(alloc);
    bytes.extend_from_slice(&row.bytes)?;
    bytes.extend_from_slice(behind)?;
    let answer = blob_size(&bytes);
    holds(
        is_answer(alloc, row, &answer)?,
        "the size with bytes behind",
    )
}

// Whether a trace has the spans of a row.
fn is_traced<A: Allocator>(
    alloc: Global,
    row: &Row<'_>,
    spans: &[Span],
    trace: &Trace<A>,
) -> Result<bool, AllocError> {
    Ok(
        trace.spans.as_slice() == spans
            && is_kind(alloc, row, trace.kind)?
            && is_answer(alloc, row, &trace.answer)?,
    )
}

fn check_trace(alloc: Global, row: &Row<'_>, spans: &[Span]) -> Result<(), Wrong> {
    let trace = blob_trace(alloc, &row.bytes)?;
    holds(is_traced(alloc, row, spans, &trace)?, "the trace")?;
    holds(
        trace.spans.capacity() <= most_capacity(spans.len()),
        "a capacity for more spans than there are",
    )
}

/// Whether one of the spans has this offset.
pub fn has(spans: &[Span], offset: u64) -> bool {
    spans.iter().any(|span| span.start <= offset && offset - span.start < span.len)
}

// The bytes of a row with one of them changed.
fn changed(alloc: Global, row: &Row<'_>, offset: usize) -> Result<Vec<u8>, AllocError> {
    let mut bytes = Vec::new(alloc);
    bytes.extend_from_slice(&row.bytes)?;
    if let Some(byte) = bytes.get_mut(offset) {
        *byte = 255 - *byte;
    }
    Ok(bytes)
}

// A byte that lies in no span can be changed, and the result is the same.
fn check_free_bytes(alloc: Global, row: &Row<'_>, spans: &[Span]) -> Result<(), Wrong> {
    for offset in 0..row.bytes.len() {
        if !has(spans, offset as u64) {
            let bytes = changed(alloc, row, offset)?;
            let trace = blob_trace(alloc, &bytes)?;
            holds(
                is_traced(alloc, row, spans, &trace)?,
                "a byte in no span changes the answer",
            )?;
        }
    }
    Ok(())
}

// The largest capacity that a trace of so many spans may have. A `Vec` that is not empty has a capacity of at least four.
fn most_capacity(spans: usize) -> usize {
    if spans == 0 { 0 } else { spans.max(4) }
}

// How often memory is allocated for so many spans.
fn allocations(spans: usize) -> u64 {
    if spans == 0 { 0 } else { 1 }
}

// The allocation for the spans fails. Then nothing stays allocated, and the next call has the trace.
fn check_allocations(alloc: Global, row: &Row<'_>, spans: &[Span]) -> Result<(), Wrong> {
    let allocations = allocations(spans.len());
    for turn in 0..allocations {
        let memory = Refusing::new(alloc, turn);
        let refused = blob_trace(&memory, &row.bytes).is_err();
        let left = memory.out();
        holds(
            refused && memory.has_refused() && left == 0,
            "memory that is refused",
        )?;
        let trace = blob_trace(&memory, &row.bytes)?;
        let same = is_traced(alloc, row, spans, &trace)?;
        holds(
            same && memory.out() == 1,
            "a trace after an allocation that failed",
        )?;
    }
    let memory = Refusing::new(alloc, allocations);
    let trace = blob_trace(&memory, &row.bytes)?;
    let same = is_traced(alloc, row, spans, &trace)?;
    holds(
        same && !memory.has_refused(),
        "memory that is allocated more often",
    )
}
