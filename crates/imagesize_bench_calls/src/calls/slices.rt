//! Calls over all bytes in memory.
//!
//! Each call is in a function of its own, which is not inlined. Else a function would zero the locals of all calls at once.

use crate::results::{Results, add_found_type};
use imagesize::{Span, blob_size, blob_spans, blob_trace, image_type};
use std::alloc::{AllocError, Global};

/// A call over a slice.
#[derive(Clone, Copy)]
pub enum SliceCall {
    /// `image_type`.
    Type,
    /// `blob_size`.
    Size,
    /// `blob_spans` into a buffer.
    Spans,
    /// `blob_spans` into no buffer, which only counts the spans.
    Count,
    /// `blob_trace`.
    Trace,
    /// `blob_size` of `imagesize_png`.
    PngSize,
}

/// Makes a call on these bytes, and adds its result.
pub fn make<R: Results>(
    alloc: Global,
    call: SliceCall,
    data: &[u8],
    buffer: &mut [Span],
    results: &mut R,
) -> Result<(), AllocError> {
    match call {
        SliceCall::Type => add_type(data, results),
        SliceCall::Size => add_size(data, results),
        SliceCall::Spans => add_spans(data, buffer, results),
        SliceCall::Count => add_spans(data, &mut [], results),
        SliceCall::Trace => return add_trace(alloc, data, results),
        SliceCall::PngSize => add_png_size(data, results),
    }
    Ok(())
}

#[inline(never)]
fn add_type<R: Results>(data: &[u8], results: &mut R) {
    add_found_type(image_type(data), results);
}

#[inline(never)]
fn add_size<R: Results>(data: &[u8], results: &mut R) {
    results.add_size(blob_size(data));
}

#[inline(never)]
fn add_spans<R: Results>(data: &[u8], buffer: &mut [Span], results: &mut R) {
    let count = blob_spans(data, buffer);
    results.add_spans(count as u64, &buffer[..count.min(buffer.len())]);
}

#[inline(never)]
fn add_trace<R: Results>(alloc: Global, data: &[u8], results: &mut R) -> Result<(), AllocError> {
    let trace = blob_trace(alloc, data)?;
    results.add_type(trace.kind);
    results.add_size(trace.answer);
    results.add_spans(trace.spans.len() as u64, &trace.spans);
    Ok(())
}

#[inline(never)]
fn add_png_size<R: Results>(data: &[u8], results: &mut R) {
    results.add_size(imagesize_png::blob_size(data));
}
