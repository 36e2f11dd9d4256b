//! Calls over parts.

use crate::results::{Results, add_found_type};
use imagesize::{ImageType, PartsAnswer, Span, parts_probe, parts_type};
use imagesize_png::parts_size;
use imagesize_stream::PartsProbe;
use std::alloc::AllocError;

// How many spans the list of a call over parts may have.
const MOST: usize = 64;

/// Passes bytes to a `PartsProbe` until it has a result: from the offset of each requested span, at most so many bytes. If
/// `most` is `usize::MAX`, these are the bytes of the span.
#[inline(never)]
pub fn rounds<R: Results>(data: &[u8], most: usize, results: &mut R) {
    let mut probe = PartsProbe::new(data.len() as u64);
    for _ in 0..=data.len() {
        match probe.answer() {
            PartsAnswer::Found((image, size)) => {
                results.add_type(image);
                results.add_size(size);
                return;
            }
            PartsAnswer::Wanted(span) => {
                results.add_span(span);
                let length = if most == usize::MAX {
                    span.len as usize
                } else {
                    most
                };
                probe.supply(span.start, cut(data, span.start as usize, length));
            }
        }
    }
}

/// Passes all bytes to `parts_probe` as one part, and adds its result.
#[inline(never)]
pub fn whole<R: Results>(data: &[u8], results: &mut R) {
    let span = all(data);
    match parts_probe(data, &[span], span.len) {
        PartsAnswer::Found((image, size)) => {
            results.add_type(image);
            results.add_size(size);
        }
        PartsAnswer::Wanted(span) => results.add_span(span),
    }
}

/// Passes all bytes to `parts_type` as one part, and adds its result.
#[inline(never)]
pub fn whole_type<R: Results>(data: &[u8], results: &mut R) {
    let span = all(data);
    match parts_type(data, &[span], span.len) {
        PartsAnswer::Found(found) => add_found_type(found, results),
        PartsAnswer::Wanted(span) => results.add_span(span),
    }
}

/// Passes all bytes to `ImageType::parts_size` as one part, by the type that they have, and adds its result.
#[inline(never)]
pub fn whole_by_type<R: Results>(data: &[u8], image: Option<ImageType>, results: &mut R) {
    let Some(image) = image else {
        return;
    };
    let span = all(data);
    match image.parts_size(data, &[span], span.len) {
        PartsAnswer::Found(size) => results.add_size(size),
        PartsAnswer::Wanted(span) => results.add_span(span),
    }
}

/// Passes all bytes to `parts_size` of `imagesize_png` as one part, and adds its result.
#[inline(never)]
pub fn whole_png<R: Results>(data: &[u8], results: &mut R) {
    let span = all(data);
    match parts_size(data, &[span], span.len) {
        PartsAnswer::Found(size) => results.add_size(size),
        PartsAnswer::Wanted(span) => results.add_span(span),
    }
}

/// Passes to `parts_probe`, round by round, the spans that were requested so far. It stops after some spans without a result.
#[inline(never)]
pub fn list<R: Results>(
    data: &[u8],
    spans: &mut [Span],
    bytes: &mut Vec<u8>,
    results: &mut R,
) -> Result<(), AllocError> {
    bytes.clear();
    for count in 0..spans.len().min(MOST) {
        match parts_probe(bytes, &spans[..count], data.len() as u64) {
            PartsAnswer::Found((image, size)) => {
                results.add_type(image);
                results.add_size(size);
                return Ok(());
            }
            PartsAnswer::Wanted(span) => {
                results.add_span(span);
                spans[count] = span;
                bytes.extend_from_slice(cut(data, span.start as usize, span.len as usize))?;
            }
        }
    }
    Ok(())
}

// The span of all bytes.
fn all(data: &[u8]) -> Span {
    Span {
        start: 0,
        len: data.len() as u64,
    }
}

// At most so many bytes from an offset on.
fn cut(data: &[u8], start: usize, length: usize) -> &[u8] {
    let rest = &data[start.min(data.len())..];
    &rest[..length.min(rest.len())]
}
