//! Types and sizes of inputs whose bytes come in pieces.
ghost use Rattle.std.specs.Prelude.{◌<◌};

use super::parts::Both;
use super::{is_answer, is_kind};
use crate::table::{Row, Wrong, holds};
use imagesize::{ImageResult, ImageSize, blob_size, image_type};
use imagesize_stream::StreamProbe;
use std::alloc::{AllocError, Global};

// The greatest length in bytes of an input each front of which is probed.
const SMALL: usize = 200;

// What a stream gives for an input in pieces of this many bytes.
fn probe(input: &[u8], piece: usize, total: Option<u64>) -> Both
    requires { 0 < piece }
{
    let mut probe = StreamProbe::new(total);
    for chunk in input.chunks(piece) {
        if let Some(answer) = probe.push(chunk) {
            return answer;
        }
    }
    probe.finish()
}

// The result of an input in pieces of this many bytes is that of the row, whether or not its length is told.
fn check_pieces_of(alloc: Global, row: &Row<'_>, piece: usize) -> Result<(), Wrong>
    requires { 0 < piece }
{
    for total in [None, Some(row.bytes.len() as u64)] {
        let (kind, answer) = probe(&row.bytes, piece, total);
        holds(is_kind(alloc, row, kind)?, "the type from a stream")?;
        holds(is_answer(alloc, row, &answer)?, "the size from a stream")?;
    }
    Ok(())
}

/// An input has its result in pieces of any length.
pub fn check_stream(alloc: Global, row: &Row<'_>) -> Result<(), Wrong> {
    for piece in [1usize, 2, 3, 7, 131, 132, 133, 4096, 100_000] {
        check_pieces_of(alloc, row, piece.max(1))?;
    }
    if row.bytes.len() <= SMALL {
        check_fronts(alloc, row)?;
    }
    Ok(())
}

/// Whether two sizes are the same, or two errors have the same text.
pub fn is_same(
    alloc: Global,
    one: &ImageResult<ImageSize>,
    other: &ImageResult<ImageSize>,
) -> Result<bool, AllocError> {
    match (one, other) {
        (Ok(one), Ok(other)) => Ok(one == other),
        (Err(one), Err(other)) => {
            Ok(one.to_string(alloc)?.as_str() == other.to_string(alloc)?.as_str())
        }
        _ => Ok(false),
    }
}

// A stream that ends after some bytes of an input has the result of a slice of these bytes.
fn check_fronts(alloc: Global, row: &Row<'_>) -> Result<(), Wrong> {
    for end in 0..=row.bytes.len() {
        let front = &row.bytes[..end];
        let (kind, answer) = probe(front, 5, None);
        holds(
            kind == image_type(front).ok(),
            "the type from a stream that ends",
        )?;
        holds(
            is_same(alloc, &answer, &blob_size(front))?,
            "the size from a stream that ends",
        )?;
    }
    Ok(())
}
