//! Types and sizes from parts of inputs, which are fetched as they are requested.

use super::{has, is_answer, is_kind, is_type};
use crate::table::{Row, Wrong, holds};
use imagesize::{
    ImageResult, ImageSize, ImageType, PartsAnswer, Span, image_type, parts_probe, parts_type,
};
use std::alloc::{AllocError, Global};

/// How a caller fetches what is requested.
#[derive(Clone, Copy, PartialEq, Eq)]
pub enum How {
    /// the requested span
    Exactly,
    /// its first byte
    OneByte,
    /// the blocks that it touches; a block has one byte more than this number, which is one less than a power of two
    Blocks(u64),
    /// more on both sides of it, so that parts overlap, and every second part is put before the others
    Shuffled,
}

/// The part that is fetched.
pub fn part_for(how: How, wanted: &Span, whole: u64) -> Span {
    let end = wanted.start.saturating_add(wanted.len);
    let (start, end) = match how {
        How::Exactly => (wanted.start, end),
        How::OneByte => (wanted.start, wanted.start.saturating_add(1)),
        How::Blocks(last) => (wanted.start & !last, end.saturating_add(last) & !last),
        How::Shuffled => (wanted.start.saturating_sub(3), end.saturating_add(5)),
    };
    let len = end.min(whole).saturating_sub(start);
    Span { start, len }
}

/// Type and size, if both are requested.
pub type Both = (Option<ImageType>, ImageResult<ImageSize>);

/// What is requested from the parts of an input.
pub trait Asked {
    /// The result.
    type Answer: Drop;

    /// Makes the call for these parts of an input of this length.
    fn ask(&self, bytes: &[u8], parts: &[Span], whole: u64) -> PartsAnswer<Self::Answer>;
}

/// Requests type and size.
#[derive(Clone, Copy)]
pub struct TypeAndSize;

impl Asked for TypeAndSize {
    type Answer = Both;

    fn ask(&self, bytes: &[u8], parts: &[Span], whole: u64) -> PartsAnswer<Both> {
        parts_probe(bytes, parts, whole)
    }
}

// Requests the type alone.
#[derive(Clone, Copy)]
struct TypeAlone;

impl Asked for TypeAlone {
    type Answer = ImageResult<ImageType>;

    fn ask(&self, bytes: &[u8], parts: &[Span], whole: u64) -> PartsAnswer<ImageResult<ImageType>> {
        parts_type(bytes, parts, whole)
    }
}

// Requests the size as a type.
impl Asked for ImageType {
    type Answer = ImageResult<ImageSize>;

    fn ask(&self, bytes: &[u8], parts: &[Span], whole: u64) -> PartsAnswer<ImageResult<ImageSize>> {
        self.parts_size(bytes, parts, whole)
    }
}

/// A result, and what was fetched until it was found.
#[derive(Drop)]
pub struct Fetched<T> {
    /// How many parts.
    pub rounds: usize,
    /// How many bytes.
    pub bytes: usize,
    /// The result.
    pub found: T,
}

// The bytes of an input in these parts, one after another.
fn bytes_in(alloc: Global, input: &[u8], parts: &[Span]) -> Result<Vec<u8>, AllocError> {
    let mut bytes = Vec::new(alloc);
    for part in parts {
        let start = (part.start as usize).min(input.len());
        let rest = &input[start..];
        bytes.extend_from_slice(&rest[..rest.len().min(part.len as usize)])?;
    }
    Ok(bytes)
}

/// Fetches what is requested, starting without parts, until there is a result.
pub fn fetch<A: Asked>(
    alloc: Global,
    asked: &A,
    input: &[u8],
    how: How,
) -> Result<Fetched<A::Answer>, Wrong> {
    let whole = input.len() as u64;
    let mut parts: Vec<Span> = Vec::new(alloc);
    for rounds in 0..10_000 {
        let bytes = bytes_in(alloc, input, &parts)?;
        match asked.ask(&bytes, &parts, whole) {
            PartsAnswer::Found(found) => {
                return Ok(Fetched {
                    rounds,
                    bytes: bytes.len(),
                    found,
                });
            }
            PartsAnswer::Wanted(wanted) => {
                let inside = wanted.len > 0 && wanted.len <= whole.saturating_sub(wanted.start);
                holds(inside, "a part beyond the end is wanted")?;
                holds(!has(&parts, wanted.start), "a byte is wanted again")?;
                let first = how == How::Shuffled && rounds % 2 == 0;
                let index = if first { 0 } else { parts.len() };
                parts.insert(index, part_for(how, &wanted, whole))?;
            }
        }
    }
    Err(Wrong::new("parts without end are wanted"))
}

// The greatest length in bytes of an input with few records.
const SMALL: usize = 200;

// The most rounds if exactly the requested span is fetched, and if only its first byte is.
fn most_rounds(kind: Option<ImageType>) -> (usize, usize) {
    match kind {
        Some(ImageType::Gif | ImageType::Qoi | ImageType::Aseprite) => (1, 12),
        Some(
            ImageType::Astc
            | ImageType::Farbfeld
            | ImageType::Etc2(_)
            | ImageType::Eac(_)
            | ImageType::Atc(_),
        ) => (3, 16),
        Some(ImageType::Jpeg) => (5, 20),
        Some(ImageType::Tiff) => (7, 64),
        Some(ImageType::Ico | ImageType::Ilbm) => (5, 32),
        Some(ImageType::Heif(_)) => (10, 77),
        Some(ImageType::Jxl) => (7, 40),
        Some(ImageType::Exr) => (5, 87),
        Some(ImageType::Pnm | ImageType::Hdr) => (2, 26),
        _ => (5, 34),
    }
}

// How many bytes the reads of these spans see.
fn seen_of(spans: &[Span]) -> usize {
    let mut seen = 0u64;
    for span in spans {
        seen = span.len.saturating_add(seen);
    }
    seen as usize
}

// An input has its result after at most `most` rounds.
fn check_rounds(alloc: Global, row: &Row<'_>, how: How, most: usize) -> Result<(), Wrong> {
    let fetched = fetch(alloc, &TypeAndSize, &row.bytes, how)?;
    let (kind, answer) = &fetched.found;
    holds(is_kind(alloc, row, *kind)?, "the type by parts")?;
    holds(is_answer(alloc, row, answer)?, "the size by parts")?;
    if fetched.rounds > most {
        return Err(Wrong {
            what: "more rounds than are stated",
            count: Some(fetched.rounds as u64),
        });
    }
    Ok(())
}

// The most rounds for a row. By its type they are known for small inputs only, and a large one takes too long byte by byte.
fn rounds_of(row: &Row<'_>) -> (usize, usize) {
    match &row.spans {
        Some(spans) if row.bytes.len() <= SMALL => {
            let (exactly, one_by_one) = most_rounds(image_type(&row.bytes).ok());
            (exactly.min(spans.len()), one_by_one.min(seen_of(spans)))
        }
        Some(spans) => (spans.len(), seen_of(spans)),
        None => (row.bytes.len(), row.bytes.len()),
    }
}

/// An input has its result, however its parts are fetched.
pub fn check_parts(alloc: Global, row: &Row<'_>) -> Result<(), Wrong> {
    let (exactly, one_by_one) = rounds_of(row);
    let blocks = |of: usize| row.bytes.len().div_ceil(of);
    check_rounds(alloc, row, How::Exactly, exactly)?;
    if row.bytes.len() <= SMALL {
        check_rounds(alloc, row, How::OneByte, one_by_one)?;
        check_alone(alloc, row, one_by_one)?;
    }
    check_rounds(alloc, row, How::Blocks(15), blocks(16))?;
    check_rounds(alloc, row, How::Blocks(511), blocks(512))?;
    check_rounds(alloc, row, How::Blocks(4095), blocks(4096))?;
    check_rounds(alloc, row, How::Shuffled, exactly)
}

// The type alone needs no more bytes than type and size, and neither does the size as that type.
fn check_alone(alloc: Global, row: &Row<'_>, most: usize) -> Result<(), Wrong> {
    let fetched = fetch(alloc, &TypeAlone, &row.bytes, How::OneByte)?;
    holds(
        is_type(alloc, row, &fetched.found)?,
        "the type alone by parts",
    )?;
    holds(fetched.bytes <= most, "bytes beside those of the type")?;
    match fetched.found {
        Ok(kind) => {
            let fetched = fetch(alloc, &kind, &row.bytes, How::OneByte)?;
            holds(
                is_answer(alloc, row, &fetched.found)?,
                "the size by its type, by parts",
            )?;
            holds(fetched.bytes <= most, "bytes beside those of the size")
        }
        Err(_) => Ok(()),
    }
}

/// Except for text formats, a requested span lies whole in a span of the input's trace. For text formats its first byte does.
pub fn check_wanted(alloc: Global, row: &Row<'_>, spans: &[Span]) -> Result<(), Wrong> {
    let is_text = matches!(
        image_type(&row.bytes),
        Ok(ImageType::Exr | ImageType::Pnm | ImageType::Hdr)
    );
    let mut parts: Vec<Span> = Vec::new(alloc);
    for _ in 0..1_000 {
        let bytes = bytes_in(alloc, &row.bytes, &parts)?;
        let PartsAnswer::Wanted(wanted) = parts_probe(&bytes, &parts, row.bytes.len() as u64) else {
            return Ok(());
        };
        let whole = if is_text { 1 } else { wanted.len };
        let end = wanted.start.saturating_add(whole);
        let lies = spans.iter().any(|span| span.start <= wanted.start
            && end <= span.start.saturating_add(span.len));
        holds(lies, "a part that lies in no span is wanted")?;
        parts.push(wanted)?;
    }
    Err(Wrong::new("parts without end are wanted"))
}
