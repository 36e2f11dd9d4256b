//! Radiance RGBE: "Picture File Format" in the Radiance reference manual.
ghost use Rattle.std.specs.Prelude.{◌≡◌, ◌∷◌, length, option_map, IfOk, IfSome, Some};
ghost use Rattle.imagesize_source.specs.Paying.{Nears};
ghost use Rattle.imagesize_source.specs.Reading.{map_answer};
ghost use Rattle.imagesize_source.specs.State.{Runs, Follows};
ghost use Rattle.imagesize_source.specs.Walk.{said_at};
ghost use Rattle.imagesize_texts.specs.Contents.{words};
ghost use Rattle.imagesize_texts.specs.Hdr.{hdr, hdr_identifier, hdr_open, hdr_step, is_hdr, is_identifier, is_resolution, second_and_fourth};

use crate::util::{number, read_line_capped};
use imagesize_source::Halt;
use imagesize_source::source::Source;
use imagesize_source::walk::{Found, RecordResult, Records, Start, walk};
use imagesize_types::size::{ImageSize, size_if_known};

/// A line after the first has at most this many bytes, including its line feed.
pub const LINE_ROOM: usize = 256;

/// Whether the input begins with a line that is one of the two identifiers.
#[inline(always)]
#[tactic(auto, unfolding(crate::specs::Hdr::is_hdr))]
pub fn matches(head: &[u8; 12]) -> bool
    ensures { result ≡ is_hdr head.now }
{
    matches!(
        head,
        [
            b'#',
            b'?',
            b'R',
            b'A',
            b'D',
            b'I',
            b'A',
            b'N',
            b'C',
            b'E',
            b'\n',
            ..
        ]
    ) || matches!(head, [b'#', b'?', b'R', b'G', b'B', b'E', b'\n', ..])
}

/// The height and the width in pixels: the second and the fourth word of the first line that begins with an axis.
///
/// # Errors
///
/// - `InvalidHdrIdentifier`: the first line begins with no identifier.
/// - `InvalidHdrDimensionsLine`: the line with the size does not have four words.
/// - `HdrDimensionsNotFound`: the second or the fourth word is not a number.
/// - `NoDelimiter`: a line is too long.
/// - `NotUtf8`: a line is not UTF-8.
/// - `Ended`: the input ends before the size.
#[tactic(auto, using(imagesize_source::proofs::Runs::steps))]
pub fn size<S: Source>(source: &mut S) -> Result<ImageSize, Halt>
    ensures { Runs (S.state source.old) (S.state source.new) result
        (hdr (S.state source.old).held.input) }
{
    let start = open(source)?;
    let lines = Lines {
        buffer: [0; LINE_ROOM],
    };
    walk(lines, source, start.offset)
}

/// Reads the first line, which must begin with an identifier. Returns the offset of the next line.
#[inline(always)]
#[tactic(auto, using(imagesize_source::proofs::Runs::steps, imagesize_source::proofs::Layouts::binding))]
pub fn open<S: Source>(source: &mut S) -> Result<Start<()>, Halt>
    ensures { Follows (S.state source.old) (S.state source.new) result hdr_open }
{
    let offset = read_identifier(source)?;
    Ok(Start {
        records: (),
        offset,
    })
}

/// Reads the first line, which must begin with an identifier, and returns its length in bytes with the line feed.
#[tactic(auto, using(imagesize_source::proofs::Runs::steps))]
pub fn read_identifier<S: Source>(source: &mut S) -> Result<u64, Halt>
    ensures { Follows (S.state source.old) (S.state source.new) result hdr_identifier }
{
    let mut buffer = [0u8; 11];
    let line = read_line_capped(source, 0, b'\n', &mut buffer)?;
    if !is_identifier(line) {
        return Err(Halt::InvalidHdrIdentifier);
    }
    Ok(line.len() as u64 + 1)
}

/// The lines after the first.
#[derive(Drop)]
pub struct Lines {
    /// A line is read into this buffer.
    pub buffer: [u8; LINE_ROOM],
}

impl Records for Lines {
    type State = ();

    type Answer = ImageSize;

    ghost step = { hdr_step };

    ghost state = { λ _. tt };

    // Reads the line at an offset.
    #[inline(always)]
    fn read_record<S: Source>(&mut self, source: &mut S, offset: u64) -> RecordResult<ImageSize> {
        read_line(source, offset, &mut self.buffer)
    }

    // The input ends before the size.
    #[inline(always)]
    fn at_end(&self) -> Result<ImageSize, Halt> {
        Err(Halt::Ended)
    }
}

/// Reads the line at an offset into the caller's buffer of 256 bytes. Returns the size from the line that has it, or the length
/// of another line in bytes.
#[inline(always)]
#[tactic(auto, using(imagesize_source::proofs::Runs::steps))]
pub fn read_line<S: Source>(
    source: &mut S,
    offset: u64,
    buffer: &mut [u8],
) -> RecordResult<ImageSize>
    requires { length buffer.old ≡ 256 }
    ensures nears { IfOk result (λ found. Nears (S.state source.old) (S.state source.new) offset
        (said_at {S = Unit {0}} tt offset found)) }
    ensures runs { Follows (S.state source.old) (S.state source.new) (map_answer (said_at {S = Unit {0}} tt offset) result)
        (hdr_step tt offset) }
{
    let line = read_line_capped(source, offset, b'\n', buffer)?;
    if is_resolution(line) {
        let Some((height, width)) = lengths(line) else {
            return Err(Halt::InvalidHdrDimensionsLine);
        };
        let size = size_if_known(number(width), number(height));
        let size = size.ok_or(Halt::HdrDimensionsNotFound)?;
        return Ok(Found::Answer(size));
    }
    Ok(Found::Other {
        length: line.len() as u64 + 1,
    })
}

// Whether a line begins with an identifier of the format.
#[inline]
#[tactic(auto, unfolding(crate::specs::Hdr::is_identifier))]
fn is_identifier(text: &str) -> bool
    ensures { result ≡ is_identifier text.now }
{
    matches!(
        text.as_bytes(),
        [
            b'#',
            b'?',
            b'R',
            b'A',
            b'D',
            b'I',
            b'A',
            b'N',
            b'C',
            b'E',
            ..
        ]
    ) || matches!(text.as_bytes(), [b'#', b'?', b'R', b'G', b'B', b'E', ..])
}

// Whether a line begins with an axis and its direction.
#[inline]
#[tactic(auto, unfolding(crate::specs::Hdr::is_resolution))]
fn is_resolution(text: &str) -> bool
    ensures { result ≡ is_resolution text.now }
{
    matches!(text.as_bytes(), [b'-' | b'+', b'X' | b'Y', ..])
}

// The second and the fourth word, if there are exactly four. It is inlined, as the result of a call is zeroed for each line.
#[inline(always)]
fn lengths(text: &str) -> Option<(&str, &str)>
    ensures { option_map (λ lengths. (lengths.0.now, lengths.1.now)) result ≡ second_and_fourth (words text.now) }
{
    match plain_lengths(text) {
        Some(lengths) => Some(lengths),
        None => split_lengths(text),
    }
}

// The second and the fourth of four words of visible characters, with one space between two. `None` for any other text.
// Nearly every resolution is written so, and `split_whitespace` takes 500 instructions for it.
#[inline(always)]
fn plain_lengths(text: &str) -> Option<(&str, &str)>
    ensures { IfSome result (λ lengths. second_and_fourth (words text.now) ≡ Some (lengths.0.now, lengths.1.now)) }
{
    let (_, rest) = plain_word(text)?;
    let (height, rest) = plain_word(rest)?;
    let (_, rest) = plain_word(rest)?;
    let (width, rest) = plain_word(rest)?;
    if !rest.is_empty() {
        return None;
    }
    Some((height, width))
}

// The second and the fourth word of any text, if there are exactly four.
#[inline(never)]
fn split_lengths(text: &str) -> Option<(&str, &str)>
    ensures { option_map (λ lengths. (lengths.0.now, lengths.1.now)) result ≡ second_and_fourth (words text.now) }
{
    let mut words = text.split_whitespace();
    words.next()?;
    let height = words.next()?;
    words.next()?;
    let width = words.next()?;
    match words.next() {
        Some(_) => None,
        None => Some((height, width)),
    }
}

// The first word and the text after it. `None` unless the word has visible characters only. Before it may be one space, and
// after it a space or nothing.
#[inline(always)]
fn plain_word(text: &str) -> Option<(&str, &str)>
    ensures { IfSome result (λ parts. words text.now ≡ parts.0.now ∷ words parts.1.now) }
{
    let text = after_space(text);
    let bytes = text.as_bytes();
    let mut end = 0;
    while end < bytes.len() && bytes[end].is_ascii_graphic() {
        end += 1;
    }
    if end == 0 || (end < bytes.len() && bytes[end] != b' ') {
        return None;
    }
    Some(text.split_at(end))
}

// The text after its first character, if that is a space.
#[inline(always)]
fn after_space(text: &str) -> &str
    ensures { words result.now ≡ words text.now }
{
    match text.as_bytes() {
        [first, ..] if *first == b' ' => &text[1..],
        _ => text,
    }
}
