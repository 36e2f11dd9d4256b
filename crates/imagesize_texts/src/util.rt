//! Texts: lines up to a delimiter and words between white space, each with a greatest length in bytes.
ghost use Rattle.std.specs.Prelude.{◌≡◌, ◌+◌, ◌^◌, ◌<◌, ◌≤◌, codes, length, true, IfOk, Err};
ghost use Rattle.imagesize_source.specs.Paying.{Paid};
ghost use Rattle.imagesize_source.specs.Reading.{number_read, map_answer};
ghost use Rattle.imagesize_source.specs.State.{Runs};
ghost use Rattle.imagesize_texts.specs.Contents.{ended_word, is_word_end, line_length, line_text, no_end, number_text, utf8, word_text};
ghost use Rattle.imagesize_texts.specs.Texts.{length_read, line_read, read_word_of, word_read};

use crate::utf8::is_utf8;
use imagesize_source::readings::read_u32;
use imagesize_source::source::Source;
use imagesize_source::{Endian, Halt, Text};

/// A word has fewer bytes than this, including the white space around it.
pub const WORD_ROOM: usize = 1024;

/// A word of an input.
#[derive(Clone, Copy, Debug)]
pub struct Word<'a> {
    /// Its text.
    pub text: &'a str,
    /// The byte of white space that ends it.
    pub ended_by: u8,
    /// Its length in bytes, including the white space before it and the byte that ends it.
    pub taken: usize,
}

/// Reads the text from an offset on up to a delimiter, which must be among as many bytes as the buffer has.
///
/// # Errors
///
/// `NoDelimiter` if none of these bytes is the delimiter, and `Ended` if the input ends before one. `NotUtf8` if the bytes
/// before it are not UTF-8.
#[inline(always)]
pub fn read_line_capped<'a, S: Source>(
    source: &mut S,
    offset: u64,
    delimiter: u8,
    buffer: &'a mut [u8],
) -> Result<&'a str, Halt>
    requires { length buffer.old < 2 ^ 32 }
    ensures bound { IfOk result (λ text. length text.now < length buffer.old) }
    ensures pays { IfOk result (λ text. Paid (S.state source.old) (S.state source.new) offset) }
    ensures runs { Runs (S.state source.old) (S.state source.new)
        (map_answer (λ text. text.now) result)
        (line_read (S.state source.old).held.input delimiter offset (length buffer.old)) }
{
    let most = buffer.len();
    let count = source.read_text(offset, Text::Line { delimiter }, buffer)?;
    line_text(&buffer[..count], delimiter, most)
}

/// The length in bytes of the line at an offset, including its delimiter. Fails like `read_line_capped`, except that the line
/// need not be UTF-8.
#[inline]
pub fn pass_line_capped<S: Source>(
    source: &mut S,
    offset: u64,
    delimiter: u8,
    buffer: &mut [u8],
) -> Result<usize, Halt>
    requires { length buffer.old < 2 ^ 32 }
    ensures bound { IfOk result (λ n. n ≤ length buffer.old) }
    ensures some { IfOk result (λ n. 0 < n) }
    ensures pays { IfOk result (λ n. Paid (S.state source.old) (S.state source.new) offset) }
    ensures runs { Runs (S.state source.old) (S.state source.new) result
        (length_read (S.state source.old).held.input delimiter offset (length buffer.old)) }
{
    let most = buffer.len();
    let count = source.read_text(offset, Text::Line { delimiter }, buffer)?;
    line_length(&buffer[..count], delimiter, most)
}

/// Reads the word from an offset on, after ASCII white space. The white space that ends it must be among the first 1023
/// bytes.
///
/// # Errors
///
/// `NoDelimiter` if 1024 bytes have no such end, `Ended` if the input ends before one, and `NotUtf8` if the word is not
/// UTF-8.
#[inline(always)]
pub fn read_word<'a, S: Source>(
    source: &mut S,
    offset: u64,
    buffer: &'a mut [u8; WORD_ROOM],
) -> Result<Word<'a>, Halt>
    ensures bound { IfOk result (λ word. (0 < word.taken) × (word.taken < 1024)) }
    ensures pays { IfOk result (λ word. Paid (S.state source.old) (S.state source.new) offset) }
    ensures runs { Runs (S.state source.old) (S.state source.new)
        (map_answer (λ word. read_word_of word) result)
        (word_read (S.state source.old).held.input offset) }
{
    let count = source.read_text(offset, Text::Word, buffer)?;
    word_text(&buffer[..count])
}

/// Calls `pass_line_capped` at `offset + distance`. An offset above 2^64 - 1 is past the end of every input.
#[inline]
pub fn pass_line_behind<S: Source>(
    source: &mut S,
    offset: u64,
    distance: u64,
    delimiter: u8,
    buffer: &mut [u8],
) -> Result<usize, Halt>
    requires { length buffer.old < 2 ^ 32 }
    ensures bound { IfOk result (λ n. n ≤ length buffer.old) }
    ensures runs { Runs (S.state source.old) (S.state source.new) result
        (length_read (S.state source.old).held.input delimiter (offset + distance) (length buffer.old)) }
{
    pass_line_capped(source, offset.saturating_add(distance), delimiter, buffer)
}

/// Calls `read_word` at `offset + distance`. An offset above 2^64 - 1 is past the end of every input.
#[inline]
pub fn read_word_behind<'a, S: Source>(
    source: &mut S,
    offset: u64,
    distance: u64,
    buffer: &'a mut [u8; WORD_ROOM],
) -> Result<Word<'a>, Halt>
    ensures { Runs (S.state source.old) (S.state source.new)
        (map_answer (λ word. read_word_of word) result)
        (word_read (S.state source.old).held.input (offset + distance)) }
{
    read_word(source, offset.saturating_add(distance), buffer)
}

/// The number that the four bytes at `offset + distance` encode. An offset above 2^64 - 1 is past the end of every input.
#[inline]
pub fn read_u32_behind<S: Source>(
    source: &mut S,
    offset: u64,
    distance: u64,
    endian: Endian,
) -> Result<u32, Halt>
    ensures { Runs (S.state source.old) (S.state source.new) result
        (number_read (S.state source.old).held.input endian (offset + distance) 4) }
{
    read_u32(source, offset.saturating_add(distance), endian)
}

// The text of a line of at most `most` bytes, without the delimiter that ends it.
#[inline(always)]
#[tactic(auto, unfolding(crate::specs::Contents::line_text))]
fn line_text(bytes: &[u8], delimiter: u8, most: usize) -> Result<&str, Halt>
    requires { most < 2 ^ 32 }
    ensures { map_answer (λ text. text.now) result ≡ line_text delimiter most bytes.now }
{
    match bytes {
        [text @ .., last] if *last == delimiter => text_of_line(text),
        _ => Err(no_end(bytes.len(), most)),
    }
}

// The length in bytes of a line of at most `most` bytes.
#[inline]
#[tactic(auto, unfolding(crate::specs::Contents::line_length))]
fn line_length(bytes: &[u8], delimiter: u8, most: usize) -> Result<usize, Halt>
    requires { most < 2 ^ 32 }
    ensures { result ≡ line_length delimiter most bytes.now }
{
    match bytes {
        [.., last] if *last == delimiter => Ok(bytes.len()),
        _ => Err(no_end(bytes.len(), most)),
    }
}

// The word after white space.
#[inline]
#[tactic(auto, using(crate::proofs::Words::behind_space_is), unfolding(crate::specs::Contents::word_text))]
fn word_text(bytes: &[u8]) -> Result<Word<'_>, Halt>
    ensures { map_answer (λ word. read_word_of word) result ≡ word_text bytes.now }
{
    ended_word(bytes.trim_ascii_start(), bytes.len())
}

// The word at the front of the bytes. With the white space before it, it has `taken` bytes.
#[inline]
#[tactic(auto, unfolding(crate::specs::Contents::ended_word))]
fn ended_word(bytes: &[u8], taken: usize) -> Result<Word<'_>, Halt>
    ensures { map_answer (λ word. read_word_of word) result ≡ ended_word taken bytes.now }
{
    match bytes {
        [text @ .., last] if is_word_end(*last, taken) => Ok(Word {
            text: text_of_word(text)?,
            ended_by: *last,
            taken,
        }),
        _ => Err(no_end(taken, WORD_ROOM)),
    }
}

// Whether a byte ends a word of `taken` bytes.
#[inline]
fn is_word_end(byte: u8, taken: usize) -> bool
    ensures { result ≡ is_word_end byte taken }
{
    byte.is_ascii_whitespace() && taken < WORD_ROOM
}

// Why a text of `count` bytes, which may have at most `most`, has no end.
#[inline]
fn no_end(count: usize, most: usize) -> Halt
    requires { most < 2 ^ 32 }
    ensures { result ≡ no_end most count }
{
    if count == most {
        return Halt::NoDelimiter {
            max_size: most as u32,
        };
    }
    Halt::Ended
}

// The bytes of a word as text. A single `#` needs no check, and no other word can come as often in an input.
#[inline(always)]
fn text_of_word(bytes: &[u8]) -> Result<&str, Halt>
    ensures { map_answer (λ text. text.now) result ≡ utf8 bytes.now }
{
    if is_hash(bytes) {
        return Ok("#");
    }
    text_of(bytes)
}

/// Whether the bytes are a single `#`.
#[inline(always)]
pub fn is_hash(bytes: &[u8]) -> bool
    ensures { result ≡ true → bytes.now ≡ codes "#" }
{
    matches!(bytes, [b'#'])
}

// The bytes of a line as text. An empty line needs no check, and no other line can come as often in an input.
#[inline(always)]
fn text_of_line(bytes: &[u8]) -> Result<&str, Halt>
    ensures { map_answer (λ text. text.now) result ≡ utf8 bytes.now }
{
    if bytes.is_empty() {
        return Ok("");
    }
    text_of(bytes)
}

// The bytes as text, if they are UTF-8.
#[inline(always)]
#[tactic(auto, unfolding(crate::specs::Contents::utf8))]
fn text_of(bytes: &[u8]) -> Result<&str, Halt>
    ensures { map_answer (λ text. text.now) result ≡ utf8 bytes.now }
{
    if !is_utf8(bytes) {
        return Err(Halt::NotUtf8);
    }
    // The bytes are UTF-8, as tested.
    Ok(unsafe { str::from_utf8_unchecked(bytes) })
}

/// The number that a text is: digits, with an optional `+` before them.
#[tactic(auto, using(crate::proofs::Words::parsed))]
pub fn number(text: &str) -> Option<usize>
    ensures { result ≡ number_text text.now }
{
    text.parse().ok()
}
