//! Texts within an input: bytes up to one that ends them.
ghost use Rattle.std.specs.Prelude.{◌≡◌, ◌+◌, ◌++◌, ◌≤◌, [], ◌∷◌, not, true, false, None, length, take, drop, IfSome, IsTrue};
ghost use Rattle.std.specs.List.{list_any, position, position_or_len};
ghost use Rattle.std.specs.Char.{is_ascii_whitespace};
ghost use Rattle.imagesize_source.specs.Text.{front_through, has_begun, is_ended, text_front};

use crate::part::eight_at;
use crate::search::first_of;

// Eight spaces as a number.
const SPACES: u64 = 0x2020_2020_2020_2020;

/// A text, by what ends it. If nothing ends it, it goes on to the end of the input or of the buffer.
#[derive(Clone, Copy, Debug, PartialEq, Eq)]
pub enum Text {
    /// The bytes up to a delimiter, and the delimiter.
    Line { delimiter: u8 },
    /// ASCII white space (20, 09, 0A, 0C and 0D), then a word, then one byte of white space.
    Word,
}

/// How many bytes the text at the front of the bytes has.
#[inline]
#[tactic(auto, using(crate::proofs::Texts::fronts, crate::proofs::Texts::front_all))]
pub fn text_length(text: Text, bytes: &[u8]) -> usize
    ensures length { result ≡ length (text_front text bytes.now) }
    ensures within { result ≤ length bytes.now }
{
    match ended_length(text, bytes) {
        Some(length) => length,
        None => bytes.len(),
    }
}

/// How many bytes the text at the front of the bytes has, with the byte that ends it. `None` if none of the bytes ends it.
///
/// A caller that needs the length and whether the text is ended searches the bytes once.
#[inline]
pub fn ended_length(text: Text, bytes: &[u8]) -> Option<usize>
    ensures ended { IfSome result (λ _. is_ended text bytes.now ≡ true) }
    ensures length { IfSome result (λ n. n ≡ length (text_front text bytes.now)) }
    ensures open { result ≡ None → is_ended text bytes.now ≡ false }
{
    match text {
        Text::Line { delimiter } => line_length(delimiter, bytes),
        Text::Word => word_length(bytes),
    }
}

/// How many bytes of `rest` belong to a text that begins with `first`, with the byte that ends it. `None` if no byte of `rest` ends it.
///
/// The bytes of `first` do not end it, and are not searched.
#[inline]
pub fn ended_behind(text: Text, first: &[u8], rest: &[u8]) -> Option<usize>
    requires { is_ended text first.now ≡ false }
    ensures ended { IfSome result (λ _. is_ended text (first.now ++ rest.now) ≡ true) }
    ensures within { IfSome result (λ n. n ≤ length rest.now) }
    ensures length { IfSome result (λ n. length first.now + n ≡ length (text_front text (first.now ++ rest.now))) }
    ensures open { result ≡ None → is_ended text (first.now ++ rest.now) ≡ false }
{
    match text {
        Text::Line { delimiter } => line_length(delimiter, rest),
        Text::Word if has_begun(first) => through_white(rest),
        Text::Word => word_length(rest),
    }
}

/// Whether a word has begun in these bytes, which do not end it. If it has, the last of them is a byte of the word.
#[inline(always)]
#[tactic(auto, using(crate::proofs::Unended::begun_at))]
pub fn has_begun(bytes: &[u8]) -> bool
    requires { is_ended Text.Word bytes.now ≡ false }
    ensures { result ≡ has_begun bytes.now }
{
    let count = bytes.len();
    count > 0 && !bytes[count - 1].is_ascii_whitespace()
}

/// Whether neither the kept bytes nor the chunk after them end the text. The first `searched` kept bytes do not.
#[inline(always)]
pub fn is_pending(text: Text, searched: usize, kept: &[u8], chunk: &[u8]) -> bool
    requires within { searched ≤ length kept.now }
    requires unended { is_ended text (take searched kept.now) ≡ false }
    ensures { result ≡ not (is_ended text (kept.now ++ chunk.now)) }
{
    if searched < kept.len() && !stays_pending(text, &kept[..searched], &kept[searched..]) {
        return false;
    }
    stays_pending(text, kept, chunk)
}

// Whether a text that the first bytes do not end is not ended by those after them either.
#[inline]
#[tactic(auto, using(crate::proofs::Unended::line_on))]
fn stays_pending(text: Text, first: &[u8], rest: &[u8]) -> bool
    requires { is_ended text first.now ≡ false }
    ensures { result ≡ not (is_ended text (first.now ++ rest.now)) }
{
    match text {
        Text::Line { .. } => !is_closed(text, rest),
        Text::Word => word_stays_pending(first, rest),
    }
}

// Whether a word that the first bytes do not end is not ended by those after them either.
#[inline]
#[tactic(auto, using(crate::proofs::Unended::word_on))]
fn word_stays_pending(first: &[u8], rest: &[u8]) -> bool
    requires { is_ended Text.Word first.now ≡ false }
    ensures { result ≡ not (is_ended Text.Word (first.now ++ rest.now)) }
{
    if has_begun(first) {
        return !has_white(rest);
    }
    !is_closed(Text::Word, rest)
}

// Whether one of the bytes is white space.
#[inline(always)]
fn has_white(bytes: &[u8]) -> bool
    ensures { result ≡ list_any is_ascii_whitespace bytes.now }
{
    bytes.iter().any(|byte| byte.is_ascii_whitespace())
}

// Whether one of the bytes ends the text at their front.
#[inline(always)]
fn is_closed(text: Text, bytes: &[u8]) -> bool
    ensures { result ≡ is_ended text bytes.now }
{
    // A single byte needs no search.
    if let (Text::Line { delimiter }, [byte]) = (text, bytes) {
        return ends_line(delimiter, *byte);
    }
    match ended_length(text, bytes) {
        Some(_) => true,
        None => false,
    }
}

// Whether a byte ends the line that it is the first byte of.
#[inline(always)]
#[tactic(auto, unfolding(crate::specs::Text::is_ended))]
fn ends_line(delimiter: u8, byte: u8) -> bool
    ensures { result ≡ is_ended (Text.Line delimiter) (byte ∷ []) }
{
    byte == delimiter
}

// How many bytes there are up to and with the first white space, if it is there.
#[inline(always)]
#[tactic(auto, using(crate::proofs::TextEnds::any_found))]
fn through_white(bytes: &[u8]) -> Option<usize>
    ensures ended { IfSome result (λ _. list_any is_ascii_whitespace bytes.now ≡ true) }
    ensures length { IfSome result (λ n. n ≡ length (front_through is_ascii_whitespace bytes.now)) }
    ensures open { result ≡ None → list_any is_ascii_whitespace bytes.now ≡ false }
{
    match first_white(bytes) {
        Some(white) => Some(white + 1),
        None => None,
    }
}

// How many bytes there are up to and with the delimiter, if it is there.
#[inline(always)]
#[tactic(auto, using(crate::proofs::TextEnds::lines), unfolding(crate::specs::Text::is_ended))]
fn line_length(delimiter: u8, bytes: &[u8]) -> Option<usize>
    ensures ended { IfSome result (λ _. is_ended (Text.Line delimiter) bytes.now ≡ true) }
    ensures length { IfSome result (λ n. n ≡ length (text_front (Text.Line delimiter) bytes.now)) }
    ensures open { result ≡ None → is_ended (Text.Line delimiter) bytes.now ≡ false }
{
    match first_of(delimiter, bytes) {
        Some(index) => Some(index + 1),
        None => None,
    }
}

// How many bytes there are up to and with the white space that ends the first word, if it is there.
#[inline]
#[tactic(auto, using(crate::proofs::TextEnds::words), unfolding(crate::specs::Text::is_ended))]
fn word_length(bytes: &[u8]) -> Option<usize>
    ensures ended { IfSome result (λ _. is_ended Text.Word bytes.now ≡ true) }
    ensures length { IfSome result (λ n. n ≡ length (text_front Text.Word bytes.now)) }
    ensures open { result ≡ None → is_ended Text.Word bytes.now ≡ false }
{
    let Some(start) = first_of_word(bytes) else {
        return None;
    };
    match first_white(&bytes[start..]) {
        Some(index) => Some(start + index + 1),
        None => None,
    }
}

// The index of the first byte that is not white space. Most words begin with the first byte.
#[inline(always)]
fn first_of_word(bytes: &[u8]) -> Option<usize>
    ensures { result ≡ position (λ b. not (is_ascii_whitespace b)) bytes.now }
{
    match bytes {
        [first, ..] if !first.is_ascii_whitespace() => Some(0),
        _ => first_behind_white(bytes),
    }
}

// The same, for a word that comes after white space. Spaces are passed over eight at a time: byte by byte, each takes twelve
// instructions. Not inlined, since the words that begin at once are then read faster.
#[inline(never)]
fn first_behind_white(bytes: &[u8]) -> Option<usize>
    ensures { result ≡ position (λ b. not (is_ascii_whitespace b)) bytes.now }
{
    let mut index = 0;
    while bytes.len() - index >= 8 && are_spaces(bytes, index) {
        index += 8;
    }
    let count = first_not_white(&bytes[index..])?;
    Some(index + count)
}

// Whether the eight bytes from an index on are spaces.
#[inline(always)]
fn are_spaces(bytes: &[u8], index: usize) -> bool
    requires { index + 8 ≤ length bytes.now }
    ensures { IsTrue result → position_or_len (λ b. not (is_ascii_whitespace b)) (take 8 (drop index bytes.now)) ≡ 8 }
{
    eight_at(bytes, index) == SPACES
}

#[inline(always)]
fn first_not_white(bytes: &[u8]) -> Option<usize>
    ensures { result ≡ position (λ b. not (is_ascii_whitespace b)) bytes.now }
{
    bytes.iter().position(|byte| !byte.is_ascii_whitespace())
}

#[inline]
fn first_white(bytes: &[u8]) -> Option<usize>
    ensures { result ≡ position is_ascii_whitespace bytes.now }
{
    bytes.iter().position(|byte| byte.is_ascii_whitespace())
}
